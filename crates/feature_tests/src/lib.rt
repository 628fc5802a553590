//! Tests of features: blocks of them, rows that answer jobs, rings, what is drawn of them, and a strip's boundary with its
//! area.
#![tactic(auto)]

#[cfg(test)]
mod tests;
