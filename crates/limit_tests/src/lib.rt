//! Tests at the limits, and of calls whose answers no other test compares.
#![tactic(auto)]

#[cfg(test)]
mod tests;
