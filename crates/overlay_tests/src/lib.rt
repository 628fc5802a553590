//! Tests of the crates from points to versions, by calls that no script reaches, and of a book of versions and threads
//! that call it.
#![tactic(auto)]

#[cfg(test)]
mod tests;
