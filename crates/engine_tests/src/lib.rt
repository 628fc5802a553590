//! Tests of engines over a disk in memory: lists of steps, crashes at each of their device calls, and one that fails.
#![tactic(auto)]

#[cfg(test)]
mod tests;
