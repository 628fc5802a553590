//! Tests of a store over a disk in memory.
#![tactic(auto)]

#[cfg(test)]
mod call_tests;
#[cfg(test)]
mod crash_tests;
#[cfg(test)]
mod damage_tests;
#[cfg(test)]
mod limit_tests;
#[cfg(test)]
mod store;
#[cfg(test)]
mod testing;
