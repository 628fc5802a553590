//! The tests of engines, and what they share.
mod batch_tests;
mod crash_tests;
mod fault_tests;
mod file_tests;
mod keeping_tests;
mod limit_tests;
mod old_file_tests;
mod step_tests;
mod testing;
