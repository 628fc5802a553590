//! The tests, and what they share.
mod batch_tests;
mod call_tests;
mod device_tests;
mod edges_tests;
mod job_tests;
mod many_tiles_tests;
mod piece_tests;
mod testing;
mod word_tests;
