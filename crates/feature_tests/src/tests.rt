//! The tests, and what those of blocks share.
mod area_tests;
mod block_tests;
mod refusal_tests;
mod ring_tests;
mod row_tests;
mod step_tests;
mod vectors;
