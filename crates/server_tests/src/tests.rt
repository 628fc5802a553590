//! The tests of the server, and what they share.
mod books;
mod flushing_tests;
mod gate_tests;
mod ports_tests;
mod row_tests;
mod runs;
mod session_tests;
mod store_tests;
mod testing;
