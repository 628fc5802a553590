//! Sessions, and the book under its lock, go to threads.
use crate::shared::Shared;
use book_history::seen_log::BookName;
use book_lock::session::Session;
use std::sync::Wait;

fn goes<T: Send>() {}

fn lends<T: Sync>() {}

/// A session may go to another thread.
pub fn session_goes() {
    goes::<Session>();
}

/// Threads may call one book.
pub fn book_lends<J: BookName + Send, R: Wait + Drop + Send>() {
    lends::<Shared<J, R>>();
}
