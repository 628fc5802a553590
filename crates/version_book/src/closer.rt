//! The right to close a book.
use std::marker::PhantomData;

/// The right to close the book of this name. `Shared::start` alone makes one, and a book begins but once. Who lends it
/// for less than the scope of some threads gives it to none of them.
#[derive(Drop)]
pub struct Closer<J> {
    of: PhantomData<J>,
}

impl<J> Closer<J> {
    /// That of a book that begins.
    pub(crate) fn new() -> Closer<J> {
        Closer { of: PhantomData }
    }
}
