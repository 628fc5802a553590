//! Who calls a book, for the tests.
ghost use Rattle.std.specs.Prelude.{◌≡◌};

use store_receipt::store_name::StoreName;
use version_book::closer::Closer;
use version_book::reporter::Reporter;
use version_book::seen_log::BookName;
use version_book::session::Session;

/// The reporter and two sessions of one book, the right to close it, and the name of its store, which is here the tests'
/// own: they make the receipts of it.
pub struct Tokens<J: BookName> {
    pub reporter: Reporter,
    pub me: Session,
    pub other: Session,
    pub closer: Closer<J>,
    pub name: StoreName,
    pub ghost my_book: { me.book ≡ reporter.book },
    pub ghost others_book: { other.book ≡ reporter.book },
    pub ghost own_store: { name ≡ J.store },
}
