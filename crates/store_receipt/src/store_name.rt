//! The name of a store.
ghost use Rattle.std.specs.Prelude.{◌≡◌};

use logbook::{Opening, Rule, Seen, Start};
use std::fmt;
use std::marker::Model;

/// A name has no rule of its own.
struct NoRule;

impl Rule<u64, u64> for NoRule {
    ghost use Rattle.std.specs.Prelude.{[]};
    ghost use base.Fml.{ftrue};

    ghost holds = { λ cells log. Unit {0} };

    ghost first = { [] };

    ghost hinted = { λ n log. Unit {0} };

    ghost shows = { λ log. [] };

    ghost keeps = { λ names log. ftrue };

    ghost moves = { λ ask before after answer. Unit {0} };
}

/// Nothing is written under a name.
struct Nothing;

impl Opening<(), u64> for Nothing {
    ghost use Rattle.std.specs.Prelude.{[]};

    ghost log = { λ n nothing. [] };
}

/// The name of a store, which it has from its making on. It has no bytes, nothing is known of a new one, and no call
/// gives it again: so who has it by a reference is its store's own code.
#[derive(Drop)]
pub struct StoreName {
    seen: Seen<u64, u64, NoRule>,
}

impl Model for StoreName {
    ghost use Rattle.logbook.specs.Pages.{Book, book_coded};

    ghost Value = { Book };

    ghost coded = { book_coded };

    ghost view = { λ n. n.seen.book };
}

impl fmt::Debug for StoreName {
    fn fmt<W: fmt::Write>(&self, f: &mut fmt::Formatter<W>) -> fmt::Result {
        f.debug_struct("StoreName").finish_non_exhaustive()
    }
}

impl StoreName {
    /// A name of its own.
    pub fn new() -> StoreName {
        let nothing = ();
        let (seen, _pens) = Seen::open_row::<(), Nothing>(&nothing, Start::alone(), 0);
        StoreName { seen }
    }

    /// The same name again, for a receipt.
    pub(crate) fn again(&self) -> StoreName
        ensures { result ≡ self.now }
    {
        StoreName {
            seen: self.seen.again(),
        }
    }
}
