//! A receipt: that a store stored a number.
ghost use Rattle.std.specs.Prelude.{◌≡◌};

use crate::store_name::StoreName;
use std::fmt;

/// That the store of this name stored a version of this number. Who has the name makes one, and a store keeps its own to
/// itself: so no code above it has a receipt of a store but those that it gave.
#[derive(Drop)]
pub struct Receipt {
    store: StoreName,
    number: u64,
}

impl fmt::Debug for Receipt {
    fn fmt<W: fmt::Write>(&self, f: &mut fmt::Formatter<W>) -> fmt::Result {
        f.debug_struct("Receipt")
            .field("number", &self.number)
            .finish_non_exhaustive()
    }
}

impl Receipt {
    /// A receipt for a number, of the store of this name: for the store alone.
    pub fn of(store: &StoreName, number: u64) -> Receipt
        ensures store { result.store ≡ store.now }
        ensures number { result.number ≡ number }
    {
        Receipt {
            store: store.again(),
            number,
        }
    }

    /// The number.
    pub fn number(&self) -> u64
        ensures { result ≡ self.now.number }
    {
        self.number
    }
}
