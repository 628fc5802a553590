//! Why what a session submits is refused.
ghost use Rattle.std.specs.Prelude.{◌≡◌};
ghost use Rattle.book_lock.specs.Refused.{batch_fault, command_fault};

use book_history::fault::BookFault;
use layer_book::batch_fault::BatchFault;
use versions::VersionFault;

/// Why what a session submits is refused.
#[derive(Clone, Copy)]
pub enum Refused<F> {
    /// The book is behind what the session saw, or cannot go on. Then nothing changes.
    Gone,
    /// The book closes.
    Closing,
    /// What the newest version says to it.
    Version(F),
}

impl From<Refused<VersionFault>> for BookFault {
    ghost from_gives = { λ refused fault. fault ≡ command_fault refused };

    fn from(refused: Refused<VersionFault>) -> BookFault {
        match refused {
            Refused::Gone => BookFault::Gone,
            Refused::Closing => BookFault::Closing,
            Refused::Version(fault) => BookFault::Version(fault),
        }
    }
}

impl From<Refused<BatchFault>> for BatchFault {
    ghost from_gives = { λ refused fault. fault ≡ batch_fault refused };

    fn from(refused: Refused<BatchFault>) -> BatchFault {
        match refused {
            Refused::Gone => BookFault::Gone.whole(),
            Refused::Closing => BookFault::Closing.whole(),
            Refused::Version(fault) => fault,
        }
    }
}
