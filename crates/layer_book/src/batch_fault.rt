//! Why a batch is refused.
ghost use Rattle.std.specs.Prelude.{◌≡◌, Some};
ghost use Rattle.layer_book.specs.BatchFault.{code_of, text_of};
ghost use Rattle.layer_book.specs.declared.batch_fault.BatchFault.TheVariants.{Whole};

use crate::fault::LayerFault;
use std::alloc::AllocError;
use std::fmt;
use thiserror::Error;

/// Why no command of a batch is accepted.
#[derive(Clone, Copy, Debug, PartialEq, Eq, Error)]
#[error("{}", Text(*self))]
pub enum BatchFault {
    /// A command, counted from 0, and the number of the fault that it has after those before it.
    At(u32, u8),
    /// The number of a fault that is no single command's.
    Whole(u8),
}

impl BatchFault {
    /// The number under which the fault is printed.
    pub fn code(&self) -> u8
        ensures { result ≡ code_of self.now }
    {
        match *self {
            BatchFault::At(_, code) => code,
            BatchFault::Whole(code) => code,
        }
    }
}

impl From<AllocError> for BatchFault {
    ghost from_gives = { λ _ e. e ≡ Whole 40 };

    fn from(_e: AllocError) -> BatchFault {
        BatchFault::Whole(LayerFault::OutOfMemory.code())
    }
}

/// A fault as a reply begins with it: the place of the command, if it is one's, and the number.
#[derive(Clone, Copy, Debug)]
pub struct Text(pub BatchFault);

impl fmt::Display for Text {
    ghost output = { λ text. Some (text_of text.0) };

    fn fmt<W: fmt::Write>(&self, f: &mut fmt::Formatter<W>) -> fmt::Result {
        match self.0 {
            BatchFault::At(place, code) => write!(f, "refused {} error {}", place, code),
            BatchFault::Whole(code) => write!(f, "error {}", code),
        }
    }
}
