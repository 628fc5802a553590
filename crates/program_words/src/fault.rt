//! Why words are refused.
ghost use Rattle.std.specs.Prelude.{◌≡◌};
ghost use Rattle.fault_texts.specs.FaultText.{shown, IsBrief};
ghost use Rattle.program_words.specs.Fault.{code_of, text_of};
ghost use Rattle.program_words.specs.declared.fault.WordFault.TheVariants.{OutOfMemory};

use fault_texts::{CommonFault, FaultText};
use std::alloc::{AllocError, AllocFailed};
use thiserror::Error;

/// Why words make no plan.
#[derive(Clone, Copy, Debug, PartialEq, Eq, Error)]
#[error("{}", self.text())]
pub enum WordFault {
    /// They are not those of the synopsis, or a number or a count is outside its limits.
    Words,
    /// There is no memory for the plan.
    OutOfMemory,
}

impl WordFault {
    /// The number under which the fault is printed.
    pub fn code(&self) -> u8
        ensures { result ≡ code_of self.now }
    {
        match self {
            WordFault::Words => CommonFault::Words.code(),
            WordFault::OutOfMemory => CommonFault::OutOfMemory.code(),
        }
    }

    /// The text that is printed after the number.
    pub fn text(&self) -> FaultText
        ensures text { shown result ≡ text_of self.now }
        ensures brief { IsBrief result }
    {
        match self {
            WordFault::Words => CommonFault::Words.text(),
            WordFault::OutOfMemory => CommonFault::OutOfMemory.text(),
        }
    }
}

impl From<AllocError> for WordFault {
    ghost from_gives = { λ _ e. e ≡ OutOfMemory };

    fn from(_error: AllocError) -> WordFault {
        WordFault::OutOfMemory
    }
}

impl<T: Drop> From<AllocFailed<T>> for WordFault {
    ghost from_gives = { λ _ e. e ≡ OutOfMemory };

    fn from(_error: AllocFailed<T>) -> WordFault {
        WordFault::OutOfMemory
    }
}
