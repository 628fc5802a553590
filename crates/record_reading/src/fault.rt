//! Why a record is not read.
ghost use Rattle.std.specs.Prelude.{◌≡◌};
ghost use Rattle.fault_texts.specs.FaultText.{shown, IsBrief};
ghost use Rattle.record_reading.specs.Answers.{failed_as, reported_as};
ghost use Rattle.record_reading.specs.Fault.{code_of, text_of};
ghost use Rattle.record_reading.specs.declared.fault.ReadFault.TheVariants.{Memory};

use fault_texts::{CommonFault, FaultText};
use layer_expr::fault::ExprFault;
use std::alloc::{AllocError, AllocFailed};
use store_terms::damage::Damage;
use thiserror::Error;

/// Why some bytes of a record are not read.
#[derive(Clone, Copy, Debug)]
pub enum ReadFault {
    Memory,
    /// The bytes have not the form.
    Form,
}

/// Why a record is not read.
#[derive(Clone, Copy, Debug, PartialEq, Eq, Error)]
#[error("{}", self.text())]
pub enum RecordFault {
    /// What is wrong with the bytes.
    Damaged(Damage),
    OutOfMemory,
}

impl RecordFault {
    /// The number under which the fault is printed: 32 or 33 for damage, or 40.
    pub fn code(&self) -> u8
        ensures { result ≡ code_of self.now }
    {
        match self {
            RecordFault::Damaged(damage) => match damage.code() {
                None => 32,
                Some(_) => 33,
            },
            RecordFault::OutOfMemory => CommonFault::OutOfMemory.code(),
        }
    }

    /// The text that is printed after the number.
    pub fn text(&self) -> FaultText
        ensures text { shown result ≡ text_of self.now }
        ensures brief { IsBrief result }
    {
        match self {
            RecordFault::Damaged(damage) => match damage.code() {
                None => FaultText::Plain("not a store"),
                Some(code) => FaultText::At("damaged ", usize::from(code)),
            },
            RecordFault::OutOfMemory => CommonFault::OutOfMemory.text(),
        }
    }
}

impl ReadFault {
    /// The fault as the damage that it is.
    pub fn as_record_fault(self, damage: Damage) -> RecordFault
        ensures { result ≡ reported_as damage self }
    {
        match self {
            ReadFault::Memory => RecordFault::OutOfMemory,
            ReadFault::Form => RecordFault::Damaged(damage),
        }
    }
}

impl From<ExprFault> for ReadFault {
    ghost from_gives = { λ fault e. e ≡ failed_as fault };

    fn from(fault: ExprFault) -> ReadFault {
        match fault {
            ExprFault::ExprSyntax(_) => ReadFault::Form,
            ExprFault::ExprTooLong => ReadFault::Form,
            ExprFault::BadName => ReadFault::Form,
            ExprFault::OutOfMemory => ReadFault::Memory,
        }
    }
}

impl From<AllocError> for ReadFault {
    ghost from_gives = { λ _ e. e ≡ Memory };

    fn from(_e: AllocError) -> ReadFault {
        ReadFault::Memory
    }
}

impl<T: Drop> From<AllocFailed<T>> for ReadFault {
    ghost from_gives = { λ _ e. e ≡ Memory };

    fn from(_e: AllocFailed<T>) -> ReadFault {
        ReadFault::Memory
    }
}
