//! The faults that several crates report, each under one number and one text.
ghost use Rattle.std.specs.Prelude.{◌≡◌};
ghost use Rattle.fault_texts.specs.CommonFault.{code_of, text_of};
ghost use Rattle.fault_texts.specs.FaultText.{shown, IsBrief};

use crate::fault_text::FaultText;

/// A fault that more than one crate has a case for.
#[derive(Clone, Copy, Debug, PartialEq, Eq)]
pub enum CommonFault {
    /// The device failed.
    Device,
    /// No room is left in the store.
    Full,
    /// The device failed before.
    StoreFailed,
    SequenceLimit,
    OutOfMemory,
    /// The book closes.
    Closing,
    /// The book gives no place, or is older than what was seen.
    Gone,
    NoStore,
    Read,
    Write,
    /// Words of the command line that are not those of the synopsis.
    Words,
}

impl CommonFault {
    /// The number under which the fault is printed.
    pub fn code(&self) -> u8
        ensures { result ≡ code_of self.now }
    {
        match self {
            CommonFault::Device => 30,
            CommonFault::Full => 31,
            CommonFault::StoreFailed => 35,
            CommonFault::SequenceLimit => 36,
            CommonFault::OutOfMemory => 40,
            CommonFault::Closing => 43,
            CommonFault::Gone => 44,
            CommonFault::NoStore => 46,
            CommonFault::Read => 48,
            CommonFault::Write => 49,
            CommonFault::Words => 50,
        }
    }

    /// The text that is printed after the number.
    pub fn text(&self) -> FaultText
        ensures text { shown result ≡ text_of self.now }
        ensures brief { IsBrief result }
    {
        FaultText::Plain(match self {
            CommonFault::Device => "device",
            CommonFault::Full => "full",
            CommonFault::StoreFailed => "store failed",
            CommonFault::SequenceLimit => "sequence limit",
            CommonFault::OutOfMemory => "out of memory",
            CommonFault::Closing => "closing",
            CommonFault::Gone => "gone",
            CommonFault::NoStore => "no store",
            CommonFault::Read => "read",
            CommonFault::Write => "write",
            CommonFault::Words => "words",
        })
    }
}
