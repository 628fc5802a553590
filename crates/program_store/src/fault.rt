//! The faults of the program's own, and the exit status after each.
ghost use Rattle.std.specs.Prelude.{◌≡◌, ◌⊎◌};
ghost use Rattle.fault_texts.specs.FaultText.{shown, IsBrief};
ghost use Rattle.program_store.specs.Ending.{exit_status};
ghost use Rattle.program_store.specs.Fault.{code_of, text_of};
ghost use Rattle.program_store.specs.declared.fault.ProgramFault.TheVariants as faults;
ghost use Rattle.program_words.specs.Fault as words;

use commit_plan::fault::StoreFault;
use fault_texts::{CommonFault, FaultText};
use program_words::fault::WordFault;
use std::alloc::{AllocError, AllocFailed};

/// Why a program runs no session, or why what it leaves is not all.
#[derive(Clone, Copy, Debug, PartialEq, Eq)]
pub enum ProgramFault {
    /// The words are not those of the synopsis.
    Words,
    /// A script, or a path of a pair, can't be opened.
    Script,
    /// The store is not made, is not opened, or refuses the newest version.
    Store(StoreFault),
    /// No memory, or no thread.
    OutOfMemory,
    /// The book of versions gives no places.
    Gone,
    /// The replies can't be printed, or a session had no memory for them.
    Write,
}

impl ProgramFault {
    /// The number under which the fault is printed.
    pub fn code(&self) -> u8
        ensures { result ≡ code_of self.now }
    {
        match self {
            ProgramFault::Words => CommonFault::Words.code(),
            ProgramFault::Script => CommonFault::Read.code(),
            ProgramFault::Store(fault) => fault.code(),
            ProgramFault::OutOfMemory => CommonFault::OutOfMemory.code(),
            ProgramFault::Gone => CommonFault::Gone.code(),
            ProgramFault::Write => CommonFault::Write.code(),
        }
    }

    /// The exit status after the fault.
    pub fn status(&self) -> u8
        ensures { result ≡ exit_status (Err self.now) }
    {
        match self {
            ProgramFault::Words => 2,
            _ => 1,
        }
    }

    /// The fault under which a server could not run.
    pub fn of_server(code: u8) -> ProgramFault
        requires { (code ≡ 40) ⊎ (code ≡ 44) }
        ensures { code_of result ≡ code }
    {
        match code {
            44 => ProgramFault::Gone,
            _ => ProgramFault::OutOfMemory,
        }
    }

    /// The text that is printed after the number.
    pub fn text(&self) -> FaultText
        ensures text { shown result ≡ text_of self.now }
        ensures brief { IsBrief result }
    {
        match self {
            ProgramFault::Words => CommonFault::Words.text(),
            ProgramFault::Script => CommonFault::Read.text(),
            ProgramFault::Store(fault) => fault.text(),
            ProgramFault::OutOfMemory => CommonFault::OutOfMemory.text(),
            ProgramFault::Gone => CommonFault::Gone.text(),
            ProgramFault::Write => CommonFault::Write.text(),
        }
    }
}

impl From<AllocError> for ProgramFault {
    ghost from_gives = { λ _ e. e ≡ faults.OutOfMemory };

    fn from(_error: AllocError) -> ProgramFault {
        ProgramFault::OutOfMemory
    }
}

impl<T: Drop> From<AllocFailed<T>> for ProgramFault {
    ghost from_gives = { λ _ e. e ≡ faults.OutOfMemory };

    fn from(_error: AllocFailed<T>) -> ProgramFault {
        ProgramFault::OutOfMemory
    }
}

impl From<WordFault> for ProgramFault {
    ghost from_gives = { λ fault e. code_of e ≡ words.code_of fault };

    fn from(fault: WordFault) -> ProgramFault {
        match fault {
            WordFault::Words => ProgramFault::Words,
            WordFault::OutOfMemory => ProgramFault::OutOfMemory,
        }
    }
}
