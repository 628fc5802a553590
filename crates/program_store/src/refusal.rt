//! A fault of the program's own, with the file that it is about.
ghost use Rattle.std.specs.Prelude.{◌≡◌};
ghost use Rattle.program_store.specs.declared.fault.ProgramFault.TheVariants as faults;

use crate::fault::ProgramFault;
use std::alloc::AllocFailed;
use std::{fmt, io};

/// Why a program runs no session, or why what it leaves is not all: the fault, and for its user the path of the file
/// that it is about and what the system said of that file, each where there is one.
#[derive(Clone, Copy, Debug)]
pub struct Refusal<'p> {
    pub fault: ProgramFault,
    pub path: Option<&'p str>,
    pub reason: Option<io::Error>,
}

impl<'p> Refusal<'p> {
    /// A fault about a file.
    pub fn about(fault: ProgramFault, path: &'p str) -> Refusal<'p>
        ensures fault { result.fault ≡ fault }
    {
        Refusal {
            fault,
            path: Some(path),
            reason: None,
        }
    }

    /// The fault of an opening that the system refused. Want of memory is no fault of the file.
    pub fn of_file(fault: ProgramFault, path: &'p str, reason: io::Error) -> Refusal<'p> {
        if reason.kind() == io::ErrorKind::OutOfMemory {
            return Refusal::from(ProgramFault::OutOfMemory);
        }
        Refusal {
            fault,
            path: Some(path),
            reason: Some(reason),
        }
    }
}

impl<'p> From<ProgramFault> for Refusal<'p> {
    ghost from_gives = { λ fault refusal. refusal.fault ≡ fault };

    fn from(fault: ProgramFault) -> Refusal<'p> {
        Refusal {
            fault,
            path: None,
            reason: None,
        }
    }
}

impl<'p, T: Drop> From<AllocFailed<T>> for Refusal<'p> {
    ghost from_gives = { λ _ refusal. refusal.fault ≡ faults.OutOfMemory };

    fn from(_error: AllocFailed<T>) -> Refusal<'p> {
        Refusal::from(ProgramFault::OutOfMemory)
    }
}

impl<'p> From<Refusal<'p>> for ProgramFault {
    ghost from_gives = { λ refusal fault. fault ≡ refusal.fault };

    fn from(refusal: Refusal<'p>) -> ProgramFault {
        refusal.fault
    }
}

impl<'p> fmt::Display for Refusal<'p> {
    fn fmt<W: fmt::Write>(&self, f: &mut fmt::Formatter<W>) -> fmt::Result {
        write!(f, "error {} {}", self.fault.code(), self.fault.text())?;
        match (self.path, self.reason) {
            (Some(path), Some(reason)) => write!(f, "\n{path}: {reason}"),
            (Some(path), None) => write!(f, "\n{path}"),
            (None, _) => Ok(()),
        }
    }
}
