//! Why a line is refused, or a session ends early.
ghost use Rattle.std.specs.Prelude.{◌≡◌};
ghost use Rattle.script_form.specs.Fault.{code_of, of_grid};
ghost use Rattle.script_form.specs.declared.fault.CommandFault.TheVariants.{Wkt, Expression, Query, Version};
ghost use Rattle.script_form.specs.declared.fault.CommandFault.TheVariants.{OutOfMemory};

use crate::fault_text::fault_text;
use exact_point::PointFault;
use fault_texts::CommonFault;
use layer_expr::fault::ExprFault;
use overlay_grid::GridFault;
use std::alloc::AllocError;
use thiserror::Error;
use versions::VersionFault;
use wkt_form::fault::WktFault;

/// A fault that is printed as a line `error N text`.
#[derive(Clone, Copy, Debug, PartialEq, Eq, Error)]
#[error("{}", fault_text(*self))]
pub enum CommandFault {
    Wkt(WktFault),
    /// Of a name or an expression.
    Expression(ExprFault),
    /// Of the point that is asked about.
    Query(PointFault),
    /// Of a command on the layers, or of a question about them.
    Version(VersionFault),
    /// The store's device failed.
    Device,
    /// No room is left in the store.
    Full,
    /// The store's device failed before.
    StoreFailed,
    SequenceLimit,
    OutOfMemory,
    CommandSyntax,
    LineTooLong,
    /// The book closes.
    Closing,
    /// The book has not reached what the session has seen, or cannot show a version.
    Gone,
    GridSize,
    NoStore,
    /// A byte too many came.
    ReadLimit,
    Read,
    Write,
}

impl CommandFault {
    /// The number under which the fault is printed.
    pub fn code(&self) -> u8
        ensures { result ≡ code_of self.now }
    {
        match self {
            CommandFault::Wkt(fault) => fault.code(),
            CommandFault::Expression(fault) => fault.code(),
            CommandFault::Query(fault) => fault.code(),
            CommandFault::Version(fault) => fault.code(),
            CommandFault::Device => CommonFault::Device.code(),
            CommandFault::Full => CommonFault::Full.code(),
            CommandFault::StoreFailed => CommonFault::StoreFailed.code(),
            CommandFault::SequenceLimit => CommonFault::SequenceLimit.code(),
            CommandFault::OutOfMemory => CommonFault::OutOfMemory.code(),
            CommandFault::CommandSyntax => 41,
            CommandFault::LineTooLong => 42,
            CommandFault::Closing => CommonFault::Closing.code(),
            CommandFault::Gone => CommonFault::Gone.code(),
            CommandFault::GridSize => GridFault::GridSize.code(),
            CommandFault::NoStore => CommonFault::NoStore.code(),
            CommandFault::ReadLimit => 47,
            CommandFault::Read => CommonFault::Read.code(),
            CommandFault::Write => CommonFault::Write.code(),
        }
    }
}

impl From<AllocError> for CommandFault {
    ghost from_gives = { λ _ e. e ≡ OutOfMemory };

    fn from(_e: AllocError) -> CommandFault {
        CommandFault::OutOfMemory
    }
}

impl From<WktFault> for CommandFault {
    ghost from_gives = { λ fault e. e ≡ Wkt fault };

    fn from(fault: WktFault) -> CommandFault {
        CommandFault::Wkt(fault)
    }
}

impl From<ExprFault> for CommandFault {
    ghost from_gives = { λ fault e. e ≡ Expression fault };

    fn from(fault: ExprFault) -> CommandFault {
        CommandFault::Expression(fault)
    }
}

impl From<PointFault> for CommandFault {
    ghost from_gives = { λ fault e. e ≡ Query fault };

    fn from(fault: PointFault) -> CommandFault {
        CommandFault::Query(fault)
    }
}

impl From<VersionFault> for CommandFault {
    ghost from_gives = { λ fault e. e ≡ Version fault };

    fn from(fault: VersionFault) -> CommandFault {
        CommandFault::Version(fault)
    }
}

impl From<GridFault> for CommandFault {
    ghost from_gives = { λ fault e. e ≡ of_grid fault };

    fn from(fault: GridFault) -> CommandFault {
        match fault {
            GridFault::GridSize => CommandFault::GridSize,
            GridFault::Layer(fault) => CommandFault::Version(VersionFault::Layer(fault)),
            GridFault::Point(fault) => CommandFault::Query(fault),
        }
    }
}
