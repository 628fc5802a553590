//! What the book refuses, as a reply says it.
ghost use Rattle.std.specs.Prelude.{◌≡◌};
ghost use Rattle.server_session.specs.Fault.{command_fault_of, IsBatchNumber, IsNumbered};

use layer_book::fault::LayerFault;
use script_form::CommandFault;
use version_book::fault::{BookFault, ReportedFault};
use versions::VersionFault;

/// The fault as a reply says it.
pub(crate) fn command_fault(fault: BookFault) -> CommandFault
    ensures { result ≡ command_fault_of fault }
{
    match fault {
        BookFault::Version(fault) => CommandFault::Version(fault),
        BookFault::Closing => CommandFault::Closing,
        BookFault::Gone => CommandFault::Gone,
        BookFault::NoStore => CommandFault::NoStore,
        BookFault::Store(ReportedFault::Device) => CommandFault::Device,
        BookFault::Store(ReportedFault::Full) => CommandFault::Full,
        BookFault::Store(ReportedFault::Failed) => CommandFault::StoreFailed,
        BookFault::Store(ReportedFault::SequenceLimit) => CommandFault::SequenceLimit,
        BookFault::Store(ReportedFault::OutOfMemory) => CommandFault::OutOfMemory,
    }
}

/// The fault of a batch that has this number.
pub(crate) fn numbered(code: u8) -> CommandFault
    requires { IsBatchNumber code }
    ensures { IsNumbered code result }
{
    match code {
        10 => refusal(LayerFault::UnknownLayer),
        11 => refusal(LayerFault::NotBase),
        12 => refusal(LayerFault::NotDerived),
        13 => refusal(LayerFault::LaterLayer),
        14 => refusal(LayerFault::InUse),
        15 => refusal(LayerFault::TooManyLayers),
        16 => refusal(LayerFault::VersionLimit),
        43 => CommandFault::Closing,
        44 => CommandFault::Gone,
        _ => CommandFault::OutOfMemory,
    }
}

fn refusal(fault: LayerFault) -> CommandFault
    ensures { result ≡ CommandFault.Version (VersionFault.Layer fault) }
{
    CommandFault::Version(VersionFault::Layer(fault))
}
