//! The texts of faults, in pieces that find room in a line.
ghost use Rattle.std.specs.Prelude.{◌≡◌};
ghost use Rattle.fault_texts.specs.FaultText.{shown, IsBrief};
ghost use Rattle.script_form.specs.Fault.{text_of};

use crate::fault::CommandFault;
use fault_texts::{CommonFault, FaultText};
use overlay_grid::GridFault;

/// The text of a fault, as a reply says it after the fault's code.
pub fn fault_text(fault: CommandFault) -> FaultText
    ensures text { shown result ≡ text_of fault }
    ensures brief { IsBrief result }
{
    match fault {
        CommandFault::Wkt(fault) => fault.text(),
        CommandFault::Expression(fault) => fault.text(),
        CommandFault::Query(fault) => fault.text(),
        CommandFault::Version(fault) => fault.text(),
        CommandFault::Device => CommonFault::Device.text(),
        CommandFault::Full => CommonFault::Full.text(),
        CommandFault::StoreFailed => CommonFault::StoreFailed.text(),
        CommandFault::SequenceLimit => CommonFault::SequenceLimit.text(),
        CommandFault::OutOfMemory => CommonFault::OutOfMemory.text(),
        CommandFault::CommandSyntax => FaultText::Plain("command syntax"),
        CommandFault::LineTooLong => FaultText::Plain("line too long"),
        CommandFault::Closing => CommonFault::Closing.text(),
        CommandFault::Gone => CommonFault::Gone.text(),
        CommandFault::GridSize => GridFault::GridSize.text(),
        CommandFault::NoStore => CommonFault::NoStore.text(),
        CommandFault::ReadLimit => FaultText::Plain("read limit"),
        CommandFault::Read => CommonFault::Read.text(),
        CommandFault::Write => CommonFault::Write.text(),
    }
}
