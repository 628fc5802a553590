//! Versions that are shared: one as it is, or that after a report.
ghost use Rattle.std.specs.Prelude.{◌≡◌, IfOk, IfErr};
ghost use Rattle.std.specs.Arc.{arc_value};
ghost use Rattle.overlay_terms.specs.Histories.{IsReported};
ghost use Rattle.book_history.specs.Fault.{no_memory};

use crate::room::Room;
use book_history::fault::{BookFault, NO_MEMORY};
use std::alloc::Global;
use std::sync::Arc;
use versions::Version;

/// A version for as many as ask for it.
pub(crate) fn shared(alloc: Global, version: Version) -> Result<Arc<Version, Global>, BookFault>
    ensures ok { IfOk result (λ v. arc_value v ≡ version) }
    ensures err { IfErr result (λ fault. fault ≡ no_memory) }
{
    match Arc::new(alloc, version) {
        Ok(version) => Ok(version),
        Err(_) => Err(NO_MEMORY),
    }
}

/// The version after a report of a number, in memory that was taken ahead for it.
pub(crate) fn reported_version(
    alloc: Global,
    room: &mut Room,
    now: &Version,
    number: u64,
) -> Result<Arc<Version, Global>, BookFault>
    ensures ok { IfOk result (λ v. IsReported now.now number (arc_value v)) }
    ensures err { IfErr result (λ fault. fault ≡ no_memory) }
{
    match now.durable_to(alloc, number) {
        Ok(next) => room.shared(alloc, next),
        Err(fault) => Err(BookFault::Version(fault)),
    }
}
