//! Laws over the definitions: each function does nothing, and its contract is the law.
ghost use Rattle.store_flushing.specs.Laws.{DurableIsReported, StoreBegins, StoreLeaves, StoreIsKnown, ReportedIsLeft};
ghost use Rattle.kept_store.specs.Since.{NumbersTell, TilesStay};

use disk_model::disk::Disk;

/// A store that was made or opened with a version is one of the history that begins with it.
pub fn store_begins<D: Disk>()
    ensures { StoreBegins D.Disk }
{}

/// Every file that a crash may leave of a store of a history holds one of its versions.
pub fn store_leaves<D: Disk>()
    ensures { StoreLeaves D.Disk }
{}

/// A store at rest is one of a history where all that is reported is stored, and every file that a crash may leave of
/// it holds one of its versions, no older than what is stored.
pub fn store_is_known<D: Disk>()
    ensures { StoreIsKnown D.Disk }
{}

/// At every moment of a keeper's call a crash leaves a version of the history that is no older than what is reported
/// durable by the call's end.
pub fn reported_is_left<D: Disk>()
    ensures { ReportedIsLeft D.Disk }
{}

/// The number that the newest version of a history has as durable is that of its start, or among those that were
/// reported in its entries: all of these were written down as they were reported, where they stay so.
pub fn durable_is_reported()
    ensures { DurableIsReported }
{}

/// A version has each tile of a later one, where none was kept since: a batch adds no tile, nor does a report.
pub fn tiles_stay()
    ensures { TilesStay }
{}

/// That none was kept since, three numbers of the two versions say: how many entries lie between, the version's number,
/// and what is durable.
pub fn numbers_tell()
    ensures { NumbersTell }
{}
