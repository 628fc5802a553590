//! Laws over the definitions: each function does nothing, and its contract is the law.
ghost use Rattle.root_store.specs.Healing.{TakenIsLive, TwinHeals};
ghost use Rattle.root_store.specs.Creating.{BlankIsAtRest};
ghost use Rattle.root_store.specs.Beginning.{LaidIsBelow};
ghost use Rattle.root_store.specs.Running.{StoresStand, CommitsRun};

use disk_model::disk::Disk;

/// A root that opening takes, and what it holds, is live.
pub fn taken_is_live()
    ensures { TakenIsLive }
{}

/// The body of a root's twin behind the shut gate leaves the store at rest.
pub fn twin_heals()
    ensures { TwinHeals }
{}

/// A new file with its first gate open is a store that holds nothing.
pub fn blank_is_at_rest()
    ensures { BlankIsAtRest }
{}

/// What a commit lays ends at or below the blocks that its file may have: each record, the catalog and the body.
pub fn laid_is_below<D: Disk>()
    ensures { LaidIsBelow D.Disk }
{}

/// A store at rest on an honest disk holds the content of its live root.
pub fn stores_stand<D: Disk>()
    ensures { StoresStand D.Disk }
{}

/// A commit that is under way on an honest disk goes from the content of the live root to that of the next one.
pub fn commits_run<D: Disk>()
    ensures { CommitsRun D.Disk }
{}
