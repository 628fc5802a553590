//! Laws over the definitions: each function does nothing, and its contract is the law.
ghost use Rattle.std.specs.Prelude.{Bool};
ghost use Rattle.script_form.specs.Transcript.{store_by};
ghost use Rattle.overlay_server.specs.Alone.{OneSessionIsAlone};
ghost use Rattle.overlay_engine.specs.Start.{Start};
ghost use Rattle.overlay_server.specs.Durability.{FilesAreCovered, NewEnginesAreStores, VersionsAreExact};
ghost use Rattle.overlay_server.specs.Runs.{RunsLoseNothing};

use disk_model::disk::Disk;
use line_laws::laws::Reports;

/// An engine that was just made or recovered has the store of which the clauses on a server's files speak.
pub fn new_engines_are_stores<D: Disk>()
    ensures { NewEnginesAreStores D.Disk }
{}

/// What a server leaves recovers: a file that holds a version of a history is one that a recovery takes, for the
/// batches that were accepted in the history, where the tiles of its first version are right.
pub fn files_are_covered()
    ensures { FilesAreCovered }
{}

/// Each version of a history has right tiles, where its first one has.
pub fn versions_are_exact()
    ensures { VersionsAreExact }
{}

/// The session of a book with no other one's commands was alone, as that of a server of one reader: what was accepted
/// in all that it has seen are the batches that it made. So its lines decide the versions after them (`lines_decide`).
pub fn one_session_is_alone<A: Reports>()
    ensures { (there : Bool) → OneSessionIsAlone (store_by A.reported there) }
{}

/// Through any number of runs, of which each is cut by a crash within a call of its store's keeper or came to its
/// end, and of the openings between them, what was reported durable at some moment, or within the call that was
/// cut, is so at each later moment.
pub fn runs_lose_nothing<D: Disk>()
    ensures { (start : Start) → RunsLoseNothing D.Disk start }
{}
