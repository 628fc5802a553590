//! Laws over the definitions: each function does nothing, and its contract is the law.
ghost use Rattle.overlay_engine.specs.Counting.{CommitCalls, CommitCounts, CommitLeaves, CommitTells, DeviceRefusals};
ghost use Rattle.overlay_engine.specs.Laws.{BegunCovers, CoveredRests, CoveredStays, EventsCover, OpenedRecovers, OpeningIsCovered};
ghost use Rattle.overlay_engine.specs.Lives.{NothingIsLost};
ghost use Rattle.overlay_engine.specs.OldFile.{OldFileIsCovered};
ghost use Rattle.overlay_engine.specs.Recovery.{RecoveredAnswers};
ghost use Rattle.overlay_engine.specs.Start.{Start};
ghost use Rattle.overlay_engine.specs.RunReplies.{CrashKeepsReported, DurableIsLastReported, JobsAreNumbered};

use disk_model::disk::Disk;

/// What is published keeps a store covering: for the batches with the accepted one, where one is accepted.
pub fn events_cover<D: Disk>()
    ensures { EventsCover D.Disk }
{}

/// A store that covers a version leaves, whenever the machine crashes, a file that is covered.
pub fn crash_is_covered<D: Disk>()
    ensures { CoveredStays D.Disk }
{}

/// A store that covers a version holds something, where no commit is under way and no call has failed.
pub fn covered_rests<D: Disk>()
    ensures { CoveredRests D.Disk }
{}

/// A store that was opened on a disk of which each outcome is covered covers what its file holds.
pub fn opened_recovers<D: Disk>()
    ensures { OpenedRecovers D.Disk }
{}

/// While a file is opened, a crash leaves what was covered before.
pub fn opening_is_covered<D: Disk>()
    ensures { OpeningIsCovered D.Disk }
{}

/// A file of the old format is covered from what it holds on.
pub fn old_file_is_covered()
    ensures { OldFileIsCovered }
{}

/// A commit of the present version that begins leaves the store covering the same batches.
pub fn begun_covers<D: Disk>()
    ensures { BegunCovers D.Disk }
{}

/// Of a recovered version `Version::locate` says where a point lies for the layers after the batches.
pub fn recovered_answers<D: Disk>()
    ensures { RecoveredAnswers D.Disk }
{}

/// A refusal by 30 is that of a device step in which the device failed.
pub fn device_refusals<D: Disk>()
    ensures { DeviceRefusals D.Disk }
{}

/// From the step that begins it to the one that ends it a commit makes one device call for each new record and the
/// catalog, and six more.
pub fn commit_counts<D: Disk>()
    ensures { CommitCounts D.Disk }
{}

/// On an honest disk it makes just so many: the disk's own count rises by that number.
pub fn commit_calls<D: Disk>()
    ensures { CommitCalls D.Disk }
{}

/// The step that ends a commit gives the number of the version with which it began.
pub fn commit_tells<D: Disk>()
    ensures { CommitTells D.Disk }
{}

/// Where the store held something before it, and each of its steps commits just what it is to commit, as
/// `Engine::drive` says, a commit leaves just the version with which it began, whichever tiles that has.
pub fn commit_leaves<D: Disk>()
    ensures { CommitLeaves D.Disk }
{}

/// No job number is used twice.
pub fn jobs_are_numbered<D: Disk>()
    ensures { JobsAreNumbered D.Disk }
{}

/// The durable number that was reported last is the version's.
pub fn durable_is_last_reported<D: Disk>()
    ensures { DurableIsLastReported D.Disk }
{}

/// It is so as a crash comes: what is recovered is no older than what was reported.
pub fn crash_keeps_reported<D: Disk>()
    ensures { CrashKeepsReported D.Disk }
{}

/// Through any steps, crashes and recoveries nothing is lost that was durable at some moment.
pub fn nothing_is_lost<D: Disk>()
    ensures { (start : Start) → NothingIsLost D.Disk start }
{}
