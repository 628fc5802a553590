//! Tiles and strips of tiles that are handed out to workers, and what becomes of them.
ghost use Rattle.std.specs.Prelude.{◌≡◌, ◌⊎◌, List, IfOk, IfErr, IfSome};
ghost use Rattle.overlay_terms.specs.Histories.{Entry};
ghost use Rattle.book_history.specs.Fault.{no_memory};
ghost use Rattle.book_history.specs.Logs.{IsLog};
ghost use Rattle.version_book.specs.Jobs.{IsFinishedBy, IsJob};
ghost use Rattle.version_book.specs.Strips.{AreFinishedBy, AreNext, IsStripJob};

use crate::job::Job;
use crate::locked_book::waits::Awaited;
use crate::shared::Shared;
use crate::strip_job::StripJob;
use crate::turns::TurnKind;
use arrange::TileInput;
use book_history::fault::{BookFault, NO_MEMORY};
use book_history::seen_log::{BookName, SeenLog};
use layer_expr::name::Name;
use std::alloc::Global;
use std::sync::Wait;
use tile_build::{Built, SharedBuilt};

impl<J: BookName, R: Wait + Drop> Shared<J, R> {
    /// Hands out a pending tile that is neither handed out nor marked. It waits for one; None comes at closing.
    pub fn take_job<W: Wait>(&self, rt: &W, alloc: Global) -> Result<Option<Job>, BookFault>
        ensures book { IfOk result (λ o. IfSome o (λ job. job.book ≡ J.book)) }
        ensures job { IfOk result (λ o. IfSome o (λ job. IsJob job)) }
        ensures err { IfErr result (λ fault. fault ≡ no_memory) }
    {
        let mut turn = self.turns.after(rt, &Awaited::Tile, TurnKind::HandedOut);
        turn.book.take(alloc)
    }

    /// Spends a job with the tile that was built of its input. It says whether the tile was kept, with the log after
    /// it, whose last entry is the tile then; where it was not, that log is the one in which it was not awaited. It goes
    /// on from the log at which the tile was handed out. Where that cannot be written down, for want of memory, both come
    /// back. The tile is copied before the lock is taken.
    pub fn finish<W: Wait>(
        &self,
        rt: &W,
        alloc: Global,
        job: Job,
        built: Built,
    ) -> Result<(bool, SeenLog), (Job, Built, BookFault)>
        requires book { job.book ≡ J.book }
        requires input { built.0 ≡ job.input }
        ensures finished { IfOk result (λ r. IsFinishedBy job built.1 r.0 r.1.log) }
        ensures log { IfOk result (λ r. (r.1.book ≡ J.book) × IsLog r.1.log) }
        ensures err { IfErr result (λ e. (e.0 ≡ job) × (e.1 ≡ built)) }
        ensures refused { IfErr result (λ e. (e.2 ≡ no_memory) ⊎ (e.2 ≡ BookFault.Gone)) }
    {
        // It is copied, as it has to come back where the lock's part fails: one in an `Arc` may have other owners.
        let Ok(shared) = SharedBuilt::copied(alloc, &built) else {
            return Err((job, built, NO_MEMORY));
        };
        let layer = job.name().clone().ok();
        let mut turn = self.turns.next(rt, TurnKind::Unsaid);
        let kept = match turn.book.finish(alloc, job, &shared) {
            Ok(kept) => kept,
            Err((job, fault)) => return Err((job, built, fault)),
        };
        turn.kind = TurnKind::Finished { layer, kept };
        let log = turn.book.end();
        Ok((kept, log))
    }

    /// Spends a job whose tile could not be built for want of memory: the tile is marked.
    // It has no clause, as nothing of what lies under the lock can be said once that is given up. But a job can be let
    // go by the lock's methods alone, and `LockedBook::give_back` says what it does to the tile.
    pub fn give_back<W: Wait>(&self, rt: &W, job: Job)
        requires { job.book ≡ J.book }
    {
        let mut turn = self.turns.next(rt, TurnKind::GivenBack);
        turn.book.give_back(job);
    }

    /// Hands out a strip of tiles of one layer: from a pending tile on that is neither handed out nor marked, as long as
    /// that of the next column is so, too, and the strip is small enough. It waits for one; None comes at closing.
    pub fn take_strip<W: Wait>(&self, rt: &W, alloc: Global) -> Result<Option<StripJob>, BookFault>
        ensures book { IfOk result (λ o. IfSome o (λ strip. strip.book ≡ J.book)) }
        ensures strip { IfOk result (λ o. IfSome o (λ strip. IsStripJob strip)) }
        ensures whole { IfOk result (λ o. IfSome o (λ strip. strip.next ≡ strip.input.strip.first)) }
        ensures err { IfErr result (λ fault. fault ≡ no_memory) }
    {
        let awaited = Awaited::Tile;
        let mut turn = self.turns.after(rt, &awaited, TurnKind::HandedOut);
        turn.book.take_strip(alloc)
    }

    /// Spends the next tiles of a strip with those that were built of their inputs, one after another, as `finish` does
    /// with jobs, but in one turn, and nothing of them is copied. It says how many were kept, with the log after them.
    /// Where memory runs out, the strip has those that are left; where not even the first one can be written down, it
    /// stays as it was.
    pub fn finish_strip<W: Wait>(
        &self,
        rt: &W,
        alloc: Global,
        strip: &mut StripJob,
        built: &[SharedBuilt],
    ) -> Result<(u64, SeenLog), BookFault>
        requires book { strip.old.book ≡ J.book }
        requires tiles { AreNext strip.old built.now }
        ensures finished { IfOk result
            (λ r. (log : List Entry) × AreFinishedBy strip.old built.now log strip.new r.0 r.1.log) }
        ensures log { IfOk result (λ r. (r.1.book ≡ J.book) × IsLog r.1.log) }
        ensures err { IfErr result (λ _. strip.new ≡ strip.old) }
        ensures refused { IfErr result (λ fault. (fault ≡ no_memory) ⊎ (fault ≡ BookFault.Gone)) }
        ensures same { strip.new.book ≡ strip.old.book }
    {
        let layer = strip.name().clone().ok();
        let mut turn = self.turns.next(rt, TurnKind::Unsaid);
        let kept = match turn.book.finish_strip(alloc, strip, built) {
            Ok(kept) => kept,
            Err(fault) => return Err(fault),
        };
        turn.kind = TurnKind::Finished {
            layer,
            kept: kept == built.len() as u64,
        };
        Ok((kept, turn.book.end()))
    }

    /// Ends a strip. Where some of its tiles are not spent, as memory ran out, these are marked.
    // It has no clause, for the reason that `give_back` has none: `LockedBook::give_back_strip` says what it does.
    pub fn give_back_strip<W: Wait>(&self, rt: &W, strip: StripJob)
        requires { strip.book ≡ J.book }
    {
        if strip.is_spent() {
            strip.end_spent();
            return;
        }
        let mut turn = self.turns.next(rt, TurnKind::GivenBack);
        turn.book.give_back_strip(strip);
    }

    /// The number of the newest version. None says that the book closes.
    // It has no clause, as nothing of what lies under the lock can be said once that is given up: `LockedBook` says it.
    pub fn open_number<W: Wait>(&self, rt: &W) -> Option<u64> {
        let turn = self.turns.next(rt, TurnKind::Looked);
        turn.book.open_number()
    }

    /// Whether the tile of an input is awaited. It takes no memory.
    // It has no clause, for the same reason: `LockedBook::awaits` says it.
    pub fn awaits<W: Wait>(&self, rt: &W, name: &Name, input: &TileInput) -> bool {
        let turn = self.turns.next(rt, TurnKind::Looked);
        turn.book.awaits(name, input)
    }

    /// Ends a strip that is not to be built any more. Those of its tiles that are not spent can be handed out again.
    // It has no clause, for the reason that `give_back` has none: `LockedBook::let_go_strip` says what it does.
    pub fn let_go_strip<W: Wait>(&self, rt: &W, strip: StripJob)
        requires { strip.book ≡ J.book }
    {
        if strip.is_spent() {
            strip.end_spent();
            return;
        }
        let mut turn = self.turns.next(rt, TurnKind::LetGo);
        turn.book.let_go_strip(strip);
    }
}
