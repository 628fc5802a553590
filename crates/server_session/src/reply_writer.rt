//! Where a session's replies go.
ghost use Rattle.std.specs.Prelude.{◌≡◌, ◌⊎◌, Bool, None, IfErr, IfSome, OnOk, drop, option_map};
ghost use Rattle.book_history.specs.Known.{Known};
ghost use Rattle.script_form.specs.Replies.{error_line, reply_text};
ghost use Rattle.script_form.specs.Writing.{Writes};
ghost use Rattle.server_session.specs.Replying.{IsNextReply, IsSomeReply};

use script_form::{CommandFault, LineReply, write_reply};
use std::io::Write;
use version_book::session::Session;

/// A writer of the replies of one session. Each reply is that to the next turn of the session's script, at what the session
/// has seen; since this is asked as a reply is written, a call that never returns owes it too. Who knows a writer as this
/// alone can write nothing else to it, and has to take it for one that keeps what is left of the script.
pub trait ReplyWriter {
    ghost use Rattle.std.specs.Prelude.{ℕ, Bool, List, Option};
    ghost use Rattle.overlay_terms.specs.Histories as terms;
    ghost use Rattle.book_history.specs.Known.{Known};
    ghost use Rattle.script_form.specs.Transcript.{StoreReport};
    ghost use Rattle.script_form.specs.Turns.{Turn};

    /// The bytes that it has been given, where they are known.
    ghost contents: { Self → Option (List ℕ) };

    /// What it may be given of the store at which history: the durable number, or a fault of the store.
    ghost may_report: { terms.History → StoreReport → Type 0 };

    /// From where it may be given the next reply: of a book with or without a store, by a session that knew this at the reply
    /// before, or as it began. A reply that was written says it anew, and nothing else.
    ghost from: { Self → Bool → Known → Type 0 };

    /// The turns of the script whose replies it takes that have none yet, if it keeps that.
    ghost left: { Self → Option (List Turn) };

    /// Whether it may report that its script has a byte too many.
    ghost may_pass_limit: { Self → Type 0 };

    /// Writes the reply to the next turn, without taking memory.
    fn reply(&mut self, me: &Session, reply: &LineReply) -> Result<(), CommandFault>
        requires right { IfSome (left self.old) (IsNextReply (from self.old) may_report me.now (reply_text reply.now)) }
        requires reported { IsSomeReply (from self.old) may_report me.now (reply_text reply.now) }
        ensures from { OnOk result ((there : Bool) (was : Known) → from self.old there was → from self.new there me.now) }
        ensures left { OnOk result (left self.new ≡ option_map (drop 1) (left self.old)) }
        ensures limit { OnOk result (may_pass_limit self.old → may_pass_limit self.new) }
        ensures writes { Writes result (contents self.old) (contents self.new) (reply_text reply.now) }
        ensures err { IfErr result (λ fault. fault ≡ CommandFault.Write) };

    /// Writes the line of the fault that ends the session: a read failed, or a byte too many came. No reply comes after it.
    fn end(&mut self, me: &Session, fault: CommandFault) -> Result<(), CommandFault>
        requires fault { (fault ≡ CommandFault.Read) ⊎ ((fault ≡ CommandFault.ReadLimit) × may_pass_limit self.old) }
        requires from { (there : Bool) × from self.old there me.now }
        ensures writes { Writes result (contents self.old) (contents self.new) (error_line fault) }
        ensures err { IfErr result (λ fault. fault ≡ CommandFault.Write) };
}

/// Each writer of bytes is one, which may be given any report of a store, from anywhere, and that a limit was passed, and
/// does not keep what is left of a script.
impl<W: Write> ReplyWriter for W {
    ghost contents = { W.contents };

    ghost may_report = { λ history report. Unit {0} };

    ghost from = { λ writer there was. Unit {0} };

    ghost left = { λ writer. None };

    ghost may_pass_limit = { λ writer. Unit {0} };

    fn reply(&mut self, _me: &Session, reply: &LineReply) -> Result<(), CommandFault> {
        write_reply(self, reply)
    }

    fn end(&mut self, _me: &Session, fault: CommandFault) -> Result<(), CommandFault> {
        write_reply(self, &LineReply::Fault(fault))
    }
}
