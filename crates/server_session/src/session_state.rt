//! A session on its way through its script.
ghost use Rattle.std.specs.Prelude.{◌≡◌, Bool, ◌∷◌, ◌++◌, [], List, Option, MatchOption, None, Some, ℕ, drop, false};
ghost use Rattle.std.specs.Prelude.{length, true, is_err, IsTrue, IfOk, IfErr, IfSome, OnOk, OnErr};
ghost use Rattle.overlay_terms.specs.Histories.{IsHistory};
ghost use Rattle.book_history.specs.Known.{seen};
ghost use Rattle.version_book.specs.Store.{has_store};
ghost use Rattle.script_form.specs.Lines.{has_no_feed};
ghost use Rattle.script_form.specs.OpenBatch.{IsOpen};
ghost use Rattle.script_form.specs.Requests.{request_of};
ghost use Rattle.script_form.specs.Turns.{Waiting, ended_by};
ghost use Rattle.server_session.specs.Asking.{MayAskAtLine, MayAskLast, MayAskNext};
ghost use Rattle.server_session.specs.Replying.{MayReport};
ghost use Rattle.server_session.specs.Stores.{store_of};
ghost use Rattle.server_session.specs.Session.{Stays};
ghost use Rattle.server_session.specs.SessionState.{has_ended, HasTaken, turns_ended, turns_at_end};
ghost use Rattle.server_session.specs.SessionState.{AnswersTurns, AnswersInPart, AreNext, IsOnWay};
ghost use Rattle.server_session.specs.Turn.{IsAtLast, IsAtLine};
ghost use Rattle.server_session.specs.Loop.{AnswersLine, EndsBatch};

use crate::answering::answer;
use crate::reply_writer::ReplyWriter;
use memchr::memchr;
use script_form::{CommandFault, LineBuffer, LineReply, OpenBatch};
use std::alloc::{AllocError, Global};
use std::sync::Wait;
use std::thread::Threads;
use version_book::seen_log::BookName;
use version_book::session::Session;
use version_book::shared::Shared;

/// A session on its way: the line that is being read, and the batch that waits for lines. The turns that ended are
/// answered, in whatever portions their bytes came. The end of its script ends it, and so does a write that fails.
#[derive(Debug, Drop)]
pub struct SessionState {
    line: LineBuffer,
    waiting: Option<OpenBatch>,
    ended: bool,
}

impl SessionState {
    /// A session that has taken nothing. The room for its lines is had now.
    pub fn new(alloc: Global) -> Result<SessionState, AllocError>
        ensures begun { IfOk result (λ state. HasTaken state []) }
        ensures going { IfOk result (λ state. has_ended state ≡ false) }
    {
        let line = LineBuffer::new(alloc)?;
        Ok(SessionState {
            line,
            waiting: None,
            ended: false,
        })
    }

    /// Whether its script ended, or a write failed.
    pub fn has_ended(&self) -> bool
        ensures { result ≡ has_ended self.now }
    {
        self.ended
    }

    /// Takes more bytes of the script, and answers each turn that they end before it looks at the bytes after it.
    pub fn take<J: BookName, S: Wait + Drop, Q: Wait + Threads + Sync, W: ReplyWriter>(
        &mut self,
        rt: &Q,
        alloc: Global,
        shared: &Shared<J, S>,
        me: &mut Session,
        bytes: &[u8],
        writer: &mut W,
    ) -> Result<(), CommandFault>
        requires book { me.old.book ≡ J.book }
        // What the turns that the bytes end ask for may be submitted. Of nothing else can this be shown, also in a call
        // that never returns.
        requires asked { MayAskNext (J.asked me.old.session) self.old bytes.now }
        requires going { has_ended self.old ≡ false }
        requires reported { MayReport J.stored J.failed (has_store shared.now) me.old W.may_report }
        requires from { W.from writer.old (has_store shared.now) me.old }
        requires own { IfSome (W.left writer.old) (AreNext self.old bytes.now) }
        ensures takes { OnOk result ((taken : List ℕ) → HasTaken self.old taken
            → HasTaken self.new (taken ++ bytes.now)) }
        ensures answers { OnOk result ((taken : List ℕ) → HasTaken self.old taken
            → AnswersTurns (store_of J.stored J.failed (has_store shared.now))
            me.old (turns_ended taken bytes.now) me.new (W.contents writer.old) (W.contents writer.new)) }
        ensures stops { OnErr result ((taken : List ℕ) → HasTaken self.old taken
            → AnswersInPart (store_of J.stored J.failed (has_store shared.now))
            me.old (turns_ended taken bytes.now) me.new (W.contents writer.old) (W.contents writer.new)) }
        ensures fault { IfErr result (λ fault. fault ≡ CommandFault.Write) }
        ensures ended { has_ended self.new ≡ is_err result }
        ensures from { OnOk result (W.from writer.new (has_store shared.now) me.new) }
        ensures left { OnOk result (MatchOption (W.left writer.old) (W.left writer.new ≡ None)
            (λ left. (taken : List ℕ) → HasTaken self.old taken
            → W.left writer.new ≡ Some (drop (length (turns_ended taken bytes.now)) left))) }
        ensures limit { OnOk result (W.may_pass_limit writer.old → W.may_pass_limit writer.new) }
        ensures stays { Stays me.old me.new }
        // Each version that a reply reports is one of a history.
        ensures history { IsHistory (seen me.new) }
    {
        let reported = self.answer_bytes(rt, alloc, shared, me, bytes, writer);
        // What it has seen is a log with a first entry: a clause rests on that.
        let _ = me.seen_log().at();
        reported
    }

    fn answer_bytes<J: BookName, S: Wait + Drop, Q: Wait + Threads + Sync, W: ReplyWriter>(
        &mut self,
        rt: &Q,
        alloc: Global,
        shared: &Shared<J, S>,
        me: &mut Session,
        bytes: &[u8],
        writer: &mut W,
    ) -> Result<(), CommandFault>
        requires book { me.old.book ≡ J.book }
        requires asked { MayAskNext (J.asked me.old.session) self.old bytes.now }
        requires going { has_ended self.old ≡ false }
        requires reported { MayReport J.stored J.failed (has_store shared.now) me.old W.may_report }
        requires from { W.from writer.old (has_store shared.now) me.old }
        requires own { IfSome (W.left writer.old) (AreNext self.old bytes.now) }
        ensures takes { OnOk result ((taken : List ℕ) → HasTaken self.old taken
            → HasTaken self.new (taken ++ bytes.now)) }
        ensures answers { OnOk result ((taken : List ℕ) → HasTaken self.old taken
            → AnswersTurns (store_of J.stored J.failed (has_store shared.now))
            me.old (turns_ended taken bytes.now) me.new (W.contents writer.old) (W.contents writer.new)) }
        ensures stops { OnErr result ((taken : List ℕ) → HasTaken self.old taken
            → AnswersInPart (store_of J.stored J.failed (has_store shared.now))
            me.old (turns_ended taken bytes.now) me.new (W.contents writer.old) (W.contents writer.new)) }
        ensures fault { IfErr result (λ fault. fault ≡ CommandFault.Write) }
        ensures ended { has_ended self.new ≡ is_err result }
        ensures from { OnOk result (W.from writer.new (has_store shared.now) me.new) }
        ensures left { OnOk result (MatchOption (W.left writer.old) (W.left writer.new ≡ None)
            (λ left. (taken : List ℕ) → HasTaken self.old taken
            → W.left writer.new ≡ Some (drop (length (turns_ended taken bytes.now)) left))) }
        ensures limit { OnOk result (W.may_pass_limit writer.old → W.may_pass_limit writer.new) }
        ensures stays { Stays me.old me.new }
    {
        let mut rest = bytes;
        while let Some(at) = memchr(b'\n', rest) {
            self.end_line(rt, alloc, shared, me, &rest[..at], writer)?;
            rest = &rest[at + 1..];
        }
        self.line.push_all(rest);
        Ok(())
    }

    /// Takes what comes of a line and the line feed that ends it.
    fn end_line<J: BookName, S: Wait + Drop, Q: Wait + Threads + Sync, W: ReplyWriter>(
        &mut self,
        rt: &Q,
        alloc: Global,
        shared: &Shared<J, S>,
        me: &mut Session,
        bytes: &[u8],
        writer: &mut W,
    ) -> Result<(), CommandFault>
        requires book { me.old.book ≡ J.book }
        requires asked { MayAskNext (J.asked me.old.session) self.old (bytes.now ++ 10 ∷ []) }
        requires going { has_ended self.old ≡ false }
        requires reported { MayReport J.stored J.failed (has_store shared.now) me.old W.may_report }
        requires from { W.from writer.old (has_store shared.now) me.old }
        requires no_feed { IsTrue (has_no_feed bytes.now) }
        requires own { IfSome (W.left writer.old) (AreNext self.old (bytes.now ++ 10 ∷ [])) }
        ensures takes { OnOk result ((taken : List ℕ) → HasTaken self.old taken
            → HasTaken self.new (taken ++ (bytes.now ++ 10 ∷ []))) }
        ensures answers { OnOk result ((taken : List ℕ) → HasTaken self.old taken
            → AnswersTurns (store_of J.stored J.failed (has_store shared.now))
            me.old (turns_ended taken (bytes.now ++ 10 ∷ [])) me.new (W.contents writer.old) (W.contents writer.new)) }
        ensures stops { OnErr result ((taken : List ℕ) → HasTaken self.old taken
            → AnswersInPart (store_of J.stored J.failed (has_store shared.now))
            me.old (turns_ended taken (bytes.now ++ 10 ∷ [])) me.new (W.contents writer.old) (W.contents writer.new)) }
        ensures fault { IfErr result (λ fault. fault ≡ CommandFault.Write) }
        ensures ended { has_ended self.new ≡ is_err result }
        ensures from { OnOk result (W.from writer.new (has_store shared.now) me.new) }
        ensures left { OnOk result (MatchOption (W.left writer.old) (W.left writer.new ≡ None)
            (λ left. (taken : List ℕ) → HasTaken self.old taken
            → W.left writer.new ≡ Some (drop (length (turns_ended taken (bytes.now ++ 10 ∷ []))) left))) }
        ensures limit { OnOk result (W.may_pass_limit writer.old → W.may_pass_limit writer.new) }
        ensures stays { Stays me.old me.new }
    {
        self.line.push_all(bytes);
        let mut waiting = self.waiting.take();
        let line = self.line.without_cr();
        let reported = answer_line(rt, alloc, shared, me, &mut waiting, line, writer);
        self.waiting = waiting;
        self.line.clear();
        self.ended = reported.is_err();
        reported
    }

    /// Takes the end of the script: answers a last line that lacks its line feed, and refuses a batch whose lines did
    /// not all come.
    pub fn finish<J: BookName, S: Wait + Drop, Q: Wait + Threads + Sync, W: ReplyWriter>(
        &mut self,
        rt: &Q,
        alloc: Global,
        shared: &Shared<J, S>,
        me: &mut Session,
        writer: &mut W,
    ) -> Result<(), CommandFault>
        requires book { me.old.book ≡ J.book }
        requires asked { MayAskLast (J.asked me.old.session) self.old }
        requires going { has_ended self.old ≡ false }
        requires reported { MayReport J.stored J.failed (has_store shared.now) me.old W.may_report }
        requires from { W.from writer.old (has_store shared.now) me.old }
        requires own { IfSome (W.left writer.old) (IsOnWay self.old []) }
        ensures answers { OnOk result ((taken : List ℕ) → HasTaken self.old taken
            → AnswersTurns (store_of J.stored J.failed (has_store shared.now))
            me.old (turns_at_end taken) me.new (W.contents writer.old) (W.contents writer.new)) }
        ensures stops { OnErr result ((taken : List ℕ) → HasTaken self.old taken
            → AnswersInPart (store_of J.stored J.failed (has_store shared.now))
            me.old (turns_at_end taken) me.new (W.contents writer.old) (W.contents writer.new)) }
        ensures fault { IfErr result (λ fault. fault ≡ CommandFault.Write) }
        ensures ended { has_ended self.new ≡ true }
        ensures stays { Stays me.old me.new }
        ensures history { IsHistory (seen me.new) }
    {
        let reported = self.answer_end(rt, alloc, shared, me, writer);
        let _ = me.seen_log().at();
        reported
    }

    fn answer_end<J: BookName, S: Wait + Drop, Q: Wait + Threads + Sync, W: ReplyWriter>(
        &mut self,
        rt: &Q,
        alloc: Global,
        shared: &Shared<J, S>,
        me: &mut Session,
        writer: &mut W,
    ) -> Result<(), CommandFault>
        requires book { me.old.book ≡ J.book }
        requires asked { MayAskLast (J.asked me.old.session) self.old }
        requires going { has_ended self.old ≡ false }
        requires reported { MayReport J.stored J.failed (has_store shared.now) me.old W.may_report }
        requires from { W.from writer.old (has_store shared.now) me.old }
        requires own { IfSome (W.left writer.old) (IsOnWay self.old []) }
        ensures answers { OnOk result ((taken : List ℕ) → HasTaken self.old taken
            → AnswersTurns (store_of J.stored J.failed (has_store shared.now))
            me.old (turns_at_end taken) me.new (W.contents writer.old) (W.contents writer.new)) }
        ensures stops { OnErr result ((taken : List ℕ) → HasTaken self.old taken
            → AnswersInPart (store_of J.stored J.failed (has_store shared.now))
            me.old (turns_at_end taken) me.new (W.contents writer.old) (W.contents writer.new)) }
        ensures fault { IfErr result (λ fault. fault ≡ CommandFault.Write) }
        ensures ended { has_ended self.new ≡ true }
        ensures stays { Stays me.old me.new }
    {
        self.ended = true;
        let mut waiting = self.waiting.take();
        let line = self.line.bytes();
        if line.is_empty() {
            return end_batch::<J, W>(me, &waiting, writer);
        }
        answer_line(rt, alloc, shared, me, &mut waiting, line, writer)?;
        end_batch::<J, W>(me, &waiting, writer)
    }
}

/// Answers the turn that a line ends, if it ends one.
fn answer_line<J: BookName, S: Wait + Drop, Q: Wait + Threads + Sync, W: ReplyWriter>(
    rt: &Q,
    alloc: Global,
    shared: &Shared<J, S>,
    me: &mut Session,
    waiting: &mut Option<OpenBatch>,
    line: &[u8],
    writer: &mut W,
) -> Result<(), CommandFault>
    requires book { me.old.book ≡ J.book }
    requires asked { MayAskAtLine (J.asked me.old.session) waiting.old line.now }
    requires reported { MayReport J.stored J.failed (has_store shared.now) me.old W.may_report }
    requires from { W.from writer.old (has_store shared.now) me.old }
    requires own { IfSome (W.left writer.old) (IsAtLine waiting.old line.now) }
    ensures answers { AnswersLine (store_of J.stored J.failed (has_store shared.now)) result
        me.old waiting.old line.now me.new waiting.new (W.contents writer.old) (W.contents writer.new) }
    ensures fault { IfErr result (λ fault. fault ≡ CommandFault.Write) }
    ensures from { OnOk result (W.from writer.new (has_store shared.now) me.new) }
    ensures left { OnOk result (MatchOption (W.left writer.old) (W.left writer.new ≡ None)
        (λ left. (batch : Option Waiting) → IsOpen batch waiting.old
        → W.left writer.new ≡ Some (drop (length (ended_by batch (request_of line.now))) left))) }
    ensures limit { OnOk result (W.may_pass_limit writer.old → W.may_pass_limit writer.new) }
{
    match answer(rt, alloc, shared, me, waiting, line) {
        Some(reply) => writer.reply(me, &reply),
        None => Ok(()),
    }
}

/// After the last line: refuses a batch that waits.
fn end_batch<J: BookName, W: ReplyWriter>(
    me: &Session,
    waiting: &Option<OpenBatch>,
    writer: &mut W,
) -> Result<(), CommandFault>
    requires from { (there : Bool) × W.from writer.old there me.now }
    requires own { IfSome (W.left writer.old) (IsAtLast waiting.now) }
    ensures ends { (there : Bool) → EndsBatch (store_of J.stored J.failed there) result waiting.now
        (W.contents writer.old) (W.contents writer.new) }
    ensures fault { IfErr result (λ fault. fault ≡ CommandFault.Write) }
{
    if waiting.is_none() {
        return Ok(());
    }
    writer.reply(me, &LineReply::Fault(CommandFault::CommandSyntax))
}
