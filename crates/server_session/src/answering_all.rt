//! The answer to the lines of a batch.
ghost use Rattle.std.specs.Prelude.{◌≡◌, IfOk};
ghost use Rattle.script_form.specs.Replies.{reply_text};
ghost use Rattle.server_session.specs.Answering.{AnswersAll, SubmitsAll};
ghost use Rattle.server_session.specs.Fault.{lines_reported};
ghost use Rattle.server_session.specs.Replying.{IsReplySince};
ghost use Rattle.server_session.specs.Stores.{store_of};
ghost use Rattle.version_book.specs.Store.{has_store};

use crate::fault::numbered;
use layer_book::batch::Batch;
use layer_book::batch_fault::BatchFault;
use script_form::{CommandFault, LineReply, LinesFault};
use std::alloc::Global;
use std::sync::Wait;
use version_book::seen_log::BookName;
use version_book::session::Session;
use version_book::shared::Shared;

/// The reply to the lines of a batch, by what they were read as.
pub(crate) fn answer_batch<J: BookName, S: Wait + Drop, Q: Wait>(
    rt: &Q,
    alloc: Global,
    shared: &Shared<J, S>,
    me: &mut Session,
    read: Result<Batch, LinesFault>,
) -> LineReply
    requires book { me.old.book ≡ J.book }
    requires asked { IfOk read (λ batch. J.asked me.old.session batch) }
    ensures answers { AnswersAll me.old read me.new (reply_text result) }
    ensures right { IsReplySince (store_of J.stored J.failed (has_store shared.now)) me.old me.new (reply_text result) }
{
    match read {
        Ok(batch) => submit_all(rt, alloc, shared, me, &batch),
        Err(fault) => unread(fault),
    }
}

/// The reply to lines that are not read as commands.
fn unread(fault: LinesFault) -> LineReply
    ensures { reply_text result ≡ lines_reported fault }
{
    match fault {
        LinesFault::Unread(place, fault) => LineReply::RefusedAt(place, fault),
        LinesFault::OutOfMemory => LineReply::Fault(CommandFault::OutOfMemory),
    }
}

/// The reply to a batch.
fn submit_all<J: BookName, S: Wait + Drop, Q: Wait>(
    rt: &Q,
    alloc: Global,
    shared: &Shared<J, S>,
    me: &mut Session,
    batch: &Batch,
) -> LineReply
    requires book { me.old.book ≡ J.book }
    requires asked { J.asked me.old.session batch.now }
    ensures { SubmitsAll me.old batch.now me.new (reply_text result) }
{
    match shared.submit_all(rt, alloc, me, batch) {
        Ok(number) => LineReply::Accepted(number),
        Err(BatchFault::At(place, code)) => LineReply::RefusedAt(place, numbered(code)),
        Err(BatchFault::Whole(code)) => LineReply::Fault(numbered(code)),
    }
}
