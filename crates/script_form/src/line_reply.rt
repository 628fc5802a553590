//! The reply to a line, and its bytes.
ghost use Rattle.std.specs.Prelude.{◌≡◌, ◌+◌, ◌≤◌, ◌++◌, IfErr, length};
ghost use Rattle.arrayvec.specs.ArrayString.{array_string_len};
ghost use Rattle.layer_book.specs.Place.{location};
ghost use Rattle.script_form.specs.Replies.{numbered_line, error_line, refused_line, location_line, verdict_line, reply_text};
ghost use Rattle.fault_texts.specs.FaultText.{shown, IsBrief};
ghost use Rattle.script_form.specs.Writing.{Writes};

use crate::fault::CommandFault;
use crate::fault_text::fault_text;
use crate::reply_bytes::write_text;
use arrayvec::ArrayString;
use fault_texts::FaultText;
use itoa::Buffer;
use layer_book::direct_answer::Place;
use std::io::Write;
use version_core::verifying::Verdict;

/// What is written for a line, or for a batch.
#[derive(Debug, Drop)]
pub enum LineReply {
    /// Nothing: the line was skipped, or the batch that it belongs to waits for more.
    Nothing,
    /// A command or a batch was accepted, with the number of its version.
    Accepted(u64),
    Located(Place),
    /// The tiles of a layer are built, with the number of the version.
    Built(u64),
    /// The durable number.
    Durable(u64),
    Compared(Verdict),
    Fault(CommandFault),
    /// A line of a batch, counted from 0, and its fault.
    RefusedAt(u32, CommandFault),
    /// Lines of text, each with its line feed.
    Lines(Vec<u8>),
}

/// Writes the reply, without taking memory.
pub fn write_reply<W: Write>(writer: &mut W, reply: &LineReply) -> Result<(), CommandFault>
    ensures writes { Writes result (W.contents writer.old) (W.contents writer.new) (reply_text reply.now) }
    ensures err { IfErr result (λ fault. fault ≡ CommandFault.Write) }
{
    match reply {
        LineReply::Nothing => Ok(()),
        LineReply::Accepted(number) => {
            write_text(writer, numbered_text("ok ", *number).as_str().as_bytes())
        }
        LineReply::Located(place) => write_text(writer, location_text(*place)),
        LineReply::Built(number) => {
            write_text(writer, numbered_text("built ", *number).as_str().as_bytes())
        }
        LineReply::Durable(number) => {
            write_text(
                writer,
                numbered_text("durable ", *number).as_str().as_bytes(),
            )
        }
        LineReply::Compared(verdict) => write_text(writer, verdict_text(*verdict)),
        LineReply::Fault(fault) => write_text(writer, error_text(*fault).as_str().as_bytes()),
        LineReply::RefusedAt(place, fault) => {
            write_text(writer, refused_text(*place, *fault).as_str().as_bytes())
        }
        LineReply::Lines(lines) => write_text(writer, lines.as_slice()),
    }
}

/// A word and a number.
fn numbered_text(word: &str, number: u64) -> ArrayString<32>
    requires { length word.now ≤ 8 }
    ensures { result.bytes ≡ numbered_line word.now number }
{
    let mut digits = Buffer::new();
    let mut text = ArrayString::new();
    text.push_str(word);
    text.push_str(digits.format(number));
    text.push_str("\n");
    text
}

fn verdict_text(verdict: Verdict) -> &'static [u8]
    ensures { result.now ≡ verdict_line verdict }
{
    match verdict {
        Verdict::Same => b"same\n",
        Verdict::Different => b"different\n",
    }
}

fn location_text(place: Place) -> &'static [u8]
    ensures { result.now ≡ location_line (location place) }
{
    match place {
        Place::Inside => b"in\n",
        Place::Outside => b"out\n",
        Place::Edge => b"edge\n",
    }
}

/// The line that reports a fault.
fn error_text(fault: CommandFault) -> ArrayString<128>
    ensures { result.bytes ≡ error_line fault }
{
    let mut line = ArrayString::new();
    push_error(&mut line, fault);
    line
}

/// The line that reports a fault of a line of a batch.
fn refused_text(place: u32, fault: CommandFault) -> ArrayString<128>
    ensures { result.bytes ≡ refused_line place fault }
{
    let mut digits = Buffer::new();
    let mut line = ArrayString::new();
    line.push_str("refused ");
    line.push_str(digits.format(place));
    line.push_str(" ");
    push_error(&mut line, fault);
    line
}

/// Appends the line that reports a fault to what comes before it, if that is short.
fn push_error(line: &mut ArrayString<128>, fault: CommandFault)
    requires room { array_string_len line.old ≤ 30 }
    ensures { line.new.bytes ≡ line.old.bytes ++ error_line fault }
{
    let mut digits = Buffer::new();
    line.push_str("error ");
    line.push_str(digits.format(fault.code()));
    line.push_str(" ");
    push_text(line, fault_text(fault));
    line.push_str("\n");
}

/// Appends the text of a fault to a line that has room for it.
fn push_text(line: &mut ArrayString<128>, text: FaultText)
    requires room { array_string_len line.old ≤ 60 }
    requires brief { IsBrief text }
    ensures bytes { line.new.bytes ≡ line.old.bytes ++ shown text }
    ensures len { array_string_len line.new ≤ array_string_len line.old + 60 }
{
    let mut digits = Buffer::new();
    match text {
        FaultText::Plain(text) => line.push_str(text),
        FaultText::At(text, number) => {
            line.push_str(text);
            line.push_str(digits.format(number));
        }
        FaultText::Ring(number, text) => {
            line.push_str("ring ");
            line.push_str(digits.format(number));
            line.push_str(text);
        }
    }
}
