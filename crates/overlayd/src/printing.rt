//! Printing what the sessions wrote.
ghost use Rattle.std.specs.Prelude.{◌≡◌, ◌<◌, ◌≤◌, ◌^◌, List, ℕ, map, OnErr, OnOk, nat_lt};
ghost use Rattle.std.specs.Io.KnownBytes.{Appends};
ghost use mathlib.Core.List.{IsPrefix};
ghost use Rattle.script_form.specs.Writing.{Writes};
ghost use Rattle.overlayd.specs.Printing.{printed, session_text, script_line, replies_of};

use arrayvec::ArrayString;
use itoa::Buffer;
use script_form::fault::CommandFault;
use script_form::reply_bytes::write_text;
use session_threads::port::Finished;
use std::io::Write;

/// Prints what each session wrote, in the order of the scripts, with a line for each before it where there are several.
pub fn print_all<W: Write>(
    output: &mut W,
    sessions: &[Finished<Vec<u8>>],
) -> Result<(), CommandFault>
    ensures whole { OnOk result
        (Appends (W.contents output.old) (W.contents output.new) (printed (map replies_of sessions.now))) }
    // Where printing fails, what was written begins the same text.
    ensures part { OnErr result
        ((front : List ℕ) × IsPrefix front (printed (map replies_of sessions.now))
        × Appends (W.contents output.old) (W.contents output.new) front) }
{
    let several = sessions.len() > 1;
    for (i, session) in sessions.iter().enumerate() {
        print_session(output, several, i + 1, session)?;
    }
    match output.flush() {
        Ok(()) => Ok(()),
        Err(_) => Err(CommandFault::Write),
    }
}

/// Prints what the session of this number wrote, with a line before it where there are several.
fn print_session<W: Write>(
    output: &mut W,
    several: bool,
    number: usize,
    session: &Finished<Vec<u8>>,
) -> Result<(), CommandFault>
    ensures { Writes result (W.contents output.old) (W.contents output.new)
        (session_text several number (replies_of session.now)) }
{
    if several {
        write_text(output, script_line(number).as_str().as_bytes())?;
    }
    write_text(output, session.writer.as_slice())
}

/// The line before what the session of this number wrote.
fn script_line(number: usize) -> ArrayString<32>
    ensures { result.bytes ≡ script_line number }
{
    let mut digits = Buffer::new();
    let mut line = ArrayString::new();
    line.push_str("# script ");
    line.push_str(digits.format(number));
    line.push_str("\n");
    line
}
