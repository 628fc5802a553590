//! What a line asks for.
ghost use Rattle.std.specs.Prelude.{◌≡◌, option_map, bytes_eq};
ghost use Rattle.script_form.specs.Lines.{is_skipped, begins_comment};
ghost use Rattle.script_form.specs.Requests.{request, request_of, asked_of, asked_by, asked_in, ends};

use crate::arguments::Rest;
use crate::words::all_gaps;

/// The most bytes of a line, without its ending.
pub const LINE_MAX: usize = 65536;

/// A request, with the bytes of its line that it speaks of.
#[derive(Clone, Copy, Debug)]
pub enum Request<'a> {
    /// The line is skipped.
    Nothing,
    TooLong,
    Malformed,
    /// A name and the text of rings.
    Put(&'a [u8], &'a [u8]),
    /// A name and the text of an expression.
    Define(&'a [u8], &'a [u8]),
    Remove(&'a [u8]),
    /// A name, and x, y and w of a point.
    Locate(&'a [u8], i64, i64, i64),
    /// A name, x and y of a grid's first point, its step, and how many points are in a row and in a column.
    Grid(&'a [u8], i64, i64, i64, i64, i64),
    ListLayers,
    /// A name and the number of a column.
    Edges(&'a [u8], i64),
    Wait(&'a [u8]),
    /// A name and the number of a column.
    Verify(&'a [u8], i64),
    Sync,
    /// How many commands a batch is to have.
    Batch(i64),
}

/// What the line asks for, or that it is too long (error 42).
pub fn request_of(line: &[u8]) -> Request<'_>
    ensures { request result ≡ request_of line.now }
{
    if line.len() > LINE_MAX {
        return Request::TooLong;
    }
    if is_skipped(line) {
        return Request::Nothing;
    }
    asked_of(line).unwrap_or(Request::Malformed)
}

/// Whether the line has no reply: it has gaps alone, or begins with `#`.
fn is_skipped(line: &[u8]) -> bool
    ensures { result ≡ is_skipped line.now }
{
    begins_comment(line) || all_gaps(line)
}

fn begins_comment(line: &[u8]) -> bool
    ensures { result ≡ begins_comment line.now }
{
    match line {
        [first, ..] => *first == b'#',
        [] => false,
    }
}

/// What a line asks for by its first word. None where it is malformed, here and below.
fn asked_of(line: &[u8]) -> Option<Request<'_>>
    ensures { option_map request result ≡ asked_of line.now }
{
    let mut rest = Rest(line);
    let word = rest.word()?;
    asked_by(word, rest)
}

/// What the command with this word asks for by what comes after it: the table of commands.
fn asked_by<'a>(word: &[u8], mut rest: Rest<'a>) -> Option<Request<'a>>
    ensures { option_map request result ≡ asked_by (word.now, rest.entry.0.now) }
{
    if is_word(word, b"PUT") {
        return ended(Request::Put(rest.word()?, rest.text()?), rest);
    }
    if is_word(word, b"DEFINE") {
        return ended(Request::Define(rest.left_side()?, rest.right_side()?), rest);
    }
    if is_word(word, b"DROP") {
        return ended(Request::Remove(rest.word()?), rest);
    }
    if is_word(word, b"LOCATE") {
        let (name, x, y) = (rest.word()?, rest.number()?, rest.number()?);
        return ended(Request::Locate(name, x, y, rest.number_or_one()?), rest);
    }
    if is_word(word, b"GRID") {
        let (name, x, y) = (rest.word()?, rest.number()?, rest.number()?);
        let (step, nx, ny) = (rest.number()?, rest.number()?, rest.number()?);
        return ended(Request::Grid(name, x, y, step, nx, ny), rest);
    }
    if is_word(word, b"LAYERS") {
        return ended(Request::ListLayers, rest);
    }
    if is_word(word, b"BATCH") {
        return ended(Request::Batch(rest.number()?), rest);
    }
    if is_word(word, b"EDGES") {
        return ended(Request::Edges(rest.word()?, rest.number()?), rest);
    }
    if is_word(word, b"WAIT") {
        return ended(Request::Wait(rest.word()?), rest);
    }
    if is_word(word, b"VERIFY") {
        return ended(Request::Verify(rest.word()?, rest.number()?), rest);
    }
    if is_word(word, b"SYNC") {
        return ended(Request::Sync, rest);
    }
    None
}

/// Whether a word is a command's, byte by byte: in capital letters.
fn is_word(word: &[u8], command: &[u8]) -> bool
    ensures { result ≡ bytes_eq word.now command.now }
{
    word == command
}

/// The request, if nothing more comes.
fn ended<'a>(asked: Request<'a>, rest: Rest<'a>) -> Option<Request<'a>>
    ensures { option_map request result ≡ asked_in (ends (request asked.entry)) rest.entry.0.now }
{
    if rest.is_over() { Some(asked) } else { None }
}
