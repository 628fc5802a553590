//! The tokens of a text.
ghost use Rattle.std.specs.Prelude.{◌≡◌, ◌≤◌, ◌<◌, ◌+◌, ℕ, [], ◌∷◌, false, length, drop, slice_index, IfSome, IfNone};
ghost use Rattle.std.specs.Str.{str_to_ascii_uppercase, bytes_eq};
ghost use Rattle.std.specs.Char.{is_ascii_alphabetic};
ghost use Rattle.std.specs.List.{prefix_len};
ghost use Rattle.overlay_terms.specs.Blank.{is_blank};
ghost use Rattle.wkt_form.specs.Token.{is_run_byte};
ghost use Rattle.wkt_form.specs.Symbol.{word_symbol, run_symbol, mark_symbol};
ghost use Rattle.wkt_form.specs.Seen.{seen_from};

use crate::number::{Number, is_run_byte, number_of, plain_number};
use overlay_terms::blank::is_blank;

/// A token as the grammar sees it.
#[derive(Clone, Copy, Debug, PartialEq, Eq)]
pub enum Symbol {
    Polygon,
    MultiPolygon,
    Empty,
    Number(Number),
    Open,
    Close,
    Comma,
    /// What no text has: another word, a run that is no number, another byte.
    Unknown,
}

/// A token and the offset of its first byte.
#[derive(Clone, Copy, Debug, PartialEq, Eq)]
pub struct Token {
    pub at: usize,
    pub symbol: Symbol,
}

/// How many blanks the bytes begin with.
fn blank_count(bytes: &[u8]) -> usize
    ensures value { result ≡ prefix_len is_blank bytes.now }
    ensures within { result ≤ length bytes.now }
{
    bytes.iter().take_while(|b| is_blank(**b)).count()
}

/// How many letters the bytes begin with.
fn letter_count(bytes: &[u8]) -> usize
    ensures { result ≡ prefix_len is_ascii_alphabetic bytes.now }
{
    bytes.iter().take_while(|b| b.is_ascii_alphabetic()).count()
}

/// How many digits, signs and points the bytes begin with.
fn run_byte_count(bytes: &[u8]) -> usize
    ensures { result ≡ prefix_len is_run_byte bytes.now }
{
    bytes.iter().take_while(|b| is_run_byte(**b)).count()
}

/// Whether a word is this one, which is given in upper case.
fn is_word(word: &[u8], upper: &[u8]) -> bool
    requires { str_to_ascii_uppercase upper.now ≡ upper.now }
    ensures { result ≡ bytes_eq (str_to_ascii_uppercase word.now) upper.now }
{
    word.eq_ignore_ascii_case(upper)
}

fn word_symbol(word: &[u8]) -> Symbol
    ensures { result ≡ word_symbol (str_to_ascii_uppercase word.now) }
{
    if is_word(word, b"POLYGON") {
        Symbol::Polygon
    } else if is_word(word, b"MULTIPOLYGON") {
        Symbol::MultiPolygon
    } else if is_word(word, b"EMPTY") {
        Symbol::Empty
    } else {
        Symbol::Unknown
    }
}

fn run_symbol(run: &[u8]) -> Symbol
    ensures { result ≡ run_symbol run.now }
{
    match number_of(run) {
        Some(number) => Symbol::Number(number),
        None => Symbol::Unknown,
    }
}

fn mark_symbol(byte: u8) -> Symbol
    ensures { result ≡ mark_symbol byte }
{
    match byte {
        b'(' => Symbol::Open,
        b')' => Symbol::Close,
        b',' => Symbol::Comma,
        _ => Symbol::Unknown,
    }
}

/// The symbol that bytes begin with, and how many of them it takes. Most are plain numbers; others are known by their
/// first byte.
fn first_symbol(bytes: &[u8]) -> (Symbol, usize)
    requires some { 0 < length bytes.now }
    requires no_blank { is_blank (slice_index bytes.now 0) ≡ false }
    ensures size { (0 < result.1) × (result.1 ≤ length bytes.now) }
    ensures first { (at : ℕ) → seen_from at bytes.now
        ≡ record { at = at; symbol = result.0 } ∷ seen_from (at + result.1) (drop result.1 bytes.now) }
{
    if let Some((number, size)) = plain_number(bytes) {
        return (Symbol::Number(number), size);
    }
    let first = bytes[0];
    if first.is_ascii_alphabetic() {
        let size = letter_count(bytes);
        (word_symbol(&bytes[..size]), size)
    } else if is_run_byte(first) {
        let size = run_byte_count(bytes);
        (run_symbol(&bytes[..size]), size)
    } else {
        (mark_symbol(first), 1)
    }
}

/// The offset of the first byte from this one on that is no blank, or the length.
fn past_blanks(bytes: &[u8], at: usize) -> usize
    requires { at ≤ length bytes.now }
    ensures same { seen_from at (drop at bytes.now) ≡ seen_from result (drop result bytes.now) }
    ensures on { (at ≤ result) × (result ≤ length bytes.now) }
    ensures visible { result < length bytes.now → is_blank (slice_index bytes.now result) ≡ false }
{
    at + blank_count(&bytes[at..])
}

/// The first token from an offset on, and the offset after it.
pub fn token_from(bytes: &[u8], at: usize) -> Option<(Token, usize)>
    requires { at ≤ length bytes.now }
    ensures none { IfNone result (seen_from at (drop at bytes.now) ≡ []) }
    ensures some { IfSome result
        (λ found. seen_from at (drop at bytes.now) ≡ found.0 ∷ seen_from found.1 (drop found.1 bytes.now)) }
    ensures on { IfSome result (λ found. (at < found.1) × (found.1 ≤ length bytes.now)) }
{
    let at = past_blanks(bytes, at);
    if at == bytes.len() {
        return None;
    }
    let (symbol, size) = first_symbol(&bytes[at..]);
    Some((Token { at, symbol }, at + size))
}
