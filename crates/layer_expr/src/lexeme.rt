//! The tokens of an expression, found one after another.
ghost use Rattle.std.specs.Prelude.{◌≡◌, ℕ, ◌+◌, ◌<◌, ◌≤◌, [], ◌∷◌};
ghost use Rattle.std.specs.Prelude.{length, drop, false, IfNone, IfSome, slice_index, take_while};
ghost use Rattle.overlay_terms.specs.Blank.{is_blank};
ghost use Rattle.layer_expr.specs.Token.{sign_kind, tokens_after};
ghost use Rattle.layer_expr.specs.Name.{is_name_byte};
ghost use Rattle.layer_expr.specs.Lexeme.{kind_of_sign, token_in};

use crate::expr::Operation;
use crate::name::goes_on;
use overlay_terms::blank::is_blank;

/// What a token is.
#[derive(Clone, Copy, Debug, PartialEq, Eq)]
pub enum Sort {
    Name,
    Sign(Sign),
}

/// A token of one byte; a stray byte begins no token.
#[derive(Clone, Copy, Debug, PartialEq, Eq)]
pub enum Sign {
    Operator(Operation),
    OpenBracket,
    CloseBracket,
    Stray,
}

/// A token, the offset of its first byte, and that of the byte after it.
#[derive(Clone, Copy, Debug)]
pub struct Lexeme {
    pub sort: Sort,
    pub at: usize,
    pub end: usize,
}

/// The first token at or after an offset.
pub fn next_lexeme(bytes: &[u8], from: usize) -> Option<Lexeme>
    requires { from ≤ length bytes.now }
    ensures none { IfNone result (tokens_after false from (drop from bytes.now) ≡ []) }
    ensures some { IfSome result
        (λ lexeme. tokens_after false from (drop from bytes.now)
        ≡ token_in bytes.now lexeme ∷ tokens_after false lexeme.end (drop lexeme.end bytes.now)) }
    ensures within { IfSome result (λ lexeme. (lexeme.at < lexeme.end) × (from < lexeme.end)
        × (lexeme.end ≤ length bytes.now)) }
{
    let at = skip_blanks(bytes, from);
    if at == bytes.len() {
        return None;
    }
    let first = bytes[at];
    if first.is_ascii_alphabetic() {
        let end = name_end(bytes, at);
        return Some(Lexeme {
            sort: Sort::Name,
            at,
            end,
        });
    }
    Some(Lexeme {
        sort: Sort::Sign(sign_of(first)),
        at,
        end: at + 1,
    })
}

/// The offset of the first byte at or after `from` that is no white space, or the length.
fn skip_blanks(bytes: &[u8], from: usize) -> usize
    requires { from ≤ length bytes.now }
    ensures low { from ≤ result }
    ensures high { result ≤ length bytes.now }
    ensures same { tokens_after false from (drop from bytes.now) ≡ tokens_after false result (drop result bytes.now) }
    ensures stops { result < length bytes.now → is_blank (slice_index bytes.now result) ≡ false }
{
    let mut at = from;
    while at < bytes.len() {
        if !is_blank(bytes[at]) {
            return at;
        }
        at += 1;
    }
    at
}

/// The offset after the letters, digits and underscores that begin at an offset.
fn name_end(bytes: &[u8], from: usize) -> usize
    requires { from ≤ length bytes.now }
    ensures { result ≡ from + length (take_while is_name_byte (drop from bytes.now)) }
{
    let mut end = from;
    while end < bytes.len() {
        if !goes_on(bytes[end]) {
            return end;
        }
        end += 1;
    }
    end
}

fn sign_of(byte: u8) -> Sign
    ensures { kind_of_sign result ≡ sign_kind byte }
{
    match byte {
        b'&' => Sign::Operator(Operation::Intersection),
        b'|' => Sign::Operator(Operation::Union),
        b'-' => Sign::Operator(Operation::Difference),
        b'^' => Sign::Operator(Operation::SymDifference),
        b'(' => Sign::OpenBracket,
        b')' => Sign::CloseBracket,
        _ => Sign::Stray,
    }
}
