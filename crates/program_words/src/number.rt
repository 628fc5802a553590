//! Numbers among the words.
ghost use Rattle.std.specs.Prelude.{◌≡◌};
ghost use Rattle.overlay_terms.specs.Bytes.{digits_number};

use overlay_terms::digits::digits_number;

/// The most digits of a number.
pub const DIGITS_MAX: usize = 7;

/// The number that one to seven decimal digits spell.
pub fn number_of(text: &[u8]) -> Option<u32>
    ensures { result ≡ digits_number 7 text.now }
{
    digits_number(DIGITS_MAX, text).map(|n| n as u32)
}
