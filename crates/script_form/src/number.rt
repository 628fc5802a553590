//! Numbers of a line.
ghost use Rattle.std.specs.Prelude.{◌≡◌};
ghost use Rattle.script_form.specs.Words.{number_of};

use overlay_terms::digits::digits_number;

/// The most digits of a number.
const DIGITS_MAX: usize = 18;

/// The number that a word spells by an optional sign and 1 to 18 digits.
pub fn number_of(word: &[u8]) -> Option<i64>
    ensures { result ≡ number_of word.now }
{
    match word {
        [b'-', digits @ ..] => digits_number(DIGITS_MAX, digits).map(|n| -(n as i64)),
        [b'+', digits @ ..] => digits_number(DIGITS_MAX, digits).map(|n| n as i64),
        digits => digits_number(DIGITS_MAX, digits).map(|n| n as i64),
    }
}
