//! Numbers of decimal digits.
ghost use Rattle.std.specs.Prelude.{◌≡◌, ◌<◌, ◌≤◌, ◌^◌, IfSome, IsTrue, length};
ghost use Rattle.std.specs.List.{list_all};
ghost use Rattle.std.specs.Char.{is_ascii_digit};
ghost use Rattle.overlay_terms.specs.Bytes.{digits_number, digits_value};

/// The number that the bytes spell, if they are digits, one at least and so many at most.
pub fn digits_number(most: usize, bytes: &[u8]) -> Option<u64>
    requires { most ≤ 18 }
    ensures value { result ≡ digits_number most bytes.now }
    ensures small { IfSome result (λ n. n < 10 ^ most) }
{
    if bytes.is_empty() {
        return None;
    }
    if bytes.len() > most {
        return None;
    }
    if !all_digits(bytes) {
        return None;
    }
    Some(digits_value(bytes))
}

fn all_digits(bytes: &[u8]) -> bool
    ensures { result ≡ list_all is_ascii_digit bytes.now }
{
    bytes.iter().all(|b| b.is_ascii_digit())
}

/// What the digits are worth.
fn digits_value(digits: &[u8]) -> u64
    requires few { length digits.now ≤ 18 }
    requires all { IsTrue (list_all is_ascii_digit digits.now) }
    ensures value { result ≡ digits_value digits.now }
    ensures small { result < 10 ^ length digits.now }
{
    let mut value = 0;
    for digit in digits {
        value = 10 * value + u64::from(*digit - b'0');
    }
    value
}
