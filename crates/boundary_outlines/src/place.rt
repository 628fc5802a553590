//! Places by fractions, seen from one origin.

/// The place (x + left / w, y + up / w). No rest is negative, and both are less than w, which is at most 2^43.
#[derive(Clone, Copy, Debug)]
pub struct Place {
    pub x: i64,
    pub left: i64,
    pub y: i64,
    pub up: i64,
    pub w: i64,
}

/// The fineness of one of two steps of `exact`: 2^44.
const FINE: i128 = 17592186044416;

/// A number of 64 bits, or 0 where it does not fit.
fn narrow(z: i128) -> i64 {
    match i64::try_from(z) {
        Ok(own) => own,
        Err(_) => 0,
    }
}

/// A quotient rounded down, and its rest.
pub(crate) fn divided(n: i128, w: i128) -> (i128, i128) {
    match (n.checked_div_euclid(w), n.checked_rem_euclid(w)) {
        (Some(whole), Some(rest)) => (whole, rest),
        _ => (0, 0),
    }
}

/// The place (x / w, y / w), seen from where it lies farther right and farther up by so much.
pub fn placed(x: i128, y: i128, w: i128, across: i64, along: i64) -> Place {
    let (whole, left) = divided(x, w);
    let (high, up) = divided(y, w);
    Place {
        x: narrow(whole).saturating_add(across),
        left: narrow(left),
        y: narrow(high).saturating_add(along),
        up: narrow(up),
        w: narrow(w),
    }
}

/// rest / w in parts of 2^-88, rounded down. Of two such fractions the greater one has more parts, as fractions with
/// denominators up to 2^43 differ by 2^-86 at least; so equal ones alone have as many.
pub(crate) fn exact(rest: i64, w: i64) -> i128 {
    if rest == 0 {
        return 0;
    }
    let by = i128::from(w);
    let (high, more) = divided(i128::from(rest).saturating_mul(FINE), by);
    let (low, _) = divided(more.saturating_mul(FINE), by);
    high.saturating_mul(FINE).saturating_add(low)
}
