//! Points from the numbers of a text.
ghost use Rattle.std.specs.Prelude.{◌≡◌, ◌⊎◌, Ok, Err, IfOk, IfErr, ℤ};
ghost use Rattle.wkt_form.specs.Reading.{whole_at};

use crate::coordinate::Coordinate;
use crate::fault::WktFault;
use crate::number::Number;
use plane_base::Pt;

/// The value of a number whose token is at an offset, unless it has a fraction (error 2) or is out of range (3).
pub fn whole_at(at: usize, number: Number) -> Result<Coordinate, WktFault>
    ensures { result ≡ whole_at at number }
{
    match number {
        Number::Whole(value) => Ok(value),
        Number::Fraction => Err(WktFault::NotWhole(at)),
        Number::OutOfRange => Err(WktFault::CoordRange(at)),
    }
}

/// The point of two coordinates.
pub fn point(x: Coordinate, y: Coordinate) -> Pt
    ensures { result ≡ record { x = x; y = y } }
{
    Pt::new(x.value(), y.value()).unwrap()
}
