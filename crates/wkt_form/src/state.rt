//! What may come next in a text.
ghost use Rattle.std.specs.Prelude.{◌≡◌};
ghost use Rattle.wkt_form.specs.State.{next_state};

use crate::token::Symbol;

/// Where a reader is: what it has read, or what must come.
#[derive(Clone, Copy, Debug, PartialEq, Eq)]
pub enum State {
    /// Nothing is read.
    Start,
    /// After `MULTIPOLYGON`.
    Members,
    /// Where a polygon must come.
    Polygon,
    /// Where a ring must come.
    Ring,
    /// Where the first number of a point must come.
    First,
    /// Where the second number of a point must come.
    Second,
    /// After a point.
    PointEnd,
    /// After a ring.
    RingEnd,
    /// After a polygon of several.
    PolygonEnd,
    /// The text is whole.
    End,
}

/// Where a reader is after a symbol, if that can come here. Of several polygons more may come.
pub fn next_state(state: State, several: bool, symbol: Symbol) -> Option<State>
    ensures { result ≡ next_state state several symbol }
{
    let polygon_end = if several {
        State::PolygonEnd
    } else {
        State::End
    };
    match (state, symbol) {
        (State::Start, Symbol::Polygon) => Some(State::Polygon),
        (State::Start, Symbol::MultiPolygon) => Some(State::Members),
        (State::Members, Symbol::Empty) => Some(State::End),
        (State::Members, Symbol::Open) => Some(State::Polygon),
        (State::Polygon, Symbol::Empty) => Some(polygon_end),
        (State::Polygon, Symbol::Open) => Some(State::Ring),
        (State::Ring, Symbol::Open) => Some(State::First),
        (State::First, Symbol::Number(_)) => Some(State::Second),
        (State::Second, Symbol::Number(_)) => Some(State::PointEnd),
        (State::PointEnd, Symbol::Comma) => Some(State::First),
        (State::PointEnd, Symbol::Close) => Some(State::RingEnd),
        (State::RingEnd, Symbol::Comma) => Some(State::Ring),
        (State::RingEnd, Symbol::Close) => Some(polygon_end),
        (State::PolygonEnd, Symbol::Comma) => Some(State::Polygon),
        (State::PolygonEnd, Symbol::Close) => Some(State::End),
        _ => None,
    }
}
