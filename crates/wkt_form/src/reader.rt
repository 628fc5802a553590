//! What a reader has read, token by token.
ghost use Rattle.std.specs.Prelude.{List};
ghost use Rattle.overlay_terms.specs.Plane.{WholePoint};
ghost use Rattle.wkt_form.specs.Reading.{Reading};

use crate::coordinate::Coordinate;
use crate::fault::WktFault;
use crate::point::{point, whole_at};
use crate::state::{State, next_state};
use crate::token::{Symbol, Token};
use plane_base::{Pt, Ring};
use std::alloc::{AllocError, Global};
use std::marker::Model;
use std::mem;

/// The rings so far, and what the next token is read by.
#[derive(Drop)]
pub struct Reader {
    state: State,
    /// Whether the text is a `MULTIPOLYGON` of some polygons.
    several: bool,
    /// The first number of the point that is being read.
    first: Coordinate,
    points: Vec<Pt>,
    rings: Vec<Ring>,
}

impl Model for Reader {
    ghost Value = { Reading };

    ghost view = { λ r. record {
      state = r.state;
      several = r.several;
      first = r.first;
      points = r.points.items;
      rings = r.rings.items;
    } };
}

impl Reader {
    ghost use Rattle.std.specs.Prelude.{◌≡◌, ◌⊎◌, ◌++◌, ◌∷◌, [], ℤ, true, ◌↔◌, Ok, Err, OnOk, IfOk, IfErr, IfSome, IfNone, pos, ◌≢◌};
    ghost use Rattle.wkt_form.specs.Reading.{Reading, with_token, with_symbol, with_number, with_point, with_close, nothing_read};
    ghost use Rattle.wkt_form.specs.declared.state.State.TheVariants as states;

    pub fn new(alloc: Global) -> Reader
        ensures { result ≡ nothing_read }
    {
        Reader {
            state: State::Start,
            several: false,
            first: Coordinate::ZERO,
            points: Vec::new(alloc),
            rings: Vec::new(alloc),
        }
    }

    /// Takes one more token.
    pub fn take(&mut self, alloc: Global, token: Token) -> Result<(), WktFault>
        ensures ok { OnOk result (with_token self.old token ≡ Ok self.new) }
        ensures err { IfErr result (λ fault. (fault ≡ WktFault.OutOfMemory) ⊎ (with_token self.old token ≡ Err fault)) }
    {
        let stuck = WktFault::Syntax(token.at);
        let state = next_state(self.state, self.several, token.symbol).ok_or(stuck)?;
        self.add(alloc, token)?;
        self.state = state;
        Ok(())
    }

    /// Whether a point must come.
    pub fn is_before_point(&self) -> bool
        ensures { (result ≡ true) ↔ (self.now.state ≡ states.First) }
    {
        matches!(self.state, State::First)
    }

    /// Adds a point with a comma after it, where a point must come.
    pub fn add_point(&mut self, x: Coordinate, y: Coordinate) -> Result<(), AllocError>
        ensures { OnOk result (self.new ≡ with_point self.old x y) }
    {
        self.points.push(point(x, y))?;
        self.first = x;
        Ok(())
    }

    /// Adds what the token brings, which may come here.
    fn add(&mut self, alloc: Global, token: Token) -> Result<(), WktFault>
        ensures ok { OnOk result (with_symbol self.old token.at token.symbol ≡ Ok self.new) }
        ensures err { IfErr result (λ fault. (fault ≡ WktFault.OutOfMemory)
            ⊎ (with_symbol self.old token.at token.symbol ≡ Err fault)) }
    {
        let Token { at, symbol } = token;
        match symbol {
            Symbol::MultiPolygon => self.several = true,
            Symbol::Number(number) => self.add_number(whole_at(at, number)?)?,
            Symbol::Close => self.close(alloc)?,
            _ => {}
        }
        Ok(())
    }

    fn add_number(&mut self, value: Coordinate) -> Result<(), AllocError>
        ensures { OnOk result (self.new ≡ with_number self.old value) }
    {
        match self.state {
            State::First => self.first = value,
            _ => self.points.push(point(self.first, value))?,
        }
        Ok(())
    }

    /// Ends the ring, if a point has just ended.
    fn close(&mut self, alloc: Global) -> Result<(), AllocError>
        ensures { OnOk result (self.new ≡ with_close self.old) }
    {
        if let State::PointEnd = self.state {
            let points = mem::replace(&mut self.points, Vec::new(alloc));
            self.rings.push(Ring::new(points))?;
        }
        Ok(())
    }

    /// The rings, if the text is whole.
    pub fn into_rings(self) -> Option<Vec<Ring>>
        ensures some { IfSome result (λ rings. (self.state ≡ states.End) × (rings.items ≡ self.rings)) }
        ensures none { IfNone result (self.state ≢ states.End) }
    {
        match self.state {
            State::End => Some(self.rings),
            _ => None,
        }
    }
}
