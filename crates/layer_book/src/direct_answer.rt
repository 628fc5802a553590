//! Answers straight from the segments of the base layers.
ghost use Rattle.std.specs.Prelude.{◌≡◌, ◌↔◌, false, IsTrue, IsOk, IfOk, IfErr};
ghost use Rattle.overlay_terms.specs.Layers.{Name, answer_at, named};
ghost use Rattle.overlay_terms.specs.Commands.{stands};
ghost use Rattle.exact_point.specs.Place.{place as place_of_point};
ghost use Rattle.layer_book.specs.Layer.{IsBook};
ghost use Rattle.layer_book.specs.Place.{location};
ghost use Rattle.layer_book.specs.Question.{IsInside, IsEdge, StandsAt, answers};

use crate::fault::LayerFault;
use crate::layers::Layers;
use crate::question::known_at;
use exact_point::{HPoint, QueryPoint};
use layer_expr::name::Name;
use point_looks::Seen;

/// Where a point lies: in a layer, outside, or on a segment of a base layer that it reaches.
#[derive(Clone, Copy, Debug, PartialEq, Eq)]
pub enum Place {
    Inside,
    Outside,
    Edge,
}

impl Layers {
    /// Where a point lies for a layer. It takes no memory, looks the name up once, finds what the layer reaches once,
    /// and looks at each base layer in reach once.
    pub fn direct(&self, name: &Name, query: &QueryPoint) -> Result<Place, LayerFault>
        ensures ok { IfOk result (λ place. location place ≡ answer_at self.now name.now query.now) }
        ensures known { IsOk result ↔ IsTrue (stands self.now name.now) }
        ensures found { IfOk result (λ _. IsTrue (stands self.now name.now)) }
        ensures err { IfErr result (λ fault. fault ≡ LayerFault.UnknownLayer) }
        ensures refused { IfErr result (λ _. stands self.now name.now ≡ false) }
    {
        let Some(index) = self.find(name) else {
            return Err(LayerFault::UnknownLayer);
        };
        Ok(self.place(index, query))
    }

    /// Where a point lies for the layer at an index.
    fn place(&self, index: usize, query: &QueryPoint) -> Place
        ensures { (name : Name) → StandsAt self.now index name → location result ≡ answer_at self.now name query.now }
    {
        let seen = self.seen(index, &query.point());
        if seen.edge {
            return Place::Edge;
        }
        if seen.inside {
            Place::Inside
        } else {
            Place::Outside
        }
    }

    /// The answers of the layer at an index, from what it reaches.
    fn seen(&self, index: usize, point: &HPoint) -> Seen
        ensures inside { (name : Name) → StandsAt self.now index name
            → result.inside ≡ named false (answers IsInside self.now (place_of_point point.now)) name }
        ensures edge { (name : Name) → StandsAt self.now index name
            → result.edge ≡ named false (answers IsEdge self.now (place_of_point point.now)) name }
        ensures valid { IsBook self.now }
    {
        let wanted = self.reach_of(index);
        let known = self.answers(&wanted, point);
        Seen {
            inside: known_at(&known.inside, index),
            edge: known_at(&known.edge, index),
        }
    }
}
