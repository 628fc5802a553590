//! Whether an input is still the present one.
ghost use Rattle.std.specs.Prelude.{◌≡◌, ◌↔◌, true, Some, map, filter_map, drop, slice_get, IsTrue};
ghost use Rattle.std.specs.Option.{option_map};
ghost use Rattle.std.specs.Cmp.Lexicographic.{pointwise};
ghost use Rattle.overlay_terms.specs.Column.{touches};
ghost use Rattle.overlay_terms.specs.Commands.{stands_as_derived};
ghost use Rattle.overlay_terms.specs.Layers.{base_of};
ghost use Rattle.overlay_terms.specs.SameInput.{same_marked};
ghost use Rattle.overlay_terms.specs.Tiles.{input_of};
ghost use Rattle.arrange.specs.Marked.{kept_in, marked_of};
ghost use Rattle.layer_book.specs.Having.{marks_in, part_in, past};
ghost use Rattle.layer_book.specs.Question.{marked_layers};
ghost use Rattle.layer_book.specs.Touching.{marked_in};

use crate::layer::Layer;
use crate::layers::Layers;
use arrange::{MarkedSeg, TileInput, touches};
use layer_expr::name::Name;
use layer_expr::{MAX_LAYERS, StepList};
use plane_base::{Column, Seg};

impl Layers {
    /// Whether an input is the present one of the tile of a derived layer in the input's column.
    pub fn has_input(&self, name: &Name, input: &TileInput) -> bool
        requires { stands_as_derived self.now name.now ≡ true }
        ensures { IsTrue result ↔ (input.now ≡ input_of self.now name.now input.now.column) }
    {
        self.has_part(name, input.column(), input.marked(), input.steps())
    }

    /// Whether steps and those of marked segments that have a point in a column are the present input of the tile of a
    /// derived layer there. They are compared where they are: it takes no memory.
    pub fn has_part(
        &self,
        name: &Name,
        column: Column,
        marked: &[MarkedSeg],
        steps: &StepList,
    ) -> bool
        requires { stands_as_derived self.now name.now ≡ true }
        ensures { IsTrue result
            ↔ (part_in column (map marked_of marked.now) steps.now ≡ input_of self.now name.now column) }
    {
        let wanted = self.reach(name);
        let (layers, count) = self.wanted_layers(name, &wanted);
        steps.is_of(&layers[..count]) && self.has_marked(&wanted, column, marked)
    }

    /// Whether the marked segments that have a point in a column are those of the wanted base layers there, in order.
    fn has_marked(&self, wanted: &[bool; MAX_LAYERS], column: Column, marked: &[MarkedSeg]) -> bool
        ensures { result ≡ pointwise same_marked (kept_in column (map marked_of marked.now))
            (marked_in column (map (λ b. b.1) (filter_map base_of (marked_layers wanted.now self.now)))) }
    {
        let mut next = 0;
        let mut number = 0;
        for i in 0..self.len() {
            if let Some((_, layer)) = self.at(i) {
                if wanted[i] {
                    if let Layer::Base(rings) = layer {
                        let Some(end) = end_of(rings.segs(), column, number, marked, next) else {
                            return false;
                        };
                        next = end;
                        number += 1;
                    }
                }
            }
        }
        first_marked(column, marked, next) >= marked.len()
    }
}

/// Where the marked segments with a point in a column go on from an index beyond those of a base layer there:
/// none where they are not those.
fn end_of(
    segs: &[Seg],
    column: Column,
    number: usize,
    marked: &[MarkedSeg],
    from: usize,
) -> Option<usize>
    ensures { option_map (λ end. kept_in column (map marked_of (drop end marked.now))) result
        ≡ past (marks_in column number segs.now) (kept_in column (map marked_of (drop from marked.now))) }
{
    let mut next = from;
    for seg in segs {
        if touches(column, *seg) {
            next = first_marked(column, marked, next);
            if next >= marked.len() || !is_marked(&marked[next], number, seg) {
                return None;
            }
            next += 1;
        }
    }
    Some(next)
}

/// The index of the first marked segment with a point in the column, from an index on, or how many there are.
fn first_marked(column: Column, marked: &[MarkedSeg], from: usize) -> usize
    ensures same { kept_in column (map marked_of (drop from marked.now))
        ≡ kept_in column (map marked_of (drop result marked.now)) }
    ensures there { (m : MarkedSeg) → slice_get marked.now result ≡ Some m → touches column m.seg ≡ true }
{
    for i in from..marked.len() {
        if touches(column, marked[i].seg) {
            return i;
        }
    }
    marked.len()
}

/// Whether a marked segment is a segment of the base layer with a number.
fn is_marked(marked: &MarkedSeg, number: usize, seg: &Seg) -> bool
    ensures { result ≡ same_marked (marked_of marked.now) (record { layer = number; segment = seg.now }) }
{
    usize::from(marked.layer) == number && marked.seg == *seg
}
