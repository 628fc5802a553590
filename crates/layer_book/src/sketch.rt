//! Layers by reference: what commands would make of them, and why they are refused, without any memory.
ghost use Rattle.std.specs.Prelude.{◌≡◌, false, ◌&&◌, not, map, None, bytes_eq, if◌then◌else◌};
ghost use Rattle.std.specs.List.{list_any};
ghost use Rattle.std.specs.Option.{option_map};
ghost use Rattle.overlay_terms.specs.Trees.{leaves};
ghost use Rattle.overlay_terms.specs.Commands.{applied, index_of, is_crowded, is_derived, refusal_of};
ghost use Rattle.overlay_terms.specs.Commands.{refusal_of_define, refusal_of_put, refusal_of_remove};
ghost use Rattle.overlay_terms.specs.Commands.{refusal_of_use, refusal_of_uses, stands};
ghost use Rattle.overlay_terms.specs.Commands.{stands_as_base, stands_as_derived, uses, with_content};
ghost use Rattle.layer_expr.specs.Expr.{tree};
ghost use Rattle.layer_book.specs.Command.{command};
ghost use Rattle.layer_book.specs.Fault.{fault_of};
ghost use Rattle.layer_book.specs.Layer.{named_layer, others};
ghost use Rattle.layer_book.specs.Sketch.{entry_layer, sketched};

use crate::command::Command;
use crate::fault::LayerFault;
use crate::layer::{Layer, node_uses};
use crate::layers::Layers;
use arrayvec::ArrayVec;
use layer_expr::expr::Node;
use layer_expr::name::Name;
use layer_expr::{Expr, MAX_LAYERS};
use plane_base::BaseLayer;

/// A layer by its name and what is under it.
#[derive(Clone, Copy, Default)]
pub(crate) enum Entry<'a> {
    #[default]
    Unused,
    Base(&'a Name, &'a BaseLayer),
    Derived(&'a Name, &'a Expr),
}

impl<'a> Entry<'a> {
    /// The entry of a layer under a name.
    fn of(name: &'a Name, layer: &'a Layer) -> Entry<'a>
        ensures { entry_layer result ≡ named_layer (name.now, layer.now) }
    {
        match layer {
            Layer::Base(rings) => Entry::Base(name, rings),
            Layer::Derived(expression) => Entry::Derived(name, expression),
        }
    }

    fn is_named(&self, name: &Name) -> bool
        ensures { result ≡ bytes_eq (entry_layer self.now).name name.now }
    {
        match self {
            Entry::Unused => name.bytes().is_empty(),
            Entry::Base(own, _) => **own == *name,
            Entry::Derived(own, _) => **own == *name,
        }
    }

    fn is_derived(&self) -> bool
        ensures { result ≡ is_derived (entry_layer self.now).content }
    {
        match self {
            Entry::Unused => false,
            Entry::Base(..) => false,
            Entry::Derived(..) => true,
        }
    }

    fn uses(&self, name: &Name) -> bool
        ensures { result ≡ uses name.now (entry_layer self.now).content }
    {
        match self {
            Entry::Unused => false,
            Entry::Base(..) => false,
            Entry::Derived(_, expression) => node_uses(expression.root(), name),
        }
    }
}

/// The layers that commands would leave, in order, at most `MAX_LAYERS`.
#[derive(Drop)]
pub(crate) struct Sketch<'a> {
    entries: ArrayVec<Entry<'a>, MAX_LAYERS>,
}

impl<'a> Sketch<'a> {
    /// The layers as they are.
    pub(crate) fn of(layers: &'a Layers) -> Sketch<'a>
        ensures { sketched result ≡ layers.now }
    {
        let mut entries = ArrayVec::new();
        for i in 0..layers.len() {
            if let Some((name, layer)) = layers.at(i) {
                entries.push(Entry::of(name, layer));
            }
        }
        Sketch { entries }
    }

    /// The layers after a command that is accepted.
    pub(crate) fn after(self, change: &'a Command) -> Sketch<'a>
        requires { refusal_of (sketched self) (command change.now) ≡ None }
        ensures { sketched result ≡ applied (sketched self.entry) (command change.now) }
    {
        match change {
            Command::Put(name, rings) => self.with(name, Entry::Base(name, rings)),
            Command::Define(name, expression) => self.with(name, Entry::Derived(name, expression)),
            Command::Remove(name) => self.without(name),
        }
    }

    /// The layers with an entry in the place of the one that has its name, or last.
    fn with(self, name: &Name, entry: Entry<'a>) -> Sketch<'a>
        requires named { (entry_layer entry).name ≡ name.now }
        requires room { is_crowded (sketched self) name.now ≡ false }
        ensures { sketched result ≡ with_content (sketched self.entry) name.now (entry_layer entry.entry).content }
    {
        if self.stands(name) {
            return self.replaced(name, entry);
        }
        let mut entries = self.entries;
        entries.push(entry);
        Sketch { entries }
    }

    /// The layers with an entry in the place of each that has its name.
    fn replaced(&self, name: &Name, entry: Entry<'a>) -> Sketch<'a>
        ensures { sketched result
            ≡ map (λ layer. if bytes_eq layer.name name.now then entry_layer entry.entry else layer)
            (sketched self.now) }
    {
        let mut entries = ArrayVec::new();
        for old in self.entries.as_slice() {
            entries.push(if old.is_named(name) { entry } else { *old });
        }
        Sketch { entries }
    }

    /// The layers without the one that has a name.
    fn without(&self, name: &Name) -> Sketch<'a>
        ensures { sketched result ≡ others (sketched self.now) name.now }
    {
        let mut entries = ArrayVec::new();
        for old in self.entries.as_slice() {
            if !old.is_named(name) {
                entries.push(*old);
            }
        }
        Sketch { entries }
    }

    /// Why a command is refused.
    pub(crate) fn refusal(&self, change: &Command) -> Option<LayerFault>
        ensures { result ≡ option_map fault_of (refusal_of (sketched self.now) (command change.now)) }
    {
        match change {
            Command::Put(name, _) => self.refusal_of_put(name),
            Command::Define(name, expression) => self.refusal_of_define(name, expression),
            Command::Remove(name) => self.refusal_of_remove(name),
        }
    }

    /// Why PUT is refused, the first reason: a derived layer has the name, no room.
    fn refusal_of_put(&self, name: &Name) -> Option<LayerFault>
        ensures { result ≡ option_map fault_of (refusal_of_put (sketched self.now) name.now) }
    {
        if self.stands_as_derived(name) {
            return Some(LayerFault::NotBase);
        }
        if self.is_crowded(name) {
            return Some(LayerFault::TooManyLayers);
        }
        None
    }

    /// Why DEFINE is refused, the first reason: a base layer has the name, a name of the expression, no room.
    fn refusal_of_define(&self, name: &Name, expression: &Expr) -> Option<LayerFault>
        ensures { result ≡ option_map fault_of (refusal_of_define (sketched self.now) name.now expression.now) }
    {
        if self.stands_as_base(name) {
            return Some(LayerFault::NotDerived);
        }
        if let Some(fault) = self.refusal_of_uses(name, expression.root()) {
            return Some(fault);
        }
        if self.is_crowded(name) {
            return Some(LayerFault::TooManyLayers);
        }
        None
    }

    /// The first reason against the names below a node, from left to right.
    fn refusal_of_uses(&self, defined: &Name, node: &Node) -> Option<LayerFault>
        ensures { result ≡ option_map fault_of
            (refusal_of_uses (sketched self.now) defined.now (leaves (tree node.now))) }
    {
        match node {
            Node::Leaf(used) => self.refusal_of_use(defined, used),
            Node::Combine(_, left, right) => match self.refusal_of_uses(defined, left) {
                Some(fault) => Some(fault),
                None => self.refusal_of_uses(defined, right),
            },
        }
    }

    /// Why a definition may not name a layer: there is none, or it is the defined layer or comes later.
    fn refusal_of_use(&self, defined: &Name, used: &Name) -> Option<LayerFault>
        ensures { result ≡ option_map fault_of (refusal_of_use (sketched self.now) defined.now used.now) }
    {
        if !self.stands(used) {
            return Some(LayerFault::UnknownLayer);
        }
        if self.index_of(defined) <= self.index_of(used) {
            return Some(LayerFault::LaterLayer);
        }
        None
    }

    /// Why DROP is refused: no layer has the name, or a definition still names it.
    fn refusal_of_remove(&self, name: &Name) -> Option<LayerFault>
        ensures { result ≡ option_map fault_of (refusal_of_remove (sketched self.now) name.now) }
    {
        if !self.stands(name) {
            return Some(LayerFault::UnknownLayer);
        }
        if self.is_used(name) {
            return Some(LayerFault::InUse);
        }
        None
    }

    /// Whether a layer has the name.
    fn stands(&self, name: &Name) -> bool
        ensures { result ≡ stands (sketched self.now) name.now }
    {
        let entries = self.entries.as_slice();
        entries.iter().any(|entry| entry.is_named(name))
    }

    /// The index of the layer with the name, or how many layers there are.
    fn index_of(&self, name: &Name) -> usize
        ensures { result ≡ index_of (sketched self.now) name.now }
    {
        let mut i = 0;
        for entry in self.entries.as_slice() {
            if entry.is_named(name) {
                return i;
            }
            i += 1;
        }
        i
    }

    /// Whether a base layer has the name.
    fn stands_as_base(&self, name: &Name) -> bool
        ensures { result ≡ stands_as_base (sketched self.now) name.now }
    {
        let entries = self.entries.as_slice();
        entries
            .iter()
            .any(|entry| entry.is_named(name) && !entry.is_derived())
    }

    /// Whether a derived layer has the name.
    fn stands_as_derived(&self, name: &Name) -> bool
        ensures { result ≡ stands_as_derived (sketched self.now) name.now }
    {
        let entries = self.entries.as_slice();
        entries
            .iter()
            .any(|entry| entry.is_named(name) && entry.is_derived())
    }

    /// Whether the name is new and there is no room for another layer.
    fn is_crowded(&self, name: &Name) -> bool
        ensures { result ≡ is_crowded (sketched self.now) name.now }
    {
        !self.stands(name) && self.entries.len() >= MAX_LAYERS
    }

    /// Whether a definition names the name.
    fn is_used(&self, name: &Name) -> bool
        ensures { result ≡ list_any (λ layer. uses name.now layer.content) (sketched self.now) }
    {
        let entries = self.entries.as_slice();
        entries.iter().any(|entry| entry.uses(name))
    }
}
