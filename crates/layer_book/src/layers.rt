//! Layers in order of creation.
ghost use Rattle.std.specs.Prelude.{◌≡◌, ◌<◌, ◌↔◌, []};
ghost use Rattle.std.specs.Prelude.{length, slice_get, is_some, bytes_eq, None, IfSome, IfOk, IsTrue};
ghost use Rattle.std.specs.Option.{option_map};
ghost use Rattle.overlay_terms.specs.Commands.{index_of, stands, with_content, refusal_of, refusal_of_remove};
ghost use Rattle.layer_book.specs.Layer.{content, content_named, keeping, layers_of, others, IsBook};

use crate::layer::Layer;
use indexmap::IndexMap;
use layer_expr::name::Name;
use std::alloc::{AllocError, Global};
use std::marker::Model;

/// Named layers in order of creation, at most `MAX_LAYERS`. Each definition names earlier layers alone.
#[derive(Debug, Drop)]
pub struct Layers {
    map: IndexMap<Name, Layer>,
}

impl Model for Layers {
    ghost use Rattle.std.specs.Prelude.{List};
    ghost use Rattle.std.specs.Coded.{coded_list};
    ghost use Rattle.overlay_terms.specs.Layers as terms;
    ghost use Rattle.overlay_terms.specs.LayerCode.{layer_code};

    ghost Value = { List terms.Layer };

    ghost coded = { coded_list layer_code };

    ghost use Rattle.layer_book.specs.Layer.{layers_of, IsBook};

    ghost view = { λ l. layers_of l.map.entries };

    ghost invariant = { λ l. IsBook (layers_of l.map.entries) };
}

impl Layers {
    /// No layer.
    pub fn new(alloc: Global) -> Layers
        ensures { result ≡ [] }
    {
        Layers {
            map: IndexMap::new(alloc),
        }
    }

    /// How many layers there are.
    pub fn len(&self) -> usize
        ensures value { result ≡ length self.now }
        ensures valid { IsBook self.now }
    {
        self.map.len()
    }

    pub fn is_empty(&self) -> bool
        ensures { IsTrue result ↔ (self.now ≡ []) }
    {
        self.map.is_empty()
    }

    /// The layer at an index, counted from 0, with its name.
    pub fn at(&self, index: usize) -> Option<(&Name, &Layer)>
        ensures { option_map (λ entry. record { name = entry.0.now; content = content entry.1.now }) result
            ≡ slice_get self.now index }
    {
        self.map.get_index(index)
    }

    /// The index of the layer with a name. Among so few layers comparing names is quicker than a hash.
    pub fn find(&self, name: &Name) -> Option<usize>
        ensures known { is_some result ≡ stands self.now name.now }
        ensures index { IfSome result (λ index. (index ≡ index_of self.now name.now) × (index < length self.now)) }
    {
        for index in 0..self.len() {
            if let Some((own, _)) = self.at(index) {
                if is_named(own, name) {
                    return Some(index);
                }
            }
        }
        None
    }

    /// The index of the layer with a name, or how many layers there are. It is looked for at an index first.
    pub fn index_near(&self, near: usize, name: &Name) -> usize
        ensures { result ≡ index_of self.now name.now }
    {
        match self.map.get_index(near) {
            Some((own, _)) if own == name => near,
            _ => self.index_of(name),
        }
    }

    /// What is under a name.
    pub fn get(&self, name: &Name) -> Option<&Layer>
        ensures value { option_map (λ layer. content layer.now) result ≡ content_named self.now name.now }
        ensures valid { IsBook self.now }
    {
        let _ = &self.map;
        match self.at(self.index_of(name)) {
            Some((_, layer)) => Some(layer),
            None => None,
        }
    }

    /// The same layers once more. Rings and expressions are shared.
    pub fn try_copy(&self, _alloc: Global) -> Result<Layers, AllocError>
        ensures { IfOk result (λ copy. copy ≡ self.now) }
    {
        let map = copied(&self.map)?;
        Ok(Layers { map })
    }

    /// The layers with a layer under a name: in the place of the one that has it, or last. The
    /// command that asks for this is accepted.
    pub fn with(&self, _alloc: Global, name: &Name, layer: Layer) -> Result<Layers, AllocError>
        requires { refusal_of self.now (keeping name.now (content layer)) ≡ None }
        ensures { IfOk result (λ layers. layers ≡ with_content self.now name.now (content layer)) }
    {
        // Name and rings are so by their types: the clause rests on that.
        let _ = layer.known(name);
        let mut map = copied(&self.map)?;
        map.insert(name.clone()?, layer)?;
        Ok(Layers { map })
    }

    /// The layers without the one that has a name, which no definition names. Those after it
    /// close up.
    pub fn without(&self, _alloc: Global, name: &Name) -> Result<Layers, AllocError>
        requires { refusal_of_remove self.now name.now ≡ None }
        ensures { IfOk result (λ layers. layers ≡ others self.now name.now) }
    {
        let mut map = copied(&self.map)?;
        map.shift_remove(name);
        Ok(Layers { map })
    }
}

/// The entries once more.
fn copied(map: &IndexMap<Name, Layer>) -> Result<IndexMap<Name, Layer>, AllocError>
    ensures { IfOk result (λ copy. layers_of copy.entries ≡ layers_of map.now.entries) }
{
    map.clone()
}

/// Whether a layer's own name is another. Names that differ mostly do in their lengths or their last bytes,
/// and these are looked at first.
fn is_named(own: &Name, name: &Name) -> bool
    ensures { result ≡ bytes_eq own.now name.now }
{
    let (bytes, others) = (own.bytes(), name.bytes());
    if bytes.len() != others.len() {
        return false;
    }
    if let (Some(last), Some(other)) = (bytes.last(), others.last()) {
        if *last != *other {
            return false;
        }
    }
    bytes == others
}
