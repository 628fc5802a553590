//! All layers as text.
ghost use Rattle.std.specs.Prelude.{◌≡◌, ◌++◌, ◌∷◌, [], IfOk, OnOk, codes, decimal, length};
ghost use Rattle.layer_book.specs.Layer.{content, named_layer};
ghost use Rattle.layer_book.specs.Listing.{content_text, layer_line, layers_text};

use crate::layer::Layer;
use crate::layers::Layers;
use layer_expr::name::Name;
use layer_expr::writing::write_expr;
use std::alloc::{AllocError, Global};
use wkt_form::writing::write_wkt;

impl Layers {
    /// The layers in order: how many there are, then a line for each with its text.
    pub fn list(&self, alloc: Global) -> Result<Vec<u8>, AllocError>
        ensures { IfOk result (λ text. text.items ≡ layers_text self.now) }
    {
        let count = self.len();
        let mut text = format!(in alloc; "layers {count}\n")?.into_bytes();
        for i in 0..count {
            match self.at(i) {
                Some((name, layer)) => add_line(alloc, &mut text, name, layer)?,
                None => {}
            }
        }
        Ok(text)
    }
}

/// Adds the line of a layer.
fn add_line(alloc: Global, text: &mut Vec<u8>, name: &Name, layer: &Layer) -> Result<(), AllocError>
    ensures { OnOk result (text.new.items ≡ text.old.items ++ layer_line (named_layer (name.now, layer.now))) }
{
    text.extend_from_slice(name.bytes())?;
    text.push(b' ')?;
    add_content(alloc, text, layer)?;
    text.push(b'\n')?;
    Ok(())
}

/// Adds what follows a layer's name.
fn add_content(alloc: Global, text: &mut Vec<u8>, layer: &Layer) -> Result<(), AllocError>
    ensures { OnOk result (text.new.items ≡ text.old.items ++ content_text (content layer.now)) }
{
    match layer {
        Layer::Base(rings) => {
            let written = write_wkt(alloc, rings)?;
            text.extend_from_slice(&written)?;
        }
        Layer::Derived(expression) => {
            let written = write_expr(alloc, expression)?;
            text.extend_from_slice(b"= ")?;
            text.extend_from_slice(&written)?;
        }
    }
    Ok(())
}
