//! Steps of layers.
ghost use Rattle.std.specs.Prelude.{◌≡◌, ◌≤◌, ℕ, Bool, length, IfOk, IfSome};
ghost use Rattle.overlay_terms.specs.Layers.{layers_max};
ghost use Rattle.overlay_terms.specs.Trees.{steps_value};
ghost use Rattle.layer_expr.specs.StepList.{reached, numbered_steps, evaluated};

use crate::ordering::{ends_derived, is_ordered};
use layer_expr::{Expr, MAX_LAYERS, Name, StepList};
use std::alloc::{AllocError, Global};

/// The steps of the last of some layers, if that is derived, each has a name of its own and names earlier ones alone, and
/// they are not too many.
pub fn steps_over(
    alloc: Global,
    layers: &[(&Name, Option<&Expr>)],
) -> Result<Option<StepList>, AllocError>
    ensures steps { IfOk result (λ some. IfSome some (λ steps. steps ≡ numbered_steps (reached layers.now))) }
    ensures value { IfOk result (λ some. IfSome some
        (λ steps. (bits : ℕ → Bool) → steps_value steps bits ≡ evaluated (reached layers.now) bits)) }
{
    if layers.len() > MAX_LAYERS || !is_ordered(layers) || !ends_derived(layers) {
        return Ok(None);
    }
    let steps = StepList::of(alloc, layers)?;
    Ok(Some(steps))
}
