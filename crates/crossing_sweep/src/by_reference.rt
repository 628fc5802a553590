//! References to elements that are large: a sort moves the references to and fro, and the elements stay where they are.
ghost use Rattle.std.specs.Prelude.{◌≡◌, map, IfOk};

use std::alloc::{AllocError, Global};

/// References to some elements, in their order.
pub(crate) fn references<'a, T>(alloc: Global, elements: &'a [T]) -> Result<Vec<&'a T>, AllocError>
    ensures { IfOk result (λ order. map (λ z. z.now) order.items ≡ elements.now) }
{
    elements.iter().collect(alloc)
}

/// The elements that some references are to.
pub(crate) fn copied<T: Copy>(alloc: Global, elements: &[&T]) -> Result<Vec<T>, AllocError>
    ensures { IfOk result (λ list. list.items ≡ map (λ z. z.now) elements.now) }
{
    elements.iter().map(|element| **element).collect(alloc)
}
