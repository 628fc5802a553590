//! What the steps are over masks.
ghost use Rattle.std.specs.Prelude.{IfOk};
ghost use Rattle.crossing_sweep.specs.Rows.{HasValue};
ghost use Rattle.crossing_sweep.specs.Values.{AreFirst, AreRemembered, AreValues};

use crate::pass_input::PassInput;
use std::alloc::{AllocError, Global};

/// For so many base layers, from the first on, what the steps are is worked out once over each mask.
const FEW_BASES: u8 = 3;

/// Of an input with more base layers some masks are remembered: each where there are up to so many.
const REMEMBERED_BASES: u8 = 8;

/// What the steps of an input are over masks: over the first ones, and over some of those that were asked for.
#[derive(Drop)]
pub(crate) struct Values {
    /// By the masks from 0 on: all of them where there are few base layers.
    first: Vec<bool>,
    /// Masks, each at its place and with the value over it. At first it is mask 0 at each, over which nothing holds.
    remembered: Vec<(u32, bool)>,
}

impl Values {
    /// With what is known of an input before a pass.
    pub(crate) fn new(alloc: Global, input: &PassInput) -> Result<Values, AllocError>
        ensures { IfOk result (λ values. AreValues input.now.steps values) }
    {
        let first = first_values(alloc, input)?;
        let remembered = no_masks(alloc, input)?;
        Ok(Values { first, remembered })
    }

    /// What the steps of an input are over a mask, which mostly is remembered.
    #[inline(always)]
    pub(crate) fn over(&mut self, input: &PassInput, mask: u32) -> bool
        requires { AreValues input.now.steps self.old }
        ensures known { AreValues input.now.steps self.new }
        ensures value { HasValue input.now.steps mask result }
    {
        match self.first.get(mask as usize) {
            Some(value) => *value,
            None => self.over_other(input, mask),
        }
    }

    /// The same of a mask that is none of the first.
    #[inline(never)]
    fn over_other(&mut self, input: &PassInput, mask: u32) -> bool
        requires { AreValues input.now.steps self.old }
        ensures known { AreValues input.now.steps self.new }
        ensures value { HasValue input.now.steps mask result }
    {
        let place = place_of(mask);
        if self.remembered.len() <= place {
            return input.steps().value(mask);
        }
        let (known, value) = self.remembered[place];
        if known == mask {
            return value;
        }
        let value = input.steps().value(mask);
        self.remembered[place] = (mask, value);
        value
    }
}

/// What the steps of an input are over the first masks: over all of them where there are few base layers.
fn first_values(alloc: Global, input: &PassInput) -> Result<Vec<bool>, AllocError>
    ensures { IfOk result (λ values. AreFirst input.now.steps values.items) }
{
    let count = 1_u32 << input.steps().bases().min(FEW_BASES);
    let mut values = Vec::with_capacity(alloc, 1 << FEW_BASES)?;
    for mask in 0..count {
        values.push(input.steps().value(mask))?;
    }
    Ok(values)
}

/// Places for the masks of an input that is not of few base layers: mask 0 at each, over which nothing holds.
fn no_masks(alloc: Global, input: &PassInput) -> Result<Vec<(u32, bool)>, AllocError>
    ensures { IfOk result (λ values. AreRemembered input.now.steps values.items) }
{
    let bases = input.steps().bases();
    if bases <= FEW_BASES {
        return Ok(Vec::new(alloc));
    }
    let nothing = (0, input.steps().value(0));
    let masks = vec![in alloc; nothing; 1_usize << bases.min(REMEMBERED_BASES)]?;
    Ok(masks)
}

/// The place of a mask: its bits, eight by eight, over one another.
fn place_of(mask: u32) -> usize {
    let halves = mask ^ (mask >> 16);
    let folded = halves ^ (halves >> 8);
    (folded & 255) as usize
}
