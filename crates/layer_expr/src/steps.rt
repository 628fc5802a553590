//! Definitions over numbered layers.
ghost use Rattle.std.specs.Prelude.{◌<◌};
ghost use Rattle.overlay_terms.specs.Layers.{layers_max};

use crate::expr::Operation;
use std::alloc::{AllocError, Global};

/// The most layers that there are at a time: as many as a mask has bits.
pub const MAX_LAYERS: usize = 32;

/// The number of a base layer, below how many layers there may be.
#[derive(Clone, Copy, Debug, PartialEq, Eq)]
pub struct BaseBit {
    pub number: u8,
    pub ghost small: { number < layers_max },
}

/// What a leaf of a definition is.
#[derive(Clone, Copy, Debug, PartialEq, Eq)]
pub enum Source {
    Base(BaseBit),
    Definition(u8),
}

/// A definition: a leaf, or an operation on two definitions.
#[derive(Debug, Drop)]
pub enum StepNode {
    Leaf(Source),
    Combine(Operation, Box<StepNode>, Box<StepNode>),
}

impl StepNode {
    ghost use Rattle.std.specs.Prelude.{◌≡◌, IfOk};
    ghost use Rattle.layer_expr.specs.Steps.{step_tree};

    /// An equal definition in memory of its own.
    pub fn try_copy(&self, alloc: Global) -> Result<StepNode, AllocError>
        ensures { IfOk result (λ copy. step_tree copy ≡ step_tree self.now) }
    {
        match self {
            StepNode::Leaf(source) => Ok(StepNode::Leaf(*source)),
            StepNode::Combine(operation, left, right) => {
                let left = left.try_copy(alloc)?;
                let right = right.try_copy(alloc)?;
                Ok(StepNode::Combine(*operation, Box::new(alloc, left)?, Box::new(alloc, right)?))
            }
        }
    }
}

impl PartialEq for StepNode {
    ghost use Rattle.layer_expr.specs.SameSteps.{same_node, same_node-laws};

    ghost eq = { same_node };

    ghost laws = { same_node-laws };

    fn eq(&self, other: &StepNode) -> bool {
        match (self, other) {
            (StepNode::Leaf(source), StepNode::Leaf(other)) => *source == *other,
            (StepNode::Combine(o, l, r), StepNode::Combine(p, m, s)) => {
                *o == *p && **l == **m && **r == **s
            }
            _ => false,
        }
    }
}
