//! Where the gate and the body are of the slot that a root is not in.
ghost use Rattle.std.specs.Prelude.{◌≡◌};
ghost use Rattle.store_terms.specs.StandsFor.{gate_at, body_at};
ghost use Rattle.commit_plan.specs.Kept.{other};

use extent_map::BLOCK;
use store_terms::layout::BODY;
use store_terms::root::Root;

/// Where the gate of the other slot is.
pub(crate) fn other_gate(root: Root) -> usize
    ensures { result ≡ gate_at (other root) }
{
    if root.sequence % 2 == 0 { BLOCK } else { 0 }
}

/// Where the body of the other slot is.
pub(crate) fn other_body(root: Root) -> usize
    ensures { result ≡ body_at (other root) }
{
    if root.sequence % 2 == 0 {
        BLOCK + BODY
    } else {
        BODY
    }
}
