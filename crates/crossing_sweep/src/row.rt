//! Rows of a pass: the pieces of the boundary, made where they end, and what the members carry up to there.
ghost use Rattle.std.specs.Prelude.{◌≡◌, ◌+◌, ◌<◌, ◌++◌, [], ◌∷◌, true, map, length, take, drop, get_or, OnOk};
ghost use Rattle.crossing_sweep.specs.Rows.{mask_over as highest_mask, row_to as row_of_member, rows_of, AreBegun, HasValue, IsBegun};
ghost use Rattle.crossing_sweep.specs.Values.{AreValues};

use crate::member::Member;
use crate::pass_input::PassInput;
use crate::values::Values;
use plane_base::Seg;
use std::alloc::AllocError;

/// A piece whose sides differ, by the numbers of its ends among the nodes of the closed strip.
#[derive(Clone, Copy, Debug)]
pub struct Row {
    pub support: Seg,
    pub first: usize,
    pub last: usize,
    /// What the layer is just over the piece, or left of a vertical one. What it is on the other side differs.
    pub over: bool,
}

/// Closes the pieces of a bundle: those of the boundary become rows.
pub(crate) fn close(rows: &mut Vec<Row>, bundle: &[Member], end: usize) -> Result<(), AllocError>
    ensures { OnOk result (rows.new.items ≡ rows.old.items ++ rows_of end bundle.now) }
{
    for member in bundle {
        if member.differs {
            rows.push(row_to(member, end))?;
        }
    }
    Ok(())
}

/// The row of a member whose piece ends at a node.
fn row_to(member: &Member, end: usize) -> Row
    ensures { result ≡ row_of_member end member.now }
{
    Row {
        support: member.unit.seg,
        first: member.begin,
        last: end,
        over: member.value,
    }
}

/// What holds over the highest of some members, from the lowest to the highest.
pub(crate) fn mask_over(members: &[Member]) -> u32
    ensures { result ≡ highest_mask 0 members.now }
{
    match members.last() {
        Some(member) => member.over,
        None => 0,
    }
}

/// Begins the pieces of a bundle at a place: under each is what holds over the one below it.
pub(crate) fn label(
    input: &PassInput,
    values: &mut Values,
    stay: &mut [Member],
    under: u32,
    begin: usize,
)
    requires { AreValues input.now.steps values.old }
    ensures known { AreValues input.now.steps values.new }
    ensures units { map (λ m. m.unit) stay.new ≡ map (λ m. m.unit) stay.old }
    ensures begun { AreBegun input.now.steps under begin true stay.new }
{
    let mut mask = under;
    let mut value = values.over(input, under);
    for member in stay.iter_mut() {
        value = begin_over(input, values, member, mask, value, begin);
        mask = member.over;
    }
}

/// Begins anew the piece of a member that goes on alone, in its place, and lists it.
pub(crate) fn go_through(
    input: &PassInput,
    values: &mut Values,
    status: &mut Vec<Member>,
    low: usize,
    stay: &mut Vec<Member>,
    begin: usize,
) -> Result<(), AllocError>
    requires known { AreValues input.now.steps values.old }
    requires there { low < length status.old.items }
    ensures known { AreValues input.now.steps values.new }
    ensures put { OnOk result
        (status.new.items ≡ take low status.old.items ++ stay.new.items ++ drop (low + 1) status.old.items) }
    ensures unit { OnOk result
        ((d : Member) → map (λ m. m.unit) stay.new.items ≡ (get_or status.old.items low d).unit ∷ []) }
    ensures begun { OnOk result
        (AreBegun input.now.steps (highest_mask 0 (take low status.old.items)) begin true stay.new.items) }
{
    let under = mask_over(&status[..low]);
    let value = values.over(input, under);
    let mut member = status[low];
    begin_over(input, values, &mut member, under, value, begin);
    status[low] = member;
    stay.clear();
    stay.push(member)?;
    Ok(())
}

/// Begins a member's piece over what a mask says, where the value of the expression there is known, and
/// says the value over the member.
fn begin_over(
    input: &PassInput,
    values: &mut Values,
    member: &mut Member,
    mask: u32,
    value: bool,
    begin: usize,
) -> bool
    requires values { AreValues input.now.steps values.old }
    requires known { HasValue input.now.steps mask value }
    ensures known { AreValues input.now.steps values.new }
    ensures unit { member.new.unit ≡ member.old.unit }
    ensures begun { IsBegun input.now.steps mask begin true member.new }
    ensures value { HasValue input.now.steps member.new.over result }
{
    let over = mask ^ member.unit.mask;
    let next = values.over(input, over);
    member.begin = begin;
    member.over = over;
    member.value = next;
    member.differs = value ^ next;
    next
}
