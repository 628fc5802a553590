//! What a pass over a strip has, and one step of it: crossings are found from neighbours alone, and
//! the boundary is carried along.
ghost use Rattle.std.specs.Prelude.{◌≡◌, ◌≤◌, ◌+◌, ◌++◌, ◌⊎◌, true, false, length, take, drop, All, Contains, OnOk};
ghost use Rattle.exact_point.specs.Place.{place};
ghost use Rattle.crossing_sweep.specs.StripInput.{is_in_strip};
ghost use Rattle.crossing_sweep.specs.Stepping.{IsStepped};
ghost use Rattle.crossing_sweep.specs.Amid.{IsClosedAt};
ghost use Rattle.crossing_sweep.specs.Values.{AreValues};

use crate::bundle::near_bundle_at;
use crate::member::Member;
use crate::members_after::{count_entering, ends_after, turned};
use crate::node_name::NodeName;
use crate::pass_input::PassInput;
use crate::ranked_place::RankedPlace;
use crate::row::{Row, close, go_through, label, mask_over};
use crate::search::Search;
use crate::start::Start;
use crate::values::Values;
use std::alloc::AllocError;

/// What a pass over a strip has when it has come to some place.
#[derive(Drop)]
pub(crate) struct Progress {
    pub starts: Vec<Start>,
    pub entered: usize,
    pub status: Vec<Member>,
    /// So many members lie under the place where the status changed last, or hold it.
    pub hint: usize,
    pub search: Search,
    pub rows: Vec<Row>,
    /// How many nodes were passed.
    pub nodes: usize,
    /// The names of those that rows end at, and of those where a member begins that may make one, in their order.
    pub names: Vec<NodeName>,
}

impl Progress {
    /// Passes a node: the pieces of the members that hold it are closed. In the strip these give way to
    /// those that go on or enter there, which a list is lent for, and new neighbours are tested; on its right
    /// border, where no piece of it begins, nothing else is done. The list has the members that begin.
    pub(crate) fn step(
        &mut self,
        input: &PassInput,
        values: &mut Values,
        stay: &mut Vec<Member>,
        node: &RankedPlace,
        begin: usize,
    ) -> Result<(), AllocError>
        requires few { self.old.entered ≤ length self.old.starts.items }
        requires known { AreValues input.now.steps values.old }
        ensures known { AreValues input.now.steps values.new }
        ensures few { OnOk result (self.new.entered ≤ length self.new.starts.items) }
        ensures stepped { OnOk result (is_in_strip input.now.strip (place node.now.at) ≡ true →
            IsStepped input.now node.now.at begin self.old.status.items self.new.status.items
            (drop self.old.entered self.old.starts.items) (drop self.new.entered self.new.starts.items)
            self.old.search self.new.search self.old.rows.items self.new.rows.items) }
        ensures closed { OnOk result (is_in_strip input.now.strip (place node.now.at) ≡ false →
            IsClosedAt node.now.at begin self.old.status.items self.new.status.items
            self.old.rows.items self.new.rows.items) }
        ensures searched { OnOk result (is_in_strip input.now.strip (place node.now.at) ≡ false
            → self.new.search ≡ self.old.search) }
        ensures names { self.new.names ≡ self.old.names }
        ensures nodes { self.new.nodes ≡ self.old.nodes }
        ensures begun { OnOk result (All (λ m. m.begin ≡ begin) stay.new.items) }
        ensures members { OnOk result ((m : Member) → Contains self.new.status.items m
            → Contains self.old.status.items m ⊎ Contains stay.new.items m) }
    {
        let (low, high) = near_bundle_at(&self.status, node.at, self.hint);
        close(&mut self.rows, &self.status[low..high], begin)?;
        let within = input.strip().holds(node);
        if !within {
            stay.clear();
            self.hint = high;
            return Ok(());
        }
        let coming = &self.starts[self.entered..];
        let entered = count_entering(coming, node);
        if is_alone(high - low, entered) && ends_after(&self.status[low].unit.seg, node) {
            go_through(input, values, &mut self.status, low, stay, begin)?;
            self.hint = high;
            return Ok(());
        }
        turned(
            stay,
            &self.status[low..high],
            &coming[..entered],
            node,
            begin,
        )?;
        let under = mask_over(&self.status[..low]);
        label(input, values, stay, under, begin);
        let top = low + stay.len();
        replace(&mut self.status, low, high, stay)?;
        self.search.test_new(input.strip(), &self.status, low, top)?;
        self.entered += entered;
        self.hint = top;
        Ok(())
    }
}

/// Whether one member alone holds a node, and none enters there. If that one goes on, as at most borders between the
/// columns of a strip, all neighbours stay, and where they cross is known.
fn is_alone(bundle: usize, entered: usize) -> bool
    ensures bundle { result ≡ true → bundle ≡ 1 }
    ensures entered { result ≡ true → entered ≡ 0 }
{
    bundle == 1 && entered == 0
}

/// Puts members in the place of those of a range. Those over them are moved in place, and no memory is taken but for
/// the status.
fn replace(
    status: &mut Vec<Member>,
    low: usize,
    high: usize,
    stay: &[Member],
) -> Result<(), AllocError>
    requires in_order { low ≤ high }
    requires few { high ≤ length status.old.items }
    ensures { OnOk result (status.new.items ≡ take low status.old.items ++ stay.now ++ drop high status.old.items) }
{
    let (gone, come) = (high - low, stay.len());
    // One goes on, as where a segment ends and the next one begins.
    if gone == 1 && come == 1 {
        status[low] = stay[0];
        return Ok(());
    }
    make_place(status, low, high, stay)?;
    overwrite(status, low, stay);
    Ok(())
}

/// Makes a place for members where those of a range are. What stands in it then does not matter.
fn make_place(
    status: &mut Vec<Member>,
    low: usize,
    high: usize,
    stay: &[Member],
) -> Result<(), AllocError>
    requires in_order { low ≤ high }
    requires few { high ≤ length status.old.items }
    ensures long { OnOk result (low + length stay.now ≤ length status.new.items) }
    ensures below { OnOk result (take low status.new.items ≡ take low status.old.items) }
    ensures above { OnOk result (drop (low + length stay.now) status.new.items ≡ drop high status.old.items) }
{
    let (gone, come) = (high - low, stay.len());
    if gone < come {
        make_room(status, high, &stay[gone..])?;
        return Ok(());
    }
    take_out(status, low + come, high);
    Ok(())
}

/// Writes members over as many of a status.
fn overwrite(status: &mut Vec<Member>, low: usize, stay: &[Member])
    requires { low + length stay.now ≤ length status.old.items }
    ensures { status.new.items
        ≡ take low status.old.items ++ stay.now ++ drop (low + length stay.now) status.old.items }
{
    status[low..low + stay.len()].copy_from_slice(stay);
}

/// Makes room for some members at an index, below which all stay. What stands in it does not matter.
fn make_room(status: &mut Vec<Member>, at: usize, more: &[Member]) -> Result<(), AllocError>
    requires { at ≤ length status.old.items }
    ensures long { OnOk result (length status.new.items ≡ length status.old.items + length more.now) }
    ensures below { OnOk result (take at status.new.items ≡ take at status.old.items) }
    ensures above { OnOk result (drop (at + length more.now) status.new.items ≡ drop at status.old.items) }
{
    let len = status.len();
    status.extend_from_slice(more)?;
    status.copy_within(at..len, at + more.len());
    Ok(())
}

/// Takes out the members of a range.
fn take_out(status: &mut Vec<Member>, low: usize, high: usize)
    requires in_order { low ≤ high }
    requires few { high ≤ length status.old.items }
    ensures { status.new.items ≡ take low status.old.items ++ drop high status.old.items }
{
    if low == high {
        return;
    }
    let len = status.len();
    status.copy_within(high..len, low);
    status.truncate(len - (high - low));
}
