//! One pass over a strip of columns from node to node.
ghost use Rattle.std.specs.Prelude.{◌≡◌, ◌<◌, ◌≤◌, ◌+◌, ℕ, ◌⊎◌, ◌++◌, [], ◌∷◌};
ghost use Rattle.std.specs.Prelude.{true, false, length, All, IfOk, IfSome, IsNone, OnOk};
ghost use Rattle.crossing_sweep.specs.Amid.{IsPassing};
ghost use Rattle.crossing_sweep.specs.Crossed.{IsCrossed};
ghost use Rattle.crossing_sweep.specs.StripCrossed.{IsStripCrossed};
ghost use Rattle.crossing_sweep.specs.Rows.{count_settled};
ghost use Rattle.crossing_sweep.specs.PassState.{nodes_max};
ghost use Rattle.crossing_sweep.specs.Values.{AreValues};

use crate::known_places::known_places;
use crate::member::Member;
use crate::node_name::NodeName;
use crate::pass_input::PassInput;
use crate::progress::Progress;
use crate::row::Row;
use crate::search::Search;
use crate::sorting::sort;
use crate::starts::starts;
use crate::values::Values;
use crate::wish::{Always, Wish, is_portion};
use arrange::TileInput;
use exact_point::PointName;
use plane_base::Seg;
use std::alloc::{AllocError, Global};
use std::marker::Model;

/// What a pass over a strip has found.
#[derive(Debug, Drop)]
pub struct Crossed {
    /// The pieces of the boundary, by their left ends, then by their right ends; where they are more
    /// than the cap, some of them, more than the cap too.
    pub rows: Vec<Row>,
    /// How many nodes were passed.
    pub nodes: usize,
    /// The names of the nodes that the rows end at, and of few others, in the order of the nodes.
    pub names: Vec<NodeName>,
    /// The pairs of neighbours that were tested, if they are listed.
    pub tests: Vec<(Seg, Seg)>,
}

/// A pass over the strip of an input that has come to some place.
#[derive(Drop)]
pub(crate) struct Pass<'a> {
    input: &'a PassInput<'a>,
    progress: Progress,
}

impl<'a> Model for Pass<'a> {
    ghost use Rattle.std.specs.Prelude.{length};
    ghost use Rattle.crossing_sweep.specs.PassState.{PassState, pass_state_code};
    ghost use Rattle.crossing_sweep.specs.Rows.{count_settled};

    ghost Value = { PassState };

    ghost coded = { pass_state_code };

    ghost use Rattle.crossing_sweep.specs.Amid.{IsPassing};

    ghost view = { λ p. record {
      input = p.input.now;
      listed = p.progress.search.listed;
      ahead = length p.progress.search.ahead;
      rows = length p.progress.rows.items;
      settled = count_settled p.progress.nodes p.progress.rows.items;
    } };

    ghost invariant = { λ p. IsPassing p.input.now p.progress };
}

/// The boundary of an input, found by one pass that stops after more than so many pieces.
pub fn cross(
    alloc: Global,
    input: &TileInput,
    cap: usize,
    listed: bool,
) -> Result<Crossed, AllocError>
    ensures { IfOk result (λ found. IsCrossed input.now cap listed found) }
{
    match cross_while(alloc, input, cap, listed, &Always)? {
        Some(found) => Ok(found),
        None => unreachable!(),
    }
}

/// The same as long as it is wanted: None says that the wish has ended, and the pass was left.
pub fn cross_while<W: Wish>(
    alloc: Global,
    input: &TileInput,
    cap: usize,
    listed: bool,
    wish: &W,
) -> Result<Option<Crossed>, AllocError>
    ensures found { IfOk result (λ o. IfSome o (λ found. IsCrossed input.now cap listed found)) }
    ensures left { IfOk result (λ o. IsNone o → W.ended wish.now) }
{
    let strip_input = PassInput::of_column(input);
    let found = cross_strip_while(alloc, &strip_input, cap, listed, wish)?;
    Ok(found)
}

/// The boundary of a strip's input, found by one pass that stops after more than so many pieces in all. Where there are
/// no more, the pieces that begin in one of its columns come together, and are that column's tile. The pass goes on as
/// long as it is wanted: None says that the wish has ended, and the pass was left.
pub fn cross_strip_while<W: Wish>(
    alloc: Global,
    input: &PassInput,
    cap: usize,
    listed: bool,
    wish: &W,
) -> Result<Option<Crossed>, AllocError>
    ensures found { IfOk result (λ o. IfSome o (λ found. IsStripCrossed input.now cap listed found)) }
    ensures left { IfOk result (λ o. IsNone o → W.ended wish.now) }
{
    let pass = Pass::new(alloc, input, listed)?;
    let done = pass.run_while(alloc, cap, wish)?;
    let Some(pass) = done else {
        return Ok(None);
    };
    let found = pass.into_crossed(alloc)?;
    Ok(Some(found))
}

impl<'a> Pass<'a> {
    /// A pass that is to begin.
    fn new(alloc: Global, input: &'a PassInput<'a>, listed: bool) -> Result<Pass<'a>, AllocError>
        ensures input { IfOk result (λ pass. pass.input ≡ input.now) }
        ensures listed { IfOk result (λ pass. pass.listed ≡ listed) }
        ensures settled { IfOk result (λ pass. pass.settled ≡ 0) }
    {
        // An input has closed rings: the pass rests on that.
        let _ = input.strip();
        let starts = starts(alloc, input)?;
        let ahead = known_places(alloc, input)?;
        let status = Vec::with_capacity(alloc, starts.len())?;
        // Most nodes are places known ahead, and about one row ends at each.
        let most = ahead.len_known().saturating_add(2 * starts.len());
        let names = Vec::with_capacity(alloc, most)?;
        let rows = Vec::with_capacity(alloc, most)?;
        let progress = Progress {
            starts,
            entered: 0,
            status,
            hint: 0,
            search: Search {
                ahead,
                listed,
                tests: Vec::new(alloc),
            },
            rows,
            nodes: 0,
            names,
        };
        Ok(Pass { input, progress })
    }

    /// Goes from node to node to the end of the strip, or until there are more rows than a cap. After each portion of
    /// the nodes the wish is asked: None says that it has ended, and the pass was left.
    fn run_while<W: Wish>(
        self,
        alloc: Global,
        cap: usize,
        wish: &W,
    ) -> Result<Option<Pass<'a>>, AllocError>
        ensures input { IfOk result (λ o. IfSome o (λ pass. pass.input ≡ self.entry.input)) }
        ensures listed { IfOk result (λ o. IfSome o (λ pass. pass.listed ≡ self.entry.listed)) }
        ensures ended { IfOk result (λ o. IfSome o (λ pass. (pass.ahead ≡ 0) ⊎ (cap < pass.rows))) }
        ensures settled { IfOk result (λ o. IfSome o (λ pass. self.entry.settled ≤ cap → pass.settled ≤ cap)) }
        ensures left { IfOk result (λ o. IsNone o → W.ended wish.now) }
    {
        let Pass {
            input,
            mut progress,
        } = self;
        let mut values = Values::new(alloc, input)?;
        let mut stay = Vec::new(alloc);
        while is_under_way(&progress, cap) {
            go_on(input, &mut values, &mut stay, &mut progress)?;
            if is_portion(progress.nodes) && !wish.is_wanted() {
                return Ok(None);
            }
        }
        Ok(Some(Pass { input, progress }))
    }

    /// What it has found, where it has come to the end, or has more rows than a cap.
    fn into_crossed(self, alloc: Global) -> Result<Crossed, AllocError>
        ensures { IfOk result (λ found. (cap : ℕ) → (self.entry.ahead ≡ 0) ⊎ (cap < self.entry.rows) → self.entry.settled ≤ cap → IsStripCrossed self.entry.input cap self.entry.listed found) }
    {
        let mut progress = self.progress;
        sort(alloc, &mut progress.rows, progress.nodes)?;
        let Progress {
            search,
            rows,
            nodes,
            names,
            ..
        } = progress;
        Ok(Crossed {
            rows,
            nodes,
            names,
            tests: search.tests,
        })
    }
}

/// Whether a place is ahead of a pass, and there are no more rows than a cap.
fn is_under_way(progress: &Progress, cap: usize) -> bool
    ensures way { result ≡ true → (¬ (length progress.now.search.ahead ≡ 0)) × (length progress.now.rows.items ≤ cap) }
    ensures ended { result ≡ false → (length progress.now.search.ahead ≡ 0) ⊎ (cap < length progress.now.rows.items) }
{
    !progress.search.ahead.is_empty() && progress.rows.len() <= cap
}

/// Passes the next node, if there is one ahead, and keeps its name if a row ends there, or a member begins there that
/// may make one. What a pass has stays where it is, since it is large; and a list serves all nodes for the members that
/// go on.
fn go_on(
    input: &PassInput,
    values: &mut Values,
    stay: &mut Vec<Member>,
    progress: &mut Progress,
) -> Result<(), AllocError>
    requires passing { IsPassing input.now progress.old }
    requires known { AreValues input.now.steps values.old }
    ensures known { AreValues input.now.steps values.new }
    ensures passing { OnOk result (IsPassing input.now progress.new) }
    ensures listed { OnOk result (progress.new.search.listed ≡ progress.old.search.listed) }
    ensures more { OnOk result (¬ (length progress.old.search.ahead ≡ 0)
        → progress.new.nodes ≡ progress.old.nodes + 1) }
    ensures settled { OnOk result (¬ (length progress.old.search.ahead ≡ 0)
        → count_settled progress.new.nodes progress.new.rows.items ≡ length progress.old.rows.items) }
    ensures few { OnOk result (progress.new.nodes ≤ nodes_max input.now) }
{
    let Some(node) = progress.search.ahead.take_first() else {
        return Ok(());
    };
    // An input has few segments: the count of nodes rests on that.
    let _ = input.marked();
    let number = progress.nodes;
    let rows = progress.rows.len();
    progress.step(input, values, stay, &node, number)?;
    progress.nodes += 1;
    let needed = is_needed(rows, progress.rows.len(), stay);
    keep(&mut progress.names, number, node.name, needed)?;
    Ok(())
}

/// Whether rows need the name of a node: there are more than before, or one of the members
/// that begin there may make one.
fn is_needed(rows: usize, more: usize, begun: &[Member]) -> bool
    ensures few { result ≡ false → more ≤ rows }
    ensures none { result ≡ false → All (λ m. m.differs ≡ false) begun.now }
{
    if rows < more {
        return true;
    }
    begun.iter().any(|member| member.differs)
}

/// Keeps the name of the node with a number if it is needed.
fn keep(
    names: &mut Vec<NodeName>,
    number: usize,
    name: PointName,
    needed: bool,
) -> Result<(), AllocError>
    ensures kept { OnOk result (needed ≡ true
        → names.new.items ≡ names.old.items ++ record { number = number; name = name } ∷ []) }
    ensures same { OnOk result (needed ≡ false → names.new.items ≡ names.old.items) }
{
    if needed {
        names.push(NodeName { number, name })?;
    }
    Ok(())
}
