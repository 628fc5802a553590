//! Which outer ring a walk without one lies in: the one that the walk of the edge under its first place has.
use crate::edge::{Edge, Line, Net};
use crate::place::Place;
use crate::splitting::{number_at, put_at};
use crate::turning::slope;
use crate::walks::{NONE, Walks};
use std::alloc::{AllocError, Global};

/// More than any slope in parts.
const UPRIGHT: i128 = 295147905179352825856;

/// An edge by the place where it comes, and by its slope.
#[derive(Clone, Copy, Debug)]
struct Coming {
    place: usize,
    slope: i128,
    edge: usize,
}

/// A line that a pass over places stands at: the edges there from below.
#[derive(Debug, Drop)]
struct Status {
    edges: Vec<usize>,
}

/// Edges by where they come, from below there.
fn all_coming(alloc: Global, edges: &[Edge]) -> Result<Vec<Coming>, AllocError> {
    let mut list = Vec::new(alloc);
    for number in 0..edges.len() {
        let line = &edges[number].line;
        list.push(Coming {
            place: edges[number].from,
            slope: if line.run == 0 {
                UPRIGHT
            } else {
                slope(line.run, line.rise)
            },
            edge: number,
        })?;
    }
    list.sort_unstable_by_key(|one| (one.place, one.slope));
    Ok(list)
}

/// How many edges end at each place.
fn all_going(alloc: Global, net: &Net) -> Result<Vec<usize>, AllocError> {
    let mut list = vec![in alloc; 0; net.places.len()]?;
    for edge in &net.edges {
        let count = number_at(&list, edge.to).saturating_add(1);
        put_at(&mut list, edge.to, count);
    }
    Ok(list)
}

/// How far a place lies over a line, in parts of its own: the sign alone counts.
fn height(line: &Line, at: &Place) -> i128 {
    let w = i128::from(at.w);
    let across = i128::from(at.x).saturating_sub(i128::from(line.x));
    let along = i128::from(at.y).saturating_sub(i128::from(line.y));
    let x = across.saturating_mul(w).saturating_add(i128::from(at.left));
    let y = along.saturating_mul(w).saturating_add(i128::from(at.up));
    let up = i128::from(line.run).saturating_mul(y);
    up.saturating_sub(i128::from(line.rise).saturating_mul(x))
}

impl Status {
    /// Whether the edge in a row of the status passes under a place.
    fn is_under(&self, net: &Net, row: usize, at: &Place) -> bool {
        match net.edges.get(number_at(&self.edges, row)) {
            Some(edge) => height(&edge.line, at) > 0,
            None => false,
        }
    }

    /// How many edges pass under a place.
    fn count_under(&self, net: &Net, at: &Place) -> usize {
        let mut low = 0;
        let mut high = self.edges.len();
        for _ in 0..64 {
            if low >= high {
                return low;
            }
            let middle = low.saturating_add(high.saturating_sub(low) / 2);
            if self.is_under(net, middle, at) {
                low = middle.saturating_add(1);
            } else {
                high = middle;
            }
        }
        low
    }

    /// Takes so many edges away from a row on.
    fn take(&mut self, row: usize, count: usize) {
        for _ in 0..count {
            if row < self.edges.len() {
                let _ = self.edges.remove(row);
            }
        }
    }

    /// Puts an edge in a row.
    fn put(&mut self, row: usize, edge: usize) -> Result<(), AllocError> {
        let len = self.edges.len();
        let at = if row <= len { row } else { len };
        match self.edges.insert(at, edge) {
            Ok(()) => Ok(()),
            Err(_) => Err(AllocError),
        }
    }

    /// The edge under a row, or none.
    fn below(&self, row: usize) -> usize {
        if row == 0 {
            return NONE;
        }
        match self.edges.get(row.saturating_sub(1)) {
            Some(edge) => *edge,
            None => NONE,
        }
    }
}

/// For each place the walk without an outer ring that has it first, or none.
fn lone_at(alloc: Global, places: usize, walks: &Walks) -> Result<Vec<usize>, AllocError> {
    let mut list = vec![in alloc; NONE; places]?;
    for number in 0..walks.outer.len() {
        if walks.outer[number] == NONE {
            put_at(&mut list, number_at(&walks.first, number), number);
        }
    }
    Ok(list)
}

/// Gives a walk the outer ring of the walk that an edge is of.
fn adopt(walks: &mut Walks, walk: usize, edge: usize, walk_of: &[usize]) {
    if walk == NONE || edge == NONE {
        return;
    }
    let outer = walks.outer_of(number_at(walk_of, edge));
    put_at(&mut walks.outer, walk, outer);
}

/// Finds the outer rings of walks that have none of their own.
pub(crate) fn nest(
    alloc: Global,
    net: &Net,
    walk_of: &[usize],
    walks: &mut Walks,
) -> Result<(), AllocError> {
    let coming = all_coming(alloc, &net.edges)?;
    let going = all_going(alloc, net)?;
    let lone = lone_at(alloc, net.places.len(), walks)?;
    let mut status = Status {
        edges: Vec::new(alloc),
    };
    let mut next: usize = 0;
    for place in 0..net.places.len() {
        let row = status.count_under(net, &net.places[place]);
        adopt(walks, number_at(&lone, place), status.below(row), walk_of);
        status.take(row, number_at(&going, place));
        next = come(&mut status, &coming, next, place, row)?;
    }
    Ok(())
}

/// Puts the edges that come at a place in their rows; says which comes next.
fn come(
    status: &mut Status,
    coming: &[Coming],
    from: usize,
    place: usize,
    row: usize,
) -> Result<usize, AllocError> {
    let mut next = from;
    let mut at = row;
    let Some(rest) = coming.get(from..) else {
        return Ok(next);
    };
    for one in rest {
        if one.place != place {
            return Ok(next);
        }
        status.put(at, one.edge)?;
        at = at.saturating_add(1);
        next = next.saturating_add(1);
    }
    Ok(next)
}
