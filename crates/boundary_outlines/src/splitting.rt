//! Closed walks split where they come to a place again.
use crate::edge::Net;
use ring_joining::PieceRing;
use std::alloc::{AllocError, Global};

/// For each edge the one that follows it in its ring, and the walk that both came from.
#[derive(Debug, Drop)]
pub(crate) struct Split {
    pub nexts: Vec<usize>,
    pub walk_of: Vec<usize>,
}

/// A walk as far as it was gone without a place twice: its edges, and for each place 0, or one more than how many edges
/// of these come before the one that begins there.
#[derive(Debug, Drop)]
struct Path {
    edges: Vec<usize>,
    marks: Vec<usize>,
}

/// A number in a list, 0 where there is none.
pub(crate) fn number_at(list: &[usize], at: usize) -> usize {
    match list.get(at) {
        Some(own) => *own,
        None => 0,
    }
}

/// Sets a number in a list.
pub(crate) fn put_at(list: &mut [usize], at: usize, number: usize) {
    if let Some(own) = list.get_mut(at) {
        *own = number;
    }
}

/// Closes a ring of edges.
fn close(split: &mut Split, ring: &[usize], walk: usize) {
    let Some(last) = ring.last() else {
        return;
    };
    let mut before = *last;
    for one in ring {
        put_at(&mut split.nexts, before, *one);
        put_at(&mut split.walk_of, *one, walk);
        before = *one;
    }
}

/// Closes the last edges of a path, from so many on.
fn close_from(net: &Net, split: &mut Split, path: &mut Path, begin: usize, walk: usize) {
    if let Some(ring) = path.edges.get(begin..) {
        close(split, ring, walk);
        for one in ring {
            put_at(&mut path.marks, net.tail_of(*one), 0);
        }
    }
    path.edges.truncate(begin);
}

/// Splits a walk.
fn split_walk(
    net: &Net,
    split: &mut Split,
    path: &mut Path,
    walk: &[usize],
    number: usize,
) -> Result<(), AllocError> {
    for one in walk {
        let at = net.tail_of(*one);
        let mark = number_at(&path.marks, at);
        if mark > 0 {
            close_from(net, split, path, mark.saturating_sub(1), number);
        }
        path.edges.push(*one)?;
        let count = path.edges.len();
        put_at(&mut path.marks, at, count);
    }
    close_from(net, split, path, 0, number);
    Ok(())
}

/// Which edge follows which where walks are split, so that none comes to a place twice.
pub(crate) fn split_all(
    alloc: Global,
    net: &Net,
    walks: &[PieceRing],
) -> Result<Split, AllocError> {
    let mut split = Split {
        nexts: vec![in alloc; 0; net.edges.len()]?,
        walk_of: vec![in alloc; 0; net.edges.len()]?,
    };
    let mut path = Path {
        edges: Vec::new(alloc),
        marks: vec![in alloc; 0; net.places.len()]?,
    };
    for number in 0..walks.len() {
        split_walk(net, &mut split, &mut path, walks[number].pieces(), number)?;
    }
    Ok(split)
}
