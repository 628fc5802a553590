//! What is known of walks: each has one outer ring at most.
use crate::edge::Net;
use crate::splitting::{number_at, put_at};
use ring_joining::PieceRing;
use std::alloc::{AllocError, Global};

/// The number of nothing.
pub(crate) const NONE: usize = usize::MAX;

/// A ring: the walk that it came from, its first place, and whether it is anti-clockwise.
#[derive(Clone, Copy, Debug)]
pub(crate) struct Turned {
    pub walk: usize,
    pub first: usize,
    pub is_outer: bool,
}

/// The outer ring of each walk, or none; and its first place.
#[derive(Debug, Drop)]
pub(crate) struct Walks {
    pub outer: Vec<usize>,
    pub first: Vec<usize>,
}

/// How a ring turns: at its first place, where it can bend one way only.
pub(crate) fn turned_ring(net: &Net, ring: &[usize], walk_of: &[usize]) -> Turned {
    let mut own = Turned {
        walk: 0,
        first: NONE,
        is_outer: false,
    };
    let Some(last) = ring.last() else {
        return own;
    };
    let mut before = *last;
    own.walk = number_at(walk_of, before);
    for one in ring {
        let at = net.tail_of(*one);
        if at < own.first {
            own.first = at;
            own.is_outer = net.bend(before, *one) > 0;
        }
        before = *one;
    }
    own
}

/// How rings turn.
pub(crate) fn all_turned(
    alloc: Global,
    net: &Net,
    rings: &[PieceRing],
    walk_of: &[usize],
) -> Result<Vec<Turned>, AllocError> {
    let mut list = Vec::new(alloc);
    for ring in rings {
        list.push(turned_ring(net, ring.pieces(), walk_of))?;
    }
    Ok(list)
}

impl Walks {
    /// What rings say of so many walks.
    pub(crate) fn of(alloc: Global, count: usize, rings: &[Turned]) -> Result<Walks, AllocError> {
        let mut walks = Walks {
            outer: vec![in alloc; NONE; count]?,
            first: vec![in alloc; NONE; count]?,
        };
        for number in 0..rings.len() {
            let ring = rings[number];
            if ring.is_outer {
                put_at(&mut walks.outer, ring.walk, number);
            }
            if ring.first < number_at(&walks.first, ring.walk) {
                put_at(&mut walks.first, ring.walk, ring.first);
            }
        }
        Ok(walks)
    }

    /// Whether a walk has no outer ring.
    pub(crate) fn has_lone(&self) -> bool {
        for one in &self.outer {
            if *one == NONE {
                return true;
            }
        }
        false
    }

    /// The outer ring of a walk, or none.
    pub(crate) fn outer_of(&self, walk: usize) -> usize {
        match self.outer.get(walk) {
            Some(own) => *own,
            None => NONE,
        }
    }
}
