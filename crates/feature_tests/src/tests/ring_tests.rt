//! Pieces are joined to the rings that their ranks say.
use ring_joining::{JoinFault, NumberedPiece, PieceRing, join, outline, successors};
use std::alloc::Global;
use std::process::Abort;

/// The place where a piece begins and its rank there, the place where it ends and its rank there.
type Piece = (usize, usize, usize, usize);

/// A square, its second side last.
const SQUARE: &[Piece] = &[(0, 0, 1, 0), (2, 0, 3, 0), (3, 0, 0, 0), (1, 0, 2, 0)];

/// Two triangles that meet at place 0. There the first one's end and beginning have rank 0.
const MEETING: &[Piece] = &[
    (0, 0, 1, 0),
    (1, 0, 2, 0),
    (2, 0, 0, 0),
    (0, 1, 3, 0),
    (3, 0, 4, 0),
    (4, 0, 0, 1),
];

/// The same, each end with the rank of the other one's beginning.
const THROUGH: &[Piece] = &[
    (0, 0, 1, 0),
    (1, 0, 2, 0),
    (2, 0, 0, 1),
    (0, 1, 3, 0),
    (3, 0, 4, 0),
    (4, 0, 0, 0),
];

/// Pieces, the piece that follows each, and the rings.
const OUTLINES: &[(&[Piece], &[usize], &[&[usize]])] = &[
    (&[], &[], &[]),
    (SQUARE, &[3, 2, 0, 1], &[&[0, 3, 1, 2]]),
    (MEETING, &[1, 2, 0, 4, 5, 3], &[&[0, 1, 2], &[3, 4, 5]]),
    (THROUGH, &[1, 2, 3, 4, 5, 0], &[&[0, 1, 2, 3, 4, 5]]),
];

/// Pieces from such numbers.
fn numbered(rt: &impl Abort, alloc: Global, list: &[Piece]) -> Vec<NumberedPiece> {
    let mut pieces = Vec::new(alloc);
    for &(from, from_rank, to, to_rank) in list {
        let piece = NumberedPiece {
            from,
            to,
            from_rank,
            to_rank,
        };
        pieces.push(piece).expect(rt, "memory");
    }
    pieces
}

/// Whether rings are these.
fn are_rings(rings: &[PieceRing], want: &[&[usize]]) -> bool {
    if rings.len() != want.len() {
        return false;
    }
    rings
        .iter()
        .zip(want)
        .all(|(ring, &pieces)| ring.pieces() == pieces)
}

/// Checks that rings are these.
fn check_rings(rt: &impl Abort, got: Result<Vec<PieceRing>, JoinFault>, want: &[&[usize]]) {
    match got {
        Ok(rings) => assert!(rt; are_rings(&rings, want)),
        Err(JoinFault::OutOfMemory) => panic!(rt; "memory"),
        Err(JoinFault::NotClosed) => panic!(rt; "not closed"),
    }
}

#[test]
fn each_piece_is_followed_by_the_one_of_its_rank(rt: HostRuntime) {
    for &(list, nexts, _) in OUTLINES {
        let pieces = numbered(&rt, rt.alloc(), list);
        let got = successors(rt.alloc(), &pieces).expect(&rt, "memory");
        assert!(rt; got.as_slice() == nexts);
    }
}

#[test]
fn pieces_are_joined_to_rings(rt: HostRuntime) {
    for &(list, nexts, rings) in OUTLINES {
        let pieces = numbered(&rt, rt.alloc(), list);
        check_rings(&rt, outline(rt.alloc(), &pieces), rings);
        assert!(rt; nexts.len() == pieces.len());
        check_rings(&rt, join(rt.alloc(), &pieces, nexts), rings);
    }
}

/// Pieces, and what is given as the piece that follows each, though it makes no rings.
const OPEN: &[(&[Piece], &[usize])] = &[
    // the second side's next begins elsewhere
    (SQUARE, &[3, 0, 0, 1]),
    // a piece that there is not
    (SQUARE, &[3, 2, 4, 1]),
    // both ends at place 0 lead to the first triangle
    (MEETING, &[1, 2, 0, 4, 5, 0]),
    // the walk from the first piece comes back to the fourth
    (MEETING, &[1, 2, 3, 4, 5, 3]),
];

#[test]
fn pieces_that_do_not_lead_back_are_refused(rt: HostRuntime) {
    for &(list, nexts) in OPEN {
        let pieces = numbered(&rt, rt.alloc(), list);
        assert!(rt; nexts.len() == pieces.len());
        let got = join(rt.alloc(), &pieces, nexts);
        assert!(rt; matches!(got, Err(JoinFault::NotClosed)));
    }
}

#[test]
fn a_piece_that_leads_nowhere_is_refused(rt: HostRuntime) {
    let pieces = numbered(&rt, rt.alloc(), &[(0, 0, 1, 0)]);
    let got = outline(rt.alloc(), &pieces);
    assert!(rt; matches!(got, Err(JoinFault::NotClosed)));
}
