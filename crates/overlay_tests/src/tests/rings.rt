//! Layers of rings for the tests: scattered rings from seeds, and combs that cross everywhere.
use crate::tests::testing::{input_in, with_definition, with_rings};
use arrange::TileInput;
use layer_book::Layers;
use plane_base::{Pt, Ring};
use std::alloc::Global;
use std::process::Abort;

/// The next of a fixed sequence of numbers, by Knuth's multiplier for 64 bits.
pub fn next(seed: u64) -> u64 {
    seed.wrapping_mul(6364136223846793005)
        .wrapping_add(1442695040888963407)
}

/// A point of the square of nine coordinates that begins at `low`.
fn point(rt: &impl Abort, seed: u64, low: i64) -> Pt {
    let x = (seed >> 33) % 9;
    let y = (seed >> 43) % 9;
    Pt::new(low.saturating_add(x as i64), low.saturating_add(y as i64)).expect(rt, "in range")
}

/// A ring of four to nine steps through such points.
fn ring(rt: &impl Abort, alloc: Global, seed: u64, low: i64) -> Ring {
    let mut points = Vec::new(alloc);
    let mut number = seed;
    for _ in 0..4 + seed % 6 {
        number = next(number);
        points.push(point(rt, number, low)).expect(rt, "memory");
    }
    points.push(point(rt, next(seed), low)).expect(rt, "memory");
    Ring::new(points)
}

/// Two such rings.
fn two_rings(rt: &impl Abort, alloc: Global, seed: u64, low: i64) -> Vec<Ring> {
    let mut rings = Vec::new(alloc);
    rings.push(ring(rt, alloc, seed, low)).expect(rt, "memory");
    let second = ring(rt, alloc, next(seed) ^ 1, low);
    rings.push(second).expect(rt, "memory");
    rings
}

/// A rectangle from 1 to `end` along one axis and from `low` to `low` + 2 along the other.
fn tooth(rt: &impl Abort, alloc: Global, low: i64, end: i64, upright: bool) -> Ring {
    let mut points = Vec::new(alloc);
    for &(along, across) in &[(1, 0), (end, 0), (end, 2), (1, 2), (1, 0)] {
        let at = low.saturating_add(across);
        let (x, y) = if upright { (at, along) } else { (along, at) };
        let point = Pt::new(x, y).expect(rt, "in range");
        points.push(point).expect(rt, "memory");
    }
    Ring::new(points)
}

/// So many such rectangles, every fourth unit.
fn comb(rt: &impl Abort, alloc: Global, teeth: u8, end: i64, upright: bool) -> Vec<Ring> {
    let mut rings = Vec::new(alloc);
    let mut low = 0i64;
    for _ in 0..teeth {
        let one = tooth(rt, alloc, low, end, upright);
        rings.push(one).expect(rt, "memory");
        low = low.saturating_add(4);
    }
    rings
}

/// The layers A and B of these rings.
fn bases_over(rt: &impl Abort, alloc: Global, first: Vec<Ring>, second: Vec<Ring>) -> Layers {
    let one = with_rings(rt, alloc, Layers::new(alloc), "A", first);
    with_rings(rt, alloc, one, "B", second)
}

/// The input of a column for the symmetric difference of two layers of rings.
fn input_over(
    rt: &impl Abort,
    alloc: Global,
    first: Vec<Ring>,
    second: Vec<Ring>,
    column: u8,
) -> TileInput {
    let bases = bases_over(rt, alloc, first, second);
    let layers = with_definition(rt, alloc, bases, "I", "A ^ B");
    input_in(rt, alloc, &layers, "I", column)
}

/// The input of a column over scattered rings, through points of the square that begins at `low`.
pub fn scattered(rt: &impl Abort, alloc: Global, seed: u64, low: i64, column: u8) -> TileInput {
    let first = two_rings(rt, alloc, seed, low);
    let second = two_rings(rt, alloc, next(seed) ^ 2, low);
    input_over(rt, alloc, first, second, column)
}

/// The input of column 16 over two combs of so many rectangles that end at `end`, one across the other.
pub fn combs(rt: &impl Abort, alloc: Global, teeth: u8, end: i64) -> TileInput {
    let level = comb(rt, alloc, teeth, end, false);
    let upright = comb(rt, alloc, teeth, end, true);
    input_over(rt, alloc, level, upright, 16)
}
