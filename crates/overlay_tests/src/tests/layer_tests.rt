//! Layers by their calls: order, copies and the inputs of tiles.
use crate::tests::rows::check;
use crate::tests::testing::{
    SHIFTED, SQUARE, input_in, input_of, layers_of, with_base, with_definition,
};
use layer_book::Layers;
use layer_expr::StepList;
use std::alloc::Global;
use std::process::Abort;

fn has_name(layers: &Layers, index: usize, name: &[u8]) -> bool {
    match layers.at(index) {
        Some((kept, _)) => kept.bytes() == name,
        None => false,
    }
}

/// The names in order.
const NAMES: &[&[u8]] = &[b"A", b"B", b"I"];

#[test]
fn a_copy_has_the_same_layers_in_order(rt: HostRuntime) {
    let layers = layers_of(&rt, rt.alloc(), SQUARE, SHIFTED, "A & B");
    let copy = layers.try_copy(rt.alloc()).expect(&rt, "memory");
    assert!(rt; copy.len() == 3);
    assert!(rt; copy.at(3).is_none());
    for (index, name) in NAMES.iter().enumerate() {
        assert!(rt; has_name(&copy, index, name), "at {index}");
    }
}

/// Checks what a definition of two base layers gives for each mask in turn.
fn check_values(rt: &impl Abort, steps: &StepList, wants: &[bool; 4]) {
    for (mask, want) in wants.iter().enumerate() {
        check(rt, mask, &steps.value(mask as u32), want);
    }
}

/// The squares A and B, I = A & B, and J = I ^ A after a base layer C that nothing names.
fn five_layers(rt: &impl Abort, alloc: Global) -> Layers {
    let three = layers_of(rt, alloc, SQUARE, SHIFTED, "A & B");
    let four = with_base(rt, alloc, three, "C", SQUARE);
    with_definition(rt, alloc, four, "J", "I ^ A")
}

#[test]
fn an_input_has_the_definitions_in_reach(rt: HostRuntime) {
    let layers = five_layers(&rt, rt.alloc());
    let input = input_in(&rt, rt.alloc(), &layers, "J", 16);
    assert!(rt; input.marked().len() == 8);
    assert!(rt; input.steps().bases() == 2);
    check_values(&rt, input.steps(), &[false, true, false, false]);
}

#[test]
fn two_squares_meet_where_both_bits_are_set(rt: HostRuntime) {
    let input = input_of(&rt, rt.alloc(), SQUARE, SHIFTED, "A & B", 16);
    let copy = input.steps().try_copy(rt.alloc()).expect(&rt, "memory");
    assert!(rt; copy == *input.steps());
    check_values(&rt, &copy, &[false, false, false, true]);
}
