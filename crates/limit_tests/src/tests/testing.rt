//! Layers and versions for the tests, by their texts. What cannot be made ends the test.
use layer_book::command::Command;
use layer_expr::name::Name;
use layer_expr::reading::read_expr;
use std::alloc::Global;
use std::process::Abort;
use std::sync::Arc;
use tile_build::Built;
use versions::{Finish, Version};
use wkt_form::reading::read_wkt;

pub const SQUARE: &str = "POLYGON ((0 0, 10 0, 10 10, 0 10, 0 0))";

pub const SHIFTED: &str = "POLYGON ((5 5, 15 5, 15 15, 5 15, 5 5))";

pub fn name_of(rt: &impl Abort, alloc: Global, name: &str) -> Name {
    Name::new(alloc, name.as_bytes()).expect(rt, "a name")
}

/// The command that puts a text under a name.
pub fn put(rt: &impl Abort, alloc: Global, name: &str, text: &str) -> Command {
    let base = read_wkt(alloc, text.as_bytes()).expect(rt, "a layer");
    let shared = Arc::new(alloc, base).expect(rt, "memory");
    Command::Put(name_of(rt, alloc, name), shared)
}

/// The command that defines a name by a text.
pub fn define(rt: &impl Abort, alloc: Global, name: &str, text: &str) -> Command {
    let expression = read_expr(alloc, text.as_bytes()).expect(rt, "an expression");
    let shared = Arc::new(alloc, expression).expect(rt, "memory");
    Command::Define(name_of(rt, alloc, name), shared)
}

/// The version after a command.
pub fn after(rt: &impl Abort, alloc: Global, version: &Version, command: &Command) -> Version {
    version.submit(alloc, command).expect(rt, "accepted")
}

/// The squares A from 0 to 10 and B from 5 to 15.
fn squares(rt: &impl Abort, alloc: Global) -> Version {
    let first = put(rt, alloc, "A", SQUARE);
    let one = after(rt, alloc, &Version::empty(alloc), &first);
    after(rt, alloc, &one, &put(rt, alloc, "B", SHIFTED))
}

/// The same, and I where both are.
pub fn overlap(rt: &impl Abort, alloc: Global) -> Version {
    let two = squares(rt, alloc);
    after(rt, alloc, &two, &define(rt, alloc, "I", "A & B"))
}

/// The same with the tile of I in column 16.
pub fn with_tile(rt: &impl Abort, alloc: Global) -> Version {
    kept_in(rt, alloc, &overlap(rt, alloc))
}

/// The tile of I in column 16.
fn tile_in(rt: &impl Abort, alloc: Global, version: &Version, name: &Name) -> Built {
    let input = version
        .layers()
        .input(alloc, name, 16)
        .expect(rt, "an input");
    Built::new(alloc, input).expect(rt, "memory")
}

/// The version that keeps it.
fn kept_in(rt: &impl Abort, alloc: Global, version: &Version) -> Version {
    let name = name_of(rt, alloc, "I");
    let tile = tile_in(rt, alloc, version, &name);
    match version.finish(alloc, &name, tile).expect(rt, "memory") {
        Finish::Kept(next) => next,
        Finish::Stale => panic!(rt; "stale"),
    }
}

/// A name with a number.
pub fn numbered(rt: &impl Abort, alloc: Global, number: u8) -> String {
    format!(in alloc; "L{number}").expect(rt, "memory")
}
