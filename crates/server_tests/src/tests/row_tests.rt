//! Scripts and their replies, by a server without a store.
use crate::tests::testing::{expect, served, written};
use disk_model::mem_disk::MemDisk;
use overlay_server::OpenGate;
use std::test::Fail;
use test_machines::machine::Machine;

const SQUARES: &[u8] = b"PUT A POLYGON ((0 0, 10 0, 10 10, 0 10, 0 0))
PUT B POLYGON ((5 5, 15 5, 15 15, 5 15, 5 5))
DEFINE I = A & B
LOCATE I 7 7
LOCATE I 2 2
LOCATE I 10 2
LOCATE I 14 14 2
WAIT I
EDGES I 16
VERIFY I 16
LAYERS
GRID I 4 4 2 4 4
SYNC
";

const SQUARES_ANSWERED: &str = "ok 1
ok 2
ok 3
in
out
edge
in
built 3
edges 4
5 5 1 5 10 1
5 5 1 10 5 1
5 10 1 10 10 1
10 5 1 10 10 1
same
layers 3
A MULTIPOLYGON (((0 0, 10 0, 10 10, 0 10, 0 0)))
B MULTIPOLYGON (((5 5, 15 5, 15 15, 5 15, 5 5)))
I = A & B
grid 4 4
...+
.##+
.##+
++++
error 46 no store
";

const BORDER: &[u8] = b"PUT D POLYGON ((-10 -10, 10 -10, 10 10, -10 10, -10 -10))
DEFINE E = D
WAIT E
EDGES E 15
EDGES E 16
";

const BORDER_ANSWERED: &str = "ok 1
ok 2
built 2
edges 3
-10 -10 1 -10 10 1
-10 -10 1 0 -10 1
-10 10 1 0 10 1
edges 3
0 -10 1 10 -10 1
0 10 1 10 10 1
10 -10 1 10 10 1
";

const FRACTIONS: &[u8] = b"PUT T POLYGON ((0 0, 3 1, 0 2, 0 0))
PUT S POLYGON ((1 -1, 2 -1, 2 3, 1 3, 1 -1))
DEFINE F = T & S
WAIT F
EDGES F 16
";

const FRACTIONS_ANSWERED: &str = "ok 1
ok 2
ok 3
built 3
edges 4
3 1 3 3 5 3
3 1 3 6 2 3
3 5 3 6 4 3
6 2 3 6 4 3
";

// Caught: `never_builds` (in tile_workers/src/worker.rt a job is taken and neither finished nor given back) and
// `always_gives_up` (each job is given back): WAIT sleeps for ever, or answers 40.
#[test]
fn scripts_are_answered(rt: HostRuntime) -> Result<(), Fail> {
    let alloc = rt.alloc();
    for &(script, text) in &[
        (SQUARES, SQUARES_ANSWERED),
        (BORDER, BORDER_ANSWERED),
        (FRACTIONS, FRACTIONS_ANSWERED),
    ] {
        let readers = Vec::from_array(alloc, [script])?;
        let served = served(&rt, alloc, &OpenGate, None::<Machine<MemDisk>>, readers);
        expect(&rt, &served, 0, text);
        assert_eq!(rt; served.stored(), 0);
        assert!(rt; !served.has_disk());
    }
    Ok(())
}

// Caught: `sessions_in_reverse` (in session_threads/src/running.rt the sessions are taken in from the last to the
// first).
#[test]
fn each_reader_has_its_own_replies(rt: HostRuntime) -> Result<(), Fail> {
    let alloc = rt.alloc();
    let first = b"HELLO\n".as_slice();
    let scripts = [first, b"LOCATE Z 1 1\n", b"", b"DROP Z"];
    let readers = Vec::from_array(alloc, scripts)?;
    let served = served(&rt, alloc, &OpenGate, None::<Machine<MemDisk>>, readers);
    expect(&rt, &served, 0, "error 41 command syntax\n");
    expect(&rt, &served, 1, "error 10 unknown layer\n");
    expect(&rt, &served, 2, "");
    expect(&rt, &served, 3, "error 10 unknown layer\n");
    Ok(())
}

#[test]
fn versions_are_numbered_over_all_sessions(rt: HostRuntime) -> Result<(), Fail> {
    let alloc = rt.alloc();
    let first = b"PUT A POLYGON ((0 0, 10 0, 10 10, 0 10, 0 0))\n".as_slice();
    let second = b"PUT B POLYGON ((5 5, 15 5, 15 15, 5 15, 5 5))\n".as_slice();
    let readers = Vec::from_array(alloc, [first, second])?;
    let served = served(&rt, alloc, &OpenGate, None::<Machine<MemDisk>>, readers);
    let earlier = usize::from(written(&served, 0) != b"ok 1\n".as_slice());
    expect(&rt, &served, earlier, "ok 1\n");
    expect(&rt, &served, 1 - earlier, "ok 2\n");
    assert_eq!(rt; served.number(), 2);
    Ok(())
}
