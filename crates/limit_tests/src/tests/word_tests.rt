//! What the program's words ask for where they say little, and all that they may say.
use program_words::fault::WordFault;
use program_words::keeping::Opening;
use program_words::plan::Plan;
use program_words::reading::read_words;
use std::alloc::Global;
use std::process::Abort;

/// Whether there is a store and whether it is made, how many workers and blocks, and how many scripts.
type Asked = (bool, bool, u32, u32, usize);

/// Words, and what they ask for.
const PLANS: &[(&[&str], Asked)] = &[
    (&[], (false, false, 2, 65_536, 0)),
    (
        &["--store", "f", "--create", "a", "b"],
        (true, true, 2, 65_536, 2),
    ),
    (
        &["--workers", "8", "--max-blocks", "1048576"],
        (false, false, 8, 1_048_576, 0),
    ),
    (&["a", "b", "c", "d"], (false, false, 2, 65_536, 4)),
];

/// Words that ask for nothing that there is.
const WRONG: &[&[&str]] = &[
    &["--workers", "0"],
    &["--workers", "9"],
    &["--max-blocks", "0"],
    &["--max-blocks", "1048577"],
    &["--create"],
    &["a", "b", "c", "d", "e"],
];

fn words_of(rt: &impl Abort, alloc: Global, list: &[&str]) -> Vec<String> {
    let mut words = Vec::new(alloc);
    for &text in list {
        let word = format!(in alloc; "{text}").expect(rt, "memory");
        words.push(word).expect(rt, "memory");
    }
    words
}

fn asked(rt: &impl Abort, alloc: Global, list: &[&str]) -> Result<Asked, WordFault> {
    let Plan { keeping, scripts } = read_words(alloc, &words_of(rt, alloc, list))?;
    Ok((
        keeping.store.is_some(),
        keeping.opening == Opening::New,
        keeping.workers,
        keeping.max_blocks,
        scripts.len(),
    ))
}

#[test]
fn words_that_say_nothing_ask_for_two_workers_and_no_store(rt: HostRuntime) {
    for (row, &(words, want)) in PLANS.iter().enumerate() {
        let got = asked(&rt, rt.alloc(), words);
        assert!(rt; got == Ok(want), "row {row}");
    }
}

#[test]
fn numbers_and_counts_outside_their_limits_are_refused(rt: HostRuntime) {
    for (row, &words) in WRONG.iter().enumerate() {
        match asked(&rt, rt.alloc(), words) {
            Ok(_) => panic!(rt; "row {row} is taken"),
            Err(fault) => assert!(rt; fault.code() == 50, "row {row}"),
        }
    }
}
