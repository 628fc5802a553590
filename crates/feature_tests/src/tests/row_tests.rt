//! Rows are written in the order of their jobs, and nothing else is.
ghost use Rattle.std.specs.Prelude.{◌≡◌, replicate};

use row_writing::{Answering, RowFault, write_rows};
use std::alloc::{AllocError, Global};

/// What is asked for: a letter, so many times.
#[derive(Clone, Copy, Debug)]
struct Asked {
    letter: u8,
    times: usize,
}

/// Who answers by the letter, so many times.
struct Speller;

impl Answering<Asked> for Speller {
    ghost answers = { λ _ job row. row ≡ replicate job.times job.letter };

    fn row(&self, alloc: Global, job: &Asked) -> Result<Vec<u8>, AllocError> {
        Ok(vec![in alloc; job.letter; job.times]?)
    }
}

/// Letters and how often each is asked for, and the rows one after another.
const ROWS: &[(&[Asked], &[u8])] = &[
    (&[], b""),
    (
        &[
            Asked {
                letter: 98,
                times: 2,
            },
            Asked {
                letter: 97,
                times: 1,
            },
            Asked {
                letter: 99,
                times: 0,
            },
            Asked {
                letter: 98,
                times: 3,
            },
        ],
        b"bbabbb",
    ),
];

#[test]
fn rows_follow_what_is_written_in_the_order_of_their_jobs(rt: HostRuntime) {
    let mut written = Vec::new(rt.alloc());
    for &(jobs, rows) in ROWS {
        written.clear();
        let done = write_rows(rt.alloc(), &Speller, jobs, &mut written);
        assert!(rt; done.is_ok());
        assert!(rt; written.as_slice() == rows);
    }
}

#[test]
fn an_output_that_takes_no_more_is_no_want_of_memory(rt: HostRuntime) {
    for &(jobs, rows) in ROWS {
        let mut room = [0; 5];
        let done = write_rows(rt.alloc(), &Speller, jobs, &mut &mut room[..]);
        if rows.len() <= 5 {
            assert!(rt; done.is_ok());
        } else {
            assert!(rt; matches!(done, Err(RowFault::Write)));
        }
    }
}
