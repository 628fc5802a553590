//! The program of features: it reads blocks of features and jobs over them, and writes a reply to each.
#![tactic(auto)]

mod reading;
mod running;
mod words;

use crate::running::run;
use crate::words::read_words;
use fault_texts::CommonFault;
use program_words::own::own_words;
use std::process::ExitCode;

/// The status of a run: 2 where the words are wrong.
fn status_of(ended: Result<(), CommonFault>) -> u8 {
    match ended {
        Ok(()) => 0,
        Err(CommonFault::Words) => 2,
        Err(_) => 1,
    }
}

/// Answers blocks as the words ask.
fn started(rt: &HostRuntime) -> Result<(), CommonFault> {
    let Ok(words) = own_words(rt) else {
        return Err(CommonFault::Words);
    };
    let asked = read_words(&words)?;
    run(
        rt.alloc(),
        rt.stdin(),
        rt.stdout(),
        asked.is_text,
        asked.memory,
    )
}

fn main(rt: HostRuntime) -> ExitCode {
    let ended = started(&rt);
    if let Err(fault) = ended {
        let _printed = eprintln!(rt; "error {} {}", fault.code(), fault.text());
    }
    ExitCode::from(status_of(ended))
}
