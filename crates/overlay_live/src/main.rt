//! The live polygon overlay server: each line of a session is answered before the next one is read.
#![tactic(auto)]

mod ports;
mod running;
mod texts;

use crate::running::{read_asked, run};
use program_store::ending::exit_status;
use program_store::fault::ProgramFault;
use program_store::refusal::Refusal;
use std::process::ExitCode;

fn main(rt: HostRuntime) -> ExitCode {
    let asked = read_asked(&rt);
    let ending = match &asked {
        Ok(asked) => run(&rt, rt.stdin(), rt.stdout(), rt.stderr(), asked),
        Err(fault) => Err(Refusal::from(*fault)),
    };
    ExitCode::from(exit_status(reported(&rt, ending)))
}

/// The end of a run, once its fault is printed with the file that it is about.
fn reported(rt: &HostRuntime, ending: Result<bool, Refusal<'_>>) -> Result<bool, ProgramFault> {
    match ending {
        Ok(complete) => Ok(complete),
        Err(refusal) => {
            let _printed = eprintln!(rt; "{}", refusal);
            Err(refusal.fault)
        }
    }
}
