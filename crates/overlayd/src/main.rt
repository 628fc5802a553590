//! The polygon overlay server: it runs scripts over layers that are kept in a file, or in memory.
#![tactic(auto)]

mod printing;
mod running;
mod script;

use crate::running::run;
use program_store::ending::exit_status;
use std::process::ExitCode;

fn main(rt: HostRuntime) -> ExitCode {
    let ending = run(&rt, rt.stdin(), rt.stdout(), rt.stderr());
    if let Err(fault) = ending {
        let _printed = eprintln!(rt; "error {} {}", fault.code(), fault.text());
    }
    ExitCode::from(exit_status(ending))
}
