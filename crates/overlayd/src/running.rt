//! What the words ask for, from the scripts to what is printed.
use crate::printing::print_all;
use crate::script::open_scripts;
use kept_store::begun::Begun;
use overlay_server::outcome::{Left, ServeOptions};
use overlay_server::serving::serve;
use program_store::ending::{Ends, end_run};
use program_store::fault::ProgramFault;
use program_store::store::open_store;
use program_store::streams::keep_streams;
use program_words::own::own_words;
use program_words::plan::Plan;
use program_words::reading::read_words;
use std::env::Env;
use std::fs::File;
use std::io::{Stderr, Stdin, Stdout};
use std::rt::Files;
use std::sync::Wait;
use std::thread::Threads;
use tile_workers::gate::OpenGate;

/// Runs the scripts that the words name, and prints what each session wrote. It says whether every script was read to
/// its end and the newest version is in the store, where there is one. The fault is one that no session's replies
/// report: the store refuses the newest version, the replies can't be printed, or a session had no memory.
pub fn run<Q: Env + Files<File = File> + Threads + Wait + Sync + AllocGlobal>(
    rt: &Q,
    input: Stdin,
    mut output: Stdout,
    errors: Stderr,
) -> Result<bool, ProgramFault> {
    let Plan { keeping, scripts } = read_words(rt.alloc(), &own_words(rt)?)?;
    keep_streams(rt, &input, &output, &errors)?;
    let sources = open_scripts(rt, input, &scripts)?;
    let engine = open_store(rt, &keeping)?;
    let options = ServeOptions {
        workers: keeping.workers as usize,
    };
    match serve(
        rt,
        rt.alloc(),
        options,
        &OpenGate,
        Begun::of(engine),
        sources,
    ) {
        Ok(Left { sessions, closed }) => {
            let printed = print_all(&mut output, &sessions).is_ok();
            end_run(&keeping, &closed, printed, Ends::of(&sessions))
        }
        Err(refused) => Err(ProgramFault::of_server(refused.code)),
    }
}
