//! The scripts that the program runs.
ghost use Rattle.std.specs.Prelude.{◌<◌, ◌≤◌, length, IfOk};

use program_store::fault::ProgramFault;
use program_store::source::Source;
use std::fs;
use std::fs::File;
use std::io::{ErrorKind, Stdin};
use std::rt::Files;

/// Opens the scripts at these paths, in their order; without one there is the input alone. The fault is `Script` where
/// one can't be opened for another reason than want of memory.
pub fn open_scripts<Q: Files<File = File> + AllocGlobal>(
    rt: &Q,
    input: Stdin,
    paths: &[String],
) -> Result<Vec<Source<Stdin, File>>, ProgramFault>
    requires { length paths.now ≤ 4 }
    ensures some { IfOk result (λ scripts. 0 < length scripts.items) }
    ensures few { IfOk result (λ scripts. length scripts.items ≤ 4) }
{
    let mut scripts = Vec::new(rt.alloc());
    if paths.is_empty() {
        scripts.push(Source::Input(input))?;
        return Ok(scripts);
    }
    'paths: for path in paths {
        let file = open_script(rt, path)?;
        scripts.push(Source::File(file))?;
    }
    Ok(scripts)
}

fn open_script<Q: Files<File = File>>(rt: &Q, path: &str) -> Result<File, ProgramFault> {
    match fs::open(rt, path) {
        Ok(file) => Ok(file),
        Err(error) if error.kind() == ErrorKind::OutOfMemory => Err(ProgramFault::OutOfMemory),
        Err(_) => Err(ProgramFault::Script),
    }
}
