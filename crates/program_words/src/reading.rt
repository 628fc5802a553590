//! The words as a plan.
ghost use Rattle.std.specs.Prelude.{◌≡◌, ◌≤◌, map, string_bytes};
ghost use Rattle.std.specs.Prelude.{IfOk, IfErr, IsTrue, Some, None};
ghost use Rattle.std.specs.List.{list_all};
ghost use Rattle.clap.specs.Words.{app_of, fault_of, found_of, matches_of, rows_of, FailsBy};
ghost use Rattle.program_words.specs.CommandLine.{are_few, command_line, is_known, request_in};
ghost use Rattle.program_words.specs.Plans.{request_kept};
ghost use Rattle.program_words.specs.Synopsis.{AsksOverlayd, RunRequest};
ghost use Rattle.program_words.specs.declared.fault.WordFault.TheVariants.{Words};

use crate::fault::WordFault;
use crate::keeping::Keeping;
use crate::matching::{
    all_owned, flag, is_set, named, number_or, opening_of, option, others, owned, refused, value,
    values,
};
use crate::plan::{BLOCKS_MAX, BLOCKS_USUAL, Plan, SCRIPTS_MAX, WORKERS_MAX, WORKERS_USUAL};
use clap::{ArgMatches, Command, Error};
use std::alloc::{AllocError, Global};

/// What the words after the program's name ask for: `[--store FILE] [--create] [--workers N] [--max-blocks N]
/// [SCRIPT]...`, in any order. Each other word that begins with a hyphen, but for the hyphen alone, an option that
/// comes twice or lacks its value, a number outside its limits, more than four scripts and `--create` without
/// `--store` are the fault `Words`.
pub fn read_words(alloc: Global, words: &[String]) -> Result<Plan, WordFault>
    ensures ok { IfOk result (λ plan. AsksOverlayd (map string_bytes words.now) (request_kept plan)) }
    ensures refused { IfErr result (λ fault. fault ≡ Words → (request : RunRequest) → ¬ (AsksOverlayd (map string_bytes words.now) request)) }
{
    if !all_known(words) {
        return Err(WordFault::Words);
    }
    let all = named(alloc, "overlayd", words)?;
    match matched(alloc, &all) {
        Ok(matches) => planned(alloc, &matches),
        Err(error) => Err(refused(&error)),
    }
}

/// Whether each word is allowed.
fn all_known(words: &[String]) -> bool
    ensures { result ≡ list_all (λ word. is_known (string_bytes word)) words.now }
{
    words.iter().all(|word| is_known(word.as_bytes()))
}

/// Whether a word is allowed: one that begins with a hyphen is an option, or the hyphen alone.
pub(crate) fn is_known(word: &[u8]) -> bool
    ensures { result ≡ is_known word.now }
{
    match word {
        [b'-', ..] => {
            word == b"-".as_slice()
                || word == b"--store".as_slice()
                || word == b"--create".as_slice()
                || word == b"--workers".as_slice()
                || word == b"--max-blocks".as_slice()
        }
        _ => true,
    }
}

/// The words by their options. `clap` refuses an option that comes twice, or without its value.
fn matched<'a>(alloc: Global, words: &'a [&'a str]) -> Result<ArgMatches<'a>, Error>
    ensures found { IfOk result (λ matches. rows_of (found_of matches) ≡ matches_of command_line (map (λ word. word.now) words.entry.now)) }
    ensures faults { FailsBy (fault_of command_line (map (λ word. word.now) words.entry.now)) result }
{
    let line = command_line(alloc)?;
    line.try_get_matches_from(words)
}

/// The program's command line, as `clap` is given it.
fn command_line<'a>(alloc: Global) -> Result<Command<'a>, AllocError>
    ensures { IfOk result (λ line. app_of line ≡ command_line) }
{
    Command::new(alloc, "overlayd")
        .arg(option(alloc, "store"))?
        .arg(flag(alloc, "create"))?
        .arg(option(alloc, "workers"))?
        .arg(option(alloc, "max-blocks"))?
        .arg(others(alloc, "script"))
}

/// What matched words ask for. Where an option is left out, its usual number is taken.
fn planned(alloc: Global, matches: &ArgMatches<'_>) -> Result<Plan, WordFault>
    ensures ok { IfOk result (λ plan. request_in (rows_of (found_of matches.now)) ≡ Some (request_kept plan)) }
    ensures refused { IfErr result (λ fault. fault ≡ Words → request_in (rows_of (found_of matches.now)) ≡ None) }
{
    let create = is_set(value(matches, "create"));
    let store = value(matches, "store");
    let opening = opening_of(create, false, store.is_some())?;
    let workers = number_or(value(matches, "workers"), WORKERS_USUAL, WORKERS_MAX)?;
    let max_blocks = number_or(value(matches, "max-blocks"), BLOCKS_USUAL, BLOCKS_MAX)?;
    let paths = values(matches, "script").unwrap_or(&[]);
    if !are_few(paths.len()) {
        return Err(WordFault::Words);
    }
    let keeping = Keeping {
        store: owned(alloc, store)?,
        opening,
        workers,
        max_blocks,
    };
    Ok(Plan {
        keeping,
        scripts: all_owned(alloc, paths)?,
    })
}

/// Whether so many scripts are allowed.
fn are_few(scripts: usize) -> bool
    ensures value { result ≡ are_few scripts }
    ensures few { IsTrue result → scripts ≤ 4 }
{
    scripts <= SCRIPTS_MAX
}
