//! The words of the live program as what they ask for.
ghost use Rattle.std.specs.Prelude.{◌≡◌, ◌*◌, ◌%◌, length, map, string_bytes, vec_len};
ghost use Rattle.std.specs.Prelude.{IfOk, IfErr, Some, None};
ghost use Rattle.std.specs.List.{list_all};
ghost use Rattle.clap.specs.Words.{app_of, fault_of, found_of, matches_of, rows_of, FailsBy};
ghost use Rattle.program_words.specs.LiveLine.{are_paired, is_alone, is_known_live, live_line, live_request_in, live_request_of};
ghost use Rattle.program_words.specs.Plans.{live_request_kept, paths_of, question_kept};
ghost use Rattle.program_words.specs.Synopsis.{AsksLive, LiveRequest};
ghost use Rattle.program_words.specs.declared.fault.WordFault.TheVariants.{Words};

use crate::fault::WordFault;
use crate::keeping::Keeping;
use crate::live_plan::{Asked, LivePlan, PAIRS_MAX};
use crate::matching::{
    flag, is_set, named, number_or, opening_of, option, others, owned, refused, value, values,
};
use crate::plan::{BLOCKS_MAX, BLOCKS_USUAL, WORKERS_MAX, WORKERS_USUAL};
use crate::reading::is_known;
use clap::{ArgMatches, Command, Error};
use std::alloc::{AllocError, Global};

/// What the words after the program's name ask for: `--help` or `--version` alone, or `[--store FILE] [--create |
/// --read-only] [--workers N] [--max-blocks N] [IN OUT]...`, in any order. Each other word that begins with a hyphen,
/// but for the hyphen alone, an option that comes twice or lacks its value, a number outside its limits, a path without
/// the other of its pair, more than four pairs, and `--create` or `--read-only` without `--store` or beside one another
/// are the fault `Words`.
pub fn read_live_words(alloc: Global, words: &[String]) -> Result<Asked, WordFault>
    ensures ok { IfOk result (λ asked. AsksLive (map string_bytes words.now) (question_kept asked)) }
    ensures refused { IfErr result (λ fault. fault ≡ Words → (question : LiveRequest) → ¬ (AsksLive (map string_bytes words.now) question)) }
{
    if is_alone(words, "--help") {
        return Ok(Asked::Help);
    }
    if is_alone(words, "--version") {
        return Ok(Asked::Version);
    }
    let plan = read_run(alloc, words)?;
    Ok(Asked::Run(plan))
}

/// Whether the words are this text alone.
fn is_alone(words: &[String], text: &str) -> bool
    ensures { result ≡ is_alone text.now (map string_bytes words.now) }
{
    match words {
        [word] => word.as_bytes() == text.as_bytes(),
        _ => false,
    }
}

/// The run that words ask for.
fn read_run(alloc: Global, words: &[String]) -> Result<LivePlan, WordFault>
    ensures ok { IfOk result (λ plan. live_request_of (map string_bytes words.now) ≡ Some (live_request_kept plan)) }
    ensures refused { IfErr result (λ fault. fault ≡ Words → live_request_of (map string_bytes words.now) ≡ None) }
{
    if !all_known(words) {
        return Err(WordFault::Words);
    }
    let all = named(alloc, "overlay_live", words)?;
    match matched(alloc, &all) {
        Ok(matches) => planned(alloc, &matches),
        Err(error) => Err(refused(&error)),
    }
}

/// Whether each word is allowed.
fn all_known(words: &[String]) -> bool
    ensures { result ≡ list_all (λ word. is_known_live (string_bytes word)) words.now }
{
    words.iter().all(|word| is_known_live(word.as_bytes()))
}

/// Whether a word is allowed: there is one option more than the other program has.
fn is_known_live(word: &[u8]) -> bool
    ensures { result ≡ is_known_live word.now }
{
    is_known(word) || word == b"--read-only".as_slice()
}

/// The words by their options. `clap` refuses an option that comes twice, or without its value.
fn matched<'a>(alloc: Global, words: &'a [&'a str]) -> Result<ArgMatches<'a>, Error>
    ensures found { IfOk result (λ matches. rows_of (found_of matches) ≡ matches_of live_line (map (λ word. word.now) words.entry.now)) }
    ensures faults { FailsBy (fault_of live_line (map (λ word. word.now) words.entry.now)) result }
{
    let line = live_line(alloc)?;
    line.try_get_matches_from(words)
}

/// The program's command line, as `clap` is given it.
fn live_line<'a>(alloc: Global) -> Result<Command<'a>, AllocError>
    ensures { IfOk result (λ line. app_of line ≡ live_line) }
{
    Command::new(alloc, "overlay_live")
        .arg(option(alloc, "store"))?
        .arg(flag(alloc, "create"))?
        .arg(flag(alloc, "read-only"))?
        .arg(option(alloc, "workers"))?
        .arg(option(alloc, "max-blocks"))?
        .arg(others(alloc, "path"))
}

/// What matched words ask for. Where an option is left out, its usual number is taken.
fn planned(alloc: Global, matches: &ArgMatches<'_>) -> Result<LivePlan, WordFault>
    ensures ok { IfOk result (λ plan. live_request_in (rows_of (found_of matches.now)) ≡ Some (live_request_kept plan)) }
    ensures refused { IfErr result (λ fault. fault ≡ Words → live_request_in (rows_of (found_of matches.now)) ≡ None) }
{
    let create = is_set(value(matches, "create"));
    let read_only = is_set(value(matches, "read-only"));
    let store = value(matches, "store");
    let opening = opening_of(create, read_only, store.is_some())?;
    let workers = number_or(value(matches, "workers"), WORKERS_USUAL, WORKERS_MAX)?;
    let max_blocks = number_or(value(matches, "max-blocks"), BLOCKS_USUAL, BLOCKS_MAX)?;
    let paths = values(matches, "path").unwrap_or(&[]);
    if !are_paired(paths.len()) {
        return Err(WordFault::Words);
    }
    let keeping = Keeping {
        store: owned(alloc, store)?,
        opening,
        workers,
        max_blocks,
    };
    Ok(LivePlan {
        keeping,
        pairs: paired(alloc, paths)?,
    })
}

/// Whether so many paths are those of pairs, and not too many.
fn are_paired(paths: usize) -> bool
    ensures { result ≡ are_paired paths }
{
    paths % 2 == 0 && paths <= 2 * PAIRS_MAX
}

/// The paths two by two, each a copy.
fn paired(alloc: Global, paths: &[&str]) -> Result<Vec<(String, String)>, AllocError>
    requires even { length paths.now % 2 ≡ 0 }
    ensures same { IfOk result (λ pairs. paths_of pairs.items ≡ map (λ text. text.now) paths.now) }
    ensures count { IfOk result (λ pairs. vec_len pairs * 2 ≡ length paths.now) }
{
    let mut pairs = Vec::new(alloc);
    for i in 0..paths.len() / 2 {
        let from = String::from_str(alloc, paths[2 * i])?;
        let to = String::from_str(alloc, paths[2 * i + 1])?;
        pairs.push((from, to))?;
    }
    Ok(pairs)
}
