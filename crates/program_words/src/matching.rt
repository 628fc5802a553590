//! What both programs read of their words by `clap`: the values of options and the words that belong to none.
ghost use Rattle.std.specs.Prelude.{◌≡◌, ◌≢◌, ◌≤◌, ◌∷◌, length, map, option_map, string_bytes, vec_len};
ghost use Rattle.std.specs.Prelude.{IfOk, IfErr, false, true, is_some, Some, None};
ghost use Rattle.clap.specs.Words.{all_of, rule_of, first_of, found_of, rows_of, kind_of};
ghost use Rattle.program_words.specs.CommandLine.{flag, option, others, is_set, number_or, opening_of};
ghost use Rattle.program_words.specs.declared.fault.WordFault.TheVariants.{Words};
ghost use Rattle.program_words.specs.declared.keeping.Opening.TheVariants.{Existing};

use crate::fault::WordFault;
use crate::keeping::Opening;
use crate::number::number_of;
use clap::error::ErrorKind;
use clap::{Arg, ArgAction, ArgMatches, Error};
use std::alloc::{AllocError, Global};

/// The words after a name of the program, as `clap` wants them.
pub(crate) fn named<'a>(
    alloc: Global,
    program: &'a str,
    words: &'a [String],
) -> Result<Vec<&'a str>, AllocError>
    ensures { IfOk result (λ all. map (λ word. word.now) all.items ≡ program.entry.now ∷ map string_bytes words.entry.now) }
{
    let mut all = Vec::new(alloc);
    all.push(program)?;
    for word in words {
        all.push(word.as_str())?;
    }
    Ok(all)
}

/// An option of this name, which takes the word after it as its value.
pub(crate) fn option<'a>(alloc: Global, name: &'a str) -> Arg<'a>
    ensures rule { rule_of result ≡ option name.entry.now }
    ensures local { result.global ≡ false }
{
    Arg::new(alloc, name).long(name)
}

/// A flag of this name, which takes no value.
pub(crate) fn flag<'a>(alloc: Global, name: &'a str) -> Arg<'a>
    ensures rule { rule_of result ≡ flag name.entry.now }
    ensures local { result.global ≡ false }
{
    option(alloc, name).action(ArgAction::SetTrue)
}

/// The words that belong to no option.
pub(crate) fn others<'a>(alloc: Global, name: &'a str) -> Arg<'a>
    ensures rule { rule_of result ≡ others name.entry.now }
    ensures local { result.global ≡ false }
{
    Arg::new(alloc, name).action(ArgAction::Append)
}

/// The fault of words that do not match.
pub(crate) fn refused(error: &Error) -> WordFault
    ensures { result ≡ Words → kind_of error.now ≢ ErrorKind.OutOfMemory }
{
    match error.kind() {
        ErrorKind::OutOfMemory => WordFault::OutOfMemory,
        _ => WordFault::Words,
    }
}

/// The value that belongs to an option.
pub(crate) fn value<'a>(matches: &ArgMatches<'a>, name: &str) -> Option<&'a str>
    ensures { option_map (λ text. text.now) result ≡ first_of name.now (rows_of (found_of matches.now)) }
{
    matches.get_str(name)
}

/// The words that belong to no option, if there is one, by the name that they have.
pub(crate) fn values<'m, 'a>(matches: &'m ArgMatches<'a>, name: &str) -> Option<&'m [&'a str]>
    ensures { option_map (λ texts. map (λ text. text.now) texts.now) result ≡ all_of name.now (rows_of (found_of matches.now)) }
{
    matches.get_strs(name)
}

/// Whether a flag is given, by the text that `clap` sets for it.
pub(crate) fn is_set(text: Option<&str>) -> bool
    ensures { result ≡ is_set (option_map (λ t. t.now) text.entry) }
{
    match text {
        Some(text) => text == "true",
        None => false,
    }
}

/// The number that a text spells, or where there is none a number of the program's own.
pub(crate) fn number_or(text: Option<&str>, usual: u32, most: u32) -> Result<u32, WordFault>
    requires some { 1 ≤ usual }
    requires few { usual ≤ most }
    ensures some { IfOk result (λ n. 1 ≤ n) }
    ensures few { IfOk result (λ n. n ≤ most) }
    ensures ok { IfOk result (λ n. number_or (option_map (λ t. t.now) text.entry) usual most ≡ Some n) }
    ensures refused { IfErr result (λ fault. number_or (option_map (λ t. t.now) text.entry) usual most ≡ None) }
{
    match text {
        None => Ok(usual),
        Some(text) => match number_of(text.as_bytes()) {
            Some(n) if 1 <= n && n <= most => Ok(n),
            _ => Err(WordFault::Words),
        },
    }
}

/// A copy of a text, if there is one.
pub(crate) fn owned(alloc: Global, text: Option<&str>) -> Result<Option<String>, AllocError>
    ensures same { IfOk result (λ copy. option_map string_bytes copy ≡ option_map (λ t. t.now) text.entry) }
    ensures some { IfOk result (λ copy. is_some copy ≡ is_some text.entry) }
{
    match text {
        Some(text) => Ok(Some(String::from_str(alloc, text)?)),
        None => Ok(None),
    }
}

/// A copy of each text.
pub(crate) fn all_owned(alloc: Global, texts: &[&str]) -> Result<Vec<String>, AllocError>
    ensures same { IfOk result (λ copies. map string_bytes copies.items ≡ map (λ t. t.now) texts.now) }
    ensures count { IfOk result (λ copies. vec_len copies ≡ length texts.now) }
{
    let mut copies = Vec::new(alloc);
    for text in texts {
        copies.push(String::from_str(alloc, text)?)?;
    }
    Ok(copies)
}

/// How the store's file is opened: made or read alone only where the words name it, and not both.
pub(crate) fn opening_of(
    create: bool,
    read_only: bool,
    has_store: bool,
) -> Result<Opening, WordFault>
    ensures ok { IfOk result (λ opening. opening_of create read_only has_store ≡ Some opening) }
    ensures refused { IfErr result (λ fault. opening_of create read_only has_store ≡ None) }
    ensures named { IfOk result (λ opening. opening ≢ Existing → has_store ≡ true) }
{
    match (create, read_only, has_store) {
        (false, false, _) => Ok(Opening::Existing),
        (true, false, true) => Ok(Opening::New),
        (false, true, true) => Ok(Opening::ReadOnly),
        _ => Err(WordFault::Words),
    }
}
