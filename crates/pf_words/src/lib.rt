//! The words of a command line, read as what they ask for.
//!
//! The first word names the command. The words behind it are read by one `clap` command for each, without help or version
//! words: options as `--name value` or `--name=value`, each at most once, before, between or behind the plain words, and
//! all words behind `--` plain. Values are read here, as one or more digits. The grammar stands in `specs/Grammar.antt`, as
//! a function of the words alone, and [`read`] is equal to it. No text of `clap` is shown to anyone.
#![tactic(auto)]

ghost use Rattle.std.specs.Prelude.{◌≡◌, ◌≤◌, IfOk, IfSome, Some, None, codes, drop, option_map, option_and_then, false};
ghost use Rattle.clap.specs.Simple.{app_of};
ghost use Rattle.clap.specs.Matches.{found_of, first_value};
ghost use Rattle.pf_words.specs.Grammar.{Given, texts_of, command_of, given_of, has_refused, number_of, number_or, number_if, adapt_form, two_form, one_form, demo_form, adapt_of, two_of, one_of, demo_of, replay, check, chunks, trace, IsBounded};
ghost use Rattle.pf_words.specs.Clap.{Finds, Matched, Reads, Says, option_rule, form_app, no_form};
ghost use Rattle.clap.specs.Walk.{rule_of};
ghost use Rattle.pf_words.specs.Shown.{shown};

mod laws;

use clap::error::ErrorKind;
use clap::{Arg, ArgMatches, Command};
pub use laws::pairs_keep_their_meaning;
use pf_geom::NoMemory;
use pf_lex::{Token, natural};
use std::alloc::{AllocError, Global};

/// What the words ask for. Stems of files are texts; coordinates that are read are multiplied by `scale`.
#[derive(Clone, Copy, Debug, PartialEq, Eq)]
pub enum Words<'a> {
    /// A mesh is adapted, by so many workers, with at most `ops` operations, each worker taking at most `turns` turns.
    Adapt {
        base: &'a str,
        out: &'a str,
        workers: u32,
        ops: Option<u32>,
        turns: u32,
        scale: u32,
    },
    /// A journal is replayed on a mesh.
    Replay {
        base: &'a str,
        out: &'a str,
        scale: u32,
    },
    /// A mesh is checked.
    Check {
        base: &'a str,
        scale: u32,
    },
    /// The chunks of a mesh are listed.
    Chunks {
        base: &'a str,
        scale: u32,
    },
    /// A trace is run on a mesh.
    Trace {
        base: &'a str,
        file: &'a str,
        scale: u32,
    },
    /// A grid with so many cells a side is adapted.
    Demo {
        cells: u32,
    },
}

/// What the words ask for, or none exactly where they are in no command's form.
pub fn read<'a>(alloc: Global, words: &'a [&'a str]) -> Result<Option<Words<'a>>, NoMemory>
    ensures asked { IfOk result (λ asked. option_map shown asked ≡ command_of (texts_of words.entry.now)) }
    ensures bounded { IfOk result (λ asked. IfSome asked (λ words. IsBounded (shown words))) }
{
    let [name, ..] = words else {
        return Ok(None);
    };
    if *name == "adapt" {
        adapt(alloc, words)
    } else if *name == "replay" {
        replay(alloc, words)
    } else if *name == "check" {
        check(alloc, words)
    } else if *name == "chunks" {
        chunks(alloc, words)
    } else if *name == "trace" {
        trace(alloc, words)
    } else if *name == "demo" {
        demo(alloc, words)
    } else {
        Ok(None)
    }
}

fn adapt<'a>(alloc: Global, words: &'a [&'a str]) -> Result<Option<Words<'a>>, NoMemory>
    ensures asked { IfOk result (λ asked. option_map shown asked ≡ option_and_then adapt_of (given_of adapt_form (drop 1 (texts_of words.entry.now)))) }
    ensures bounded { IfOk result (λ asked. IfSome asked (λ words. IsBounded (shown words))) }
{
    match adapt_matches(alloc, words)? {
        Some(matches) => Ok(adapt_in(&matches)),
        None => Ok(None),
    }
}

fn replay<'a>(alloc: Global, words: &'a [&'a str]) -> Result<Option<Words<'a>>, NoMemory>
    ensures asked { IfOk result (λ asked. option_map shown asked ≡ option_and_then (two_of replay) (given_of two_form (drop 1 (texts_of words.entry.now)))) }
    ensures bounded { IfOk result (λ asked. IfSome asked (λ words. IsBounded (shown words))) }
{
    match two_matches(alloc, "replay", words)? {
        Some(matches) => Ok(replay_in(&matches)),
        None => Ok(None),
    }
}

fn check<'a>(alloc: Global, words: &'a [&'a str]) -> Result<Option<Words<'a>>, NoMemory>
    ensures asked { IfOk result (λ asked. option_map shown asked ≡ option_and_then (one_of check) (given_of one_form (drop 1 (texts_of words.entry.now)))) }
    ensures bounded { IfOk result (λ asked. IfSome asked (λ words. IsBounded (shown words))) }
{
    match one_matches(alloc, "check", words)? {
        Some(matches) => Ok(check_in(&matches)),
        None => Ok(None),
    }
}

fn chunks<'a>(alloc: Global, words: &'a [&'a str]) -> Result<Option<Words<'a>>, NoMemory>
    ensures asked { IfOk result (λ asked. option_map shown asked ≡ option_and_then (one_of chunks) (given_of one_form (drop 1 (texts_of words.entry.now)))) }
    ensures bounded { IfOk result (λ asked. IfSome asked (λ words. IsBounded (shown words))) }
{
    match one_matches(alloc, "chunks", words)? {
        Some(matches) => Ok(chunks_in(&matches)),
        None => Ok(None),
    }
}

fn trace<'a>(alloc: Global, words: &'a [&'a str]) -> Result<Option<Words<'a>>, NoMemory>
    ensures asked { IfOk result (λ asked. option_map shown asked ≡ option_and_then (two_of trace) (given_of two_form (drop 1 (texts_of words.entry.now)))) }
    ensures bounded { IfOk result (λ asked. IfSome asked (λ words. IsBounded (shown words))) }
{
    match two_matches(alloc, "trace", words)? {
        Some(matches) => Ok(trace_in(&matches)),
        None => Ok(None),
    }
}

fn demo<'a>(alloc: Global, words: &'a [&'a str]) -> Result<Option<Words<'a>>, NoMemory>
    ensures asked { IfOk result (λ asked. option_map shown asked ≡ option_and_then demo_of (given_of demo_form (drop 1 (texts_of words.entry.now)))) }
    ensures bounded { IfOk result (λ asked. IfSome asked (λ words. IsBounded (shown words))) }
{
    match demo_matches(alloc, words)? {
        Some(matches) => Ok(demo_in(&matches)),
        None => Ok(None),
    }
}

// ---- what the matches ask for

fn adapt_in<'a>(matches: &ArgMatches<'a>) -> Option<Words<'a>>
    ensures asked { (given : Given) → Says given matches.now → option_map shown result ≡ adapt_of given }
    ensures bounded { IfSome result (λ words. IsBounded (shown words)) }
{
    let base = matches.get_str("base")?;
    let out = matches.get_str("out")?;
    let workers = number_or(4, 1, 64, matches.get_str("workers"))?;
    let ops = number_if(0, 1_048_576, matches.get_str("ops"))?;
    let turns = number_or(1_000_000, 0, 10_000_000, matches.get_str("turns"))?;
    let scale = scale(matches)?;
    Some(Words::Adapt {
        base,
        out,
        workers,
        ops,
        turns,
        scale,
    })
}

fn replay_in<'a>(matches: &ArgMatches<'a>) -> Option<Words<'a>>
    ensures asked { (given : Given) → Says given matches.now → option_map shown result ≡ two_of replay given }
    ensures bounded { IfSome result (λ words. IsBounded (shown words)) }
{
    let base = matches.get_str("base")?;
    let out = matches.get_str("other")?;
    let scale = scale(matches)?;
    Some(Words::Replay { base, out, scale })
}

fn check_in<'a>(matches: &ArgMatches<'a>) -> Option<Words<'a>>
    ensures asked { (given : Given) → Says given matches.now → option_map shown result ≡ one_of check given }
    ensures bounded { IfSome result (λ words. IsBounded (shown words)) }
{
    let base = matches.get_str("base")?;
    let scale = scale(matches)?;
    Some(Words::Check { base, scale })
}

fn chunks_in<'a>(matches: &ArgMatches<'a>) -> Option<Words<'a>>
    ensures asked { (given : Given) → Says given matches.now → option_map shown result ≡ one_of chunks given }
    ensures bounded { IfSome result (λ words. IsBounded (shown words)) }
{
    let base = matches.get_str("base")?;
    let scale = scale(matches)?;
    Some(Words::Chunks { base, scale })
}

fn trace_in<'a>(matches: &ArgMatches<'a>) -> Option<Words<'a>>
    ensures asked { (given : Given) → Says given matches.now → option_map shown result ≡ two_of trace given }
    ensures bounded { IfSome result (λ words. IsBounded (shown words)) }
{
    let base = matches.get_str("base")?;
    let file = matches.get_str("other")?;
    let scale = scale(matches)?;
    Some(Words::Trace { base, file, scale })
}

fn demo_in<'a>(matches: &ArgMatches<'a>) -> Option<Words<'a>>
    ensures asked { (given : Given) → Says given matches.now → option_map shown result ≡ demo_of given }
    ensures bounded { IfSome result (λ words. IsBounded (shown words)) }
{
    let word = matches.get_str("cells")?;
    let cells = number(1, 64, word)?;
    Some(Words::Demo { cells })
}

// What coordinates are multiplied by.
fn scale(matches: &ArgMatches<'_>) -> Option<u32>
    ensures value { result ≡ number_or 1 1 1048576 (first_value (found_of matches.now) (codes "scale")) }
    ensures low { IfSome result (λ value. 1 ≤ value) }
    ensures high { IfSome result (λ value. value ≤ 1048576) }
{
    number_or(1, 1, 1_048_576, matches.get_str("scale"))
}

// The value of an option, and what stands for it where it isn't given.
fn number_or(otherwise: u32, least: u32, most: u32, word: Option<&str>) -> Option<u32>
    requires low { least ≤ otherwise }
    requires high { otherwise ≤ most }
    ensures value { result ≡ number_or otherwise least most (option_map (λ word. word.now) word.entry) }
    ensures low { IfSome result (λ value. least ≤ value) }
    ensures high { IfSome result (λ value. value ≤ most) }
{
    match word {
        Some(word) => number(least, most, word),
        None => Some(otherwise),
    }
}

// The value of an option that may be left open.
fn number_if(least: u32, most: u32, word: Option<&str>) -> Option<Option<u32>>
    ensures { result ≡ number_if least most (option_map (λ word. word.now) word.entry) }
{
    match word {
        Some(word) => match number(least, most, word) {
            Some(value) => Some(Some(value)),
            None => None,
        },
        None => Some(None),
    }
}

// One or more digits, whose value is in the range.
fn number(least: u32, most: u32, word: &str) -> Option<u32>
    ensures value { result ≡ number_of least most word.now }
    ensures low { IfSome result (λ value. least ≤ value) }
    ensures high { IfSome result (λ value. value ≤ most) }
{
    let token = Token {
        text: word.as_bytes(),
        line: 1,
        column: 1,
    };
    match natural(token) {
        Ok(value) if u64::from(least) <= value && value <= u64::from(most) => Some(value as u32),
        _ => None,
    }
}

// ---- the commands of clap

fn adapt_matches<'a>(
    alloc: Global,
    words: &'a [&'a str],
) -> Result<Option<ArgMatches<'a>>, NoMemory>
    ensures { IfOk result (λ found. Reads (given_of adapt_form (drop 1 (texts_of words.entry.now))) found) }
{
    match adapt_command(alloc) {
        Ok(command) => found(command, words),
        Err(_) => Err(NoMemory),
    }
}

fn two_matches<'a>(
    alloc: Global,
    name: &'a str,
    words: &'a [&'a str],
) -> Result<Option<ArgMatches<'a>>, NoMemory>
    ensures { IfOk result (λ found. Reads (given_of two_form (drop 1 (texts_of words.entry.now))) found) }
{
    match two_command(alloc, name) {
        Ok(command) => found(command, words),
        Err(_) => Err(NoMemory),
    }
}

fn one_matches<'a>(
    alloc: Global,
    name: &'a str,
    words: &'a [&'a str],
) -> Result<Option<ArgMatches<'a>>, NoMemory>
    ensures { IfOk result (λ found. Reads (given_of one_form (drop 1 (texts_of words.entry.now))) found) }
{
    match one_command(alloc, name) {
        Ok(command) => found(command, words),
        Err(_) => Err(NoMemory),
    }
}

fn demo_matches<'a>(alloc: Global, words: &'a [&'a str]) -> Result<Option<ArgMatches<'a>>, NoMemory>
    ensures { IfOk result (λ found. Reads (given_of demo_form (drop 1 (texts_of words.entry.now))) found) }
{
    match demo_command(alloc) {
        Ok(command) => found(command, words),
        Err(_) => Err(NoMemory),
    }
}

fn adapt_command<'a>(alloc: Global) -> Result<Command<'a>, AllocError>
    ensures { IfOk result (λ command. app_of command ≡ form_app (codes "adapt") adapt_form) }
{
    command(alloc, "adapt")
        .arg(Arg::new(alloc, "base"))?
        .arg(Arg::new(alloc, "out"))?
        .arg(option(alloc, "workers"))?
        .arg(option(alloc, "ops"))?
        .arg(option(alloc, "turns"))?
        .arg(option(alloc, "scale"))
}

fn two_command<'a>(alloc: Global, name: &'a str) -> Result<Command<'a>, AllocError>
    ensures { IfOk result (λ command. app_of command ≡ form_app name.now two_form) }
{
    command(alloc, name)
        .arg(Arg::new(alloc, "base"))?
        .arg(Arg::new(alloc, "other"))?
        .arg(option(alloc, "scale"))
}

fn one_command<'a>(alloc: Global, name: &'a str) -> Result<Command<'a>, AllocError>
    ensures { IfOk result (λ command. app_of command ≡ form_app name.now one_form) }
{
    command(alloc, name)
        .arg(Arg::new(alloc, "base"))?
        .arg(option(alloc, "scale"))
}

fn demo_command<'a>(alloc: Global) -> Result<Command<'a>, AllocError>
    ensures { IfOk result (λ command. app_of command ≡ form_app (codes "demo") demo_form) }
{
    command(alloc, "demo").arg(Arg::new(alloc, "cells"))
}

// A command without a word for help.
fn command<'a>(alloc: Global, name: &'a str) -> Command<'a>
    ensures { app_of result ≡ form_app name.now no_form }
{
    Command::new(alloc, name).disable_help_flag(true)
}

// An option with its value.
fn option<'a>(alloc: Global, name: &'a str) -> Arg<'a>
    ensures rule { rule_of result ≡ option_rule name.now }
    ensures local { result.global ≡ false }
{
    Arg::new(alloc, name).long(name)
}

// What the command finds in the words behind the first, or none where they aren't in its form. No command has an option of
// one letter.
fn found<'a>(command: Command<'a>, words: &'a [&'a str]) -> Result<Option<ArgMatches<'a>>, NoMemory>
    ensures { IfOk result (λ found. Finds (app_of command.entry) (texts_of words.entry.now) found) }
{
    let [_, others @ ..] = words else {
        return matched(command, words);
    };
    if has_refused(others) {
        return Ok(None);
    }
    matched(command, words)
}

fn matched<'a>(
    command: Command<'a>,
    words: &'a [&'a str],
) -> Result<Option<ArgMatches<'a>>, NoMemory>
    ensures { IfOk result (λ found. Matched (app_of command.entry) (texts_of words.entry.now) found) }
{
    match command.try_get_matches_from(words) {
        Ok(matches) => Ok(Some(matches)),
        Err(error) => match error.kind() {
            ErrorKind::OutOfMemory => Err(NoMemory),
            _ => Ok(None),
        },
    }
}

// Whether there is a word of one dash and more, before `--`.
fn has_refused(words: &[&str]) -> bool
    ensures { result ≡ has_refused (texts_of words.now) }
{
    match words {
        [] => false,
        [word, others @ ..] => match word.as_bytes() {
            [b'-', b'-'] => false,
            [b'-', b'-', ..] => has_refused(others),
            [b'-', _, ..] => true,
            _ => has_refused(others),
        },
    }
}
