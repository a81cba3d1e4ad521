//! What `clap` makes of words that are in order.
ghost use Rattle.std.specs.Prelude.{◌≡◌, true, IfOk, Some, map, string_bytes, OnErr, Err, is_some};
ghost use Rattle.clap.specs.Simple.{app_of};
ghost use Rattle.clap.specs.Matches.{found_of};
ghost use Rattle.clap.specs.Walk.{rows_of};
ghost use Rattle.sph_words.specs.Texts.{texts_of};
ghost use Rattle.sph_words.specs.inner.Asked.{command, is_handed, texts_from, texts_in, HasTextsOf};

use crate::fault::WordsRefusal;
use clap::error::ErrorKind;
use clap::{Arg, ArgMatches, Command};
use std::alloc::{AllocError, Global};

/// The texts of the words.
#[derive(Clone, Copy, Debug, PartialEq, Eq)]
pub struct Matched<'a> {
    pub job: &'a str,
    pub first: Option<&'a str>,
    pub second: Option<&'a str>,
    pub workers: Option<&'a str>,
}

/// The command: a required positional, two optional ones, and one option.
fn command<'a>(alloc: Global) -> Result<Command<'a>, AllocError>
    ensures { IfOk result (λ c. app_of c ≡ command) }
{
    let job = Arg::new(alloc, "job").required(true);
    let first = Arg::new(alloc, "first");
    let second = Arg::new(alloc, "second");
    let workers = Arg::new(alloc, "workers").long("workers");
    Command::new(alloc, "swiftq")
        .disable_help_flag(true)
        .arg(job)?
        .arg(first)?
        .arg(second)?
        .arg(workers)
}

/// The texts that the words have.
pub fn ask<'a>(alloc: Global, words: &'a [String]) -> Result<Matched<'a>, WordsRefusal>
    requires { is_handed (map string_bytes words.now) ≡ true }
    ensures texts { IfOk result (λ matched. texts_of (map string_bytes words.now) ≡ Some (texts_from matched)) }
    ensures refusal { OnErr result (result ≡ Err WordsRefusal.Memory) }
{
    let matches = matches_of(alloc, words)?;
    Ok(texts_matched(&matches))
}

/// What `clap` makes of the words.
fn matches_of<'a>(alloc: Global, words: &'a [String]) -> Result<ArgMatches<'a>, WordsRefusal>
    requires { is_handed (map string_bytes words.now) ≡ true }
    ensures texts { IfOk result (λ matches. HasTextsOf (map string_bytes words.now) (rows_of (found_of matches))) }
    ensures refusal { OnErr result (result ≡ Err WordsRefusal.Memory) }
{
    match command(alloc)?.try_get_matches_from(words) {
        Ok(matches) => Ok(matches),
        Err(error) => match error.kind() {
            ErrorKind::OutOfMemory => Err(WordsRefusal::Memory),
            // The command takes every text of words in order.
            _ => unreachable!(),
        },
    }
}

/// The texts of these matches.
fn texts_matched<'a>(matches: &ArgMatches<'a>) -> Matched<'a>
    requires { is_some (texts_in (rows_of (found_of matches.now))) ≡ true }
    ensures { texts_in (rows_of (found_of matches.now)) ≡ Some (texts_from result) }
{
    let Some(job) = matches.get_str("job") else {
        unreachable!()
    };
    Matched {
        job,
        first: matches.get_str("first"),
        second: matches.get_str("second"),
        workers: matches.get_str("workers"),
    }
}
