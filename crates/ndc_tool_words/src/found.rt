ghost use Rattle.std.specs.Prelude.{◌≡◌, Some, codes, option_map};
ghost use Rattle.clap.specs.Words.{first_of, found_of, rows_of, subcommand_rows_of};
ghost use Rattle.ndc_tool_words.specs.Found.{asked_in, demo_in, given_by, make_in, number_in, run_in};
ghost use Rattle.ndc_tool_words.specs.Names.{names_of};
ghost use Rattle.ndc_tool_words.specs.Numbers.{number_within};
ghost use Rattle.ndc_tool_words.specs.Options.{no_options};
ghost use Rattle.ndc_tool_words.specs.Reads.{Reads};
ghost use Rattle.ndc_tool_words.specs.Words.{run_with};

use crate::error::WordsError;
use crate::names::{Names, names_of, share_a_name};
use crate::number::number_within;
use crate::words::Asked;
use clap::ArgMatches;
use std::alloc::Global;

/// The greatest number of workers.
const MAX_WORKERS: u64 = 64;

/// The greatest number of lines that a made script may have.
const MAX_COUNT: u64 = 99_000;

/// The value of this name, where it was given.
fn value_in<'a>(matches: &ArgMatches<'a>, name: &str) -> Option<&'a str>
    ensures { option_map (λ value. value.now) result
        ≡ first_of name.now (rows_of (found_of matches.now)) }
{
    matches.get_str(name)
}

/// The word that the program is called with, and the values after it.
fn word_in<'a, 'm>(matches: &'m ArgMatches<'a>) -> Option<(&'a str, &'m ArgMatches<'a>)>
    ensures { option_map (λ found. (found.0.now, rows_of (found_of found.1.now))) result
        ≡ subcommand_rows_of matches.now }
{
    matches.subcommand()
}

/// The number of workers, where it was given.
fn workers_in(matches: &ArgMatches<'_>) -> Result<Option<u32>, WordsError>
    ensures { Reads result (given_by (number_within 1 64)
        (first_of (codes "workers") (rows_of (found_of matches.now)))) }
{
    let Some(value) = value_in(matches, "workers") else {
        return Ok(None);
    };
    match number_within(1, MAX_WORKERS, value.as_bytes()) {
        Some(workers) => Ok(Some(workers as u32)),
        None => Err(WordsError::Refused),
    }
}

/// The names that this option has, where it was given.
fn names_in(
    alloc: Global,
    matches: &ArgMatches<'_>,
    option: &str,
) -> Result<Option<Names>, WordsError>
    ensures { Reads result (given_by names_of
        (first_of option.now (rows_of (found_of matches.now)))) }
{
    match value_in(matches, option) {
        Some(value) => {
            let names = names_of(alloc, value.as_bytes())?;
            Ok(Some(names))
        }
        None => Ok(None),
    }
}

/// A run with these options.
fn run_with(
    alloc: Global,
    workers: Option<u32>,
    index: Option<Names>,
    late: Option<Names>,
) -> Result<Asked, WordsError>
    ensures { Reads result (run_with
        (record no_options { workers = workers; index = index; late = late })) }
{
    let index = index.unwrap_or(Names::new(Vec::new(alloc)));
    let late = late.unwrap_or(Names::new(Vec::new(alloc)));
    if share_a_name(index.as_slice(), late.as_slice()) {
        return Err(WordsError::Refused);
    }
    Ok(Asked::Run {
        workers: workers.unwrap_or(1),
        index,
        late,
    })
}

/// `run` with its options.
#[tactic(auto, unfolding(crate::specs::Found::run_in, crate::specs::Found::options_in))]
fn run_in(alloc: Global, matches: &ArgMatches<'_>) -> Result<Asked, WordsError>
    ensures { Reads result (run_in (rows_of (found_of matches.now))) }
{
    let workers = workers_in(matches)?;
    let index = names_in(alloc, matches, "index")?;
    let late = names_in(alloc, matches, "late")?;
    run_with(alloc, workers, index, late)
}

/// The number that was given under this name.
fn number_in(least: u64, most: u64, matches: &ArgMatches<'_>, name: &str) -> Result<u64, WordsError>
    ensures { Reads result (number_in least most name.now (rows_of (found_of matches.now))) }
{
    let Some(value) = value_in(matches, name) else {
        return Err(WordsError::Refused);
    };
    match number_within(least, most, value.as_bytes()) {
        Some(number) => Ok(number),
        None => Err(WordsError::Refused),
    }
}

/// `make N SEED`.
#[tactic(auto, unfolding(crate::specs::Found::make_in))]
fn make_in(matches: &ArgMatches<'_>) -> Result<Asked, WordsError>
    ensures { Reads result (make_in (rows_of (found_of matches.now))) }
{
    let count = number_in(1, MAX_COUNT, matches, "count")?;
    let seed = number_in(0, u64::MAX, matches, "seed")?;
    Ok(Asked::Make { count, seed })
}

/// `demo N`.
#[tactic(auto, unfolding(crate::specs::Found::demo_in))]
fn demo_in(matches: &ArgMatches<'_>) -> Result<Asked, WordsError>
    ensures { Reads result (demo_in (rows_of (found_of matches.now))) }
{
    let count = number_in(1, MAX_COUNT, matches, "count")?;
    Ok(Asked::Demo { count })
}

/// What this word asks for, with these values after it.
fn asked_by(alloc: Global, word: &str, matches: &ArgMatches<'_>) -> Result<Asked, WordsError>
    ensures { Reads result (asked_in (Some (word.now, rows_of (found_of matches.now)))) }
{
    if word == "run" {
        run_in(alloc, matches)
    } else if word == "rebuild" {
        Ok(Asked::Rebuild)
    } else if word == "inspect" {
        Ok(Asked::Inspect)
    } else if word == "make" {
        make_in(matches)
    } else if word == "demo" {
        demo_in(matches)
    } else {
        Err(WordsError::Refused)
    }
}

/// What was found in the words asks for this.
pub fn asked_in(alloc: Global, matches: &ArgMatches<'_>) -> Result<Asked, WordsError>
    ensures { Reads result (asked_in (subcommand_rows_of matches.now)) }
{
    match word_in(matches) {
        Some((word, values)) => asked_by(alloc, word, values),
        None => Err(WordsError::Refused),
    }
}
