ghost use Rattle.std.specs.Prelude.{◌≡◌, ◌≢◌, [], map, codes, None, Some, Err, IfOk, IfErr};
ghost use Rattle.std.specs.List.{list_any};
ghost use Rattle.std.specs.Str.{bytes_eq};
ghost use Rattle.std.specs.String.{string_bytes};
ghost use Rattle.clap.specs.Words.{fault_of, subcommand_of, subcommand_rows_of};
ghost use Rattle.ndc_tool_words.specs.Command.{whole_app};
ghost use Rattle.ndc_tool_words.specs.declared.error.WordsError.TheVariants.{Memory, Refused};
ghost use Rattle.ndc_tool_words.specs.WellFormed.{IsWellFormedAsked};
ghost use Rattle.ndc_tool_words.specs.Words.{asked_of};

use crate::command::command;
use crate::error::WordsError;
use crate::found::asked_in;
use crate::names::Names;
use clap::ArgMatches;
use clap::error::ErrorKind;
use std::alloc::Global;

/// What the words ask for.
#[derive(Debug, Drop)]
pub enum Asked {
    /// To run a script with 1 to 64 workers, and indexers of these names, which differ.
    Run {
        workers: u32,
        /// Those that are told as the script runs.
        index: Names,
        /// Those that are told at its end.
        late: Names,
    },
    /// To print a dump again from its batches.
    Rebuild,
    /// To print the trees of a dump.
    Inspect,
    /// To make a script of 1 to 99,000 lines.
    Make {
        count: u64,
        seed: u64,
    },
    /// To show what becomes of a script of 1 to 99,000 lines.
    Demo {
        count: u64,
    },
}

/// Whether the word is `--`.
fn is_dashes(word: &String) -> bool
    ensures { result ≡ bytes_eq (string_bytes word.now) (codes "--") }
{
    word.as_bytes() == b"--".as_slice()
}

/// Whether `--` stands among the words.
fn has_dashes(words: &[String]) -> bool
    ensures { result ≡ list_any (λ word. bytes_eq (string_bytes word) (codes "--")) words.now }
{
    words.iter().any(|word| is_dashes(word))
}

/// What the command finds in the words. Refused with [`WordsError::Refused`] exactly where it takes no such words.
fn found_in<'a>(alloc: Global, words: &'a [String]) -> Result<ArgMatches<'a>, WordsError>
    ensures found { IfOk result (λ matches.
        subcommand_rows_of matches ≡ subcommand_of whole_app (map string_bytes words.entry.now)) }
    ensures taken { IfOk result (λ matches.
        fault_of whole_app (map string_bytes words.entry.now) ≡ []) }
    ensures refused { result ≡ Err Refused
        → fault_of whole_app (map string_bytes words.entry.now) ≢ [] }
{
    match command(alloc)?.try_get_matches_from(words) {
        Ok(matches) => Ok(matches),
        Err(error) => match error.kind() {
            ErrorKind::OutOfMemory => Err(WordsError::Memory),
            _ => Err(WordsError::Refused),
        },
    }
}

/// Reads the words that stand after the program's name. Refused with [`WordsError::Refused`] exactly where they are
/// none of the program's, with [`WordsError::Memory`] where memory runs out.
pub fn read(alloc: Global, words: &[String]) -> Result<Asked, WordsError>
    ensures asked { IfOk result (λ asked. asked_of (map string_bytes words.now) ≡ Some asked) }
    ensures refused { result ≡ Err Refused → asked_of (map string_bytes words.now) ≡ None }
    ensures well_formed { IfOk result IsWellFormedAsked }
{
    if has_dashes(words) {
        return Err(WordsError::Refused);
    }
    match found_in(alloc, words) {
        Ok(matches) => asked_in(alloc, &matches),
        Err(error) => Err(error),
    }
}
