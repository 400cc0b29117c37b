ghost use Rattle.std.specs.Prelude.{◌≡◌, ◌==◌, [], map, Some, None, IfOk, if◌then◌else◌};
ghost use Rattle.ndc_event.specs.Name.{is_name};
ghost use Rattle.std.specs.List.{slice_split};
ghost use Rattle.ndc_tool_words.specs.Names.{begins_with_dash, names_of, names_on, share_a_name, stands_in};
ghost use Rattle.ndc_tool_words.specs.Reads.{Reads};

use crate::error::WordsError;
use ndc_event::{Items, Name, NameError, OutOfMemory};
use std::alloc::Global;

/// A list of names, in order.
pub type Names = Items<Name>;

/// Whether the name stands in the list.
fn stands_in(names: &[Name], name: &[u8]) -> bool
    ensures { result ≡ stands_in names.now name.now }
{
    names.iter().any(|other| other.as_bytes() == name)
}

/// Whether a name stands in both lists.
pub fn share_a_name(names: &[Name], others: &[Name]) -> bool
    ensures { result ≡ share_a_name names.now others.now }
{
    names.iter().any(|name| stands_in(others, name.as_bytes()))
}

/// The name of this text; refused where it is not a name.
fn name_of(alloc: Global, text: &[u8]) -> Result<Name, WordsError>
    ensures { Reads result (if is_name text.now then Some text.now else None) }
{
    match Name::new(alloc, text) {
        Ok(name) => Ok(name),
        Err(NameError::Memory) => Err(WordsError::Memory),
        Err(_) => Err(WordsError::Refused),
    }
}

/// Whether the text begins with `-`.
fn begins_with_dash(text: &[u8]) -> bool
    ensures { result ≡ begins_with_dash text.now }
{
    match text {
        [] => false,
        [byte, ..] => *byte == b'-',
    }
}

/// What stands between the commas of a text.
pub fn parts_of<'a>(alloc: Global, text: &'a [u8]) -> Result<Vec<&'a [u8]>, OutOfMemory>
    ensures { IfOk result (λ parts.
        map (λ part. part.now) parts.items ≡ slice_split (λ byte. byte == 44) text.now) }
{
    text.split(|byte| *byte == b',').collect(alloc)
}

/// The names that these texts are, which differ.
fn names_on(alloc: Global, parts: &[&[u8]]) -> Result<Names, WordsError>
    ensures { Reads result (names_on [] (map (λ part. part.now) parts.now)) }
{
    let mut items = Vec::new(alloc);
    for part in parts {
        let name = name_of(alloc, part)?;
        if stands_in(items.as_slice(), part) {
            return Err(WordsError::Refused);
        }
        items.push(name)?;
    }
    Ok(Names::new(items))
}

/// The names that a text is, which stand between single commas and differ.
#[tactic(auto, unfolding(crate::specs::Names::names_of))]
pub fn names_of(alloc: Global, text: &[u8]) -> Result<Names, WordsError>
    ensures { Reads result (names_of text.now) }
{
    if begins_with_dash(text) {
        return Err(WordsError::Refused);
    }
    let parts = parts_of(alloc, text)?;
    names_on(alloc, parts.as_slice())
}
