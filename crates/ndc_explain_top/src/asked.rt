//! The words that the program is called with.
ghost use Rattle.std.specs.Prelude.{◌≡◌, ◌==◌, map, IfOk};
ghost use Rattle.std.specs.List.{slice_split};
ghost use Rattle.std.specs.String.{string_bytes};
ghost use Rattle.ndc_domain.specs.Clusters.{clusters_of};
ghost use Rattle.ndc_event.specs.Outcome.{Gives};
ghost use Rattle.ndc_tool_words.specs.declared.error.WordsError.TheVariants.{Memory};
ghost use Rattle.ndc_script_words.specs.Number.{number_of};
ghost use Rattle.ndc_explain_top.specs.Asked.{asked_of, bared, clusters_on, clusters_or, limited, member_in, member_of, member_with, members_on, name_on, named_by, number_or, request_for, request_with, request_within, tree_or_view, view_or_text};

use ndc_domain::Clusters;
use ndc_event::{Name, NameError, OutOfMemory};
use ndc_script_words::number_of;
use ndc_tool_words::{WordsError, parts_of};
use std::alloc::Global;

/// The number that a word is.
fn number_on(word: &[u8]) -> Result<u64, WordsError>
    ensures { result ≡ number_or (number_of word.now) }
{
    match number_of(word) {
        None => Err(WordsError::Refused),
        Some(number) => Ok(number),
    }
}

/// The name that a word is.
fn name_on(alloc: Global, word: &[u8]) -> Result<Name, WordsError>
    ensures { Gives Memory (λ name. name) result (name_on word.now) }
{
    match Name::new(alloc, word) {
        Ok(name) => Ok(name),
        Err(NameError::Memory) => Err(WordsError::Memory),
        Err(_) => Err(WordsError::Refused),
    }
}

/// A cluster's name and initial version.
#[tactic(auto, unfolding(crate::specs::Asked::member_with))]
fn member_with(alloc: Global, name: &[u8], initial: &[u8]) -> Result<(Name, u64), WordsError>
    ensures { Gives Memory (λ member. member) result (member_with name.now initial.now) }
{
    let name = name_on(alloc, name)?;
    let initial = number_on(initial)?;
    Ok((name, initial))
}

/// What stands between the equals signs of a text.
fn sides_of<'a>(alloc: Global, text: &'a [u8]) -> Result<Vec<&'a [u8]>, OutOfMemory>
    ensures { IfOk result (λ parts. map (λ part. part.now) parts.items ≡ slice_split (λ byte. byte == 61) text.now) }
{
    text.split(|byte| *byte == b'=').collect(alloc)
}

/// The member that the two sides of an equals sign are.
fn member_in(alloc: Global, sides: &[&[u8]]) -> Result<(Name, u64), WordsError>
    ensures { Gives Memory (λ member. member) result (member_in (map (λ side. side.now) sides.now)) }
{
    match sides {
        [name, initial] => member_with(alloc, name, initial),
        _ => Err(WordsError::Refused),
    }
}

/// The member that a word is.
#[tactic(auto, unfolding(crate::specs::Asked::member_of))]
fn member_of(alloc: Global, word: &[u8]) -> Result<(Name, u64), WordsError>
    ensures { Gives Memory (λ member. member) result (member_of word.now) }
{
    let sides = sides_of(alloc, word)?;
    member_in(alloc, sides.as_slice())
}

/// The members that words are.
fn members_on(alloc: Global, words: &[&[u8]]) -> Result<Vec<(Name, u64)>, WordsError>
    ensures { Gives Memory (λ members. members.items) result (members_on (map (λ word. word.now) words.now)) }
{
    let mut members = Vec::new(alloc);
    for word in words {
        let member = member_of(alloc, word)?;
        members.push(member)?;
    }
    Ok(members)
}

/// The members that stand between the commas of a text.
fn members_of(alloc: Global, list: &[u8]) -> Result<Vec<(Name, u64)>, WordsError>
    ensures { Gives Memory (λ members. members.items) result (members_on (slice_split (λ byte. byte == 44) list.now)) }
{
    let words = parts_of(alloc, list)?;
    members_on(alloc, words.as_slice())
}

/// The clusters of an increment and members.
fn clusters_with(increment: u64, members: Vec<(Name, u64)>) -> Result<Clusters, WordsError>
    ensures { result ≡ clusters_or (clusters_of increment members.items) }
{
    match Clusters::build(increment, members) {
        Ok(clusters) => Ok(clusters),
        Err(_) => Err(WordsError::Refused),
    }
}

/// The clusters of a list of members and an increment.
#[tactic(auto, unfolding(crate::specs::Asked::clusters_on))]
fn clusters_on(alloc: Global, list: &[u8], increment: &[u8]) -> Result<Option<Clusters>, WordsError>
    ensures { Gives Memory (λ clusters. clusters) result (clusters_on list.now increment.now) }
{
    let increment = number_on(increment)?;
    let members = members_of(alloc, list)?;
    let clusters = clusters_with(increment, members)?;
    Ok(Some(clusters))
}

/// The clusters that the words name, or none.
fn named_by(alloc: Global, words: &[String]) -> Result<Option<Clusters>, WordsError>
    ensures { Gives Memory (λ clusters. clusters) result (named_by (map string_bytes words.now)) }
{
    match words {
        [] => Ok(None),
        [one, list, two, increment] => {
            if one.as_bytes() == b"--clusters".as_slice()
                && two.as_bytes() == b"--increment".as_slice()
            {
                clusters_on(alloc, list.as_bytes(), increment.as_bytes())
            } else {
                Err(WordsError::Refused)
            }
        }
        _ => Err(WordsError::Refused),
    }
}

/// In which form a dump is told.
#[derive(Clone, Copy, Debug, PartialEq, Eq)]
pub(crate) enum Form {
    /// The explanation.
    Text,
    /// The picture, as an SVG document.
    Picture,
    /// The picture in characters.
    TreePicture,
    /// The dump itself, with its view.
    View,
}

/// What the words ask for.
#[derive(Drop)]
pub(crate) struct Request {
    pub(crate) form: Form,
    /// Whether the events of decisions are told as well.
    pub(crate) all: bool,
    /// Whether dumps are read without their views.
    pub(crate) bare: bool,
    /// How many bytes the input may have, where that is asked for.
    pub(crate) limit: Option<u64>,
    /// The clusters whose names are to be told.
    pub(crate) clusters: Option<Clusters>,
}

/// This form, with all events or without those of decisions, of dumps with their views or of bare ones, within this limit;
/// with the clusters that the words name.
#[tactic(auto, unfolding(crate::specs::Asked::request_with))]
fn request_with(
    alloc: Global,
    form: Form,
    all: bool,
    bare: bool,
    limit: Option<u64>,
    words: &[String],
) -> Result<Request, WordsError>
    ensures { Gives Memory (λ request. request) result (request_with form all bare limit (map string_bytes words.now)) }
{
    let clusters = named_by(alloc, words)?;
    Ok(Request {
        form,
        all,
        bare,
        limit,
        clusters,
    })
}

/// The same within a limit of this word.
#[tactic(auto, unfolding(crate::specs::Asked::request_within))]
fn request_within(
    alloc: Global,
    form: Form,
    all: bool,
    bare: bool,
    word: &[u8],
    words: &[String],
) -> Result<Request, WordsError>
    ensures { Gives Memory (λ request. request) result (request_within form all bare word.now (map string_bytes words.now)) }
{
    let limit = number_on(word)?;
    request_with(alloc, form, all, bare, Some(limit), words)
}

/// The same within the limit that `--limit BYTES` names, where it stands before the others.
fn limited(
    alloc: Global,
    form: Form,
    all: bool,
    bare: bool,
    words: &[String],
) -> Result<Request, WordsError>
    ensures { Gives Memory (λ request. request) result (limited form all bare (map string_bytes words.now)) }
{
    match words {
        [word, number, others @ ..] => {
            if word.as_bytes() == b"--limit".as_slice() {
                request_within(alloc, form, all, bare, number.as_bytes(), others)
            } else {
                request_with(alloc, form, all, bare, None, words)
            }
        }
        _ => request_with(alloc, form, all, bare, None, words),
    }
}

/// The same of bare dumps where `--bare` stands before the others.
fn bared(alloc: Global, form: Form, all: bool, words: &[String]) -> Result<Request, WordsError>
    ensures { Gives Memory (λ request. request) result (bared form all (map string_bytes words.now)) }
{
    match words {
        [] => limited(alloc, form, all, false, words),
        [word, others @ ..] => {
            if word.as_bytes() == b"--bare".as_slice() {
                limited(alloc, form, all, true, others)
            } else {
                limited(alloc, form, all, false, words)
            }
        }
    }
}

/// This form: with all events where `--all` stands before the others.
#[tactic(auto, unfolding(crate::specs::Asked::request_for))]
fn request_for(alloc: Global, form: Form, words: &[String]) -> Result<Request, WordsError>
    ensures { Gives Memory (λ request. request) result (request_for form (map string_bytes words.now)) }
{
    match words {
        [] => bared(alloc, form, false, words),
        [word, others @ ..] => {
            if word.as_bytes() == b"--all".as_slice() {
                bared(alloc, form, true, others)
            } else {
                bared(alloc, form, false, words)
            }
        }
    }
}

/// The dump itself where `view` stands before the others, or else text.
#[tactic(auto, unfolding(crate::specs::Asked::view_or_text))]
fn view_or_text(alloc: Global, words: &[String]) -> Result<Request, WordsError>
    ensures { Gives Memory (λ request. request) result (view_or_text (map string_bytes words.now)) }
{
    match words {
        [] => request_for(alloc, Form::Text, words),
        [word, others @ ..] => {
            if word.as_bytes() == b"view".as_slice() {
                request_for(alloc, Form::View, others)
            } else {
                request_for(alloc, Form::Text, words)
            }
        }
    }
}

/// The picture in characters where `--picture=text` stands before the others, or else the dump itself or text.
#[tactic(auto, unfolding(crate::specs::Asked::tree_or_view))]
fn tree_or_view(alloc: Global, words: &[String]) -> Result<Request, WordsError>
    ensures { Gives Memory (λ request. request) result (tree_or_view (map string_bytes words.now)) }
{
    match words {
        [] => view_or_text(alloc, words),
        [word, others @ ..] => {
            if word.as_bytes() == b"--picture=text".as_slice() {
                request_for(alloc, Form::TreePicture, others)
            } else {
                view_or_text(alloc, words)
            }
        }
    }
}

/// What the words ask for: a picture where `--picture` or `--picture=text` stands before the others, the dump itself where
/// `view` does, or else text.
pub(crate) fn asked_of(alloc: Global, words: &[String]) -> Result<Request, WordsError>
    ensures { Gives Memory (λ request. request) result (asked_of (map string_bytes words.now)) }
{
    match words {
        [] => tree_or_view(alloc, words),
        [word, others @ ..] => {
            if word.as_bytes() == b"--picture".as_slice() {
                request_for(alloc, Form::Picture, others)
            } else {
                tree_or_view(alloc, words)
            }
        }
    }
}
