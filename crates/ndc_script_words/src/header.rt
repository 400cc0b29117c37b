ghost use Rattle.std.specs.Prelude.{◌≡◌, ◌≤◌, map, IfOk, IfSome, Some};
ghost use Rattle.ndc_event.specs.Outcome.{Gives};
ghost use Rattle.ndc_event.specs.Name.{name_of};
ghost use Rattle.ndc_script_types.specs.declared.script.ScriptError.TheVariants.{Refused, Memory};
ghost use Rattle.ndc_script_words.specs.Number.{number_of};
ghost use Rattle.ndc_script_types.specs.WellFormed.{IsWellFormedHeader};
ghost use Rattle.ndc_script_words.specs.Header.{keyed_number, within, number_read, setting_of, increment_at, cluster_words, member_of, members_of, behind_members, is_cluster_line, named_initial, no_member, number_at, clusters_refusal, placed, body_lines, clusters_read, header_of};

use crate::number::number_of;
use crate::text::{KeptLine, Reading};
use ndc_domain::{Clusters, ClustersError};
use ndc_event::{Name, NameError, OutOfMemory};
use ndc_script_types::{Header, ScriptCause, ScriptError};
use std::alloc::{AllocError, Global};
use std::marker::Model;

/// What a header line gives: where it stands, its number, and the lines after it.
#[derive(Drop)]
struct Setting<'a, 'b> {
    line: u64,
    value: u64,
    rest: &'b [KeptLine<'a>],
}

impl<'a, 'b> Model for Setting<'a, 'b> {
    ghost use Rattle.ndc_script_words.specs.Header.{Setting};

    ghost Value = { Setting };

    ghost view = { λ setting.
        record { line = setting.line; value = setting.value; rest = setting.rest.now } };
}

/// A header and the lines of the body.
#[derive(Drop)]
pub struct HeaderRead<'a, 'b> {
    header: Header,
    body: &'b [KeptLine<'a>],
}

impl<'a, 'b> Model for HeaderRead<'a, 'b> {
    ghost use Rattle.ndc_script_words.specs.Header.{HeaderRead};

    ghost Value = { HeaderRead };

    ghost view = { λ read. record { header = read.header; body = read.body.now } };
}

impl<'a, 'b> HeaderRead<'a, 'b> {
    ghost use Rattle.std.specs.Prelude.{◌≡◌};

    /// The header.
    pub fn header(&self) -> &Header
        ensures { result.now ≡ self.now.header }
    {
        &self.header
    }

    /// The lines of the body.
    pub fn body(&self) -> &'b [KeptLine<'a>]
        ensures { result.now ≡ self.now.body }
    {
        self.body
    }

    /// The header, given back.
    pub fn into_header(self) -> Header
        ensures { result ≡ self.entry.header }
    {
        self.header
    }
}

/// The number of a line `KEY NUMBER`.
fn keyed_number(key: &[u8], words: &[&[u8]]) -> Option<u64>
    ensures { result ≡ keyed_number key.now (map (λ word. word.now) words.now) }
{
    match words {
        [word, number] => {
            if *word == key {
                number_of(number)
            } else {
                None
            }
        }
        _ => None,
    }
}

/// The number, where it stands within bounds.
pub fn within(low: u64, high: u64, number: Option<u64>) -> Option<u64>
    ensures answer { result ≡ within low high number }
    ensures least { IfSome result (λ number. low ≤ number) }
    ensures most { IfSome result (λ number. number ≤ high) }
{
    match number {
        Some(number) => {
            if low <= number && number <= high {
                Some(number)
            } else {
                None
            }
        }
        None => None,
    }
}

/// The number of a header line, by how the line can be read.
fn number_read(line: u64, reading: Reading, number: Option<u64>) -> Result<u64, ScriptError>
    ensures answer { result ≡ number_read line reading number }
    ensures same { IfOk result (λ value. number ≡ Some value) }
{
    match (reading, number) {
        (Reading::PastLimit, _) => Err(ScriptError::Refused {
            line,
            cause: ScriptCause::LineLimit,
        }),
        (Reading::Unreadable, _) | (Reading::Readable, None) => Err(ScriptError::Refused {
            line,
            cause: ScriptCause::BadHeader,
        }),
        (Reading::Readable, Some(number)) => Ok(number),
    }
}

/// The header line `KEY NUMBER` with a number within bounds, which has to be the next line.
#[tactic(auto, unfolding(crate::specs::Header::setting_of))]
fn setting_of<'a, 'b>(
    key: &[u8],
    low: u64,
    high: u64,
    end: u64,
    lines: &'b [KeptLine<'a>],
) -> Result<Setting<'a, 'b>, ScriptError>
    ensures answer { Gives Memory (λ setting.
        setting) result (setting_of key.now low high end lines.entry.now) }
    ensures least { IfOk result (λ setting. low ≤ setting.value) }
    ensures most { IfOk result (λ setting. setting.value ≤ high) }
{
    let Some((line, rest)) = lines.split_first() else {
        return Err(ScriptError::Refused {
            line: end,
            cause: ScriptCause::BadHeader,
        });
    };
    let number = within(low, high, keyed_number(key, line.words()));
    let value = number_read(line.number(), line.reading(), number)?;
    Ok(Setting {
        line: line.number(),
        value,
        rest,
    })
}

/// The increment, where it is 1 to 10^12.
fn increment_at(line: u64, value: u64) -> Result<u64, ScriptError>
    ensures { result ≡ increment_at line value }
{
    if value == 0 || 1_000_000_000_000 < value {
        return Err(ScriptError::Refused {
            line,
            cause: ScriptCause::IncrementLimit,
        });
    }
    Ok(value)
}

/// A refusal at a line.
fn refused(line: u64, cause: ScriptCause) -> ScriptError
    ensures { result ≡ Refused line cause }
{
    ScriptError::Refused { line, cause }
}

/// Whether the first word is `cluster`.
fn is_cluster_line(words: &[&[u8]]) -> bool
    ensures { result ≡ is_cluster_line (map (λ word. word.now) words.now) }
{
    match words {
        [] => false,
        [word, ..] => *word == b"cluster".as_slice(),
    }
}

/// The name and initial version of a cluster line, where both words are such.
fn named_initial(
    alloc: Global,
    name: &[u8],
    initial: &[u8],
) -> Result<Option<(Name, u64)>, OutOfMemory>
    ensures { IfOk result (λ member.
        member ≡ named_initial (name_of name.now) (number_of initial.now)) }
{
    match Name::new(alloc, name) {
        Ok(name) => Ok(match number_of(initial) {
            Some(initial) => Some((name, initial)),
            None => None,
        }),
        Err(NameError::Memory) => Err(AllocError),
        Err(_) => Ok(None),
    }
}

/// The name and initial version of a line `cluster NAME INITIAL`.
fn cluster_words(alloc: Global, words: &[&[u8]]) -> Result<Option<(Name, u64)>, OutOfMemory>
    ensures { IfOk result (λ member. member ≡ cluster_words (map (λ word. word.now) words.now)) }
{
    match words {
        [word, name, initial] => {
            if *word == b"cluster".as_slice() {
                named_initial(alloc, name, initial)
            } else {
                Ok(None)
            }
        }
        _ => Ok(None),
    }
}

/// The member that a well-formed cluster line names.
fn member_of(alloc: Global, line: &KeptLine<'_>) -> Result<Option<(Name, u64)>, OutOfMemory>
    ensures { IfOk result (λ member. member ≡ member_of line.now) }
{
    match line.reading() {
        Reading::Readable => cluster_words(alloc, line.words()),
        Reading::Unreadable | Reading::PastLimit => Ok(None),
    }
}

/// The members of the well-formed cluster lines at the beginning.
fn members_of(alloc: Global, lines: &[KeptLine<'_>]) -> Result<Vec<(Name, u64)>, OutOfMemory>
    ensures { IfOk result (λ members. members.items ≡ members_of lines.now) }
{
    let mut members = Vec::new(alloc);
    for line in lines {
        match member_of(alloc, line)? {
            Some(member) => members.push(member)?,
            None => return Ok(members),
        }
    }
    Ok(members)
}

/// The refusal of a header without a well-formed cluster line.
fn no_member(end: u64, lines: &[KeptLine<'_>]) -> ScriptError
    ensures { result ≡ no_member end lines.now }
{
    let Some(line) = lines.first() else {
        return refused(end, ScriptCause::NoClusters);
    };
    let cause = match line.reading() {
        Reading::PastLimit => ScriptCause::LineLimit,
        Reading::Readable | Reading::Unreadable => {
            if is_cluster_line(line.words()) {
                ScriptCause::BadHeader
            } else {
                ScriptCause::NoClusters
            }
        }
    };
    refused(line.number(), cause)
}

/// The number of the line at a place.
fn number_at(end: u64, lines: &[KeptLine<'_>], place: usize) -> u64
    ensures { result ≡ number_at end lines.now place }
{
    match lines.get(place) {
        Some(line) => line.number(),
        None => end,
    }
}

/// Where a fault of the clusters stands: at the increment line, after the limit line, or at a cluster line.
fn clusters_refusal(
    end: u64,
    increment: u64,
    lines: &[KeptLine<'_>],
    error: ClustersError,
) -> ScriptError
    ensures { result ≡ clusters_refusal end increment lines.now error }
{
    match error {
        ClustersError::IncrementLimit => refused(increment, ScriptCause::IncrementLimit),
        ClustersError::NoClusters => no_member(end, lines),
        ClustersError::TooMany { place } => refused(
            number_at(end, lines, place),
            ScriptCause::TooMany,
        ),
        ClustersError::SameName { place } => refused(
            number_at(end, lines, place),
            ScriptCause::SameName,
        ),
        ClustersError::SameInitial { place } => refused(
            number_at(end, lines, place),
            ScriptCause::SameInitial,
        ),
        ClustersError::NotBelowIncrement { place } => {
            refused(number_at(end, lines, place), ScriptCause::NotBelowIncrement)
        }
        ClustersError::Memory => ScriptError::Memory,
    }
}

/// The lines after the cluster lines; a malformed cluster line is none of them.
fn body_lines<'a, 'b>(lines: &'b [KeptLine<'a>]) -> Result<&'b [KeptLine<'a>], ScriptError>
    ensures { Gives Memory (λ body. body.now) result (body_lines lines.entry.now) }
{
    let Some(line) = lines.first() else {
        return Ok(lines);
    };
    if is_cluster_line(line.words()) {
        return Err(refused(line.number(), ScriptCause::BadHeader));
    }
    Ok(lines)
}

/// The clusters of the cluster lines, and the lines of the body.
#[tactic(auto, unfolding(crate::specs::Header::clusters_read))]
fn clusters_read<'a, 'b>(
    alloc: Global,
    end: u64,
    increment: Setting<'a, 'b>,
    shards: u32,
    limit: u64,
    lines: &'b [KeptLine<'a>],
) -> Result<HeaderRead<'a, 'b>, ScriptError>
    requires shards_least { 1 ≤ shards }
    requires shards_most { shards ≤ 64 }
    requires limit_least { 10 ≤ limit }
    requires limit_most { limit ≤ 204800 }
    ensures well_formed { IfOk result (λ read. IsWellFormedHeader read.header) }
    ensures answer { Gives Memory (λ read.
        read) result (clusters_read end increment.entry shards limit lines.entry.now) }
{
    let members = members_of(alloc, lines)?;
    let (_, behind) = lines.split_at(members.len());
    let clusters = match Clusters::build(increment.value, members) {
        Ok(clusters) => clusters,
        Err(error) => return Err(clusters_refusal(end, increment.line, lines, error)),
    };
    let body = body_lines(behind)?;
    Ok(HeaderRead {
        header: Header {
            clusters,
            shards,
            limit,
        },
        body,
    })
}

/// The header that lines begin with. The line after the last has the number `end`.
#[tactic(auto, unfolding(crate::specs::Header::header_of))]
pub fn header_of<'a, 'b>(
    alloc: Global,
    end: u64,
    lines: &'b [KeptLine<'a>],
) -> Result<HeaderRead<'a, 'b>, ScriptError>
    ensures well_formed { IfOk result (λ read. IsWellFormedHeader read.header) }
    ensures answer { Gives Memory (λ read. read) result (header_of end lines.entry.now) }
{
    let edition = setting_of(b"ndc", 1, 1, end, lines)?;
    let increment = setting_of(
        b"increment",
        0,
        1_000_000_000_000_000_000,
        end,
        edition.rest,
    )?;
    increment_at(increment.line, increment.value)?;
    let shards = setting_of(b"shards", 1, 64, end, increment.rest)?;
    let limit = setting_of(b"limit", 10, 204_800, end, shards.rest)?;
    let rest = limit.rest;
    clusters_read(
        alloc,
        end,
        increment,
        shards.value as u32,
        limit.value,
        rest,
    )
}
