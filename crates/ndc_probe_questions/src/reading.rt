ghost use Rattle.std.specs.Prelude.{◌≡◌, ◌≤◌, map, IfOk};
ghost use Rattle.ndc_event.specs.Outcome.{Gives};
ghost use Rattle.ndc_script_types.specs.WellFormed.{IsCluster, IsWellFormedHeader};
ghost use Rattle.ndc_script_types.specs.declared.script.ScriptError.TheVariants.{Memory};
ghost use Rattle.ndc_probe_questions.specs.Questions.{IsLane, IsQuestion, asked_by, differs_at, domain_at, lane_at, late_at, learned_verb, or_else, question_of, queue_at, sent_verb, verb_of};

use crate::question::{DomainAt, LaneAt, Question};
use ndc_script_types::{Header, ScriptError};
use ndc_script_words::{Interner, KeptLine, bad, known, named, shard_of, two_clusters};
use std::alloc::Global;

/// The word that begins a question.
#[derive(Clone, Copy, Debug, PartialEq, Eq)]
pub enum Verb {
    Flight,
    Queue,
    Holds,
    Late,
    Workflows,
    Forks,
    Differs,
    Dumps,
}

/// `READER SOURCE SHARD`.
#[tactic(auto, unfolding(crate::specs::Questions::lane_at))]
fn lane_at(header: &Header, line: u64, words: &[&[u8]]) -> Result<LaneAt, ScriptError>
    requires fit { IsWellFormedHeader header.now }
    ensures answer { result ≡ lane_at header.now line (map (λ word. word.now) words.now) }
    ensures well_formed { IfOk result (IsLane header.now) }
{
    match words {
        [reader, source, shard] => {
            let clusters = two_clusters(header, line, reader, source)?;
            let shard = shard_of(header, line, shard)?;
            Ok(LaneAt {
                reader: clusters.one,
                source: clusters.two,
                shard,
            })
        }
        _ => Err(bad(line)),
    }
}

/// `SOURCE SHARD`.
#[tactic(auto, unfolding(crate::specs::Questions::queue_at))]
fn queue_at(header: &Header, line: u64, words: &[&[u8]]) -> Result<Question, ScriptError>
    requires fit { IsWellFormedHeader header.now }
    ensures answer { result ≡ queue_at header.now line (map (λ word. word.now) words.now) }
    ensures well_formed { IfOk result (IsQuestion header.now) }
{
    match words {
        [source, shard] => {
            let source = known(header, line, source)?;
            let shard = shard_of(header, line, shard)?;
            Ok(Question::Queue { source, shard })
        }
        _ => Err(bad(line)),
    }
}

/// `READER SOURCE`.
#[tactic(auto, unfolding(crate::specs::Questions::late_at))]
fn late_at(header: &Header, line: u64, words: &[&[u8]]) -> Result<Question, ScriptError>
    ensures answer { result ≡ late_at header.now line (map (λ word. word.now) words.now) }
    ensures well_formed { IfOk result (IsQuestion header.now) }
{
    match words {
        [reader, source] => {
            let clusters = two_clusters(header, line, reader, source)?;
            Ok(Question::Late {
                reader: clusters.one,
                source: clusters.two,
            })
        }
        _ => Err(bad(line)),
    }
}

/// `C D`.
#[tactic(auto, unfolding(crate::specs::Questions::domain_at))]
fn domain_at(
    names: &mut Interner,
    header: &Header,
    line: u64,
    words: &[&[u8]],
) -> Result<DomainAt, ScriptError>
    ensures answer { Gives Memory (λ at.
        at) result (domain_at header.now line (map (λ word. word.now) words.now)) }
    ensures well_formed { IfOk result (λ at. IsCluster header.now at.cluster) }
{
    match words {
        [cluster, domain] => {
            let domain = named(names, line, domain)?;
            let cluster = known(header, line, cluster)?;
            Ok(DomainAt { cluster, domain })
        }
        _ => Err(bad(line)),
    }
}

/// `C C D`.
#[tactic(auto, unfolding(crate::specs::Questions::differs_at))]
fn differs_at(
    names: &mut Interner,
    header: &Header,
    line: u64,
    words: &[&[u8]],
) -> Result<Question, ScriptError>
    ensures answer { Gives Memory (λ question.
        question) result (differs_at header.now line (map (λ word. word.now) words.now)) }
    ensures well_formed { IfOk result (IsQuestion header.now) }
{
    match words {
        [one, two, domain] => {
            let domain = named(names, line, domain)?;
            let clusters = two_clusters(header, line, one, two)?;
            Ok(Question::Differs {
                one: clusters.one,
                two: clusters.two,
                domain,
            })
        }
        _ => Err(bad(line)),
    }
}

/// The words that begin a question about what is sent.
#[tactic(auto, unfolding(crate::specs::Questions::sent_verb))]
fn sent_verb(word: &[u8]) -> Option<Verb>
    ensures { result ≡ sent_verb word.now }
{
    if word == b"flight".as_slice() {
        Some(Verb::Flight)
    } else if word == b"queue".as_slice() {
        Some(Verb::Queue)
    } else if word == b"holds".as_slice() {
        Some(Verb::Holds)
    } else if word == b"late".as_slice() {
        Some(Verb::Late)
    } else {
        None
    }
}

/// The words that begin a question about what is learned.
#[tactic(auto, unfolding(crate::specs::Questions::learned_verb))]
fn learned_verb(word: &[u8]) -> Option<Verb>
    ensures { result ≡ learned_verb word.now }
{
    if word == b"workflows".as_slice() {
        Some(Verb::Workflows)
    } else if word == b"forks".as_slice() {
        Some(Verb::Forks)
    } else if word == b"differs".as_slice() {
        Some(Verb::Differs)
    } else if word == b"dumps".as_slice() {
        Some(Verb::Dumps)
    } else {
        None
    }
}

/// The word that begins a question; nothing where it begins none.
#[tactic(auto, unfolding(crate::specs::Questions::verb_of))]
pub fn verb_of(word: &[u8]) -> Option<Verb>
    ensures { result ≡ verb_of word.now }
{
    match sent_verb(word) {
        Some(verb) => Some(verb),
        None => learned_verb(word),
    }
}

/// The question that begins so, by the words that follow.
#[tactic(auto, unfolding(crate::specs::Questions::asked_by))]
fn asked_by(
    alloc: Global,
    header: &Header,
    line: u64,
    verb: Verb,
    words: &[&[u8]],
) -> Result<Question, ScriptError>
    requires fit { IsWellFormedHeader header.now }
    ensures answer { Gives Memory (λ question.
        question) result (asked_by header.now line verb (map (λ word. word.now) words.now)) }
    ensures well_formed { IfOk result (IsQuestion header.now) }
{
    let mut names = Interner::keeping_none(alloc);
    match verb {
        Verb::Flight => Ok(Question::Flight(lane_at(header, line, words)?)),
        Verb::Holds => Ok(Question::Holds(lane_at(header, line, words)?)),
        Verb::Queue => queue_at(header, line, words),
        Verb::Late => late_at(header, line, words),
        Verb::Workflows => Ok(Question::Workflows(domain_at(&mut names, header, line, words)?)),
        Verb::Forks => Ok(Question::Forks(domain_at(&mut names, header, line, words)?)),
        Verb::Dumps => Ok(Question::Dumps(domain_at(&mut names, header, line, words)?)),
        Verb::Differs => differs_at(&mut names, header, line, words),
    }
}

/// The question that the words of a line are, for a script with this header. Refused where they are none: the first word
/// begins no question, there are too few or too many after it, a cluster is not one of the header, or a number is out
/// of its range.
#[tactic(auto, unfolding(crate::specs::Questions::question_of))]
pub fn question_of(
    alloc: Global,
    header: &Header,
    asked: &KeptLine,
) -> Result<Question, ScriptError>
    requires fit { IsWellFormedHeader header.now }
    ensures answer { Gives Memory (λ question.
        question) result (question_of header.now asked.now.number asked.now.words) }
    ensures well_formed { IfOk result (IsQuestion header.now) }
{
    let line = asked.number();
    match asked.words() {
        [word, words @ ..] => match verb_of(word) {
            Some(verb) => asked_by(alloc, header, line, verb, words),
            None => Err(bad(line)),
        },
        [] => Err(bad(line)),
    }
}
