ghost use Rattle.std.specs.Prelude.{◌≡◌, [], ◌∷◌, codes, decimal, map, option_to_list, IfOk};
ghost use Rattle.ndc_model.specs.Steps.{outcome_answer, written_words};
ghost use Rattle.ndc_model.specs.Texts.{ok, refusal_words, refused};
ghost use Rattle.ndc_world_answers.specs.Refusals.{carried_version, refusal_name_of};

use crate::text::AnswerText;
use crate::word::{Word, refused};
use ndc_command::Refusal;
use ndc_event::OutOfMemory;
use ndc_model_cells::Outcome;
use std::alloc::Global;

/// The name of a refusal that carries no version.
fn refusal_name(refusal: Refusal) -> &'static str
    ensures { result.now ≡ refusal_name_of refusal }
{
    match refusal {
        Refusal::UnknownDomain => "UnknownDomain",
        Refusal::NotActive { .. } => "NotActive",
        Refusal::Behind { .. } => "Behind",
        Refusal::NoWorkflow => "NoWorkflow",
        Refusal::AlreadyRunning => "AlreadyRunning",
        Refusal::Closed => "Closed",
        Refusal::NoDecision => "NoDecision",
        Refusal::DecisionNotStarted => "DecisionNotStarted",
        Refusal::DecisionStarted => "DecisionStarted",
        Refusal::NoSuchActivity => "NoSuchActivity",
        Refusal::ActivityNotStarted => "ActivityNotStarted",
        Refusal::ActivityStarted => "ActivityStarted",
        Refusal::DuplicateActivity => "DuplicateActivity",
        Refusal::NoSuchTimer => "NoSuchTimer",
        Refusal::DuplicateTimer => "DuplicateTimer",
        Refusal::NoSuchChild => "NoSuchChild",
        Refusal::ChildNotStarted => "ChildNotStarted",
        Refusal::ChildStarted => "ChildStarted",
        Refusal::DuplicateChild => "DuplicateChild",
        Refusal::HistoryFull => "HistoryFull",
        Refusal::NoSuchPoint => "NoSuchPoint",
    }
}

/// The version that a refusal carries, where it does.
fn carried_version(refusal: Refusal) -> Option<u64>
    ensures { result ≡ carried_version refusal }
{
    match refusal {
        Refusal::NotActive { version } => Some(version),
        Refusal::Behind { version } => Some(version),
        _ => None,
    }
}

/// Why a line that writes is refused.
pub fn refusal(alloc: Global, refusal: Refusal) -> Result<AnswerText, OutOfMemory>
    ensures { IfOk result (λ text. text ≡ refused (refusal_words refusal)) }
{
    let name = Word::Plain(refusal_name(refusal));
    match carried_version(refusal) {
        None => refused(alloc, &[name]),
        Some(version) => refused(alloc, &[name, Word::Number(version)]),
    }
}

/// What came of a line that writes; a job of another kind has no answer.
pub fn outcome(alloc: Global, outcome: &Outcome) -> Result<AnswerText, OutOfMemory>
    ensures { IfOk result (λ text. text ≡ outcome_answer outcome.now) }
{
    match outcome {
        Outcome::Written(keys) => Ok(AnswerText::written(alloc, *keys)),
        Outcome::Refused(why) => refusal(alloc, *why),
        Outcome::Arrived(_) => Ok(AnswerText::empty(alloc)),
        Outcome::Reapplied { .. } => Ok(AnswerText::empty(alloc)),
    }
}
