ghost use Rattle.std.specs.Prelude.{◌≡◌, ◌++◌, [], ◌∷◌, codes, decimal, map, IfOk};
ghost use Rattle.ndc_model.specs.Handovers.{begin_words};
ghost use Rattle.ndc_model.specs.Texts.{ok, refused};
ghost use Rattle.ndc_world_answers.specs.Handovers.{ready_words};

use crate::text::AnswerText;
use crate::word::{Word, refused};
use ndc_event::OutOfMemory;
use ndc_graceful::{BeginError, ReadyError};
use std::alloc::Global;

/// A handover of the domain is open already.
pub fn still_open(alloc: Global) -> Result<AnswerText, OutOfMemory>
    ensures { IfOk result (λ text. text ≡ refused (codes "HandoverOpen" ∷ [])) }
{
    refused(alloc, &[Word::Plain("HandoverOpen")])
}

/// No handover of the domain to the cluster is open.
pub fn no_handover(alloc: Global) -> Result<AnswerText, OutOfMemory>
    ensures { IfOk result (λ text. text ≡ refused (codes "NoHandover" ∷ [])) }
{
    refused(alloc, &[Word::Plain("NoHandover")])
}

/// Why a handover does not begin; want of memory has no word.
pub fn begin_refused(alloc: Global, error: BeginError) -> Result<AnswerText, OutOfMemory>
    ensures { IfOk result (λ text. text ≡ refused (begin_words error)) }
{
    match error {
        BeginError::UnknownDomain => refused(alloc, &[Word::Plain("UnknownDomain")]),
        BeginError::NotActive { version } => {
            refused(alloc, &[Word::Plain("NotActive"), Word::Number(version)])
        }
        BeginError::VersionLimit => refused(alloc, &[Word::Plain("VersionLimit")]),
        BeginError::NotMember => refused(alloc, &[Word::Plain("NotMember")]),
        BeginError::Memory => refused(alloc, &[]),
    }
}

/// What keeps a handover from its end.
pub fn ready_refused(alloc: Global, error: ReadyError) -> Result<AnswerText, OutOfMemory>
    ensures { IfOk result (λ text. text ≡ refused (ready_words error)) }
{
    match error {
        ReadyError::Overtaken { version } => {
            refused(alloc, &[Word::Plain("Overtaken"), Word::Number(version)])
        }
        ReadyError::BootstrapDue => refused(alloc, &[Word::Plain("BootstrapDue")]),
        ReadyError::NotYet { shard, done, place } => refused(
            alloc,
            &[
                Word::Plain("NotYet"),
                Word::Number(shard as u64),
                Word::Number(done),
                Word::Number(place),
            ],
        ),
    }
}
