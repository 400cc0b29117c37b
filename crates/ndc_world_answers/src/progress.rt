ghost use Rattle.std.specs.Prelude.{◌≡◌, [], ◌∷◌, codes, decimal, map, IfOk};
ghost use Rattle.std.specs.Option.{option_copied};
ghost use Rattle.ndc_model.specs.Progress.{report_answer};
ghost use Rattle.ndc_model.specs.Texts.{ok, refused};

use crate::text::AnswerText;
use crate::word::{Word, ok, refused};
use ndc_event::OutOfMemory;
use ndc_progress::Report;
use std::alloc::Global;

/// A report was told: its version and beat.
pub fn beaten(alloc: Global, version: u64, beat: u64) -> Result<AnswerText, OutOfMemory>
    ensures { IfOk result (λ text. text ≡ ok (decimal version ∷ decimal beat ∷ [])) }
{
    ok(alloc, &[Word::Number(version), Word::Number(beat)])
}

/// A report of a greater version is held.
pub fn stale(alloc: Global, version: u64) -> Result<AnswerText, OutOfMemory>
    ensures { IfOk result (λ text. text ≡ refused (codes "Stale" ∷ decimal version ∷ [])) }
{
    refused(alloc, &[Word::Plain("Stale"), Word::Number(version)])
}

/// The report that is held of an activity, where there is one.
pub fn report(alloc: Global, report: Option<&Report>) -> Result<AnswerText, OutOfMemory>
    ensures { IfOk result (λ text. text ≡ report_answer (option_copied report.entry)) }
{
    match report {
        None => refused(alloc, &[Word::Plain("NoProgress")]),
        Some(report) => ok(
            alloc,
            &[
                Word::Number(report.version),
                Word::Number(report.beat),
                Word::Bytes(report.details.as_bytes()),
            ],
        ),
    }
}
