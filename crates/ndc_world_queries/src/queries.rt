ghost use Rattle.std.specs.Prelude.{◌≡◌, map, option_map, IfOk};
ghost use Rattle.ndc_world_queries.specs.Learned.{current_text, history_text};
ghost use Rattle.ndc_model.specs.Reading.{branches_answer, current_answer, dump_answer, history_answer, read_answer, state_answer};

use ndc_current::status;
use ndc_event::{Batch, Name, OutOfMemory};
use ndc_shard_runs::Runs;
use ndc_state::{State, Steps};
use ndc_world_answers::AnswerText;
use std::alloc::Global;

/// Steps of restoring states are counted under this name.
struct Restoring;

/// The answer of a line on the history, by the path to the tip, where there is one.
fn history_text(alloc: Global, path: Option<Vec<&Batch>>) -> Result<AnswerText, OutOfMemory>
    ensures { IfOk result (λ text. text ≡ history_text (option_map (λ list. map (λ b. b.now) list.items) path.entry)) }
{
    match path {
        Some(path) => ndc_world_answers::history(alloc, path.as_slice()),
        None => ndc_world_answers::history(alloc, &[]),
    }
}

/// What `history` answers: the events of the current branch of the current run.
#[tactic(auto, using(crate::proofs::TipLemmas::history_read))]
pub(crate) fn history(alloc: Global, runs: &Runs) -> Result<AnswerText, OutOfMemory>
    ensures { IfOk result (λ text. text ≡ read_answer history_answer runs.now) }
{
    if runs.is_empty() {
        return ndc_world_answers::no_workflow(alloc);
    }
    let Some(tip) = runs.tip() else {
        return Ok(AnswerText::empty(alloc));
    };
    let path = runs.path(alloc, tip.key)?;
    history_text(alloc, path)
}

/// The answer of a line on the current run, by the tip of its current branch and the state of it.
fn current_text(alloc: Global, tip: &Batch, state: &State) -> Result<AnswerText, OutOfMemory>
    ensures { IfOk result (λ text. text ≡ current_text tip.now state.now) }
{
    let status = status(state.is_running(), true);
    ndc_world_answers::current(alloc, tip.run, tip.key, status, state.close())
}

/// What `current` answers: the current run, the tip of its current branch and its status.
#[tactic(auto, using(crate::proofs::TipLemmas::current_read))]
pub(crate) fn current(alloc: Global, runs: &Runs) -> Result<AnswerText, OutOfMemory>
    ensures { IfOk result (λ text. text ≡ read_answer current_answer runs.now) }
{
    if runs.is_empty() {
        return ndc_world_answers::no_workflow(alloc);
    }
    let Some(tip) = runs.tip() else {
        return Ok(AnswerText::empty(alloc));
    };
    let Some(state) = runs.state() else {
        return Ok(AnswerText::empty(alloc));
    };
    current_text(alloc, tip, state)
}

/// What `state` answers: the state of the current branch of the current run.
pub(crate) fn state(alloc: Global, runs: &Runs) -> Result<AnswerText, OutOfMemory>
    ensures { IfOk result (λ text. text ≡ read_answer state_answer runs.now) }
{
    if runs.is_empty() {
        return ndc_world_answers::no_workflow(alloc);
    }
    match runs.state() {
        Some(state) => ndc_world_answers::state(alloc, state),
        None => Ok(AnswerText::empty(alloc)),
    }
}

/// What `branches` answers: the runs with their branches. It looks at tips and version histories, not at all batches.
#[tactic(auto, using(crate::proofs::TipLemmas::branches_read))]
pub(crate) fn branches(alloc: Global, runs: &Runs) -> Result<AnswerText, OutOfMemory>
    ensures { IfOk result (λ text. text ≡ read_answer branches_answer runs.now) }
{
    if runs.is_empty() {
        return ndc_world_answers::no_workflow(alloc);
    }
    let mut steps: Steps<Restoring> = Steps::new();
    let shown = runs.runs_shown(alloc, &mut steps)?;
    ndc_world_answers::branches(alloc, shown.as_slice())
}

/// What `dump` answers: how many batches are learned, and the dump.
pub(crate) fn dump(
    alloc: Global,
    domain: &Name,
    workflow: &Name,
    runs: &Runs,
) -> Result<AnswerText, OutOfMemory>
    ensures { IfOk result (λ text. text ≡ read_answer (dump_answer domain.now workflow.now) runs.now) }
{
    let mut steps: Steps<Restoring> = Steps::new();
    match runs.view(alloc, &mut steps)? {
        Some(view) => ndc_world_answers::dump(alloc, domain, workflow, &view),
        None => ndc_world_answers::no_workflow(alloc),
    }
}
