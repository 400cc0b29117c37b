// Messages that nobody vouches for, in one workflow.
ghost use Rattle.std.specs.Prelude.{◌≡◌, ◌∷◌, [], false, true, Some, Err, Option, None, not, is_some, map, IfOk, OnOk, OnErr};
ghost use Rattle.std.specs.List.{AllByRecursion};
ghost use Rattle.std.specs.Option.{option_copied};
ghost use Rattle.ndc_admission.specs.History.{tells_path};
ghost use Rattle.ndc_event.specs.Batch.{fault_of};
ghost use Rattle.ndc_event.specs.Outcome.{Gives};
ghost use Rattle.ndc_model_cells.specs.Cells.{both};
ghost use Rattle.ndc_model_cells.specs.Messages.{batches_of, carrying, HasSmallIds, IsMessage, IsNewTo};
ghost use Rattle.ndc_model_sets.specs.Learned.{has_key};
ghost use Rattle.ndc_model_sets.specs.Reading.{items_of, named};
ghost use Rattle.ndc_model_sets.specs.Sets.{earlier};
ghost use Rattle.ndc_shard_runs.specs.declared.misfit.Misfit.TheVariants.{Memory};
ghost use Rattle.ndc_shard_waiting.specs.Learning.{with_message, with_messages, ArePutOff};
ghost use Rattle.ndc_shard_waiting.specs.Waiting.{CanWait, freed, still_put_off};
ghost use Rattle.ndc_shard_workflows.specs.Admitting.{fit_in, fit_message, is_faultless, is_second_faultless, is_whole, settled, settled_one, settled_with, IsTried, Settling};
ghost use Rattle.ndc_shard_workflows.specs.declared.admission.AdmitError.TheVariants.{Memory as OutOfIt};
ghost use Rattle.ndc_shard_workflows.specs.declared.admission.NotAdmitted.TheVariants as refused;
ghost use Rattle.ndc_shard_workflows.specs.Arriving.{ComesFrom};
ghost use Rattle.ndc_shard_workflows.specs.Settling.{CanSettle, IsLeft, IsSettled};
ghost use Rattle.ndc_shard_workflows.specs.Workflow.{beside};
ghost use Rattle.ndc_shard_workflows.specs.Writing.{GoTogether};

use crate::admission::{Admission, AdmitError, NotAdmitted, SetAside};
use crate::arrival::batches_in;
use crate::learning::is_reached;
use ndc_admission::history_continues;
use ndc_event::{Batch, BatchKey, OutOfMemory};
use ndc_history::VersionHistory;
use ndc_model_cells::Message;
use ndc_model_sets::Batches;
use ndc_run::Learned;
use ndc_shard_runs::{Misfit, Runs};
use ndc_shard_waiting::Waiting;
use ndc_state::Steps;
use std::alloc::{AllocError, Global};

/// What became of messages that are gone over: those that are learned, and those that do not fit.
#[derive(Drop)]
struct Settled {
    learned: Vec<Message>,
    aside: Vec<SetAside>,
}

/// Whether a batch has no fault of its own.
fn is_faultless(batch: &Batch) -> bool
    ensures { result ≡ is_faultless batch.now }
{
    match batch.check() {
        Ok(()) => true,
        Err(_) => false,
    }
}

/// The same of the batch that is carried, where there is one.
fn is_second_faultless(second: Option<&Batch>) -> bool
    ensures { result ≡ is_second_faultless (option_copied second.entry) }
{
    match second {
        None => true,
        Some(second) => is_faultless(second),
    }
}

/// Whether no other carries the batch, and neither it nor the second one, where there is one, has a fault.
fn is_whole(batch: &Batch, second: Option<&Batch>) -> bool
    ensures { result ≡ is_whole (carrying batch.now (option_copied second.entry)) }
{
    batch.carrier.is_none() && is_faultless(batch) && is_second_faultless(second)
}

/// The version history of the path to the learned batch of this key; empty where there is none.
#[tactic(auto, using(crate::proofs::HistoryLemmas::history_is))]
fn history_to(
    runs: &Runs,
    alloc: Global,
    key: Option<BatchKey>,
) -> Result<VersionHistory, OutOfMemory>
    ensures { IfOk result (λ history. history ≡ items_of (named key runs.now) runs.now) }
{
    let Some(key) = key else {
        return Ok(VersionHistory::new(alloc));
    };
    match runs.history_of(alloc, key)? {
        Some(history) => Ok(history),
        None => Ok(VersionHistory::new(alloc)),
    }
}

/// Whether the version history of the message is that of its path, where its parent, if it has one, is learned.
fn tells_path(runs: &Runs, alloc: Global, message: &Message) -> Result<bool, OutOfMemory>
    ensures { IfOk result (λ tells. tells ≡ tells_path runs.now message.now) }
{
    let before = history_to(runs, alloc, message.batch.parent)?;
    history_continues(before, message)
}

/// Learns the batch of a message that is whole, and the one that it carries, if its version history is that of its path and
/// they fit; or nothing changes.
fn fit_whole<L>(
    runs: &mut Runs,
    alloc: Global,
    message: &Message,
    steps: &mut Steps<L>,
) -> Result<Learned, NotAdmitted>
    requires whole { is_whole message.now ≡ true }
    requires message { IsMessage message.now }
    requires fresh { IsNewTo runs.old message.now }
    requires reached { has_key (earlier message.now.batch) runs.old ≡ true }
    requires ids { AllByRecursion HasSmallIds (both message.now) }
    ensures answer { Gives (refused.Misfit Memory) (λ done.
        done) result (fit_message runs.old message.now) }
    ensures ok { OnOk result (runs.new ≡ with_message message.now runs.old) }
    ensures err { OnErr result (runs.new ≡ runs.old) }
{
    if !tells_path(runs, alloc, message)? {
        return Err(NotAdmitted::History);
    }
    match runs.admit(alloc, &message.batch, message.second.as_ref(), steps) {
        Ok(learned) => Ok(learned),
        Err(misfit) => Err(NotAdmitted::Misfit(misfit)),
    }
}

/// The same of a message that may not be whole.
fn fit_message<L>(
    runs: &mut Runs,
    alloc: Global,
    message: &Message,
    steps: &mut Steps<L>,
) -> Result<Learned, NotAdmitted>
    requires message { IsMessage message.now }
    requires fresh { IsNewTo runs.old message.now }
    requires reached { has_key (earlier message.now.batch) runs.old ≡ true }
    requires ids { AllByRecursion HasSmallIds (both message.now) }
    ensures answer { Gives (refused.Misfit Memory) (λ done.
        done) result (fit_message runs.old message.now) }
    ensures ok { OnOk result (runs.new ≡ with_message message.now runs.old) }
    ensures err { OnErr result (runs.new ≡ runs.old) }
{
    if !is_whole(&message.batch, message.second.as_ref()) {
        return Err(NotAdmitted::Misfit(Misfit::IllFormed));
    }
    fit_whole(runs, alloc, message, steps)
}

/// Learns a batch, and the second one, which goes right after it, if they are whole and fit; or nothing changes.
pub(crate) fn fit<L>(
    runs: &mut Runs,
    alloc: Global,
    batch: &Batch,
    second: Option<&Batch>,
    steps: &mut Steps<L>,
) -> Result<Learned, Misfit>
    requires together { GoTogether (carrying batch.now (option_copied second)) }
    requires fresh { IsNewTo runs.old (carrying batch.now (option_copied second)) }
    requires reached { has_key (earlier batch.now) runs.old ≡ true }
    requires ids { AllByRecursion HasSmallIds (both (carrying batch.now (option_copied second))) }
    ensures answer { Gives Memory (λ done.
        done) result (fit_in runs.old (carrying batch.now (option_copied second.entry))) }
    ensures ok { OnOk result
        (runs.new ≡ with_message (carrying batch.now (option_copied second.entry)) runs.old) }
    ensures err { OnErr result (runs.new ≡ runs.old) }
{
    if !is_whole(batch, second) {
        return Err(Misfit::IllFormed);
    }
    runs.admit(alloc, batch, second, steps)
}

/// One of the messages that are gone over: it counts as learned, is tried, or waits on. For want of memory nothing is said
/// of any.
fn settle_one<L>(
    runs: &mut Runs,
    waiting: &mut Waiting,
    done: &mut Settled,
    alloc: Global,
    sent: Message,
    steps: &mut Steps<L>,
) -> Result<(), OutOfMemory>
    requires left { IsLeft runs.old sent }
    requires new { IsNewTo (batches_of waiting.old) sent }
    requires ids { AllByRecursion HasSmallIds (both sent) }
    ensures { OnOk result (record {
      known = runs.new;
      waiting = waiting.new;
      learned = done.new.learned.items;
      aside = done.new.aside.items;
    }
        ≡ settled_one sent (record {
          known = runs.old;
          waiting = waiting.old;
          learned = done.old.learned.items;
          aside = done.old.aside.items;
        })) }
{
    if runs.has(sent.batch.key) {
        done.learned.push(sent)?;
        return Ok(());
    }
    if !is_reached(runs, &sent.batch) {
        waiting.put(sent)?;
        return Ok(());
    }
    match fit_message(runs, alloc, &sent, steps) {
        Ok(_) => done.learned.push(sent)?,
        Err(NotAdmitted::Misfit(Misfit::Memory)) => return Err(AllocError),
        Err(cause) => done.aside.push(SetAside {
            message: sent,
            cause,
        })?,
    }
    Ok(())
}

/// What waited for a message that is learned is gone over, in key order.
fn settle<L>(
    runs: &mut Runs,
    waiting: &mut Waiting,
    alloc: Global,
    message: Message,
    steps: &mut Steps<L>,
) -> Result<Settled, OutOfMemory>
    requires new { IsNewTo (batches_of waiting.old) message }
    requires can { CanSettle runs.old (still_put_off message waiting.old)
        (freed message waiting.old) }
    ensures settled { IfOk result (λ done.
        record {
          known = runs.new;
          waiting = waiting.new;
          learned = done.learned.items;
          aside = done.aside.items;
        }
        ≡ settled (freed message waiting.old) (record {
          known = runs.old;
          waiting = still_put_off message waiting.old;
          learned = [];
          aside = [];
        })) }
    ensures can { OnOk result (CanSettle runs.new waiting.new []) }
{
    let freed = waiting.free(alloc, message)?;
    let mut done = Settled {
        learned: Vec::new(alloc),
        aside: Vec::new(alloc),
    };
    for sent in freed {
        settle_one(runs, waiting, &mut done, alloc, sent, steps)?;
    }
    Ok(done)
}

/// The message is learned; what waited for it is gone over. For want of memory nothing is said of what has arrived.
fn go_on<L>(
    runs: &mut Runs,
    waiting: &mut Waiting,
    alloc: Global,
    message: Message,
    steps: &mut Steps<L>,
) -> Result<Admission, OutOfMemory>
    requires new { IsNewTo (batches_of waiting.old) message }
    requires can { CanSettle runs.old (still_put_off message waiting.old)
        (freed message waiting.old) }
    ensures settled { IfOk result (λ admission.
        IsSettled admission (settled (freed message waiting.old)
        (record {
          known = runs.old;
          waiting = still_put_off message waiting.old;
          learned = [];
          aside = [];
        })) runs.new waiting.new) }
    ensures can { OnOk result (CanSettle runs.new waiting.new []) }
{
    let done = settle(runs, waiting, alloc, message, steps)?;
    let batches = Batches::new(batches_in(alloc, done.learned)?);
    Ok(Admission::Learned {
        batches,
        aside: done.aside,
    })
}

/// What comes of a message that nobody vouches for, and which has not arrived. For want of memory nothing changes, or,
/// where it is learned, nothing is said of what has arrived.
pub(crate) fn admit<L>(
    runs: &mut Runs,
    waiting: &mut Waiting,
    alloc: Global,
    may_wait: bool,
    message: Message,
    steps: &mut Steps<L>,
) -> Result<Admission, AdmitError>
    requires apart { ArePutOff runs.old waiting.old }
    requires small { AllByRecursion HasSmallIds (batches_of waiting.old) }
    requires message { IsMessage message }
    requires new { IsNewTo (with_messages waiting.old runs.old) message }
    requires ids { AllByRecursion HasSmallIds (both message) }
    ensures admitted { IfOk result (λ admission.
        IsTried may_wait message admission (beside runs.old waiting.old)
        (beside runs.new waiting.new)) }
    ensures apart { OnOk result (ArePutOff runs.new waiting.new) }
    ensures small { OnOk result (AllByRecursion HasSmallIds (batches_of waiting.new)) }
    ensures comes { OnOk result (ComesFrom runs.old runs.new) }
    ensures runs_kept { result ≡ Err OutOfIt → runs.new ≡ runs.old }
    ensures waiting_kept { result ≡ Err OutOfIt → waiting.new ≡ waiting.old }
{
    if !is_whole(&message.batch, message.second.as_ref()) {
        return Ok(Admission::Refused {
            cause: NotAdmitted::Misfit(Misfit::IllFormed),
        });
    }
    if !is_reached(runs, &message.batch) {
        if !may_wait {
            return Ok(Admission::Refused {
                cause: NotAdmitted::Full,
            });
        }
        let key = message.batch.key;
        waiting.put(message)?;
        let missing = waiting.missing(key);
        return Ok(Admission::PutOff { missing });
    }
    match fit_whole(runs, alloc, &message, steps) {
        Ok(_) => match go_on(runs, waiting, alloc, message, steps) {
            Ok(admission) => Ok(admission),
            Err(_) => Err(AdmitError::Spent),
        },
        Err(NotAdmitted::Misfit(Misfit::Memory)) => Err(AdmitError::Memory),
        Err(cause) => Ok(Admission::Refused { cause }),
    }
}
