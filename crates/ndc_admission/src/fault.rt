// The first cause why a message is not one that cells send.
ghost use Rattle.std.specs.Prelude.{◌≡◌, not};
ghost use Rattle.std.specs.Option.{option_copied};
ghost use Rattle.ndc_event.specs.Key.{key_eq};
ghost use Rattle.ndc_admission.specs.Faults.{continues, first_fault, fits, is_carried_by, second_fault, second_is};
ghost use Rattle.ndc_model_cells.specs.Places.{is_of};
ghost use Rattle.ndc_model_cells.specs.Writing.{goes_on, key_behind};

use crate::ranges::is_in_range;
use ndc_domain::Clusters;
use ndc_event::{Batch, BatchFault, BatchKey, Event, EventKind};
use ndc_model_cells::Message;
use ndc_model_sets::is_key;
use thiserror::Error;

/// The greatest task that a message may have: so the set of a workflow keeps its room.
pub const MAX_TASK: u64 = 100_000_000_000;

/// Why a message is not one that cells of these clusters send: the first that holds, in this order. Its *second* is the
/// batch that it brings beside its own.
#[derive(Clone, Copy, Debug, PartialEq, Eq, Error)]
pub enum MessageFault {
    /// The batch has this fault, the first that [`Batch::check`] tells.
    #[error("the batch is none: {0}")]
    Faulty(BatchFault),
    /// The second has this fault, the first that [`Batch::check`] tells.
    #[error("the second batch is none: {0}")]
    SecondFaulty(BatchFault),
    /// A number of the batch is out of the ranges of [`is_in_range`], or its task is above [`MAX_TASK`].
    #[error("a number of the batch is out of range")]
    OutOfRange,
    /// A number of the second is out of these ranges, or its task is above [`MAX_TASK`].
    #[error("a number of the second batch is out of range")]
    SecondOutOfRange,
    /// Another batch carries the batch: it comes with that one's message, and never alone.
    #[error("another batch carries it")]
    Carried,
    /// The batch goes on as another run, and there is no second, which is to begin that run.
    #[error("it goes on as another run, whose first batch is not there")]
    LacksSecond,
    /// There is a second, and the batch does not go on as another run.
    #[error("there is a second batch, and it goes on as no other run")]
    ExtraSecond,
    /// The second is of another domain or of another workflow.
    #[error("the second batch is of another workflow")]
    Foreign,
    /// The second is not the one that the batch carries: it has another key than the next one, a parent, or not the
    /// batch as its carrier.
    #[error("the second batch is not the one that the batch carries")]
    NotCarried,
    /// No cluster writes with the batch's version.
    #[error("no cluster writes with its version")]
    NoWriter,
}

/// Why the message is not one that cells of these clusters send: the first cause that holds, in the order of
/// [`MessageFault`]. None exactly where it is well-made (`IsWellMade`): the law
/// [`crate::a_faultless_message_is_well_made`]. It takes no memory. It goes over
/// the events of each batch three times, two of which are [`Batch::check`].
#[tactic(auto, unfolding(crate::specs::Faults::first_fault))]
pub fn first_fault(message: &Message, clusters: &Clusters) -> Option<MessageFault>
    ensures { result ≡ first_fault message.now clusters.now }
{
    let batch = &message.batch;
    let second = message.second.as_ref();
    if let Err(fault) = batch.check() {
        return Some(MessageFault::Faulty(fault));
    }
    if let Some(fault) = second_fault(second) {
        return Some(MessageFault::SecondFaulty(fault));
    }
    if !fits(batch) {
        return Some(MessageFault::OutOfRange);
    }
    if is_second_unfit(second) {
        return Some(MessageFault::SecondOutOfRange);
    }
    if batch.carrier.is_some() {
        return Some(MessageFault::Carried);
    }
    if goes_on(batch) && second.is_none() {
        return Some(MessageFault::LacksSecond);
    }
    if !goes_on(batch) && second.is_some() {
        return Some(MessageFault::ExtraSecond);
    }
    if is_second_foreign(batch, second) {
        return Some(MessageFault::Foreign);
    }
    if is_second_another(batch, second) {
        return Some(MessageFault::NotCarried);
    }
    if clusters.writer_of(batch.key.version).is_none() {
        return Some(MessageFault::NoWriter);
    }
    None
}

/// The fault of the second batch, where there is one.
fn second_fault(second: Option<&Batch>) -> Option<BatchFault>
    ensures { result ≡ second_fault (option_copied second.entry) }
{
    match second {
        None => None,
        Some(second) => second.check().err(),
    }
}

/// Whether a batch's numbers are in range, and its task is one that a message may have.
fn fits(batch: &Batch) -> bool
    ensures { result ≡ fits batch.now }
{
    is_in_range(batch) && batch.key.task <= MAX_TASK
}

/// Whether there is a second whose numbers do not fit.
fn is_second_unfit(second: Option<&Batch>) -> bool
    ensures { result ≡ second_is (λ b. not (fits b)) (option_copied second.entry) }
{
    match second {
        None => false,
        Some(second) => !fits(second),
    }
}

/// Whether there is a second of another domain or workflow.
fn is_second_foreign(batch: &Batch, second: Option<&Batch>) -> bool
    ensures { result
        ≡ second_is (λ b. not (is_of batch.now.domain batch.now.workflow b)) (option_copied
        second.entry) }
{
    match second {
        None => false,
        Some(second) => !(second.domain == batch.domain && second.workflow == batch.workflow),
    }
}

/// Whether there is a second, and it is not the one that the batch carries.
fn is_second_another(batch: &Batch, second: Option<&Batch>) -> bool
    ensures { result
        ≡ second_is (λ b. not (is_carried_by batch.now b)) (option_copied second.entry) }
{
    match second {
        None => false,
        Some(second) => !is_carried_by(batch, second),
    }
}

/// Whether the second is the batch that the other carries: it begins a run, has the next key, and names the other as its
/// carrier.
fn is_carried_by(batch: &Batch, second: &Batch) -> bool
    ensures { result ≡ is_carried_by batch.now second.now }
{
    is_next(batch.key, second.key) && second.parent.is_none() && is_key(batch.key, second.carrier)
}

/// Whether the second key is the next one after the first.
fn is_next(key: BatchKey, next: BatchKey) -> bool
    ensures { result ≡ key_eq next (key_behind key) }
{
    next.version == key.version && next.task.checked_sub(1) == Some(key.task)
}

/// Whether the batch ends by going on as another run.
fn goes_on(batch: &Batch) -> bool
    ensures { result ≡ goes_on batch.now }
{
    match batch.events.as_slice().last() {
        None => false,
        Some(event) => continues(event),
    }
}

/// Whether the event goes on as another run.
fn continues(event: &Event) -> bool
    ensures { result ≡ continues event.now.kind }
{
    matches!(
        event.kind,
        EventKind::WorkflowExecutionContinuedAsNew { .. }
    )
}
