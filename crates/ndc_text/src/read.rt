// From a text to its batch.
ghost use Rattle.std.specs.Prelude.{◌≡◌, None, Ok, IfOk, option_map, map};
ghost use Rattle.ndc_text.specs.Ranges.{InRange};
ghost use Rattle.ndc_text.specs.Text.{batch_text};
ghost use Rattle.ndc_text.specs.declared.form.TextForm.TheVariants.{One, Two};
ghost use Rattle.serde_json.specs.View.{view, items_view};
ghost use Rattle.ndc_event.specs.Batch.{fault_of};
ghost use Rattle.ndc_event.specs.Outcome.{Gives};
ghost use Rattle.ndc_event.specs.declared.batch.Batch.{Batch};
ghost use Rattle.ndc_text.specs.Read.{json_at, read_of};
ghost use Rattle.ndc_text.specs.Walk.{carrier_at, carrier_keys, events_at, parts_at, batch_in, batch_at};
ghost use Rattle.ndc_text.specs.Seen.{parts_view};
ghost use Rattle.ndc_text.specs.declared.error.TextError.TheVariants.{Memory};

use crate::error::TextError;
use crate::event::{event_at, key_from};
use crate::form::TextForm;
use crate::member::{
    id_in, items_at, name_in, nullable_at, number_at, optional_at, run_in, shaped, text_at,
    version_in,
};
use crate::print::print_batch;
use ndc_event::{Batch, BatchKey, Event, Events};
use serde_json::Value;
use std::alloc::Global;

/// The keys that each batch has.
const BATCH_KEYS: &[&str] = &[
    "domain", "events", "parent", "run", "task", "version", "workflow",
];

/// The members of a batch object, each of the right kind.
#[derive(Drop)]
struct Parts<'v> {
    carrier: Option<&'v Value>,
    domain: &'v str,
    events: &'v [Value],
    parent: Option<&'v Value>,
    run: &'v str,
    task: u64,
    version: u64,
    workflow: &'v str,
}

/// The JSON value that the bytes are.
fn json_at(alloc: Global, bytes: &[u8]) -> Result<Value, TextError>
    ensures { Gives Memory view result (json_at bytes.now) }
{
    match Value::from_slice(alloc, bytes) {
        Ok(value) => Ok(value),
        Err(error) => {
            if error.is_memory() {
                Err(TextError::Memory)
            } else {
                Err(TextError::NotJson)
            }
        }
    }
}

/// The key of the batch object that may be missing.
fn carrier_keys(form: TextForm) -> &'static [&'static str]
    ensures { map (λ k. k.now) result.now ≡ carrier_keys form }
{
    match form {
        TextForm::One => &[],
        TextForm::Two => &["carrier"],
    }
}

/// The carrier object.
fn carrier_at(form: TextForm, value: &Value) -> Result<Option<&Value>, TextError>
    ensures { Gives Memory (λ o. option_map (λ v. view v.now) o) result
        (carrier_at form (view value.now)) }
{
    match form {
        TextForm::One => Ok(None),
        TextForm::Two => optional_at(value, "carrier"),
    }
}

/// The tests of the batch object up to the kinds of its members.
#[tactic(auto, unfolding(crate::specs::Walk::parts_at))]
fn parts_at(form: TextForm, value: &Value) -> Result<Parts<'_>, TextError>
    ensures { Gives Memory parts_view result (parts_at form (view value.now)) }
{
    shaped(value, BATCH_KEYS, &[], carrier_keys(form))?;
    let carrier = carrier_at(form, value)?;
    let domain = text_at(value, "domain")?;
    let events = items_at(value, "events")?;
    let parent = nullable_at(value, "parent")?;
    let run = text_at(value, "run")?;
    let task = number_at(value, "task")?;
    let version = number_at(value, "version")?;
    let workflow = text_at(value, "workflow")?;
    Ok(Parts {
        carrier,
        domain,
        events,
        parent,
        run,
        task,
        version,
        workflow,
    })
}

/// The events, in order.
fn events_at(alloc: Global, values: &[Value]) -> Result<Events, TextError>
    ensures { Gives Memory (λ events. events) result (events_at (items_view values.now)) }
{
    let mut list = Vec::with_capacity(alloc, values.len())?;
    for value in values {
        list.push(event_at(alloc, value)?)?;
    }
    Ok(Events::shared(alloc, list)?)
}

/// The ranges of its members, and then the objects inside, in order.
#[tactic(auto, unfolding(crate::specs::Walk::batch_in))]
fn batch_in(alloc: Global, parts: Parts<'_>) -> Result<Batch, TextError>
    ensures { Gives Memory (λ batch. batch) result (batch_in (parts_view parts.entry)) }
{
    let domain = name_in(alloc, parts.domain)?;
    let run = run_in(parts.run)?;
    let task = id_in(parts.task)?;
    let version = version_in(parts.version)?;
    let workflow = name_in(alloc, parts.workflow)?;
    let carrier = key_from(parts.carrier)?;
    let parent = key_from(parts.parent)?;
    let events = events_at(alloc, parts.events)?;
    Ok(Batch {
        domain,
        workflow,
        run,
        key: BatchKey { version, task },
        parent,
        carrier,
        events,
    })
}

/// A batch.
fn batch_at(alloc: Global, form: TextForm, value: &Value) -> Result<Batch, TextError>
    ensures { Gives Memory (λ batch. batch) result (batch_at form (view value.now)) }
{
    let parts = parts_at(form, value)?;
    batch_in(alloc, parts)
}

/// The batch that a text of this form is.
#[tactic(auto, unfolding(crate::specs::Read::read_of))]
fn read_of(alloc: Global, form: TextForm, bytes: &[u8]) -> Result<Batch, TextError>
    ensures { Gives Memory (λ batch. batch) result (read_of form bytes.now) }
{
    let value = json_at(alloc, bytes)?;
    let batch = batch_at(alloc, form, &value)?;
    let printed = print_batch(alloc, &batch)?;
    if bytes != printed.as_slice() {
        return Err(TextError::NotCanonical);
    }
    match batch.check() {
        Ok(()) => Ok(batch),
        Err(fault) => Err(TextError::Check(fault)),
    }
}

/// Reads the text of a batch. It answers the batch exactly where the batch's numbers are in range, the bytes are
/// what [`print_batch`] writes of it, and it has no fault.
///
/// The refusals, the first on the walk over the text: it is not one JSON value, or nested deeper than 127
/// ([`TextError::NotJson`]); at the batch object, then its carrier object, its parent object and its events in
/// order, each followed by its origin, a key is missing ([`TextError::MissingKey`]), there is a key that does not
/// belong there ([`TextError::ExtraKey`]), an object or a member is of another kind ([`TextError::WrongKind`]) or
/// out of range ([`TextError::Range`]); the batch that was read prints otherwise ([`TextError::NotCanonical`]);
/// it has a fault ([`TextError::Check`]).
#[tactic(auto, using(crate::proofs::Exact::found, crate::proofs::Exact::text_again))]
pub fn read_batch(alloc: Global, bytes: &[u8]) -> Result<Batch, TextError>
    ensures gives { Gives Memory (λ batch. batch) result (read_of Two bytes.now) }
    ensures found { IfOk result (λ b.
        InRange b × (bytes.now ≡ batch_text b) × (fault_of b ≡ None)) }
    ensures only { (b : Batch) → InRange b → bytes.now ≡ batch_text b → fault_of b ≡ None
        → Gives Memory (λ batch. batch) result (Ok b) }
{
    read_of(alloc, TextForm::Two, bytes)
}

/// Reads the text of a batch in the form that knows no carriers. It answers and refuses as [`read_batch`] does,
/// but that a key `carrier` is one that does not belong there: a batch with a carrier has no text in this form.
#[tactic(auto, using(crate::proofs::Exact::found_bare, crate::proofs::Exact::bare_text_again))]
pub fn read_batch_1(alloc: Global, bytes: &[u8]) -> Result<Batch, TextError>
    ensures gives { Gives Memory (λ batch. batch) result (read_of One bytes.now) }
    ensures found { IfOk result (λ b. InRange b × (bytes.now ≡ batch_text b) × (fault_of b ≡ None)
        × (b.carrier ≡ None)) }
    ensures only { (b : Batch) → InRange b → bytes.now ≡ batch_text b → fault_of b ≡ None
        → b.carrier ≡ None → Gives Memory (λ batch. batch) result (Ok b) }
{
    read_of(alloc, TextForm::One, bytes)
}
