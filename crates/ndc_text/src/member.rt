// The tests of an object of JSON: its keys as a whole, and the kind and range of one member.
ghost use Rattle.std.specs.Prelude.{◌≡◌, ◌||◌, map, is_some, option_and_then, option_map};
ghost use Rattle.serde_json.specs.Find.{get, as_str, as_object};
ghost use Rattle.serde_json.specs.View.{view, items_view, members_view};
ghost use Rattle.ndc_event.specs.Outcome.{Gives};
ghost use Rattle.ndc_text.specs.Walk.{has_all, is_among, all_keys, keys_pass, shaped, number_at, text_at, items_at, object_in, nullable_at, optional_at, have_texts, texts_at, id_in, version_in, name_in, run_in, run_at, name_at, run_text_at};
ghost use Rattle.ndc_text.specs.declared.error.TextError.TheVariants.{Memory};

use crate::error::TextError;
use ndc_event::{Name, NameError, RunId};
use serde_json::{Map, Value};
use std::alloc::Global;
use uuid::Uuid;

/// The greatest event id and task.
const MAX_ID: u64 = 1_000_000_000_000;
/// The greatest version.
const MAX_VERSION: u64 = 10_000_000_000_000;

/// Whether something stands at the key.
fn has_key(value: &Value, key: &str) -> bool
    ensures { result ≡ is_some (get key.now (view value.now)) }
{
    value.get(key).is_some()
}

/// Whether the object has each of these keys.
fn has_all(value: &Value, keys: &[&str]) -> bool
    ensures { result ≡ has_all (map (λ k. k.now) keys.now) (view value.now) }
{
    keys.iter().all(|key| has_key(value, *key))
}

/// Whether the key is one of these.
fn is_among(keys: &[&str], key: &str) -> bool
    ensures { result ≡ is_among (map (λ k. k.now) keys.now) key.now }
{
    keys.iter().any(|listed| *listed == key)
}

/// Whether the key is in one of the lists.
fn is_listed(own: &[&str], more: &[&str], optional: &[&str], key: &str) -> bool
    ensures { result ≡ (is_among (map (λ k. k.now) own.now) key.now
        || is_among (map (λ k. k.now) more.now) key.now
        || is_among (map (λ k. k.now) optional.now) key.now) }
{
    is_among(own, key) || is_among(more, key) || is_among(optional, key)
}

/// Whether an object has the keys of the three lists alone.
fn has_only(members: &Map<String, Value>, own: &[&str], more: &[&str], optional: &[&str]) -> bool
    ensures { result ≡ all_keys (λ key. is_among (map (λ k. k.now) own.now) key
        || is_among (map (λ k. k.now) more.now) key
        || is_among (map (λ k. k.now) optional.now) key) (members_view members.now.entries) }
{
    members
        .keys()
        .all(|key| is_listed(own, more, optional, key.as_str()))
}

/// Tests an object as a whole: it has the keys of the first two lists, and none that is in none of the three.
#[tactic(auto, unfolding(crate::specs::Walk::shaped))]
pub fn shaped(
    value: &Value,
    own: &[&str],
    more: &[&str],
    optional: &[&str],
) -> Result<(), TextError>
    ensures { result ≡ shaped (map (λ k. k.now) own.now) (map (λ k. k.now) more.now)
        (map (λ k. k.now) optional.now) (view value.now) }
{
    let Some(members) = value.as_object() else {
        return Err(TextError::WrongKind);
    };
    if !(has_all(value, own) && has_all(value, more)) {
        return Err(TextError::MissingKey);
    }
    if !has_only(members, own, more, optional) {
        return Err(TextError::ExtraKey);
    }
    Ok(())
}

/// The whole number from 0 to 2^64 - 1 that stands at the key.
pub fn number_at(value: &Value, key: &str) -> Result<u64, TextError>
    ensures { result ≡ number_at key.now (view value.now) }
{
    match value.get(key).and_then(Value::as_u64) {
        Some(n) => Ok(n),
        None => Err(TextError::WrongKind),
    }
}

/// The text at the key.
pub fn text_at<'v>(value: &'v Value, key: &str) -> Result<&'v str, TextError>
    ensures { Gives Memory (λ t. t.now) result (text_at key.now (view value.now)) }
{
    match value.get(key).and_then(Value::as_str) {
        Some(text) => Ok(text),
        None => Err(TextError::WrongKind),
    }
}

/// The items of the array at the key.
pub fn items_at<'v>(value: &'v Value, key: &str) -> Result<&'v [Value], TextError>
    ensures { Gives Memory (λ items. items_view items.now) result
        (items_at key.now (view value.now)) }
{
    match value.get(key).and_then(Value::as_array) {
        Some(items) => Ok(items.as_slice()),
        None => Err(TextError::WrongKind),
    }
}

/// The value, where it is an object.
pub fn object_in(value: &Value) -> Result<&Value, TextError>
    ensures { Gives Memory (λ v. view v.now) result (object_in (view value.now)) }
{
    match value {
        Value::Object(_) => Ok(value),
        _ => Err(TextError::WrongKind),
    }
}

/// The object at the key, or None where null stands there.
pub fn nullable_at<'v>(value: &'v Value, key: &str) -> Result<Option<&'v Value>, TextError>
    ensures { Gives Memory (λ o. option_map (λ v. view v.now) o) result
        (nullable_at key.now (view value.now)) }
{
    match value.get(key) {
        Some(Value::Null) => Ok(None),
        Some(member) => Ok(Some(object_in(member)?)),
        None => Err(TextError::WrongKind),
    }
}

/// The object at the key, or None where the key is missing.
pub fn optional_at<'v>(value: &'v Value, key: &str) -> Result<Option<&'v Value>, TextError>
    ensures { Gives Memory (λ o. option_map (λ v. view v.now) o) result
        (optional_at key.now (view value.now)) }
{
    match value.get(key) {
        Some(member) => Ok(Some(object_in(member)?)),
        None => Ok(None),
    }
}

/// Whether a text stands at the key.
fn has_text(value: &Value, key: &str) -> bool
    ensures { result ≡ is_some (option_and_then as_str (get key.now (view value.now))) }
{
    value.get(key).and_then(Value::as_str).is_some()
}

/// Whether each of the keys has a text.
fn have_texts(value: &Value, keys: &[&str]) -> bool
    ensures { result ≡ have_texts (map (λ k. k.now) keys.now) (view value.now) }
{
    keys.iter().all(|key| has_text(value, *key))
}

/// Tests that each of the keys has a text.
pub fn texts_at(value: &Value, keys: &[&str]) -> Result<(), TextError>
    ensures { result ≡ texts_at (map (λ k. k.now) keys.now) (view value.now) }
{
    if have_texts(value, keys) {
        Ok(())
    } else {
        Err(TextError::WrongKind)
    }
}

/// The number, where it is in the range of event ids and tasks.
pub fn id_in(n: u64) -> Result<u64, TextError>
    ensures { result ≡ id_in n }
{
    if 1 <= n && n <= MAX_ID {
        Ok(n)
    } else {
        Err(TextError::Range)
    }
}

/// The number, where it is in the range of versions.
pub fn version_in(n: u64) -> Result<u64, TextError>
    ensures { result ≡ version_in n }
{
    if n <= MAX_VERSION {
        Ok(n)
    } else {
        Err(TextError::Range)
    }
}

/// The name that the text is.
#[tactic(auto, using(crate::proofs::Names::name_is))]
pub fn name_in(alloc: Global, text: &str) -> Result<Name, TextError>
    ensures { Gives Memory (λ name. name) result (name_in text.now) }
{
    match Name::new(alloc, text.as_bytes()) {
        Ok(name) => Ok(name),
        Err(NameError::Memory) => Err(TextError::Memory),
        Err(_) => Err(TextError::Range),
    }
}

/// The run of this number.
fn run_at(value: u128) -> Result<RunId, TextError>
    ensures { result ≡ run_at value }
{
    let (high, low) = (value / (1 << 64), value % (1 << 64));
    if high <= u128::from(MAX_VERSION) && 1 <= low && low <= u128::from(MAX_ID) {
        Ok(RunId { value })
    } else {
        Err(TextError::Range)
    }
}

/// The run that the text is.
pub fn run_in(text: &str) -> Result<RunId, TextError>
    ensures { result ≡ run_in text.now }
{
    match Uuid::parse_str(text) {
        Ok(id) => run_at(id.as_u128()),
        Err(_) => Err(TextError::Range),
    }
}

/// The name at the key.
pub fn name_at(alloc: Global, value: &Value, key: &str) -> Result<Name, TextError>
    ensures { Gives Memory (λ name. name) result (name_at key.now (view value.now)) }
{
    let text = text_at(value, key)?;
    name_in(alloc, text)
}

/// The run at the key.
pub fn run_text_at(value: &Value, key: &str) -> Result<RunId, TextError>
    ensures { Gives Memory (λ run. run) result (run_text_at key.now (view value.now)) }
{
    let text = text_at(value, key)?;
    run_in(text)
}
