//! What has a text between nodes, and lists of such.
ghost use Rattle.std.specs.Prelude.{◌≡◌, ◌++◌, ◌∷◌, [], List, ℕ, Option, IfOk, OnOk, map, option_map, option_copied, length};
ghost use Rattle.ndc_event.specs.Outcome.{Gives};
ghost use Rattle.ndc_node_shapes.specs.Bytes.{further, further_at, with_commas, items_at, list_text, list_at, with_items};
ghost use Rattle.ndc_node_shapes.specs.Read.{read_of};
ghost use Rattle.ndc_node_shapes.specs.Shapes.{Shape, Value, list, nullable};
ghost use Rattle.ndc_node_shapes.specs.Text.{onto, text_of};
ghost use Rattle.ndc_node_shapes.specs.declared.fault.Fault.TheVariants.{Memory};

use crate::fault::{Cause, Fault};
use crate::piece::{after, expect};
use ndc_event::OutOfMemory;
use std::alloc::Global;

/// What has a text of a shape.
pub trait Framed: Drop {
    /// Its shape.
    ghost shape: { Shape };

    /// What it is as a value of the shape.
    ghost value: { Self → Value shape };

    /// Appends its text.
    fn push(&self, text: &mut Vec<u8>) -> Result<(), OutOfMemory>
        ensures { OnOk result (text.new.items ≡ onto shape text.old.items (value self.now)) };

    /// Takes it from the bytes that are left.
    fn take(alloc: Global, left: &[u8]) -> Result<(Self, &[u8]), Fault>
        ensures { Gives Memory (λ taken. (value taken.0, taken.1.now)) result
            (read_of shape left.now) };
}

/// Appends the text of a value.
#[tactic(auto, using(crate::proofs::Onto::at_the_end))]
pub fn push_one<T: Framed>(text: &mut Vec<u8>, one: &T) -> Result<(), OutOfMemory>
    ensures { OnOk result (text.new.items ≡ text.old.items ++ text_of T.shape (T.value one.now)) }
{
    one.push(text)
}

/// The text of a value.
pub fn print<T: Framed>(alloc: Global, one: &T) -> Result<Vec<u8>, OutOfMemory>
    ensures { IfOk result (λ text. text.items ≡ text_of T.shape (T.value one.now)) }
{
    let mut text = Vec::new(alloc);
    push_one(&mut text, one)?;
    Ok(text)
}

/// Appends the texts of items, each after a comma.
fn push_further<T: Framed>(text: &mut Vec<u8>, items: &[T]) -> Result<(), OutOfMemory>
    ensures { OnOk result (text.new.items
        ≡ text.old.items ++ further (text_of T.shape) (map T.value items.now)) }
{
    for item in items {
        text.push(b',')?;
        push_one(text, item)?;
    }
    Ok(())
}

/// Appends the texts of items with commas between them.
fn push_items<T: Framed>(text: &mut Vec<u8>, items: &[T]) -> Result<(), OutOfMemory>
    ensures { OnOk result (text.new.items
        ≡ text.old.items ++ with_commas (text_of T.shape) (map T.value items.now)) }
{
    match items {
        [] => Ok(()),
        [first, later @ ..] => {
            push_one(text, first)?;
            push_further(text, later)
        }
    }
}

/// Appends the text of a list of items.
pub fn push_list<T: Framed>(text: &mut Vec<u8>, items: &[T]) -> Result<(), OutOfMemory>
    ensures { OnOk result (text.new.items
        ≡ text.old.items ++ text_of (list T.shape) (map T.value items.now)) }
{
    text.push(b'[')?;
    push_items(text, items)?;
    text.push(b']')?;
    Ok(())
}

/// Takes further items after the first one, up to the closing bracket.
fn take_further<T: Framed>(alloc: Global, first: T, left: &[u8]) -> Result<(Vec<T>, &[u8]), Fault>
    ensures { Gives Memory (λ taken. (map T.value taken.0.items, taken.1.now)) result
        (with_items (T.value first ∷ [])
        (further_at (read_of T.shape) (length left.now) left.now)) }
{
    let mut items = Vec::new(alloc);
    items.push(first)?;
    let mut rest = left;
    for _ in 0..left.len() {
        match after(rest, b"]") {
            Some(end) => return Ok((items, end)),
            None => {}
        }
        let next = expect(rest, b",")?;
        let (item, later) = T::take(alloc, next)?;
        items.push(item)?;
        rest = later;
    }
    Err(Fault::At {
        cause: Cause::Unexpected,
        left: rest.len(),
    })
}

/// Takes items up to the closing bracket.
fn take_items<T: Framed>(alloc: Global, left: &[u8]) -> Result<(Vec<T>, &[u8]), Fault>
    ensures { Gives Memory (λ taken. (map T.value taken.0.items, taken.1.now)) result
        (items_at (read_of T.shape) left.now) }
{
    match after(left, b"]") {
        Some(rest) => Ok((Vec::new(alloc), rest)),
        None => {
            let (first, rest) = T::take(alloc, left)?;
            take_further(alloc, first, rest)
        }
    }
}

/// Takes a list of items.
pub fn take_list<T: Framed>(alloc: Global, left: &[u8]) -> Result<(Vec<T>, &[u8]), Fault>
    ensures { Gives Memory (λ taken. (map T.value taken.0.items, taken.1.now)) result
        (read_of (list T.shape) left.now) }
{
    let left = expect(left, b"[")?;
    take_items(alloc, left)
}

/// Appends `null`, or the text of what is there.
pub fn push_nullable<T: Framed>(text: &mut Vec<u8>, one: Option<&T>) -> Result<(), OutOfMemory>
    ensures { OnOk result (text.new.items
        ≡ text.old.items ++ text_of (nullable T.shape) (option_map T.value
        (option_copied one.entry))) }
{
    match one {
        Some(one) => push_one(text, one),
        None => text.extend_from_slice(b"null"),
    }
}

/// Takes `null`, or what is there.
pub fn take_nullable<T: Framed>(alloc: Global, left: &[u8]) -> Result<(Option<T>, &[u8]), Fault>
    ensures { Gives Memory (λ taken. (option_map T.value taken.0, taken.1.now)) result
        (read_of (nullable T.shape) left.now) }
{
    match after(left, b"null") {
        Some(rest) => Ok((None, rest)),
        None => {
            let (one, rest) = T::take(alloc, left)?;
            Ok((Some(one), rest))
        }
    }
}
