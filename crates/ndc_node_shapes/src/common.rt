// Types of events that have a text of their own.
ghost use Rattle.std.specs.Prelude.{codes};
ghost use Rattle.ndc_node_shapes.specs.Common.{key_shape};
ghost use Rattle.ndc_node_shapes.specs.Shapes.{name, text, run};

use crate::fault::Fault;
use crate::framed::Framed;
use crate::piece::{
    MAX_ID, MAX_VERSION, push_end, push_first, push_next, push_number, push_quoted, push_run,
    take_end, take_first, take_name, take_next, take_number, take_run, take_text,
};
use ndc_event::{BatchKey, Items, Name, OutOfMemory, RunId};
use ndc_history::Item;
use std::alloc::Global;

/// A text of bytes from space to `~`.
pub type Text = Items<u8>;

impl Framed for Name {
    ghost use Rattle.ndc_node_shapes.specs.Shapes.{name};

    ghost shape = { name };

    ghost value = { λ one. one };

    fn push(&self, text: &mut Vec<u8>) -> Result<(), OutOfMemory> {
        push_quoted(text, self.as_bytes())
    }

    fn take(alloc: Global, left: &[u8]) -> Result<(Name, &[u8]), Fault> {
        take_name(alloc, left)
    }
}

impl Framed for Text {
    ghost use Rattle.ndc_node_shapes.specs.Shapes.{text};

    ghost shape = { text };

    ghost value = { λ one. one };

    fn push(&self, text: &mut Vec<u8>) -> Result<(), OutOfMemory> {
        push_quoted(text, self.as_slice())
    }

    fn take(alloc: Global, left: &[u8]) -> Result<(Text, &[u8]), Fault> {
        let (bytes, left) = take_text(alloc, left)?;
        Ok((Items::new(bytes), left))
    }
}

impl Framed for BatchKey {
    ghost use Rattle.ndc_node_shapes.specs.Common.{key_shape, key_value};

    ghost shape = { key_shape };

    ghost value = { key_value };

    fn push(&self, text: &mut Vec<u8>) -> Result<(), OutOfMemory> {
        push_first(text, "task")?;
        push_number(text, self.task)?;
        push_next(text, "version")?;
        push_number(text, self.version)?;
        push_end(text)
    }

    fn take(_alloc: Global, left: &[u8]) -> Result<(BatchKey, &[u8]), Fault> {
        let left = take_first(left, "task")?;
        let (task, left) = take_number(left, 1, MAX_ID)?;
        let left = take_next(left, "version")?;
        let (version, left) = take_number(left, 0, MAX_VERSION)?;
        let left = take_end(left)?;
        Ok((BatchKey { version, task }, left))
    }
}

impl Framed for Item {
    ghost use Rattle.ndc_node_shapes.specs.Common.{item_shape, item_value};

    ghost shape = { item_shape };

    ghost value = { item_value };

    fn push(&self, text: &mut Vec<u8>) -> Result<(), OutOfMemory> {
        push_first(text, "id")?;
        push_number(text, self.id)?;
        push_next(text, "version")?;
        push_number(text, self.version)?;
        push_end(text)
    }

    fn take(_alloc: Global, left: &[u8]) -> Result<(Item, &[u8]), Fault> {
        let left = take_first(left, "id")?;
        let (id, left) = take_number(left, 1, MAX_ID)?;
        let left = take_next(left, "version")?;
        let (version, left) = take_number(left, 0, MAX_VERSION)?;
        let left = take_end(left)?;
        Ok((Item { id, version }, left))
    }
}
