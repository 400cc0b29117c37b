ghost use Rattle.std.specs.Prelude.{◌≡◌, drop, IfOk};

use crate::cell::Cell;
use ndc_event::OutOfMemory;
use ndc_model_cells::Message;
use std::alloc::Global;

/// What a cell has written from a place on, counted from 0 in the order of writing.
#[derive(Drop)]
pub struct Fresh {
    /// The place of the first of them.
    pub from: u64,
    /// The messages, in the order of writing.
    pub messages: Vec<Message>,
}

/// All that a cell has written from a place on.
pub(crate) fn fresh_from<C: Cell>(alloc: Global, cell: &C, from: u64) -> Result<Fresh, OutOfMemory>
    ensures { IfOk result (λ fresh.
        (fresh.from ≡ from) × (fresh.messages.items ≡ drop from (C.cell cell.now).written)) }
{
    let len = cell.written_len();
    let mut messages = Vec::with_capacity(alloc, len.saturating_sub(from) as usize)?;
    for place in from..len {
        let message = cell.written_at(place)?;
        messages.push(message)?;
    }
    Ok(Fresh { from, messages })
}
