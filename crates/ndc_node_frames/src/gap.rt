use crate::piece::{MAX_LEVEL, take_items, take_small};
use ndc_event::{BatchKey, Items, Name, OutOfMemory, RunId};
use ndc_history::Item;
use ndc_node_shapes::framed::{push_list, push_nullable, take_nullable};
use ndc_node_shapes::piece::{
    MAX_VERSION, push_end, push_first, push_next, push_number, push_run, take_end, take_first,
    take_name, take_next, take_number, take_run,
};
use ndc_node_shapes::{Fault, Framed, Text};
use ndc_resend::{Gap, GapOf};
use std::alloc::Global;

/// One end of a gap.
#[derive(Clone, Copy, Debug)]
struct End {
    item: Item,
}

/// The gap before a batch that is put off, which its reader asks for.
#[derive(Drop)]
pub struct AskedGap {
    /// The batch, what lies between what is learned of its run and its first event, and the key of its nearest ancestor
    /// that has not arrived. The ids of the ends are 0 to 10^12.
    pub gap: GapOf,
}

impl Framed for End {
    ghost use Rattle.ndc_node_frames.specs.Parts.{end_shape, end_value};

    ghost shape = { end_shape };

    ghost value = { end_value };

    fn push(&self, text: &mut Vec<u8>) -> Result<(), OutOfMemory> {
        push_first(text, "id")?;
        push_number(text, self.item.id)?;
        push_next(text, "version")?;
        push_number(text, self.item.version)?;
        push_end(text)
    }

    fn take(_alloc: Global, left: &[u8]) -> Result<(End, &[u8]), Fault> {
        let left = take_first(left, "id")?;
        let (id, left) = take_number(left, 0, MAX_LEVEL)?;
        let left = take_next(left, "version")?;
        let (version, left) = take_number(left, 0, MAX_VERSION)?;
        let left = take_end(left)?;
        let item = Item { id, version };
        Ok((End { item }, left))
    }
}

impl Framed for AskedGap {
    ghost use Rattle.ndc_node_frames.specs.Parts.{gap_shape, gap_value};

    ghost shape = { gap_shape };

    ghost value = { gap_value };

    fn push(&self, text: &mut Vec<u8>) -> Result<(), OutOfMemory> {
        let gap = self.gap.gap;
        push_first(text, "after")?;
        End { item: gap.after }.push(text)?;
        push_next(text, "before")?;
        End { item: gap.before }.push(text)?;
        push_next(text, "domain")?;
        self.gap.domain.push(text)?;
        push_next(text, "key")?;
        self.gap.key.push(text)?;
        push_next(text, "missing")?;
        self.gap.missing.push(text)?;
        push_next(text, "run")?;
        push_run(text, self.gap.run)?;
        push_next(text, "workflow")?;
        self.gap.workflow.push(text)?;
        push_end(text)
    }

    fn take(alloc: Global, left: &[u8]) -> Result<(AskedGap, &[u8]), Fault> {
        let left = take_first(left, "after")?;
        let (after, left) = End::take(alloc, left)?;
        let left = take_next(left, "before")?;
        let (before, left) = End::take(alloc, left)?;
        let left = take_next(left, "domain")?;
        let (domain, left) = take_name(alloc, left)?;
        let left = take_next(left, "key")?;
        let (key, left) = BatchKey::take(alloc, left)?;
        let left = take_next(left, "missing")?;
        let (missing, left) = BatchKey::take(alloc, left)?;
        let left = take_next(left, "run")?;
        let (run, left) = take_run(alloc, left)?;
        let left = take_next(left, "workflow")?;
        let (workflow, left) = take_name(alloc, left)?;
        let left = take_end(left)?;
        let gap = Gap {
            after: after.item,
            before: before.item,
        };
        let gap = GapOf {
            domain,
            workflow,
            run,
            key,
            gap,
            missing,
        };
        Ok((AskedGap { gap }, left))
    }
}
