//! Blocks of a picture: batches in a row, between two forks, that are drawn as one box.
ghost use Rattle.std.specs.Prelude.{◌≡◌, ◌++◌, ◌≤◌, [], None, map, IfOk, OnOk};
ghost use Rattle.std.specs.List.{cons_option};
ghost use Rattle.ndc_explain_picture.specs.Blocks.{blocks_of, copied_by, copies_in, copies_of, events_of, events_told, forks, goes_on, is_behind, is_parent, kinds_in, kinds_of, kinds_told, last_key, summary_of, told_count, with_block, with_fork, with_forks};

use ndc_dump_causes::keys::KeySet;
use ndc_event::{Batch, BatchKey, Event, EventKind, Origin, OutOfMemory};
use ndc_explain::Summary;
use ndc_explain::standing::insert;
use std::alloc::Global;
use std::marker::Model;
use std::mem;

/// Whether the key is this parent, where there is one.
fn is_parent(parent: Option<BatchKey>, key: BatchKey) -> bool
    ensures { result ≡ is_parent parent key }
{
    match parent {
        None => false,
        Some(parent) => parent == key,
    }
}

/// Whether the parent is the batch before, where there is one.
fn is_behind(parent: Option<BatchKey>, before: Option<BatchKey>) -> bool
    ensures { result ≡ is_behind parent before }
{
    match before {
        None => false,
        Some(before) => is_parent(parent, before),
    }
}

/// Lists the parent, where it is not the batch before.
fn insert_fork(
    keys: &mut KeySet,
    parent: Option<BatchKey>,
    before: Option<BatchKey>,
) -> Result<(), OutOfMemory>
    ensures { OnOk result (keys.new ≡ with_fork parent before keys.old) }
{
    if is_behind(parent, before) {
        Ok(())
    } else {
        insert(keys, parent)
    }
}

/// The parents of batches that do not come directly after them.
fn forks(alloc: Global, batches: &[Batch]) -> Result<KeySet, OutOfMemory>
    ensures { IfOk result (λ keys. keys ≡ forks batches.now) }
{
    let mut keys = KeySet::new(alloc);
    let mut before = None;
    for batch in batches {
        insert_fork(&mut keys, batch.parent, before)?;
        before = Some(batch.key);
    }
    Ok(keys)
}

/// Whether a batch goes on in the block of the one before: it is its only child, and of its version.
fn goes_on(keys: &KeySet, before: Option<BatchKey>, batch: &Batch) -> bool
    ensures { result ≡ goes_on keys.now before batch.now }
{
    match before {
        None => false,
        Some(before) => {
            is_parent(batch.parent, before)
                && before.version == batch.key.version
                && !keys.contains(before)
        }
    }
}

/// Batches in a row that are drawn as one box.
#[derive(Drop)]
pub(crate) struct Block<'v> {
    batches: Vec<&'v Batch>,
}

impl<'v> Model for Block<'v> {
    ghost use Rattle.std.specs.Prelude.{List, map};
    ghost use Rattle.ndc_event.specs.declared.batch.Batch.{Batch};

    ghost Value = { List Batch };

    ghost view = { λ block. map (λ b. b.now) block.batches.items };
}

impl<'v> Block<'v> {
    ghost use Rattle.std.specs.Prelude.{◌≡◌, ◌++◌, ◌∷◌, [], length, map, OnOk};

    /// No batch.
    fn new(alloc: Global) -> Block<'v>
        ensures { result ≡ [] }
    {
        Block {
            batches: Vec::new(alloc),
        }
    }

    /// The batches, to be read.
    pub(crate) fn as_slice(&self) -> &[&'v Batch]
        ensures { map (λ b. b.now) result.now ≡ self.now }
    {
        self.batches.as_slice()
    }

    /// The batch goes last.
    fn push(&mut self, batch: &'v Batch) -> Result<(), OutOfMemory>
        ensures { OnOk result (self.new ≡ self.old ++ batch.now ∷ []) }
    {
        self.batches.push(batch)?;
        Ok(())
    }
}

/// Appends a block, unless it is empty.
fn push_block<'v>(done: &mut Vec<Block<'v>>, block: Block<'v>) -> Result<(), OutOfMemory>
    ensures { OnOk result (done.new.items ≡ with_block block.entry done.old.items) }
{
    match block.as_slice() {
        [] => Ok(()),
        [..] => {
            done.push(block)?;
            Ok(())
        }
    }
}

/// Blocks that are done, the one that may go on, and its last key.
#[derive(Drop)]
struct Blocks<'v> {
    done: Vec<Block<'v>>,
    block: Block<'v>,
    before: Option<BatchKey>,
}

impl<'v> Model for Blocks<'v> {
    ghost use Rattle.ndc_explain_picture.specs.Blocks.{Blocked};

    ghost Value = { Blocked };

    ghost view = { λ blocks. record { done = blocks.done.items; block = blocks.block; before = blocks.before } };
}

impl<'v> Blocks<'v> {
    ghost use Rattle.std.specs.Prelude.{◌≡◌, OnOk};
    ghost use Rattle.ndc_explain_picture.specs.Blocks.{ended, no_block, with_batch, with_batches, with_last};

    /// No batch was gone over.
    fn new(alloc: Global) -> Blocks<'v>
        ensures { result ≡ no_block }
    {
        Blocks {
            done: Vec::new(alloc),
            block: Block::new(alloc),
            before: None,
        }
    }

    /// The block ends.
    fn end(&mut self, alloc: Global) -> Result<(), OutOfMemory>
        ensures { OnOk result (self.new ≡ ended self.old) }
    {
        let block = mem::replace(&mut self.block, Block::new(alloc));
        push_block(&mut self.done, block)
    }

    /// The batch goes last in the block.
    fn push(&mut self, batch: &'v Batch) -> Result<(), OutOfMemory>
        ensures { OnOk result (self.new ≡ with_last batch.now self.old) }
    {
        self.block.push(batch)?;
        self.before = Some(batch.key);
        Ok(())
    }

    /// The batch goes on in the block, or begins the next one.
    fn add(&mut self, alloc: Global, keys: &KeySet, batch: &'v Batch) -> Result<(), OutOfMemory>
        ensures { OnOk result (self.new ≡ with_batch keys.now batch.now self.old) }
    {
        if !goes_on(keys, self.before, batch) {
            self.end(alloc)?;
        }
        self.push(batch)
    }

    /// Each of the batches goes on in its block.
    fn add_all(
        &mut self,
        alloc: Global,
        keys: &KeySet,
        batches: &'v [Batch],
    ) -> Result<(), OutOfMemory>
        ensures { OnOk result (self.new ≡ with_batches keys.now batches.now self.old) }
    {
        for batch in batches {
            self.add(alloc, keys, batch)?;
        }
        Ok(())
    }
}

/// The blocks of batches.
pub(crate) fn blocks_of<'v>(
    alloc: Global,
    batches: &'v [Batch],
) -> Result<Vec<Block<'v>>, OutOfMemory>
    ensures { IfOk result (λ blocks. blocks.items ≡ blocks_of batches.now) }
{
    let keys = forks(alloc, batches)?;
    let mut blocks = Blocks::new(alloc);
    blocks.add_all(alloc, &keys, batches)?;
    blocks.end(alloc)?;
    Ok(blocks.done)
}

/// Appends the names of the kinds of events.
fn push_kinds(kinds: &mut Vec<&'static str>, events: &[Event]) -> Result<(), OutOfMemory>
    ensures { OnOk result (map (λ kind. kind.now) kinds.new.items ≡ map (λ kind. kind.now) kinds.old.items ++ kinds_in events.now) }
{
    for event in events {
        kinds.push(event.kind.name())?;
    }
    Ok(())
}

/// The names of the kinds of the events of batches.
pub(crate) fn kinds_of(alloc: Global, batches: &[&Batch]) -> Result<Vec<&'static str>, OutOfMemory>
    ensures { IfOk result (λ kinds. map (λ kind. kind.now) kinds.items ≡ kinds_of (map (λ b. b.now) batches.now)) }
{
    let mut kinds = Vec::new(alloc);
    for batch in batches {
        push_kinds(&mut kinds, batch.events.as_slice())?;
    }
    Ok(kinds)
}

/// How many of so many events are told.
fn told_count(count: usize) -> usize
    ensures told { result ≡ told_count count }
    ensures within { result ≤ count }
{
    if 6 < count { 6 } else { count }
}

/// The kinds that are told: the first ones.
pub(crate) fn kinds_told<'k>(kinds: &'k [&'static str]) -> &'k [&'static str]
    ensures { map (λ kind. kind.now) result.now ≡ kinds_told (map (λ kind. kind.now) kinds.now) }
{
    let (told, _) = kinds.split_at(told_count(kinds.len()));
    told
}

/// Appends events.
fn push_events<'v>(list: &mut Vec<&'v Event>, events: &'v [Event]) -> Result<(), OutOfMemory>
    ensures { OnOk result (map (λ event. event.now) list.new.items ≡ map (λ event. event.now) list.old.items ++ events.now) }
{
    for event in events {
        list.push(event)?;
    }
    Ok(())
}

/// The events of batches.
pub(crate) fn events_of<'v>(
    alloc: Global,
    batches: &[&'v Batch],
) -> Result<Vec<&'v Event>, OutOfMemory>
    ensures { IfOk result (λ list. map (λ event. event.now) list.items ≡ events_of (map (λ b. b.now) batches.now)) }
{
    let mut list = Vec::new(alloc);
    for batch in batches {
        push_events(&mut list, batch.events.as_slice())?;
    }
    Ok(list)
}

/// The events that are told: the first ones.
pub(crate) fn events_told<'k, 'v>(events: &'k [&'v Event]) -> &'k [&'v Event]
    ensures { map (λ event. event.now) result.now ≡ events_told (map (λ event. event.now) events.now) }
{
    let (told, _) = events.split_at(told_count(events.len()));
    told
}

/// The origin that an event of this kind copies.
fn copied_by(kind: &EventKind) -> Option<Origin>
    ensures { result ≡ copied_by kind.now }
{
    match kind {
        EventKind::WorkflowExecutionSignaled { origin, .. } => origin.as_ref().copied(),
        _ => None,
    }
}

/// Appends the origin, where there is one.
fn push_copy(copies: &mut Vec<Origin>, copied: Option<Origin>) -> Result<(), OutOfMemory>
    ensures { OnOk result (copies.new.items ≡ copies.old.items ++ cons_option copied []) }
{
    if let Some(origin) = copied {
        copies.push(origin)?;
    }
    Ok(())
}

/// Appends the origins that events copy.
fn push_copies(copies: &mut Vec<Origin>, events: &[Event]) -> Result<(), OutOfMemory>
    ensures { OnOk result (copies.new.items ≡ copies.old.items ++ copies_in events.now) }
{
    for event in events {
        push_copy(copies, copied_by(&event.kind))?;
    }
    Ok(())
}

/// The origins that batches copy.
pub(crate) fn copies_of(alloc: Global, batches: &[&Batch]) -> Result<Vec<Origin>, OutOfMemory>
    ensures { IfOk result (λ copies. copies.items ≡ copies_of (map (λ b. b.now) batches.now)) }
{
    let mut copies = Vec::new(alloc);
    for batch in batches {
        push_copies(&mut copies, batch.events.as_slice())?;
    }
    Ok(copies)
}

/// The last of these keys.
fn last_key(key: BatchKey, batches: &[&Batch]) -> BatchKey
    ensures { result ≡ last_key key (map (λ b. b.now) batches.now) }
{
    let mut last = key;
    for batch in batches {
        last = batch.key;
    }
    last
}

/// What is told of a block beside its events.
pub(crate) fn summary_of(batches: &[&Batch]) -> Option<Summary>
    ensures { result ≡ summary_of (map (λ b. b.now) batches.now) }
{
    match batches {
        [] => None,
        [first, later @ ..] => Some(Summary {
            first: first.key,
            last: last_key(first.key, later),
            count: batches.len() as u64,
            run: first.run,
            parent: first.parent,
            carrier: first.carrier,
        }),
    }
}
