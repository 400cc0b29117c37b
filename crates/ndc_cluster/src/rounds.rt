ghost use Rattle.std.specs.Prelude.{◌≡◌, ◌<◌, false, length, map, IfOk, IfSome, OnOk};
ghost use Rattle.std.specs.List.{AllByRecursion};
ghost use Rattle.std.specs.Option.{option_map};
ghost use Rattle.ndc_model_cells.specs.Jobs.{cells_after, replies_to};
ghost use Rattle.ndc_model_cells.specs.Conditions.{AreAllowed};
ghost use Rattle.ndc_cluster.specs.Rounds.{AreFresh, dealt, fresh_slot, joined, left_of, slot_of, taken};

use crate::cell::Cell;
use crate::fresh::Fresh;
use crate::halves::work_list;
use crate::home::Desk;
use crate::in_turn::{do_in_turn, enter_all};
use crate::piece::{Piece, Slot};
use ndc_event::OutOfMemory;
use ndc_model_cells::{JobReply, ShardJob};
use ndc_port::Gate;
use std::alloc::{AllocError, Global};
use std::collections::VecDeque;
use std::thread::Threads;

/// A slot for each cell, with nothing to do.
fn slots_of<'a, C: Cell + Drop>(
    alloc: Global,
    cells: Vec<C>,
) -> Result<Vec<Slot<'a, C>>, OutOfMemory>
    ensures { IfOk result (λ slots.
        map (λ slot. slot_of (C.cell slot.cell)
        (map (λ job. job.now) slot.jobs.items) slot.replies.items slot.fresh.from
        slot.fresh.messages.items) slots.items
        ≡ map fresh_slot (map C.cell cells.items)) }
{
    let mut slots = Vec::with_capacity(alloc, cells.len())?;
    for cell in cells {
        slots.push(Slot {
            cell,
            jobs: Vec::new(alloc),
            replies: VecDeque::new(alloc),
            fresh: Fresh {
                from: 0,
                messages: Vec::new(alloc),
            },
        })?;
    }
    Ok(slots)
}

/// Each job goes last among those of the slot of its shard.
fn deal<'a, C: Cell + Drop>(
    slots: &mut Vec<Slot<'a, C>>,
    jobs: &'a [ShardJob],
) -> Result<(), OutOfMemory>
    requires { AllByRecursion (λ asked. asked.shard < length slots.old.items) jobs.now }
    ensures { OnOk result (map (λ slot.
        slot_of (C.cell slot.cell)
        (map (λ job. job.now) slot.jobs.items) slot.replies.items slot.fresh.from
        slot.fresh.messages.items) slots.new.items
        ≡ dealt jobs.now (map (λ slot.
        slot_of (C.cell slot.cell)
        (map (λ job. job.now) slot.jobs.items) slot.replies.items slot.fresh.from
        slot.fresh.messages.items) slots.old.items)) }
{
    for asked in jobs {
        slots[asked.shard as usize].jobs.push(&asked.job)?;
    }
    Ok(())
}

/// Cuts slots into so many pieces of neighbouring ones, of nearly equal lengths, numbered from 0; the last one comes
/// first.
fn cut<'a, G: Gate, C: Cell + Drop>(
    alloc: Global,
    slots: Vec<Slot<'a, C>>,
    count: u32,
    gate: &'a G,
    desk: &'a Desk<'a>,
) -> Result<Vec<Piece<'a, G, C>>, OutOfMemory>
    requires { 0 < count }
    ensures slots { IfOk result (λ pieces.
        joined (map (λ piece. map (λ slot.
        slot_of (C.cell slot.cell)
        (map (λ job. job.now) slot.jobs.items) slot.replies.items slot.fresh.from
        slot.fresh.messages.items) piece.slots.items) pieces.items)
        ≡ map (λ slot. slot_of (C.cell slot.cell)
        (map (λ job. job.now) slot.jobs.items) slot.replies.items slot.fresh.from
        slot.fresh.messages.items) slots.entry.items) }
    ensures desks { IfOk result (λ pieces.
        AllByRecursion (λ piece. piece.desk.now ≡ desk.now) pieces.items) }
{
    let mut left = slots;
    let mut pieces = Vec::new(alloc);
    for done in 0..count {
        let number = count - 1 - done;
        let at = left.len() - left.len() / (number as usize + 1);
        let slots = left.split_off(at)?;
        pieces.push(Piece {
            number,
            gate,
            desk,
            slots,
            is_spent: false,
        })?;
    }
    Ok(pieces)
}

/// The slots of pieces in order, of which the last one comes first; an error where a piece is spent.
fn join<'a, G: Gate, C: Cell + Drop>(
    alloc: Global,
    pieces: Vec<Piece<'a, G, C>>,
) -> Result<Vec<Slot<'a, C>>, OutOfMemory>
    ensures slots { IfOk result (λ slots.
        map (λ slot. slot_of (C.cell slot.cell)
        (map (λ job. job.now) slot.jobs.items) slot.replies.items slot.fresh.from
        slot.fresh.messages.items) slots.items
        ≡ joined (map (λ piece. map (λ slot.
        slot_of (C.cell slot.cell)
        (map (λ job. job.now) slot.jobs.items) slot.replies.items slot.fresh.from
        slot.fresh.messages.items) piece.slots.items) pieces.entry.items)) }
    ensures whole { IfOk result (λ _.
        AllByRecursion (λ piece. piece.is_spent ≡ false) pieces.entry.items) }
{
    let mut left = pieces;
    let mut slots = Vec::new(alloc);
    while let Some(piece) = left.pop() {
        let mut more = piece.slots;
        if piece.is_spent {
            return Err(AllocError);
        }
        slots.append(&mut more)?;
    }
    Ok(slots)
}

/// For each job the next reply of its shard; none, where one lacks.
fn collect<C: Cell + Drop>(
    alloc: Global,
    slots: &mut Vec<Slot<C>>,
    jobs: &[ShardJob],
) -> Result<Option<Vec<JobReply>>, OutOfMemory>
    requires { AllByRecursion (λ asked. asked.shard < length slots.old.items) jobs.now }
    ensures cells { OnOk result (map (λ slot. left_of (C.cell slot.cell) slot.fresh) slots.new.items
        ≡ map (λ slot. left_of (C.cell slot.cell) slot.fresh) slots.old.items) }
    ensures replies { IfOk result (λ found.
        option_map (λ replies. replies.items) found
        ≡ taken jobs.now (map (λ slot. slot.replies.items) slots.old.items)) }
{
    let mut replies = Vec::with_capacity(alloc, jobs.len())?;
    for asked in jobs {
        let Some(reply) = slots[asked.shard as usize].replies.pop_front() else {
            return Ok(None);
        };
        replies.push(reply)?;
    }
    Ok(Some(replies))
}

/// What slots leave: their cells, and beside each what it has written.
#[derive(Drop)]
struct Left<C: Drop> {
    cells: Vec<C>,
    fresh: Vec<Fresh>,
}

/// The cells of slots, and beside each what it has written.
fn left_by<C: Cell + Drop>(alloc: Global, slots: Vec<Slot<C>>) -> Result<Left<C>, OutOfMemory>
    ensures cells { IfOk result (λ left.
        map C.cell left.cells.items ≡ map (λ slot. C.cell slot.cell) slots.entry.items) }
    ensures fresh { IfOk result (λ left.
        left.fresh.items ≡ map (λ slot. slot.fresh) slots.entry.items) }
{
    let mut cells = Vec::with_capacity(alloc, slots.len())?;
    let mut fresh = Vec::with_capacity(alloc, slots.len())?;
    for slot in slots {
        cells.push(slot.cell)?;
        fresh.push(slot.fresh)?;
    }
    Ok(Left { cells, fresh })
}

/// How many jobs a piece of the cells needs so that they pay for a thread.
const ENOUGH: usize = 64;

/// Whether at least two pieces have so many jobs that they pay for a thread.
fn pay_for_threads<G: Gate, C: Cell + Drop>(pieces: &[Piece<G, C>]) -> bool {
    let mut paying = false;
    for piece in pieces {
        let pays = piece.jobs() >= ENOUGH;
        if pays && paying {
            return true;
        }
        paying = pays || paying;
    }
    false
}

/// What a round leaves: the cells, in order, the replies in the order of the jobs, and where the jobs were done in pieces, for
/// each cell what it has written from some place on.
#[derive(Drop)]
pub(crate) struct Rounded<C: Drop> {
    /// The cells, by shard.
    pub(crate) cells: Vec<C>,
    /// The replies, in the order of the jobs.
    pub(crate) replies: Vec<JobReply>,
    /// For each cell what it has written from some place on; none where the jobs were not done in pieces.
    pub(crate) fresh: Option<Vec<Fresh>>,
}

/// Cells do jobs in so many pieces of neighbouring ones: side by side, or one piece after the other where the gate holds
/// nobody and the jobs do not pay for threads.
fn in_pieces<R: Threads + Sync, G: Gate, C: Cell + Drop + Send>(
    rt: &R,
    alloc: Global,
    gate: &G,
    count: u32,
    desk: &Desk,
    cells: Vec<C>,
    jobs: &[ShardJob],
) -> Result<Rounded<C>, OutOfMemory>
    requires count { 0 < count }
    requires shards { AllByRecursion (λ asked. asked.shard < length cells.items) jobs.now }
    requires allowed { AreAllowed C.allows desk.now jobs.now (map C.cell cells.items) }
    ensures cells { IfOk result (λ rounded.
        map C.cell rounded.cells.items ≡ cells_after desk.now jobs.now (map C.cell cells.items)) }
    ensures replies { IfOk result (λ rounded.
        rounded.replies.items ≡ replies_to desk.now jobs.now (map C.cell cells.items)) }
    ensures fresh { IfOk result (λ rounded.
        IfSome rounded.fresh (λ fresh. AreFresh fresh.items (map C.cell rounded.cells.items))) }
{
    let mut slots = slots_of(alloc, cells)?;
    deal(&mut slots, jobs)?;
    let mut pieces = cut(alloc, slots, count, gate, desk)?;
    let beside = !gate.is_open() || pay_for_threads(pieces.as_slice());
    work_list(rt, &mut pieces, beside);
    let mut slots = join(alloc, pieces)?;
    let Some(replies) = collect(alloc, &mut slots, jobs)? else {
        unreachable!()
    };
    let left = left_by(alloc, slots)?;
    Ok(Rounded {
        cells: left.cells,
        replies,
        fresh: Some(left.fresh),
    })
}

/// Cells do jobs on so many workers at most, each worker on neighbouring cells. Each worker first enters the gate with its
/// number, counted from 0. The cells and the replies are those of the jobs done one after the other; want of memory ends
/// the round, and the cells are gone. With one worker no thread is started, nor under a gate that holds nobody where the
/// jobs are too few to pay for it. The shard of each job is that of a cell, and each job may be done by the cell that the
/// jobs before it leave.
pub(crate) fn round<R: Threads + Sync, G: Gate, C: Cell + Drop + Send>(
    rt: &R,
    alloc: Global,
    gate: &G,
    workers: u32,
    desk: &Desk,
    cells: Vec<C>,
    jobs: &[ShardJob],
) -> Result<Rounded<C>, OutOfMemory>
    requires workers { 0 < workers }
    requires shards { AllByRecursion (λ asked. asked.shard < length cells.items) jobs.now }
    requires allowed { AreAllowed C.allows desk.now jobs.now (map C.cell cells.items) }
    ensures cells { IfOk result (λ rounded.
        map C.cell rounded.cells.items ≡ cells_after desk.now jobs.now (map C.cell cells.items)) }
    ensures replies { IfOk result (λ rounded.
        rounded.replies.items ≡ replies_to desk.now jobs.now (map C.cell cells.items)) }
    ensures fresh { IfOk result (λ rounded.
        IfSome rounded.fresh (λ fresh. AreFresh fresh.items (map C.cell rounded.cells.items))) }
{
    let count = workers
        .min(cells.len().try_into().unwrap_or(workers))
        .max(1);
    if count == 1 || (jobs.len() < 2 * ENOUGH && gate.is_open()) {
        enter_all(gate, count);
        let mut cells = cells;
        let replies = do_in_turn(alloc, desk, &mut cells, jobs)?;
        return Ok(Rounded {
            cells,
            replies,
            fresh: None,
        });
    }
    let rounded = in_pieces(rt, alloc, gate, count, desk, cells, jobs)?;
    Ok(rounded)
}
