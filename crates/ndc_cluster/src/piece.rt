ghost use Rattle.std.specs.Prelude.{◌≡◌, ◌++◌, map, OnOk};
ghost use Rattle.std.specs.List.{AllByRecursion};
ghost use Rattle.ndc_model_cells.specs.Conditions.{MayDo};
ghost use Rattle.ndc_cluster.specs.Rounds.{SlotMay, cell_after, cell_replies, slot_done, slot_of};

use crate::cell::Cell;
use crate::fresh::{Fresh, fresh_from};
use crate::halves::Work;
use crate::home::Desk;
use ndc_event::OutOfMemory;
use ndc_model_cells::{Job, JobReply};
use ndc_port::Gate;
use std::alloc::Global;
use std::collections::VecDeque;

/// A cell with the jobs that it is to do, what it replied, and after these what it has written.
#[derive(Drop)]
pub(crate) struct Slot<'a, C: Drop> {
    pub(crate) cell: C,
    pub(crate) jobs: Vec<&'a Job>,
    pub(crate) replies: VecDeque<JobReply>,
    pub(crate) fresh: Fresh,
}

/// How much memory is asked for at once before a slot does its jobs: below what the C library gives back by itself.
const ROOM: usize = 60_000;

/// How much of it a job is taken to want.
const ROOM_OF_JOB: usize = 2_048;

/// Takes memory for so many jobs in one piece and gives it back, so that the jobs find it there. In a thread of its own each
/// page more would else be a call of the system. Where there is none, the jobs will tell.
fn make_room(alloc: Global, jobs: usize) {
    let _room: Result<Vec<u8>, OutOfMemory> = Vec::with_capacity(
        alloc,
        jobs.saturating_mul(ROOM_OF_JOB).min(ROOM),
    );
}

/// Does the jobs of a slot, in order.
fn do_each<C: Cell + Drop>(slot: &mut Slot<C>, desk: &Desk) -> Result<(), OutOfMemory>
    requires { MayDo C.allows desk.now (map (λ job. job.now) slot.old.jobs.items)
        (C.cell slot.old.cell) }
    ensures cell { OnOk result
        (C.cell slot.new.cell ≡ cell_after desk.now (map (λ job. job.now) slot.old.jobs.items)
        (C.cell slot.old.cell)) }
    ensures jobs { OnOk result (slot.new.jobs ≡ slot.old.jobs) }
    ensures replies { OnOk result
        (slot.new.replies.items ≡ slot.old.replies.items
        ++ cell_replies desk.now (map (λ job. job.now) slot.old.jobs.items)
        (C.cell slot.old.cell)) }
{
    for place in 0..slot.jobs.len() {
        let job = slot.jobs[place];
        let reply = slot.cell.do_job(desk, job)?;
        slot.replies.push_back(reply)?;
    }
    Ok(())
}

/// Does the jobs of a slot, in order, and puts beside its cell what that has written meanwhile.
fn do_jobs<C: Cell + Drop>(slot: &mut Slot<C>, desk: &Desk) -> Result<(), OutOfMemory>
    requires { SlotMay C.allows desk.now
        (slot_of (C.cell slot.old.cell)
        (map (λ job. job.now) slot.old.jobs.items) slot.old.replies.items slot.old.fresh.from
        slot.old.fresh.messages.items) }
    ensures { OnOk result (slot_of (C.cell slot.new.cell)
        (map (λ job. job.now) slot.new.jobs.items) slot.new.replies.items slot.new.fresh.from
        slot.new.fresh.messages.items
        ≡ slot_done desk.now (slot_of (C.cell slot.old.cell)
        (map (λ job. job.now) slot.old.jobs.items) slot.old.replies.items slot.old.fresh.from
        slot.old.fresh.messages.items)) }
{
    let alloc = *slot.jobs.allocator();
    make_room(alloc, slot.jobs.len());
    let from = slot.cell.written_len();
    do_each(slot, desk)?;
    slot.fresh = fresh_from(alloc, &slot.cell, from)?;
    Ok(())
}

/// Does the jobs of each slot.
fn do_all<C: Cell + Drop>(slots: &mut Vec<Slot<C>>, desk: &Desk) -> Result<(), OutOfMemory>
    requires { AllByRecursion (SlotMay C.allows desk.now)
        (map (λ slot. slot_of (C.cell slot.cell)
        (map (λ job. job.now) slot.jobs.items) slot.replies.items slot.fresh.from
        slot.fresh.messages.items) slots.old.items) }
    ensures { OnOk result (map (λ slot.
        slot_of (C.cell slot.cell)
        (map (λ job. job.now) slot.jobs.items) slot.replies.items slot.fresh.from
        slot.fresh.messages.items) slots.new.items
        ≡ map (slot_done desk.now) (map (λ slot.
        slot_of (C.cell slot.cell)
        (map (λ job. job.now) slot.jobs.items) slot.replies.items slot.fresh.from
        slot.fresh.messages.items) slots.old.items)) }
{
    for slot in slots.iter_mut() {
        do_jobs(slot, desk)?;
    }
    Ok(())
}

/// Neighbouring cells that one worker holds during a round, with their jobs.
#[derive(Drop)]
pub(crate) struct Piece<'a, G: Gate, C: Cell + Drop> {
    pub(crate) number: u32,
    pub(crate) gate: &'a G,
    pub(crate) desk: &'a Desk<'a>,
    pub(crate) slots: Vec<Slot<'a, C>>,
    pub(crate) is_spent: bool,
}

impl<'a, G: Gate, C: Cell + Drop> Piece<'a, G, C> {
    /// How many jobs its cells are to do.
    pub(crate) fn jobs(&self) -> usize {
        let mut count: usize = 0;
        for slot in self.slots.as_slice() {
            count = count.saturating_add(slot.jobs.len());
        }
        count
    }
}

impl<'a, G: Gate, C: Cell + Drop> Work for Piece<'a, G, C> {
    ghost use Rattle.std.specs.Prelude.{◌≡◌, false, map};
    ghost use Rattle.std.specs.List.{AllByRecursion};
    ghost use Rattle.ndc_cluster.specs.Rounds.{SlotMay, slot_done, slot_of};

    ghost ready = { λ piece. AllByRecursion (SlotMay C.allows piece.desk.now)
        (map (λ slot. slot_of (C.cell slot.cell)
        (map (λ job. job.now) slot.jobs.items) slot.replies.items slot.fresh.from
        slot.fresh.messages.items) piece.slots.items) };

    ghost worked = { λ before after. after.is_spent ≡ false →
        map (λ slot. slot_of (C.cell slot.cell)
        (map (λ job. job.now) slot.jobs.items) slot.replies.items slot.fresh.from
        slot.fresh.messages.items) after.slots.items
        ≡ map (slot_done before.desk.now) (map (λ slot.
        slot_of (C.cell slot.cell)
        (map (λ job. job.now) slot.jobs.items) slot.replies.items slot.fresh.from
        slot.fresh.messages.items) before.slots.items) };

    /// Enters the gate with the number of the piece, and then does the jobs of each cell.
    fn work(&mut self) {
        self.gate.enter(self.number);
        self.is_spent = do_all(&mut self.slots, self.desk).is_err();
    }
}
