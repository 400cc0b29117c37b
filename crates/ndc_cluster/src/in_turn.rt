ghost use Rattle.std.specs.Prelude.{◌≡◌, ◌<◌, length, map, IfOk, OnOk};
ghost use Rattle.std.specs.List.{AllByRecursion};
ghost use Rattle.ndc_model_cells.specs.Conditions.{AreAllowed};
ghost use Rattle.ndc_model_cells.specs.Jobs.{cells_after, replies_to};

use crate::cell::Cell;
use crate::home::Desk;
use ndc_event::OutOfMemory;
use ndc_model_cells::{JobReply, ShardJob};
use ndc_port::Gate;
use std::alloc::Global;

/// So many workers enter the gate, one after the other.
pub(crate) fn enter_all<G: Gate>(gate: &G, workers: u32) {
    for worker in 0..workers {
        gate.enter(worker);
    }
}

/// Does the jobs one after the other, on the cells where they stand.
pub(crate) fn do_in_turn<C: Cell + Drop>(
    alloc: Global,
    desk: &Desk,
    cells: &mut Vec<C>,
    jobs: &[ShardJob],
) -> Result<Vec<JobReply>, OutOfMemory>
    requires shards { AllByRecursion (λ asked. asked.shard < length cells.old.items) jobs.now }
    requires allowed { AreAllowed C.allows desk.now jobs.now (map C.cell cells.old.items) }
    ensures cells { OnOk result
        (map C.cell cells.new.items ≡ cells_after desk.now jobs.now (map C.cell cells.old.items)) }
    ensures replies { IfOk result (λ replies.
        replies.items ≡ replies_to desk.now jobs.now (map C.cell cells.old.items)) }
{
    let mut replies = Vec::with_capacity(alloc, jobs.len())?;
    for asked in jobs {
        let cell = &mut cells[asked.shard as usize];
        let reply = cell.do_job(desk, &asked.job)?;
        replies.push(reply)?;
    }
    Ok(replies)
}
