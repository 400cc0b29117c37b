ghost use Rattle.std.specs.Prelude.{◌≡◌, ◌<◌, ◌≤◌, ◌+◌, ◌++◌, Err, false, length, map, IfOk, OnOk, OnErr};
ghost use Rattle.std.specs.Option.{option_map};
ghost use Rattle.ndc_script_types.specs.WellFormed.{IsWellFormed, IsWellFormedAct};
ghost use Rattle.ndc_index.specs.Seats.{seat_of, shown};
ghost use Rattle.ndc_model.specs.Lines.{answers_of, lines_of_act, ran_of, seen_in, world_behind};
ghost use Rattle.ndc_model.specs.Standing.{StandFor};
ghost use Rattle.ndc_model.specs.World.{World as Whole};
ghost use Rattle.ndc_port.specs.Bytes.{Appends, AppendsFront};
ghost use Rattle.ndc_port.specs.Fault.{Rose};
ghost use Rattle.ndc_world.specs.Rest.{at_world, kept_where};
ghost use Rattle.ndc_world.specs.Seats.{WritesAll, WritesFront};
ghost use Rattle.ndc_world.specs.declared.error.RunError.TheVariants as run_error;
ghost use Rattle.ndc_world.specs.Running.{ran_at};

use crate::answer::Answer;
use crate::error::RunError;
use crate::world::World;
use ndc_cluster_reads::Reads;
use ndc_event::OutOfMemory;
use ndc_index::{Indexers, Seen};
use ndc_port::{Gate, Sink, write_all};
use ndc_script_types::{Line, Script};
use std::alloc::Global;
use std::thread::Threads;

/// Runs a line and writes its answers in one piece; gives what it made learned.
fn run_line<R: Threads + Sync, G: Gate, K: Sink, C: Reads + Drop + Send>(
    rt: &R,
    alloc: Global,
    gate: &G,
    workers: u32,
    world: &mut World<C>,
    line: &Line,
    out: &mut K,
) -> Result<Vec<Seen>, RunError>
    requires unspent { world.old.spent ≡ false }
    requires workers { 0 < workers }
    requires act { IsWellFormedAct world.old.header line.now.act }
    requires lines { world.old.lines + length (lines_of_act line.now.number line.now.act) ≤ 100000 }
    ensures unspent { OnOk result (world.new.spent ≡ false) }
    ensures header { OnOk result (world.new.header ≡ world.old.header) }
    ensures lines { OnOk result (world.new.lines ≡ world.old.lines + length (lines_of_act line.now.number line.now.act)) }
    ensures stands { OnOk result ((w : Whole) → StandFor world.old.world world.old.reports w → StandFor world.new.world world.new.reports (world_behind w (ran_at (at_world world.old w) line.now))) }
    ensures seen { IfOk result (λ seen. (w : Whole) → StandFor world.old.world world.old.reports w → seen.items ≡ seen_in (ran_at (at_world world.old w) line.now)) }
    ensures whole { OnOk result ((w : Whole) → StandFor world.old.world world.old.reports w → Appends (K.written out.old) (K.written out.new) (answers_of (ran_at (at_world world.old w) line.now))) }
    ensures front { OnErr result ((w : Whole) → StandFor world.old.world world.old.reports w → AppendsFront (K.written out.old) (K.written out.new) (answers_of (ran_at (at_world world.old w) line.now))) }
    ensures cause { result ≡ Err run_error.Write → Rose (K.faults out.old) (K.faults out.new) }
    ensures count { K.faults out.old ≤ K.faults out.new }
{
    let Answer { text, seen } = world.step(rt, alloc, gate, workers, line)?;
    write_all(out, text.as_slice())?;
    Ok(seen)
}

/// Puts these after what was kept.
fn keep(told: &mut Vec<Seen>, seen: Vec<Seen>) -> Result<(), OutOfMemory>
    ensures { OnOk result (told.new.items ≡ told.old.items ++ seen.items) }
{
    for one in seen {
        told.push(one)?;
    }
    Ok(())
}

/// Keeps what a line made learned, where it is to be told late.
fn keep_where(keeps: bool, told: &mut Vec<Seen>, seen: Vec<Seen>) -> Result<(), OutOfMemory>
    ensures { OnOk result (told.new.items ≡ told.old.items ++ kept_where keeps seen.items) }
{
    if keeps {
        keep(told, seen)?;
    }
    Ok(())
}

/// Runs a script on so many workers at most, through the gate. The answers of each line are written in one piece as
/// soon as it has run, and then those indexers are told of what it made learned that are told as a script runs. After
/// the last line the late ones are told of all of it, and the lines of all indexers are written in one piece. The
/// program ends then, so what the world holds by that time is not given back piece by piece. [`RunError::Write`] where
/// a write failed, and only there, [`RunError::Memory`] where memory ran out: then a prefix of this was written.
pub fn run_script<R: Threads + Sync, G: Gate, K: Sink, C: Reads + Drop + Send>(
    rt: &R,
    alloc: Global,
    gate: &G,
    workers: u32,
    script: &Script,
    indexers: Indexers,
    out: &mut K,
) -> Result<(), RunError>
    requires workers { 0 < workers }
    requires script { IsWellFormed script.now }
    ensures whole { OnOk result (WritesAll script.now (map (λ seat. seat_of seat.name seat.calls (option_map (λ b. shown (title (b.vtable, b.value)) (failing (b.vtable, b.value)) (list (b.vtable, b.value))) seat.indexer)) indexers.asked.items) (map (λ seat. seat_of seat.name seat.calls (option_map (λ b. shown (title (b.vtable, b.value)) (failing (b.vtable, b.value)) (list (b.vtable, b.value))) seat.indexer)) indexers.late.items) (K.written out.old) (K.written out.new)) }
    ensures front { OnErr result (WritesFront script.now (map (λ seat. seat_of seat.name seat.calls (option_map (λ b. shown (title (b.vtable, b.value)) (failing (b.vtable, b.value)) (list (b.vtable, b.value))) seat.indexer)) indexers.asked.items) (map (λ seat. seat_of seat.name seat.calls (option_map (λ b. shown (title (b.vtable, b.value)) (failing (b.vtable, b.value)) (list (b.vtable, b.value))) seat.indexer)) indexers.late.items) (K.written out.old) (K.written out.new)) }
    ensures cause { result ≡ Err run_error.Write → Rose (K.faults out.old) (K.faults out.new) }
    ensures count { K.faults out.old ≤ K.faults out.new }
{
    let mut indexers = indexers;
    let mut world = World::<C>::build(alloc, &script.header)?;
    let keeps = !indexers.late.is_empty();
    let mut told = Vec::new(alloc);
    for line in script.lines.as_slice() {
        let seen = run_line(rt, alloc, gate, workers, &mut world, line, out)?;
        for one in seen.as_slice() {
            indexers.told(one)?;
        }
        keep_where(keeps, &mut told, seen)?;
    }
    indexers.catch_up(told.as_slice())?;
    let mut lines = Vec::new(alloc);
    indexers.lines(&mut lines)?;
    write_all(out, lines.as_slice())?;
    std::mem::forget(world);
    std::mem::forget(told);
    Ok(())
}
