ghost use Rattle.std.specs.Prelude.{◌≡◌, ◌<◌, false, length, IfOk};
ghost use Rattle.ndc_script_types.specs.WellFormed.{IsWellFormed};
ghost use Rattle.ndc_model.specs.Standing.{StandFor};
ghost use Rattle.ndc_model.specs.Lines.{ran_of};
ghost use Rattle.ndc_world.specs.Counts.{refused_in};
ghost use Rattle.ndc_world.specs.Rest.{last_world};

use crate::world::World;
use ndc_cluster_reads::Reads;
use ndc_event::OutOfMemory;
use ndc_port::Gate;
use ndc_script_types::Script;
use std::alloc::Global;
use std::thread::Threads;

/// Runs a script on so many workers at most, through the gate, and writes nothing; gives the world that its last line
/// leaves.
pub fn last_world<'a, R: Threads + Sync, G: Gate, C: Reads + Drop + Send>(
    rt: &R,
    alloc: Global,
    gate: &G,
    workers: u32,
    script: &'a Script,
) -> Result<World<'a, C>, OutOfMemory>
    requires workers { 0 < workers }
    requires script { IsWellFormed script.now }
    ensures unspent { IfOk result (λ world. world.spent ≡ false) }
    ensures header { IfOk result (λ world. world.header ≡ script.now.header) }
    ensures answers { IfOk result (λ world. world.answers ≡ length (ran_of script.now)) }
    ensures refused { IfOk result (λ world. world.refused ≡ refused_in (ran_of script.now)) }
    ensures stands { IfOk result (λ world. StandFor world.world world.reports (last_world script.now)) }
{
    let mut world = World::<C>::build(alloc, &script.header)?;
    for line in script.lines.as_slice() {
        world.step(rt, alloc, gate, workers, line)?;
    }
    Ok(world)
}
