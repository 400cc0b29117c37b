ghost use Rattle.std.specs.Prelude.{◌≡◌, ◌<◌, [], ◌∷◌, ◌++◌, length, IfOk, OnOk};
ghost use Rattle.std.specs.List.{flat_map};
ghost use Rattle.ndc_script_types.specs.WellFormed.{AreTwoClusters, IsCluster};
ghost use Rattle.ndc_model.specs.Sometime.{IsReachedSometime};
ghost use Rattle.ndc_world_answers.specs.Tallies.{with_notes};
ghost use Rattle.ndc_world_steps.specs.Telling.{tally_of};
ghost use Rattle.ndc_model.specs.Moves.{after_settlement};
ghost use Rattle.ndc_model.specs.Sending.{bootstrap_step, resend_step, settle_step, work_step};
ghost use Rattle.ndc_model.specs.Steps.{seen_of};
ghost use Rattle.ndc_model.specs.World.{link_at};
ghost use Rattle.ndc_model.specs.Conditions.{MayDoAll, MaySettle, MayWork, again_jobs, late_jobs};
ghost use Rattle.ndc_world_replication.specs.Dones.{notes_in};
ghost use Rattle.ndc_world_replication.specs.Orderly.{IsOrderly};
ghost use Rattle.ndc_world_steps.specs.Told.{leaving};

use crate::told::Told;
use ndc_cluster::Cell;
use ndc_cluster_reads::Reads;
use ndc_domain::ClusterNo;
use ndc_event::OutOfMemory;
use ndc_index::Seen;
use ndc_port::Gate;
use ndc_script_types::Header;
use ndc_world_answers::{Tally, add_seen};
use ndc_world_replication::publishers::link_of;
use ndc_world_replication::{Done, Replication, Worked};
use std::alloc::Global;
use std::thread::Threads;

/// Counts what was done, and adds what it made learned.
fn tell(tally: &mut Tally, seen: &mut Vec<Seen>, done: Done) -> Result<(), OutOfMemory>
    ensures tally { OnOk result (tally.new ≡ with_notes (notes_in done) tally.old) }
    ensures seen { OnOk result (seen.new.items ≡ seen.old.items ++ seen_of (notes_in done)) }
{
    let Done {
        cluster,
        jobs,
        replies,
        ..
    } = done;
    tally.add(jobs.as_slice(), replies.as_slice())?;
    add_seen(seen, cluster, jobs.as_slice(), replies)?;
    Ok(())
}

/// What jobs came to: how much, and what they made learned, in the order of being told.
#[derive(Drop)]
pub struct Telling {
    /// How much they came to.
    pub tally: Tally,
    /// What they made learned, in the order of being told.
    pub seen: Vec<Seen>,
}

/// Counts all that was done, in order, and lists what it made learned.
pub(crate) fn tell_all(alloc: Global, dones: Vec<Done>) -> Result<Telling, OutOfMemory>
    ensures tally { IfOk result (λ telling. telling.tally ≡ tally_of (flat_map notes_in dones.items)) }
    ensures seen { IfOk result (λ telling. telling.seen.items ≡ seen_of (flat_map notes_in dones.items)) }
{
    let mut tally = Tally::new();
    let mut seen = Vec::new(alloc);
    for done in dones {
        tell(&mut tally, &mut seen, done)?;
    }
    Ok(Telling { tally, seen })
}

/// What was done first, and what was done then.
fn in_turn(alloc: Global, first: Done, second: Done) -> Result<Vec<Done>, OutOfMemory>
    ensures { IfOk result (λ dones. dones.items ≡ first ∷ second ∷ []) }
{
    let mut dones = Vec::new(alloc);
    dones.push(first)?;
    dones.push(second)?;
    Ok(dones)
}

/// `work`.
pub fn work<R: Threads + Sync, G: Gate, C: Cell + Drop + Send>(
    replication: &mut Replication<C>,
    rt: &R,
    alloc: Global,
    gate: &G,
    workers: u32,
    header: &Header,
    cluster: ClusterNo,
) -> Result<Told, OutOfMemory>
    requires workers { 0 < workers }
    requires cluster { IsCluster header.now cluster }
    requires orderly { IsOrderly header.now replication.old }
    requires allowed { MayWork C.allows header.now cluster replication.old }
    ensures { IfOk result (λ answer. leaving replication.new answer ≡ work_step header.now cluster replication.old) }
{
    let Worked { arrived, reapplied } = replication.work(
        rt, alloc, gate, workers, header, cluster,
    )?;
    let dones = in_turn(alloc, arrived, reapplied)?;
    let Telling { tally, seen } = tell_all(alloc, dones)?;
    let answer = ndc_world_answers::worked(alloc, tally)?;
    Ok(Told { text: answer, seen })
}

/// `resend`.
pub fn resend<R: Threads + Sync, G: Gate, C: Reads + Drop + Send>(
    replication: &mut Replication<C>,
    rt: &R,
    alloc: Global,
    gate: &G,
    workers: u32,
    header: &Header,
    reader: ClusterNo,
) -> Result<Told, OutOfMemory>
    requires workers { 0 < workers }
    requires reader { IsCluster header.now reader }
    requires reached { IsReachedSometime header.now replication.old }
    requires allowed { MayDoAll C.allows header.now reader (again_jobs header.now reader replication.old) replication.old }
    ensures { IfOk result (λ answer. leaving replication.new answer ≡ resend_step header.now reader replication.old) }
{
    let done = replication.resend(rt, alloc, gate, workers, header, reader)?;
    let mut dones = Vec::new(alloc);
    dones.push(done)?;
    let Telling { tally, seen } = tell_all(alloc, dones)?;
    let answer = ndc_world_answers::arrived(alloc, tally)?;
    Ok(Told { text: answer, seen })
}

/// `bootstrap`.
pub fn bootstrap<R: Threads + Sync, G: Gate, C: Cell + Drop + Send>(
    replication: &mut Replication<C>,
    rt: &R,
    alloc: Global,
    gate: &G,
    workers: u32,
    header: &Header,
    reader: ClusterNo,
    source: ClusterNo,
) -> Result<Told, OutOfMemory>
    requires workers { 0 < workers }
    requires clusters { AreTwoClusters header.now reader source }
    requires orderly { IsOrderly header.now replication.old }
    requires allowed { MayDoAll C.allows header.now reader (late_jobs header.now reader source replication.old) replication.old }
    ensures { IfOk result (λ answer. leaving replication.new answer ≡ bootstrap_step header.now reader source replication.old) }
{
    let domains = late_count(replication, reader, source);
    let done = replication.bootstrap(rt, alloc, gate, workers, header, reader, source)?;
    let mut dones = Vec::new(alloc);
    dones.push(done)?;
    let Telling { tally, seen } = tell_all(alloc, dones)?;
    let answer = ndc_world_answers::brought(alloc, domains, tally)?;
    Ok(Told { text: answer, seen })
}

/// A settlement: what its jobs came to, and what they made learned.
pub fn settlement<R: Threads + Sync, G: Gate, C: Cell + Drop + Send>(
    replication: &mut Replication<C>,
    rt: &R,
    alloc: Global,
    gate: &G,
    workers: u32,
    header: &Header,
) -> Result<Telling, OutOfMemory>
    requires workers { 0 < workers }
    requires orderly { IsOrderly header.now replication.old }
    requires allowed { MaySettle C.allows header.now replication.old }
    ensures world { OnOk result (replication.new ≡ (after_settlement header.now replication.old).world) }
    ensures tally { IfOk result (λ telling. telling.tally ≡ tally_of (after_settlement header.now replication.old).notes) }
    ensures seen { IfOk result (λ telling. telling.seen.items ≡ seen_of (after_settlement header.now replication.old).notes) }
{
    let dones = replication.settle(rt, alloc, gate, workers, header)?;
    let telling = tell_all(alloc, dones)?;
    Ok(telling)
}

/// `settle`.
pub fn settle<R: Threads + Sync, G: Gate, C: Cell + Drop + Send>(
    replication: &mut Replication<C>,
    rt: &R,
    alloc: Global,
    gate: &G,
    workers: u32,
    header: &Header,
) -> Result<Told, OutOfMemory>
    requires workers { 0 < workers }
    requires orderly { IsOrderly header.now replication.old }
    requires allowed { MaySettle C.allows header.now replication.old }
    ensures { IfOk result (λ answer. leaving replication.new answer ≡ settle_step header.now replication.old) }
{
    let Telling { tally, seen } = settlement(replication, rt, alloc, gate, workers, header)?;
    let answer = ndc_world_answers::settled(alloc, tally)?;
    Ok(Told { text: answer, seen })
}

/// Of how many domains a reader is a member late, as to a source.
fn late_count<C: Cell + Drop>(
    replication: &Replication<C>,
    reader: ClusterNo,
    source: ClusterNo,
) -> u64
    ensures { result ≡ length (link_at reader source replication.now).late }
{
    match link_of(replication, reader, source) {
        Some(link) => link.late().len() as u64,
        None => 0,
    }
}
