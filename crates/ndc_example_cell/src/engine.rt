//! Two cells of two clusters by hand: what one writes it sends to the other, as it likes.
ghost use Rattle.std.specs.List.{AllByRecursion};
ghost use Rattle.std.specs.Prelude.{◌≡◌, ◌+◌, ◌≤◌, IfOk, OnOk};
ghost use Rattle.ndc_example_cell.specs.Shared.{AreShared, CanTell};
ghost use Rattle.ndc_model_cells.specs.Arrival.{arrived_at};
ghost use Rattle.ndc_model_cells.specs.Cells.{learned_of};
ghost use Rattle.ndc_shard.specs.Loading.{IsSentBy, handed};

use ndc_command::{Command, Refusal};
use ndc_domain::{ClusterNo, Clusters, DomainTable};
use ndc_event::{BatchKey, Name, OutOfMemory};
use ndc_model_cells::Message;
use ndc_shard::{Arrived, Home, Shard, ShardError, Written};
use ndc_state::Steps;
use std::alloc::{AllocError, Global};

/// The most events that a history may have.
const LIMIT: u64 = 100;

/// How many events, and tasks, a command adds at most.
pub(crate) const GROWTH: u64 = LIMIT + 4;

/// Marks the counters of steps of this program.
struct Replay;

/// The workflow of which two cells hold batches, the clusters that they are of, and how many events, and tasks, they hold
/// at most: an engine counts them.
#[derive(Drop)]
pub(crate) struct Shared<'a> {
    pub clusters: &'a Clusters,
    pub domain: &'a Name,
    pub workflow: &'a Name,
    pub me: ClusterNo,
    pub them: ClusterNo,
    pub most: u64,
}

/// Where the cells of a cluster stand.
pub(crate) fn home_of(clusters: &Clusters, me: ClusterNo) -> Home<'_>
    ensures { result ≡ record { clusters = clusters.now; me = me; limit = 100 } }
{
    Home {
        clusters,
        me,
        limit: LIMIT,
    }
}

/// A cell writes what a command asks for, or refuses it.
pub(crate) fn write(
    mine: &mut Shard,
    theirs: &Shard,
    shared: &Shared,
    table: &DomainTable,
    command: &Command,
) -> Result<Result<Written, Refusal>, OutOfMemory>
    requires shared { AreShared shared.now.clusters.now shared.now.me shared.now.them shared.now.most shared.now.domain.now shared.now.workflow.now mine.old theirs.now }
    requires room { shared.now.most ≤ 1000000 }
    ensures { OnOk result (AreShared shared.now.clusters.now shared.now.me shared.now.them (shared.now.most + 104) shared.now.domain.now shared.now.workflow.now mine.new theirs.now) }
{
    let home = home_of(shared.clusters, shared.me);
    let mut steps: Steps<Replay> = Steps::new();
    mine.is_in_order();
    let written = mine.command(
        &home,
        table,
        shared.domain,
        shared.workflow,
        command,
        &mut steps,
    );
    match written {
        Ok(written) => Ok(Ok(written)),
        Err(ShardError::Refused(refusal)) => Ok(Err(refusal)),
        Err(ShardError::Memory) => Err(AllocError),
    }
}

/// A new run of a cell's workflow repeats the current one up to an event, or the cell refuses it.
pub(crate) fn reset(
    mine: &mut Shard,
    theirs: &Shard,
    shared: &Shared,
    table: &DomainTable,
    event: u64,
) -> Result<Result<Written, Refusal>, OutOfMemory>
    requires { AreShared shared.now.clusters.now shared.now.me shared.now.them shared.now.most shared.now.domain.now shared.now.workflow.now mine.old theirs.now }
{
    let home = home_of(shared.clusters, shared.me);
    let mut steps: Steps<Replay> = Steps::new();
    let written = mine.reset(
        &home,
        table,
        shared.domain,
        shared.workflow,
        event,
        &mut steps,
    );
    match written {
        Ok(written) => Ok(Ok(written)),
        Err(ShardError::Refused(refusal)) => Ok(Err(refusal)),
        Err(ShardError::Memory) => Err(AllocError),
    }
}

/// A message of what one cell has learned comes to the other.
fn hear(
    mine: &Shard,
    theirs: &mut Shard,
    shared: &Shared,
    message: &Message,
) -> Result<Arrived, OutOfMemory>
    requires shared { AreShared shared.now.clusters.now shared.now.me shared.now.them shared.now.most shared.now.domain.now shared.now.workflow.now mine.now theirs.old }
    requires sent { IsSentBy mine.now message.now }
    ensures { OnOk result (AreShared shared.now.clusters.now shared.now.me shared.now.them shared.now.most shared.now.domain.now shared.now.workflow.now mine.now theirs.new) }
{
    let mut steps: Steps<Replay> = Steps::new();
    mine.is_in_order();
    theirs.is_in_order();
    let arrived = theirs.arrive(message, &mut steps)?;
    Ok(arrived)
}

/// The same, of a message that nobody needs any more: it is let go here.
fn hear_last(
    mine: &Shard,
    theirs: &mut Shard,
    shared: &Shared,
    message: Message,
) -> Result<Arrived, OutOfMemory>
    requires shared { AreShared shared.now.clusters.now shared.now.me shared.now.them shared.now.most shared.now.domain.now shared.now.workflow.now mine.now theirs.old }
    requires sent { IsSentBy mine.now message }
    ensures { OnOk result (AreShared shared.now.clusters.now shared.now.me shared.now.them shared.now.most shared.now.domain.now shared.now.workflow.now mine.now theirs.new) }
{
    hear(mine, theirs, shared, &message)
}

/// Messages of what one cell has learned come to the other, in order.
fn hear_all(
    mine: &Shard,
    theirs: &mut Shard,
    shared: &Shared,
    messages: &[Message],
) -> Result<(), OutOfMemory>
    requires shared { AreShared shared.now.clusters.now shared.now.me shared.now.them shared.now.most shared.now.domain.now shared.now.workflow.now mine.now theirs.old }
    requires sent { AllByRecursion (IsSentBy mine.now) messages.now }
    ensures { OnOk result (AreShared shared.now.clusters.now shared.now.me shared.now.them shared.now.most shared.now.domain.now shared.now.workflow.now mine.now theirs.new) }
{
    for message in messages {
        hear(mine, theirs, shared, message)?;
    }
    Ok(())
}

/// One cell tells the other the batch of a key, where it has learned it: what comes of it.
pub(crate) fn tell(
    mine: &Shard,
    theirs: &mut Shard,
    shared: &Shared,
    key: BatchKey,
) -> Result<Option<Arrived>, OutOfMemory>
    requires { AreShared shared.now.clusters.now shared.now.me shared.now.them shared.now.most shared.now.domain.now shared.now.workflow.now mine.now theirs.old }
    ensures { OnOk result (AreShared shared.now.clusters.now shared.now.me shared.now.them shared.now.most shared.now.domain.now shared.now.workflow.now mine.now theirs.new) }
{
    mine.is_in_order();
    let Some(message) = mine.message(shared.domain, shared.workflow, key)? else {
        return Ok(None);
    };
    let arrived = hear_last(mine, theirs, shared, message)?;
    Ok(Some(arrived))
}

/// A cell is served for what it has put off by the other one: for how many gaps.
pub(crate) fn repair(
    mine: &Shard,
    theirs: &mut Shard,
    shared: &Shared,
) -> Result<usize, OutOfMemory>
    requires { AreShared shared.now.clusters.now shared.now.me shared.now.them shared.now.most shared.now.domain.now shared.now.workflow.now mine.now theirs.old }
    ensures { OnOk result (AreShared shared.now.clusters.now shared.now.me shared.now.them shared.now.most shared.now.domain.now shared.now.workflow.now mine.now theirs.new) }
{
    let gaps = theirs.gaps()?;
    for gap in gaps.as_slice() {
        mine.is_in_order();
        let served = mine.serve(gap)?;
        hear_all(mine, theirs, shared, served.as_slice())?;
    }
    Ok(gaps.len())
}

/// A message of what one cell has learned comes to another, which only reads.
fn learn(
    mine: &Shard,
    copy: &mut Shard,
    shared: &Shared,
    message: &Message,
) -> Result<Arrived, OutOfMemory>
    requires told { CanTell shared.now.most shared.now.domain.now shared.now.workflow.now mine.now copy.old }
    requires sent { IsSentBy mine.now message.now }
    ensures cell { OnOk result (copy.new ≡ arrived_at message.now copy.old) }
    ensures told { OnOk result (CanTell shared.now.most shared.now.domain.now shared.now.workflow.now mine.now copy.new) }
{
    let mut steps: Steps<Replay> = Steps::new();
    mine.is_in_order();
    copy.is_in_order();
    let arrived = copy.arrive(message, &mut steps)?;
    Ok(arrived)
}

/// All these come to it, in order.
fn learn_all(
    mine: &Shard,
    copy: &mut Shard,
    shared: &Shared,
    messages: &[Message],
) -> Result<(), OutOfMemory>
    requires told { CanTell shared.now.most shared.now.domain.now shared.now.workflow.now mine.now copy.old }
    requires sent { AllByRecursion (IsSentBy mine.now) messages.now }
    ensures { OnOk result (copy.new ≡ handed messages.now copy.old) }
{
    for message in messages {
        learn(mine, copy, shared, message)?;
    }
    Ok(())
}

/// A new cell is made of all that a cell has learned of the domain, as an engine does that loads its state again. It has
/// learned the same of the workflow.
pub(crate) fn remake(
    alloc: Global,
    mine: &Shard,
    theirs: &Shard,
    shared: &Shared,
) -> Result<Shard, OutOfMemory>
    requires { AreShared shared.now.clusters.now shared.now.me shared.now.them shared.now.most shared.now.domain.now shared.now.workflow.now mine.now theirs.now }
    ensures { IfOk result (λ copy. learned_of shared.now.domain.now shared.now.workflow.now copy ≡ learned_of shared.now.domain.now shared.now.workflow.now mine.now) }
{
    let home = home_of(shared.clusters, shared.them);
    let mut copy = Shard::new(alloc, &home)?;
    mine.is_in_order();
    let messages = mine.all_of(shared.domain)?;
    learn_all(mine, &mut copy, shared, messages.as_slice())?;
    Ok(copy)
}

/// Signals that a cell's current run has not seen are applied again: how many batches are written.
pub(crate) fn reapply(
    mine: &mut Shard,
    theirs: &Shard,
    shared: &Shared,
    table: &DomainTable,
) -> Result<usize, OutOfMemory>
    requires { AreShared shared.now.clusters.now shared.now.me shared.now.them shared.now.most shared.now.domain.now shared.now.workflow.now mine.old theirs.now }
{
    let home = home_of(shared.clusters, shared.me);
    let mut steps: Steps<Replay> = Steps::new();
    let places = mine.reapply(&home, table, &mut steps)?;
    Ok(places.len())
}
