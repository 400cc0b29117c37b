ghost use Rattle.std.specs.Prelude.{◌≡◌, ◌<◌, [], IfOk};
ghost use Rattle.ndc_script_types.specs.WellFormed.{AreTwoClusters, IsCluster};
ghost use Rattle.ndc_model.specs.Moves.{rewound};
ghost use Rattle.ndc_model.specs.Sending.{levels_answer, lose_step, move_step, pull_some_step, pull_step, repeat_step, trim_step};
ghost use Rattle.ndc_model.specs.Steps.{answered};
ghost use Rattle.ndc_model.specs.Texts.{ok};
ghost use Rattle.ndc_world_replication.specs.Orderly.{IsOrderly};
ghost use Rattle.ndc_world_steps.specs.Told.{leaving};

use crate::told::{Told, answered};
use ndc_cluster::Cell;
use ndc_domain::ClusterNo;
use ndc_event::OutOfMemory;
use ndc_queue::FlightError;
use ndc_script_types::Header;
use ndc_world_answers::AnswerText;
use ndc_world_replication::Replication;
use ndc_world_replication::publishers::{flight_of, levels_of, queue_of};
use std::alloc::{AllocError, Global};

/// `pull` for every shard.
pub fn pull<C: Cell + Drop>(
    replication: &mut Replication<C>,
    alloc: Global,
    header: &Header,
    reader: ClusterNo,
    source: ClusterNo,
) -> Result<Told, OutOfMemory>
    requires source { IsCluster header.now source }
    requires orderly { IsOrderly header.now replication.old }
    ensures { IfOk result (λ answer. leaving replication.new answer ≡ pull_step reader source replication.old) }
{
    let sent = replication.pull(header, reader, source)?;
    Ok(answered(alloc, ndc_world_answers::counted(alloc, sent)?))
}

/// `pull` for one shard.
pub fn pull_some<C: Cell + Drop>(
    replication: &mut Replication<C>,
    alloc: Global,
    header: &Header,
    reader: ClusterNo,
    source: ClusterNo,
    shard: u32,
    count: u64,
) -> Result<Told, OutOfMemory>
    requires ends { AreTwoClusters header.now reader source }
    requires shard { shard < header.now.shards }
    requires orderly { IsOrderly header.now replication.old }
    ensures { IfOk result (λ answer. leaving replication.new answer ≡ pull_some_step reader source shard count replication.old) }
{
    let sent = replication.pull_some(header, reader, source, shard, count)?;
    Ok(answered(alloc, ndc_world_answers::counted(alloc, sent)?))
}

/// `lose`.
pub fn lose<C: Cell + Drop>(
    replication: &mut Replication<C>,
    alloc: Global,
    reader: ClusterNo,
    source: ClusterNo,
    shard: u32,
    place: usize,
) -> Result<Told, OutOfMemory>
    ensures { IfOk result (λ answer. leaving replication.new answer ≡ lose_step reader source shard place replication.old) }
{
    let answer = match replication.lose(reader, source, shard as usize, place) {
        Ok(()) => ndc_world_answers::done(alloc)?,
        Err(_) => ndc_world_answers::no_place(alloc)?,
    };
    Ok(answered(alloc, answer))
}

/// `repeat`.
pub fn repeat<C: Cell + Drop>(
    replication: &mut Replication<C>,
    alloc: Global,
    reader: ClusterNo,
    source: ClusterNo,
    shard: u32,
    place: usize,
) -> Result<Told, OutOfMemory>
    ensures { IfOk result (λ answer. leaving replication.new answer ≡ repeat_step reader source shard place replication.old) }
{
    let answer = match replication.repeat(reader, source, shard as usize, place) {
        Ok(()) => ndc_world_answers::done(alloc)?,
        Err(FlightError::NoSuchPlace) => ndc_world_answers::no_place(alloc)?,
        Err(FlightError::Memory) => return Err(AllocError),
    };
    Ok(answered(alloc, answer))
}

/// `move`.
pub fn move_to<C: Cell + Drop>(
    replication: &mut Replication<C>,
    alloc: Global,
    reader: ClusterNo,
    source: ClusterNo,
    shard: u32,
    place: usize,
    to: usize,
) -> Result<Told, OutOfMemory>
    ensures { IfOk result (λ answer. leaving replication.new answer ≡ move_step reader source shard place to replication.old) }
{
    let answer = match replication.move_to(reader, source, shard as usize, place, to) {
        Ok(()) => ndc_world_answers::done(alloc)?,
        Err(_) => ndc_world_answers::no_place(alloc)?,
    };
    Ok(answered(alloc, answer))
}

/// `rewind`.
pub fn rewind<C: Cell + Drop>(
    replication: &mut Replication<C>,
    alloc: Global,
    reader: ClusterNo,
    source: ClusterNo,
) -> Result<Told, OutOfMemory>
    ensures { IfOk result (λ answer. leaving replication.new answer ≡ answered (rewound reader source replication.old) (ok [])) }
{
    replication.rewind(reader, source);
    Ok(answered(alloc, ndc_world_answers::done(alloc)?))
}

/// `trim`.
pub fn trim<C: Cell + Drop>(
    replication: &mut Replication<C>,
    alloc: Global,
    header: &Header,
    source: ClusterNo,
) -> Result<Told, OutOfMemory>
    requires source { IsCluster header.now source }
    requires orderly { IsOrderly header.now replication.old }
    ensures { IfOk result (λ answer. leaving replication.new answer ≡ trim_step header.now source replication.old) }
{
    let dropped = replication.trim(header, source);
    Ok(answered(alloc, ndc_world_answers::counted(alloc, dropped)?))
}

/// `levels`.
pub fn levels<C: Cell + Drop>(
    replication: &Replication<C>,
    alloc: Global,
    header: &Header,
    reader: ClusterNo,
    source: ClusterNo,
    shard: u32,
) -> Result<AnswerText, OutOfMemory>
    requires source { IsCluster header.now source }
    requires shard { shard < header.now.shards }
    requires orderly { IsOrderly header.now replication.now }
    ensures { IfOk result (λ text. text ≡ levels_answer reader source shard replication.now) }
{
    let queue = queue_of(replication, source, shard);
    let levels = levels_of(replication, reader, source, shard);
    let flight = flight_of(replication, reader, source, shard).len() as u64;
    ndc_world_answers::levels(alloc, queue.len(), queue.first(), levels, flight)
}
