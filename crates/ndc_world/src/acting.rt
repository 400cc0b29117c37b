ghost use Rattle.std.specs.Prelude.{◌≡◌, ◌<◌, false, true, IfOk};
ghost use Rattle.ndc_script_types.specs.WellFormed.{IsWellFormedAct, IsWellFormedHeader};
ghost use Rattle.ndc_model.specs.Bare.{is_on_reports};
ghost use Rattle.ndc_model.specs.Allowed.{LineIsAllowed};
ghost use Rattle.ndc_model.specs.Facts.{IsReached};
ghost use Rattle.ndc_model.specs.Lines.{act_step};
ghost use Rattle.ndc_model.specs.Steps.{answered};
ghost use Rattle.ndc_world_steps.specs.Told.{leaving};
ghost use Rattle.ndc_world.specs.Reading.{is_read};

use ndc_cluster_reads::Reads;
use ndc_event::OutOfMemory;
use ndc_port::Gate;
use ndc_script_types::{Act, Header};
use ndc_world_answers::AnswerText;
use ndc_world_queries::{gaps, reading};
use ndc_world_replication::Replication;
use ndc_world_steps::{Told, answered, domains, handovers, lanes, letters, moving, writing};
use std::alloc::Global;
use std::thread::Threads;

/// What a line asks for is done: a line that is not a burst.
#[tactic(auto, unfolding(ndc_model::specs::Lines::act_step))]
pub(crate) fn act<R: Threads + Sync, G: Gate, C: Reads + Drop + Send>(
    replication: &mut Replication<C>,
    rt: &R,
    alloc: Global,
    gate: &G,
    workers: u32,
    header: &Header,
    lines: u64,
    act: &Act,
) -> Result<Told, OutOfMemory>
    requires workers { 0 < workers }
    requires header { IsWellFormedHeader header.now }
    requires act { IsWellFormedAct header.now act.now }
    requires other { is_on_reports act.now ≡ false }
    requires reached { IsReached header.now lines replication.old }
    requires allowed { LineIsAllowed C.allows header.now act.now replication.old }
    ensures { IfOk result (λ answer. leaving replication.new answer ≡ act_step header.now act.now replication.old) }
{
    match act {
        Act::Command {
            cluster,
            domain,
            workflow,
            command,
        } => writing::command(
            replication,
            rt,
            alloc,
            gate,
            workers,
            header,
            *cluster,
            domain,
            workflow,
            command,
        ),
        Act::Burst { .. } => Ok(answered(alloc, AnswerText::empty(alloc))),
        Act::Register {
            at,
            domain,
            target,
            days,
            members,
        } => domains::register(
            replication,
            alloc,
            header,
            *at,
            domain,
            *target,
            *days,
            *members,
        ),
        Act::Retain { at, domain, days } => domains::retain(replication, alloc, *at, domain, *days),
        Act::Join { at, domain, member } => domains::join(replication, alloc, *at, domain, *member),
        Act::Failover { at, domain, target } => {
            domains::failover(replication, alloc, header, *at, domain, *target)
        }
        Act::Domains { to, from } => domains::domains(replication, alloc, *to, *from),
        Act::Pull { reader, source } => lanes::pull(replication, alloc, header, *reader, *source),
        Act::PullSome {
            reader,
            source,
            shard,
            count,
        } => lanes::pull_some(replication, alloc, header, *reader, *source, *shard, *count),
        Act::Lose {
            reader,
            source,
            shard,
            place,
        } => lanes::lose(replication, alloc, *reader, *source, *shard, *place),
        Act::Repeat {
            reader,
            source,
            shard,
            place,
        } => lanes::repeat(replication, alloc, *reader, *source, *shard, *place),
        Act::Move {
            reader,
            source,
            shard,
            place,
            to,
        } => lanes::move_to(replication, alloc, *reader, *source, *shard, *place, *to),
        Act::Work { cluster } => {
            moving::work(replication, rt, alloc, gate, workers, header, *cluster)
        }
        Act::Rewind { reader, source } => lanes::rewind(replication, alloc, *reader, *source),
        Act::Trim { source } => lanes::trim(replication, alloc, header, *source),
        Act::Resend { cluster } => {
            moving::resend(replication, rt, alloc, gate, workers, header, *cluster)
        }
        Act::Bootstrap { reader, source } => {
            moving::bootstrap(
                replication,
                rt,
                alloc,
                gate,
                workers,
                header,
                *reader,
                *source,
            )
        }
        Act::Settle => moving::settle(replication, rt, alloc, gate, workers, header),
        Act::Handover { at, domain, target } => {
            handovers::handover(replication, alloc, header, *at, domain, *target)
        }
        Act::Complete { at, domain } => {
            handovers::complete(replication, alloc, header, *at, domain)
        }
        Act::Reset {
            cluster,
            domain,
            workflow,
            event,
        } => writing::reset(
            replication,
            rt,
            alloc,
            gate,
            workers,
            header,
            *cluster,
            domain,
            workflow,
            *event,
        ),
        Act::Damage {
            reader,
            source,
            shard,
            place,
            cut,
        } => letters::damage(replication, alloc, *reader, *source, *shard, *place, *cut),
        Act::Purge { reader } => letters::purge(replication, alloc, *reader),
        Act::MergeLetters { reader } => {
            letters::merge(replication, rt, alloc, gate, workers, header, *reader)
        }
        _ => Ok(answered(alloc, read(replication, alloc, header, lines, act)?)),
    }
}

/// What a line answers that changes nothing.
#[tactic(auto, unfolding(ndc_model::specs::Lines::act_step))]
fn read<C: Reads + Drop>(
    replication: &Replication<C>,
    alloc: Global,
    header: &Header,
    lines: u64,
    act: &Act,
) -> Result<AnswerText, OutOfMemory>
    requires header { IsWellFormedHeader header.now }
    requires act { IsWellFormedAct header.now act.now }
    requires read { is_read act.now ≡ true }
    requires reached { IsReached header.now lines replication.now }
    ensures { IfOk result (λ text. answered replication.now text ≡ act_step header.now act.now replication.now) }
{
    match act {
        Act::Domain { at, domain } => domains::domain(replication, alloc, header, *at, domain),
        Act::MembersOf { at, domain } => domains::members(replication, alloc, header, *at, domain),
        Act::LevelsOf {
            reader,
            source,
            shard,
        } => lanes::levels(replication, alloc, header, *reader, *source, *shard),
        Act::Gaps { cluster } => gaps::gaps(replication, alloc, header, *cluster),
        Act::History {
            cluster,
            domain,
            workflow,
        } => reading::history(replication, alloc, header, *cluster, domain, workflow),
        Act::Branches {
            cluster,
            domain,
            workflow,
        } => reading::branches(replication, alloc, header, *cluster, domain, workflow),
        Act::Current {
            cluster,
            domain,
            workflow,
        } => reading::current(replication, alloc, header, *cluster, domain, workflow),
        Act::StateOf {
            cluster,
            domain,
            workflow,
        } => reading::state(replication, alloc, header, *cluster, domain, workflow),
        Act::Dump {
            cluster,
            domain,
            workflow,
        } => reading::dump(replication, alloc, header, *cluster, domain, workflow),
        Act::Compare {
            one,
            two,
            domain,
            workflow,
        } => reading::compare(replication, alloc, header, *one, *two, domain, workflow),
        Act::LettersOf { reader } => letters::letters(replication, alloc, header, *reader),
        _ => unreachable!(),
    }
}
