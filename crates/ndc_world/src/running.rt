//! A line of a script's text is run, on clusters and on the progress reports beside them.
ghost use Rattle.std.specs.Prelude.{◌≡◌, ℕ, ◌<◌, ◌+◌, ◌≤◌, ◌^◌, ◌++◌, [], ◌∷◌, All, codes, decimal, false, true, length, map, slice_index_or, IfOk};
ghost use Rattle.std.specs.List.{AllByRecursion};
ghost use Rattle.ndc_script_types.specs.WellFormed.{IsCluster, IsWellFormedAct, IsWellFormedHeader, IsWellFormedJob};
ghost use Rattle.ndc_domain.specs.Clusters.{count_of};
ghost use Rattle.ndc_domain.specs.declared.clusters.ClusterNo.{ClusterNo as Number};
ghost use Rattle.ndc_event.specs.declared.name.Name.{Name as Text};
ghost use Rattle.ndc_model.specs.Bare.{is_on_reports};
ghost use Rattle.ndc_model.specs.Standing.{StandFor};
ghost use Rattle.ndc_model.specs.Facts.{IsReached};
ghost use Rattle.ndc_model.specs.Fair.{IsShaped};
ghost use Rattle.ndc_model.specs.Laws.{is_refusal};
ghost use Rattle.ndc_model.specs.Lines.{job_line, lines_of_act, ran_from};
ghost use Rattle.ndc_model.specs.Reading.{learned_at};
ghost use Rattle.ndc_model.specs.World.{World};
ghost use Rattle.ndc_model_sets.specs.Sound.{IsSound};
ghost use Rattle.ndc_world.specs.Counts.{one_if};
ghost use Rattle.ndc_world.specs.Running.{HaveRun};
ghost use Rattle.ndc_world.specs.Standing.{IsBehind, IsStanding};

use crate::acting::act;
use crate::answer::Answer;
use crate::bursts::burst;
use crate::reporting::{is_on_reports, report};
use ndc_cluster_reads::Reads;
use ndc_domain::ClusterNo;
use ndc_event::OutOfMemory;
use ndc_port::Gate;
use ndc_progress::Reports;
use ndc_script_types::{Act, BurstJob, Header, Line};
use ndc_world_replication::Replication;
use ndc_world_steps::Told;
use std::alloc::Global;
use std::thread::Threads;

/// How many lines what a line of the text asks for has: those of a burst, or one.
pub(crate) fn line_count(asked: &Act) -> u64
    ensures { (number : ℕ) → result ≡ length (lines_of_act number asked.now) }
{
    match asked {
        Act::Burst { jobs, .. } => jobs.as_slice().len() as u64,
        _ => 1,
    }
}

/// The answer of a line that is not a burst, after its number; and how many answers are refusals, none or one.
fn one_answer(alloc: Global, number: u64, told: Told) -> Result<(Answer, u64), OutOfMemory>
    ensures text { IfOk result (λ answer. answer.0.text ≡ decimal number ++ codes " " ++ told.text) }
    ensures seen { IfOk result (λ answer. answer.0.seen ≡ told.seen) }
    ensures refused { IfOk result (λ answer. answer.1 ≡ one_if (is_refusal told.text)) }
{
    let Told { text: answer, seen } = told;
    let refused = u64::from(answer.is_refusal());
    let text = answer.behind_number(alloc, number)?;
    Ok((Answer { text, seen }, refused))
}

/// Runs a line that is not a burst and not on progress reports.
fn run_one<R: Threads + Sync, G: Gate, C: Reads + Drop + Send>(
    replication: &mut Replication<C>,
    rt: &R,
    alloc: Global,
    gate: &G,
    workers: u32,
    header: &Header,
    lines: u64,
    number: u64,
    asked: &Act,
) -> Result<(Answer, u64), OutOfMemory>
    requires workers { 0 < workers }
    requires header { IsWellFormedHeader header.now }
    requires act { IsWellFormedAct header.now asked.now }
    requires other { is_on_reports asked.now ≡ false }
    requires one { lines_of_act number asked.now ≡ record { number = number; act = asked.now } ∷ [] }
    requires lines { lines < 100000 }
    requires reached { IsReached header.now lines replication.old }
    ensures { IfOk result (λ told. HaveRun (ran_from header.now replication.old (lines_of_act number asked.now)) replication.old replication.new told.0.text told.0.seen told.1) }
{
    let answer = act(replication, rt, alloc, gate, workers, header, lines, asked)?;
    let told = one_answer(alloc, number, answer)?;
    Ok(told)
}

/// Runs the lines in a burst, side by side.
fn run_burst<R: Threads + Sync, G: Gate, C: Reads + Drop + Send>(
    replication: &mut Replication<C>,
    rt: &R,
    alloc: Global,
    gate: &G,
    workers: u32,
    header: &Header,
    lines: u64,
    cluster: ClusterNo,
    jobs: &[BurstJob],
) -> Result<(Answer, u64), OutOfMemory>
    requires workers { 0 < workers }
    requires header { IsWellFormedHeader header.now }
    requires cluster { IsCluster header.now cluster }
    requires jobs { All IsWellFormedJob jobs.now }
    requires lines { lines + length jobs.now ≤ 100000 }
    requires reached { IsReached header.now lines replication.old }
    ensures { IfOk result (λ told. HaveRun (ran_from header.now replication.old (map (job_line cluster) jobs.now)) replication.old replication.new told.0.text told.0.seen told.1) }
{
    let told = burst(replication, rt, alloc, gate, workers, header, cluster, jobs)?;
    Ok(told)
}

/// Runs a line that is not on progress reports.
fn run_other<R: Threads + Sync, G: Gate, C: Reads + Drop + Send>(
    replication: &mut Replication<C>,
    rt: &R,
    alloc: Global,
    gate: &G,
    workers: u32,
    header: &Header,
    lines: u64,
    line: &Line,
) -> Result<(Answer, u64), OutOfMemory>
    requires workers { 0 < workers }
    requires header { IsWellFormedHeader header.now }
    requires act { IsWellFormedAct header.now line.now.act }
    requires other { is_on_reports line.now.act ≡ false }
    requires lines { lines + length (lines_of_act line.now.number line.now.act) ≤ 100000 }
    requires reached { IsReached header.now lines replication.old }
    ensures { IfOk result (λ told. HaveRun (ran_from header.now replication.old (lines_of_act line.now.number line.now.act)) replication.old replication.new told.0.text told.0.seen told.1) }
{
    match &line.act {
        Act::Burst { cluster, jobs } => {
            let jobs = jobs.as_slice();
            run_burst(
                replication,
                rt,
                alloc,
                gate,
                workers,
                header,
                lines,
                *cluster,
                jobs,
            )
        }
        asked => {
            let number = line.number;
            run_one(
                replication,
                rt,
                alloc,
                gate,
                workers,
                header,
                lines,
                number,
                asked,
            )
        }
    }
}

/// Runs a line on progress reports.
fn run_report<C: Reads + Drop>(
    replication: &Replication<C>,
    reports: &mut Reports,
    alloc: Global,
    header: &Header,
    number: u64,
    asked: &Act,
) -> Result<(Answer, u64), OutOfMemory>
    requires header { IsWellFormedHeader header.now }
    requires act { IsWellFormedAct header.now asked.now }
    requires on { is_on_reports asked.now ≡ true }
    requires shaped { IsShaped header.now replication.now }
    requires sound { (cluster : Number) (domain workflow : Text) → IsCluster header.now cluster → IsSound (learned_at header.now cluster domain workflow replication.now) }
    requires seats { length reports.old ≡ count_of header.now.clusters }
    requires beats { (cluster : Number) → IsCluster header.now cluster → AllByRecursion (λ report. report.beat < 10 ^ 12) (slice_index_or reports.old cluster.number []) }
    ensures { IfOk result (λ told. (w : World) → StandFor replication.now reports.old w
        → IsBehind header.now (record { number = number; act = asked.now }) w replication.now reports.new told.0.text told.0.seen told.1) }
{
    let answer = report(replication, reports, alloc, header, asked)?;
    let told = one_answer(alloc, number, answer)?;
    Ok(told)
}

/// Runs a line of the text; gives its answer, and how many of its answers are refusals. In each world for which clusters
/// and reports stand, the line answers this and makes this learned, and after it they represent the world that it
/// leaves.
pub(crate) fn run_line<R: Threads + Sync, G: Gate, C: Reads + Drop + Send>(
    replication: &mut Replication<C>,
    reports: &mut Reports,
    rt: &R,
    alloc: Global,
    gate: &G,
    workers: u32,
    header: &Header,
    lines: u64,
    line: &Line,
) -> Result<(Answer, u64), OutOfMemory>
    requires workers { 0 < workers }
    requires act { IsWellFormedAct header.now line.now.act }
    requires lines { lines + length (lines_of_act line.now.number line.now.act) ≤ 100000 }
    requires standing { IsStanding header.now lines replication.old reports.old }
    ensures { IfOk result (λ told. (w : World) → StandFor replication.old reports.old w
        → IsBehind header.now line.now w replication.new reports.new told.0.text told.0.seen told.1) }
{
    if is_on_reports(&line.act) {
        let told = run_report(replication, reports, alloc, header, line.number, &line.act)?;
        return Ok(told);
    }
    let told = run_other(replication, rt, alloc, gate, workers, header, lines, line)?;
    Ok(told)
}
