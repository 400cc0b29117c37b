ghost use Rattle.std.specs.Prelude.{◌≡◌, ◌<◌, ◌^◌, [], Ok, Result, slice_set, length, option_copied, slice_index_or, IfOk, OnOk};
ghost use Rattle.std.specs.List.{AllByRecursion};
ghost use Rattle.ndc_script_types.specs.WellFormed.{IsCluster};
ghost use Rattle.ndc_model.specs.Reporting.{shown_of, told_at, told_by};
ghost use Rattle.ndc_model.specs.Standing.{IsLeftBy, StandFor};
ghost use Rattle.ndc_command.specs.declared.refusal.CommandError.TheVariants.{Memory};
ghost use Rattle.ndc_command.specs.declared.refusal.CommandError.{CommandError as CommandFault};
ghost use Rattle.ndc_event.specs.Outcome.{Gives};
ghost use Rattle.ndc_model.specs.Fair.{IsShaped};
ghost use Rattle.ndc_progress.specs.declared.report.ActivityRef.{ActivityRef as Reference};
ghost use Rattle.ndc_model.specs.Progress.{activity_answer, beat_step, progress_answer, sync_step};
ghost use Rattle.ndc_model.specs.Reading.{learned_at};
ghost use Rattle.ndc_model.specs.World.{World};
ghost use Rattle.ndc_model_sets.specs.Sound.{IsSound};
ghost use Rattle.ndc_progress.specs.Reports.{stale_by};
ghost use Rattle.ndc_world_steps.specs.Told.{only_answer};

use crate::activities::{pending_activity, told_of};
use crate::told::{Told, answered};
use ndc_cluster_reads::Reads;
use ndc_command::CommandError;
use ndc_domain::ClusterNo;
use ndc_event::{Name, OutOfMemory};
use ndc_progress::{ActivityRef, Progress, Report, Reports};
use ndc_script_types::Header;
use ndc_shard_runs::Runs;
use ndc_world_answers::AnswerText;
use ndc_world_replication::Replication;
use ndc_world_replication::publishers::{may_write, runs_of};
use std::alloc::{AllocError, Global};

/// The version of a held report that is above another one.
fn stale_by(version: u64, held: Option<&Report>) -> Option<u64>
    ensures { result ≡ stale_by version (option_copied held.entry) }
{
    match held {
        Some(report) if version < report.version => Some(report.version),
        _ => None,
    }
}

/// A cluster is told of an activity, where the held report has no greater version.
fn tell(
    alloc: Global,
    reports: &mut Reports,
    cluster: usize,
    version: u64,
    activity: ActivityRef,
    details: &Name,
) -> Result<Told, OutOfMemory>
    requires cluster { cluster < length reports.old }
    requires beats { AllByRecursion (λ report. report.beat < 10 ^ 12) (slice_index_or reports.old cluster []) }
    ensures answer { IfOk result (λ answer. answer ≡ only_answer (told_by details.now (slice_index_or reports.old cluster []) (Ok (version, activity))).answer) }
    ensures reports { OnOk result (reports.new ≡ slice_set reports.old cluster (told_by details.now (slice_index_or reports.old cluster []) (Ok (version, activity))).reports) }
{
    if let Some(stale) = stale_by(version, reports.of(cluster).find(&activity)) {
        return Ok(answered(alloc, ndc_world_answers::stale(alloc, stale)?));
    }
    let beat = reports.tell(cluster, activity, version, details.try_copy()?)?;
    Ok(answered(alloc, ndc_world_answers::beaten(alloc, version, beat)?))
}

/// The version with which a cluster may tell of an activity of a workflow of which this is learned, and the activity.
fn told_with<C: Reads + Drop>(
    replication: &Replication<C>,
    alloc: Global,
    header: &Header,
    cluster: ClusterNo,
    domain: &Name,
    workflow: &Name,
    id: &Name,
    runs: &Runs,
) -> Result<(u64, ActivityRef), CommandError>
    requires shards { 0 < header.now.shards }
    requires cluster { IsCluster header.now cluster }
    requires shaped { IsShaped header.now replication.now }
    requires runs { runs.now ≡ learned_at header.now cluster domain.now workflow.now replication.now }
    requires sound { IsSound runs.now }
    ensures { Gives Memory (λ told. told) result (told_at header.now cluster domain.now workflow.now id.now replication.now) }
{
    let may = may_write(replication, header, cluster, domain, workflow);
    told_of(alloc, domain, workflow, id, may, runs)
}

/// The version with which a cluster may tell of an activity of a workflow, and the activity.
fn told_at<C: Reads + Drop>(
    replication: &Replication<C>,
    alloc: Global,
    header: &Header,
    cluster: ClusterNo,
    domain: &Name,
    workflow: &Name,
    id: &Name,
) -> Result<(u64, ActivityRef), CommandError>
    requires shards { 0 < header.now.shards }
    requires cluster { IsCluster header.now cluster }
    requires shaped { IsShaped header.now replication.now }
    requires sound { IsSound (learned_at header.now cluster domain.now workflow.now replication.now) }
    ensures { Gives Memory (λ told. told) result (told_at header.now cluster domain.now workflow.now id.now replication.now) }
{
    match runs_of(replication, header, cluster, domain, workflow) {
        Some(runs) => told_with(
            replication,
            alloc,
            header,
            cluster,
            domain,
            workflow,
            id,
            runs,
        ),
        None => {
            let none = Runs::new(alloc);
            told_with(
                replication,
                alloc,
                header,
                cluster,
                domain,
                workflow,
                id,
                &none,
            )
        }
    }
}

/// `beat`. The reports that clusters hold stand beside them. What is learned of the workflow is sound. In time of the
/// versions on the current branch.
pub fn beat<C: Reads + Drop>(
    replication: &Replication<C>,
    reports: &mut Reports,
    alloc: Global,
    header: &Header,
    cluster: ClusterNo,
    domain: &Name,
    workflow: &Name,
    id: &Name,
    details: &Name,
) -> Result<Told, OutOfMemory>
    requires shards { 0 < header.now.shards }
    requires cluster { IsCluster header.now cluster }
    requires shaped { IsShaped header.now replication.now }
    requires sound { IsSound (learned_at header.now cluster domain.now workflow.now replication.now) }
    requires seat { cluster.number < length reports.old }
    requires beats { AllByRecursion (λ report. report.beat < 10 ^ 12) (slice_index_or reports.old cluster.number []) }
    ensures { IfOk result (λ answer. (w : World) → StandFor replication.now reports.old w
        → IsLeftBy (beat_step header.now cluster domain.now workflow.now id.now details.now w) replication.now reports.new answer.text answer.seen) }
{
    match told_at(replication, alloc, header, cluster, domain, workflow, id) {
        Ok((version, activity)) => {
            let place = cluster.number as usize;
            let answer = tell(alloc, reports, place, version, activity, details)?;
            Ok(answer)
        }
        Err(CommandError::Refused(why)) => {
            Ok(answered(alloc, ndc_world_answers::refusal(alloc, why)?))
        }
        Err(CommandError::Memory) => Err(AllocError),
    }
}

/// `sync`.
pub fn sync<C: Reads + Drop>(
    replication: &Replication<C>,
    reports: &mut Reports,
    alloc: Global,
    to: ClusterNo,
    from: ClusterNo,
) -> Result<Told, OutOfMemory>
    requires to { to.number < length reports.old }
    requires from { from.number < length reports.old }
    ensures { IfOk result (λ answer. (w : World) → StandFor replication.now reports.old w → IsLeftBy (sync_step to from w) replication.now reports.new answer.text answer.seen) }
{
    let count = reports.take_over(to.number as usize, from.number as usize)?;
    Ok(answered(alloc, ndc_world_answers::counted(alloc, count)?))
}

/// What is held of a pending activity, or why there is none.
fn activity_shown(
    alloc: Global,
    own: &Progress,
    activity: Result<ActivityRef, CommandError>,
) -> Result<AnswerText, OutOfMemory>
    ensures { IfOk result (λ text. (r : Result Reference CommandFault) → Gives Memory (λ a. a) activity r → text ≡ activity_answer own.now r) }
{
    match activity {
        Ok(activity) => ndc_world_answers::report(alloc, own.find(&activity)),
        Err(CommandError::Refused(why)) => ndc_world_answers::refusal(alloc, why),
        Err(CommandError::Memory) => Err(AllocError),
    }
}

/// What is shown of an activity, where this is learned of its workflow.
fn shown(
    alloc: Global,
    own: &Progress,
    domain: &Name,
    workflow: &Name,
    id: &Name,
    runs: &Runs,
) -> Result<AnswerText, OutOfMemory>
    requires { IsSound runs.now }
    ensures { IfOk result (λ text. text ≡ shown_of domain.now workflow.now id.now own.now runs.now) }
{
    if runs.is_empty() {
        return ndc_world_answers::no_workflow(alloc);
    }
    let Some(tip) = runs.tip() else {
        return Ok(AnswerText::empty(alloc));
    };
    let Some(state) = runs.state() else {
        return Ok(AnswerText::empty(alloc));
    };
    let activity = pending_activity(alloc, domain, workflow, id, runs, tip, state);
    activity_shown(alloc, own, activity)
}

/// What is shown of an activity of a workflow.
fn shown_at<C: Reads + Drop>(
    replication: &Replication<C>,
    alloc: Global,
    own: &Progress,
    header: &Header,
    cluster: ClusterNo,
    domain: &Name,
    workflow: &Name,
    id: &Name,
) -> Result<AnswerText, OutOfMemory>
    requires shards { 0 < header.now.shards }
    requires cluster { IsCluster header.now cluster }
    requires shaped { IsShaped header.now replication.now }
    requires sound { IsSound (learned_at header.now cluster domain.now workflow.now replication.now) }
    ensures { IfOk result (λ text. text ≡ shown_of domain.now workflow.now id.now own.now (learned_at header.now cluster domain.now workflow.now replication.now)) }
{
    match runs_of(replication, header, cluster, domain, workflow) {
        Some(runs) => shown(alloc, own, domain, workflow, id, runs),
        None => ndc_world_answers::no_workflow(alloc),
    }
}

/// `progress`. What is learned of the workflow is sound. In time of the versions on the current branch.
pub fn progress<C: Reads + Drop>(
    replication: &Replication<C>,
    reports: &Reports,
    alloc: Global,
    header: &Header,
    cluster: ClusterNo,
    domain: &Name,
    workflow: &Name,
    id: &Name,
) -> Result<AnswerText, OutOfMemory>
    requires shards { 0 < header.now.shards }
    requires cluster { IsCluster header.now cluster }
    requires shaped { IsShaped header.now replication.now }
    requires sound { IsSound (learned_at header.now cluster domain.now workflow.now replication.now) }
    requires seat { cluster.number < length reports.now }
    ensures { IfOk result (λ text. (w : World) → StandFor replication.now reports.now w → text ≡ progress_answer header.now cluster domain.now workflow.now id.now w) }
{
    let own = reports.of(cluster.number as usize);
    let text = shown_at(
        replication,
        alloc,
        own,
        header,
        cluster,
        domain,
        workflow,
        id,
    )?;
    Ok(text)
}
