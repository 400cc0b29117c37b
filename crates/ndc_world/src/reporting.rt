ghost use Rattle.std.specs.Prelude.{◌≡◌, ◌<◌, ◌^◌, [], length, map, slice_index_or, true, IfOk};
ghost use Rattle.std.specs.List.{AllByRecursion};
ghost use Rattle.ndc_script_types.specs.WellFormed.{IsCluster, IsWellFormedAct, IsWellFormedHeader};
ghost use Rattle.ndc_model.specs.Bare.{is_on_reports};
ghost use Rattle.ndc_model.specs.Standing.{IsLeftBy, StandFor};
ghost use Rattle.ndc_domain.specs.Clusters.{count_of};
ghost use Rattle.ndc_domain.specs.declared.clusters.ClusterNo.{ClusterNo as Number};
ghost use Rattle.ndc_model.specs.Fair.{IsShaped};
ghost use Rattle.ndc_event.specs.declared.name.Name.{Name as Text};
ghost use Rattle.ndc_model.specs.Lines.{act_step};
ghost use Rattle.ndc_model.specs.Reading.{learned_at};
ghost use Rattle.ndc_model.specs.World.{World, all_clusters};
ghost use Rattle.ndc_model_sets.specs.Sound.{IsSound};

use ndc_cluster_reads::Reads;
use ndc_event::OutOfMemory;
use ndc_progress::Reports;
use ndc_script_types::{Act, Header};
use ndc_world_replication::Replication;
use ndc_world_steps::{Told, answered, reports};
use std::alloc::Global;

/// Whether a line tells of activities, takes reports over or shows one.
pub(crate) fn is_on_reports(act: &Act) -> bool
    ensures { result ≡ is_on_reports act.now }
{
    matches!(
        act,
        Act::Beat { .. } | Act::Sync { .. } | Act::ProgressOf { .. }
    )
}

/// No cluster of a header holds a report.
pub(crate) fn no_reports(alloc: Global, header: &Header) -> Result<Reports, OutOfMemory>
    ensures { IfOk result (λ reports. reports ≡ map (λ _. []) (all_clusters header.now)) }
{
    let reports = Reports::new(alloc, header.clusters.count() as usize)?;
    Ok(reports)
}

/// What a line on progress reports asks for is done.
#[tactic(auto, unfolding(ndc_model::specs::Lines::act_step))]
pub(crate) fn report<C: Reads + Drop>(
    replication: &Replication<C>,
    reports: &mut Reports,
    alloc: Global,
    header: &Header,
    act: &Act,
) -> Result<Told, OutOfMemory>
    requires header { IsWellFormedHeader header.now }
    requires act { IsWellFormedAct header.now act.now }
    requires on { is_on_reports act.now ≡ true }
    requires shaped { IsShaped header.now replication.now }
    requires sound { (cluster : Number) (domain workflow : Text) → IsCluster header.now cluster → IsSound (learned_at header.now cluster domain workflow replication.now) }
    requires seats { length reports.old ≡ count_of header.now.clusters }
    requires beats { (cluster : Number) → IsCluster header.now cluster → AllByRecursion (λ report. report.beat < 10 ^ 12) (slice_index_or reports.old cluster.number []) }
    ensures { IfOk result (λ answer. (w : World) → StandFor replication.now reports.old w → IsLeftBy (act_step header.now act.now w) replication.now reports.new answer.text answer.seen) }
{
    match act {
        Act::Beat {
            cluster,
            domain,
            workflow,
            id,
            details,
        } => reports::beat(
            replication,
            reports,
            alloc,
            header,
            *cluster,
            domain,
            workflow,
            id,
            details,
        ),
        Act::Sync { to, from } => reports::sync(replication, reports, alloc, *to, *from),
        Act::ProgressOf {
            cluster,
            domain,
            workflow,
            id,
        } => {
            let text = reports::progress(
                replication,
                reports,
                alloc,
                header,
                *cluster,
                domain,
                workflow,
                id,
            )?;
            Ok(answered(alloc, text))
        }
        _ => unreachable!(),
    }
}
