ghost use Rattle.std.specs.Prelude.{◌≡◌, ◌<◌, IfOk};
ghost use Rattle.std.specs.List.{AllByRecursion};
ghost use Rattle.ndc_script_types.specs.WellFormed.{IsCluster};
ghost use Rattle.ndc_model.specs.Fair.{IsShaped};
ghost use Rattle.ndc_model.specs.Reading.{branches_answer, compare_answer, current_answer, dump_answer, history_answer, learned_at, read_answer, state_answer};
ghost use Rattle.ndc_text.specs.Ranges.{InRange};

use ndc_cluster_reads::Reads;
use ndc_domain::ClusterNo;
use ndc_event::{Name, OutOfMemory};
use ndc_script_types::Header;
use ndc_world_answers::AnswerText;
use ndc_world_replication::Replication;
use ndc_world_replication::publishers::runs_of;
use std::alloc::Global;

/// `history`.
pub fn history<C: Reads + Drop>(
    replication: &Replication<C>,
    alloc: Global,
    header: &Header,
    cluster: ClusterNo,
    domain: &Name,
    workflow: &Name,
) -> Result<AnswerText, OutOfMemory>
    requires shards { 0 < header.now.shards }
    requires cluster { IsCluster header.now cluster }
    requires shaped { IsShaped header.now replication.now }
    ensures { IfOk result (λ text. text ≡ read_answer history_answer (learned_at header.now cluster domain.now workflow.now replication.now)) }
{
    match runs_of(replication, header, cluster, domain, workflow) {
        Some(runs) => crate::queries::history(alloc, runs),
        None => ndc_world_answers::no_workflow(alloc),
    }
}

/// `branches`.
pub fn branches<C: Reads + Drop>(
    replication: &Replication<C>,
    alloc: Global,
    header: &Header,
    cluster: ClusterNo,
    domain: &Name,
    workflow: &Name,
) -> Result<AnswerText, OutOfMemory>
    requires shards { 0 < header.now.shards }
    requires cluster { IsCluster header.now cluster }
    requires shaped { IsShaped header.now replication.now }
    ensures { IfOk result (λ text. text ≡ read_answer branches_answer (learned_at header.now cluster domain.now workflow.now replication.now)) }
{
    match runs_of(replication, header, cluster, domain, workflow) {
        Some(runs) => crate::queries::branches(alloc, runs),
        None => ndc_world_answers::no_workflow(alloc),
    }
}

/// `current`.
pub fn current<C: Reads + Drop>(
    replication: &Replication<C>,
    alloc: Global,
    header: &Header,
    cluster: ClusterNo,
    domain: &Name,
    workflow: &Name,
) -> Result<AnswerText, OutOfMemory>
    requires shards { 0 < header.now.shards }
    requires cluster { IsCluster header.now cluster }
    requires shaped { IsShaped header.now replication.now }
    ensures { IfOk result (λ text. text ≡ read_answer current_answer (learned_at header.now cluster domain.now workflow.now replication.now)) }
{
    match runs_of(replication, header, cluster, domain, workflow) {
        Some(runs) => crate::queries::current(alloc, runs),
        None => ndc_world_answers::no_workflow(alloc),
    }
}

/// `state`.
pub fn state<C: Reads + Drop>(
    replication: &Replication<C>,
    alloc: Global,
    header: &Header,
    cluster: ClusterNo,
    domain: &Name,
    workflow: &Name,
) -> Result<AnswerText, OutOfMemory>
    requires shards { 0 < header.now.shards }
    requires cluster { IsCluster header.now cluster }
    requires shaped { IsShaped header.now replication.now }
    ensures { IfOk result (λ text. text ≡ read_answer state_answer (learned_at header.now cluster domain.now workflow.now replication.now)) }
{
    match runs_of(replication, header, cluster, domain, workflow) {
        Some(runs) => crate::queries::state(alloc, runs),
        None => ndc_world_answers::no_workflow(alloc),
    }
}

/// `dump`.
pub fn dump<C: Reads + Drop>(
    replication: &Replication<C>,
    alloc: Global,
    header: &Header,
    cluster: ClusterNo,
    domain: &Name,
    workflow: &Name,
) -> Result<AnswerText, OutOfMemory>
    requires shards { 0 < header.now.shards }
    requires cluster { IsCluster header.now cluster }
    requires shaped { IsShaped header.now replication.now }
    ensures { IfOk result (λ text. text ≡ read_answer (dump_answer domain.now workflow.now) (learned_at header.now cluster domain.now workflow.now replication.now)) }
{
    match runs_of(replication, header, cluster, domain, workflow) {
        Some(runs) => crate::queries::dump(alloc, domain, workflow, runs),
        None => ndc_world_answers::no_workflow(alloc),
    }
}

/// `compare`. The numbers of what both have learned are in the ranges of batch texts.
pub fn compare<C: Reads + Drop>(
    replication: &Replication<C>,
    alloc: Global,
    header: &Header,
    one: ClusterNo,
    two: ClusterNo,
    domain: &Name,
    workflow: &Name,
) -> Result<AnswerText, OutOfMemory>
    requires shards { 0 < header.now.shards }
    requires one { IsCluster header.now one }
    requires two { IsCluster header.now two }
    requires shaped { IsShaped header.now replication.now }
    requires range_one { AllByRecursion InRange (learned_at header.now one domain.now workflow.now replication.now) }
    requires range_two { AllByRecursion InRange (learned_at header.now two domain.now workflow.now replication.now) }
    ensures { IfOk result (λ text. text ≡ compare_answer domain.now workflow.now (learned_at header.now one domain.now workflow.now replication.now) (learned_at header.now two domain.now workflow.now replication.now)) }
{
    let first = runs_of(replication, header, one, domain, workflow);
    let second = runs_of(replication, header, two, domain, workflow);
    crate::comparing::compare(alloc, domain, workflow, first, second)
}
