ghost use Rattle.std.specs.Prelude.{◌≡◌, ◌≢◌, ◌<◌, ◌^◌, All, length, IfOk, IfSome};
ghost use Rattle.std.specs.List.{AllByRecursion};
ghost use Rattle.ndc_domain.specs.Clusters.{count_of};
ghost use Rattle.ndc_domain.specs.Records.{failover_of, join_of, record_of, register_of, retain_of};
ghost use Rattle.ndc_model.specs.Tables.{domain_answer, domains_step, failover_words, join_step, members_answer, register_words, retain_words, table_step};
ghost use Rattle.ndc_model.specs.World.{cluster_at};
ghost use Rattle.ndc_world_steps.specs.Told.{leaving};

use crate::told::{Told, answered};
use ndc_cluster::Cell;
use ndc_domain::{ClusterNo, DomainError, Members};
use ndc_event::{Name, OutOfMemory};
use ndc_script_types::Header;
use ndc_world_answers::AnswerText;
use ndc_world_replication::Replication;
use ndc_world_replication::publishers::table_of;
use std::alloc::{AllocError, Global};

/// `register`.
pub fn register<C: Cell + Drop>(
    replication: &mut Replication<C>,
    alloc: Global,
    header: &Header,
    at: ClusterNo,
    domain: &Name,
    target: ClusterNo,
    days: u32,
    members: Members,
) -> Result<Told, OutOfMemory>
    requires at { at.number < length replication.old.clusters }
    requires members { All (λ member. member < count_of header.now.clusters) members }
    ensures { IfOk result (λ answer. leaving replication.new answer
        ≡ table_step register_words at replication.old (register_of header.now.clusters at domain.now target days members (cluster_at at replication.old).table)) }
{
    match replication.register(header, at, domain, target, days, members) {
        Ok(version) => Ok(answered(alloc, ndc_world_answers::counted(alloc, version)?)),
        Err(DomainError::Memory) => Err(AllocError),
        Err(error) => Ok(answered(alloc, ndc_world_answers::register_refused(alloc, error)?)),
    }
}

/// `retain`.
pub fn retain<C: Cell + Drop>(
    replication: &mut Replication<C>,
    alloc: Global,
    at: ClusterNo,
    domain: &Name,
    days: u32,
) -> Result<Told, OutOfMemory>
    requires at { at.number < length replication.old.clusters }
    requires config { IfSome (record_of (cluster_at at replication.old).table domain.now) (λ old. old.config < 10 ^ 12) }
    ensures { IfOk result (λ answer. leaving replication.new answer ≡ table_step retain_words at replication.old (retain_of at domain.now days (cluster_at at replication.old).table)) }
{
    match replication.retain(at, domain, days) {
        Ok(config) => Ok(answered(alloc, ndc_world_answers::counted(alloc, config)?)),
        Err(error) => Ok(answered(alloc, ndc_world_answers::retain_refused(alloc, error)?)),
    }
}

/// `failover`.
pub fn failover<C: Cell + Drop>(
    replication: &mut Replication<C>,
    alloc: Global,
    header: &Header,
    at: ClusterNo,
    domain: &Name,
    target: ClusterNo,
) -> Result<Told, OutOfMemory>
    requires at { at.number < length replication.old.clusters }
    ensures { IfOk result (λ answer. leaving replication.new answer ≡ table_step failover_words at replication.old (failover_of header.now.clusters domain.now target (cluster_at at replication.old).table)) }
{
    match replication.fail_over(header, at, domain, target) {
        Ok(version) => Ok(answered(alloc, ndc_world_answers::counted(alloc, version)?)),
        Err(error) => Ok(answered(alloc, ndc_world_answers::failover_refused(alloc, error)?)),
    }
}

/// `join`.
pub fn join<C: Cell + Drop>(
    replication: &mut Replication<C>,
    alloc: Global,
    at: ClusterNo,
    domain: &Name,
    member: ClusterNo,
) -> Result<Told, OutOfMemory>
    requires at { at.number < length replication.old.clusters }
    requires member { member.number < 8 }
    ensures { IfOk result (λ answer. leaving replication.new answer ≡ join_step at replication.old (join_of at domain.now member (cluster_at at replication.old).table)) }
{
    match replication.join(at, domain, member)? {
        Ok(()) => Ok(answered(alloc, ndc_world_answers::done(alloc)?)),
        Err(error) => Ok(answered(alloc, ndc_world_answers::join_refused(alloc, error)?)),
    }
}

/// `domains`.
pub fn domains<C: Cell + Drop>(
    replication: &mut Replication<C>,
    alloc: Global,
    to: ClusterNo,
    from: ClusterNo,
) -> Result<Told, OutOfMemory>
    requires to { to.number < length replication.old.clusters }
    requires from { from.number < length replication.old.clusters }
    requires apart { to.number ≢ from.number }
    ensures { IfOk result (λ answer. leaving replication.new answer ≡ domains_step to from replication.old) }
{
    let count = replication.merge(alloc, to, from)?;
    Ok(answered(alloc, ndc_world_answers::counted(alloc, count)?))
}

/// `domain`.
pub fn domain<C: Cell + Drop>(
    replication: &Replication<C>,
    alloc: Global,
    header: &Header,
    at: ClusterNo,
    domain: &Name,
) -> Result<AnswerText, OutOfMemory>
    requires at { at.number < length replication.now.clusters }
    ensures { IfOk result (λ text. text ≡ domain_answer header.now (record_of (cluster_at at replication.now).table domain.now)) }
{
    let known = table_of(replication, at).find(domain);
    ndc_world_answers::domain(alloc, header, known)
}

/// `members`.
pub fn members<C: Cell + Drop>(
    replication: &Replication<C>,
    alloc: Global,
    header: &Header,
    at: ClusterNo,
    domain: &Name,
) -> Result<AnswerText, OutOfMemory>
    requires at { at.number < length replication.now.clusters }
    requires members { IfSome (record_of (cluster_at at replication.now).table domain.now) (λ one. AllByRecursion (λ number. number < count_of header.now.clusters) one.members) }
    ensures { IfOk result (λ text. text ≡ members_answer header.now (record_of (cluster_at at replication.now).table domain.now)) }
{
    let known = table_of(replication, at).find(domain);
    ndc_world_answers::members(alloc, header, known)
}
