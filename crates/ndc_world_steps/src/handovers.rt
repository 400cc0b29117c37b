ghost use Rattle.std.specs.Prelude.{◌≡◌, ◌<◌, ◌≤◌, [], ◌∷◌, decimal, length, is_some, find, option_copied, position, IfOk, OnOk};
ghost use Rattle.std.specs.List.{AllByRecursion, list_any};
ghost use Rattle.std.specs.Str.{bytes_eq};
ghost use Rattle.ndc_script_types.specs.WellFormed.{IsCluster};
ghost use Rattle.ndc_graceful.specs.Begin.{begin_of};
ghost use Rattle.ndc_graceful.specs.Ready.{ready_of};
ghost use Rattle.ndc_domain.specs.Records.{record_of};
ghost use Rattle.ndc_model.specs.Fair.{IsShaped};
ghost use Rattle.ndc_model.specs.Handovers.{complete_by, complete_step, handed_over, handover_begun, handover_step, is_handover_of, open_handover, queue_ends, ready_in, version_or_zero, with_handover};
ghost use Rattle.ndc_model.specs.Steps.{answered};
ghost use Rattle.ndc_model.specs.Texts.{ok};
ghost use Rattle.ndc_model.specs.World.{cluster_at, link_at};
ghost use Rattle.ndc_world_steps.specs.Links.{IsBetween, is_handover_to, is_late_by, levels_by};
ghost use Rattle.ndc_world_steps.specs.Told.{leaving};

use crate::told::{Told, answered};
use ndc_cluster::Cell;
use ndc_cluster_links::Link;
use ndc_domain::{ClusterNo, DomainTable};
use ndc_event::{Name, OutOfMemory};
use ndc_graceful::{BeginError, Handover, ReadyError};
use ndc_queue::Levels;
use ndc_script_types::Header;
use ndc_world_replication::Replication;
use ndc_world_replication::publishers::{link_of, queue_of, table_of};
use std::alloc::{AllocError, Global};

/// Whether one of these handovers is of a domain.
fn has_handover(handovers: &[Handover], domain: &Name) -> bool
    ensures { result ≡ list_any (is_handover_of domain.now) handovers.now }
{
    handovers.iter().any(|handover| handover.domain == *domain)
}

/// Whether a handover of a domain is open.
#[tactic(auto, using(ndc_world_replication::proofs::FindLemmas::any_found))]
fn is_open<C: Cell + Drop>(replication: &Replication<C>, domain: &Name) -> bool
    ensures { result ≡ is_some (open_handover domain.now replication.now) }
{
    has_handover(replication.handovers(), domain)
}

/// Where the queues of a cluster end, by shard.
fn queue_ends<C: Cell + Drop>(
    replication: &Replication<C>,
    alloc: Global,
    header: &Header,
    cluster: ClusterNo,
) -> Result<Vec<u64>, OutOfMemory>
    requires cluster { IsCluster header.now cluster }
    requires shaped { IsShaped header.now replication.now }
    ensures { IfOk result (λ ends. ends.items ≡ queue_ends header.now cluster replication.now) }
{
    let mut ends = Vec::new(alloc);
    for shard in 0..header.shards {
        ends.push(queue_of(replication, cluster, shard).len())?;
    }
    Ok(ends)
}

/// A handover begins, where none of the domain is open.
fn begin<C: Cell + Drop>(
    replication: &mut Replication<C>,
    alloc: Global,
    header: &Header,
    at: ClusterNo,
    domain: &Name,
    target: ClusterNo,
) -> Result<Told, OutOfMemory>
    requires at { IsCluster header.now at }
    requires shaped { IsShaped header.now replication.old }
    ensures { IfOk result (λ answer. leaving replication.new answer
        ≡ handover_begun at replication.old (begin_of header.now.clusters at domain.now target (queue_ends header.now at replication.old) (cluster_at at replication.old).table)) }
{
    let places = queue_ends(replication, alloc, header, at)?;
    match replication.begin_handover(header, at, domain, target, places) {
        Ok(begun) => open(replication, alloc, begun),
        Err(BeginError::Memory) => Err(AllocError),
        Err(error) => Ok(answered(alloc, ndc_world_answers::begin_refused(alloc, error)?)),
    }
}

/// A handover that has begun is opened.
fn open<C: Cell + Drop>(
    replication: &mut Replication<C>,
    alloc: Global,
    begun: Handover,
) -> Result<Told, OutOfMemory>
    ensures { IfOk result (λ answer. leaving replication.new answer ≡ answered (with_handover begun replication.old) (ok (decimal begun.new ∷ []))) }
{
    let new = begun.new;
    replication.open_handover(begun)?;
    Ok(answered(alloc, ndc_world_answers::counted(alloc, new)?))
}

/// `handover`.
pub fn handover<C: Cell + Drop>(
    replication: &mut Replication<C>,
    alloc: Global,
    header: &Header,
    at: ClusterNo,
    domain: &Name,
    target: ClusterNo,
) -> Result<Told, OutOfMemory>
    requires at { IsCluster header.now at }
    requires shaped { IsShaped header.now replication.old }
    ensures { IfOk result (λ answer. leaving replication.new answer ≡ handover_step header.now at domain.now target replication.old) }
{
    if is_open(replication, domain) {
        return Ok(answered(alloc, ndc_world_answers::still_open(alloc)?));
    }
    begin(replication, alloc, header, at, domain, target)
}

/// Whether a handover is of a domain, and to a target.
fn is_to(handover: &Handover, target: ClusterNo, domain: &Name) -> bool
    ensures { result ≡ is_handover_to target domain.now handover.now }
{
    handover.domain == *domain && handover.to.number == target.number
}

/// Where it stands among handovers.
fn handover_place(handovers: &[Handover], target: ClusterNo, domain: &Name) -> Option<usize>
    ensures { result ≡ position (is_handover_to target domain.now) handovers.now }
{
    handovers.iter().position(|one| is_to(one, target, domain))
}

/// The open handover of a domain to a target, where there is one.
fn find_handover<'a>(
    handovers: &'a [Handover],
    target: ClusterNo,
    domain: &Name,
) -> Option<&'a Handover>
    ensures { option_copied result ≡ find (is_handover_to target domain.now) handovers.now }
{
    let Some(place) = handover_place(handovers, target, domain) else {
        return None;
    };
    Some(&handovers[place])
}

/// A copy of it.
fn handover_to(
    handovers: &[Handover],
    target: ClusterNo,
    domain: &Name,
) -> Result<Option<Handover>, OutOfMemory>
    ensures { IfOk result (λ found. found ≡ find (is_handover_to target domain.now) handovers.now) }
{
    match find_handover(handovers, target, domain) {
        Some(handover) => Ok(Some(handover.try_copy()?)),
        None => Ok(None),
    }
}

/// The levels of a reader for the queues of a source, by shard.
fn levels_of(alloc: Global, link: Option<&Link>) -> Result<Vec<Levels>, OutOfMemory>
    ensures { IfOk result (λ levels. levels.items ≡ levels_by (option_copied link.entry)) }
{
    let mut levels = Vec::new(alloc);
    if let Some(link) = link {
        for lane in link.lanes() {
            levels.push(*lane.levels())?;
        }
    }
    Ok(levels)
}

/// Whether the domain is one of these.
fn has_domain(names: &[Name], domain: &Name) -> bool
    ensures { result ≡ list_any (λ name. bytes_eq name domain.now) names.now }
{
    names.iter().any(|name| *name == *domain)
}

/// Whether a domain is one of those that the reader of a link still lacks.
fn is_late(link: Option<&Link>, domain: &Name) -> bool
    ensures { result ≡ is_late_by domain.now (option_copied link.entry) }
{
    match link {
        Some(link) => has_domain(link.late(), domain),
        None => false,
    }
}

/// Whether a handover is ready by these levels, or what keeps it.
fn ready_by(
    handover: &Handover,
    levels: &[Levels],
    late: bool,
    table: &DomainTable,
) -> Result<(), ReadyError>
    requires alike { length levels.now ≡ length handover.now.places }
    requires few { length handover.now.places ≤ 64 }
    ensures { result ≡ ready_of handover.now levels.now late table.now }
{
    handover.ready(levels, late, table)
}

/// Whether a handover is ready, or what keeps it.
fn ready_in<C: Cell + Drop>(
    replication: &Replication<C>,
    alloc: Global,
    handover: &Handover,
) -> Result<Result<(), ReadyError>, OutOfMemory>
    requires to { handover.now.to.number < length replication.now.clusters }
    requires places { length (link_at handover.now.to handover.now.from replication.now).lanes ≡ length handover.now.places }
    requires few { length handover.now.places ≤ 64 }
    ensures { IfOk result (λ ready. ready ≡ ready_in handover.now replication.now) }
{
    let link = link_of(replication, handover.to, handover.from);
    let levels = levels_of(alloc, link)?;
    let late = is_late(link, &handover.domain);
    let table = table_of(replication, handover.to);
    Ok(ready_by(handover, levels.as_slice(), late, table))
}

/// The target merges the one record, and the handover ends.
fn hand_over<C: Cell + Drop>(
    replication: &mut Replication<C>,
    alloc: Global,
    handover: &Handover,
) -> Result<(), OutOfMemory>
    requires to { handover.now.to.number < length replication.old.clusters }
    requires from { handover.now.from.number < length replication.old.clusters }
    ensures { OnOk result (replication.new ≡ handed_over handover.now replication.old) }
{
    replication.merge_record(alloc, handover.to, handover.from, &handover.domain)?;
    replication.close_handover(&handover.domain);
    Ok(())
}

/// The version of the record of a domain, 0 where there is none.
fn version_of(table: &DomainTable, domain: &Name) -> u64
    ensures { result ≡ version_or_zero (record_of table.now domain.now) }
{
    match table.find(domain) {
        Some(record) => record.version,
        None => 0,
    }
}

/// A handover is completed where it is ready.
fn complete_by<C: Cell + Drop>(
    replication: &mut Replication<C>,
    alloc: Global,
    handover: &Handover,
    ready: Result<(), ReadyError>,
) -> Result<Told, OutOfMemory>
    requires to { handover.now.to.number < length replication.old.clusters }
    requires from { handover.now.from.number < length replication.old.clusters }
    ensures { IfOk result (λ answer. leaving replication.new answer ≡ complete_by handover.now replication.old ready) }
{
    match ready {
        Ok(()) => {
            hand_over(replication, alloc, handover)?;
            let version = version_of(table_of(replication, handover.to), &handover.domain);
            Ok(answered(alloc, ndc_world_answers::counted(alloc, version)?))
        }
        Err(error) => {
            if let ReadyError::Overtaken { .. } = error {
                replication.close_handover(&handover.domain);
            }
            Ok(answered(alloc, ndc_world_answers::ready_refused(alloc, error)?))
        }
    }
}

/// The target completes a handover to it, which is between clusters of the header and has a place for each shard.
fn complete_one<C: Cell + Drop>(
    replication: &mut Replication<C>,
    alloc: Global,
    header: &Header,
    handover: &Handover,
) -> Result<Told, OutOfMemory>
    requires shaped { IsShaped header.now replication.old }
    requires few { header.now.shards ≤ 64 }
    requires fit { IsBetween header.now handover.now }
    ensures { IfOk result (λ answer. leaving replication.new answer ≡ complete_by handover.now replication.old (ready_in handover.now replication.old)) }
{
    let ready = ready_in(replication, alloc, handover)?;
    complete_by(replication, alloc, handover, ready)
}

/// `complete`. Each open handover is between clusters of the header and has a place for each shard. That the target has
/// learned all of the old version by then is
/// `ndc_laws::handover_laws::at_the_end_of_a_handover_all_of_the_old_version_is_learned`.
pub fn complete<C: Cell + Drop>(
    replication: &mut Replication<C>,
    alloc: Global,
    header: &Header,
    at: ClusterNo,
    domain: &Name,
) -> Result<Told, OutOfMemory>
    requires shaped { IsShaped header.now replication.old }
    requires few { header.now.shards ≤ 64 }
    requires fit { AllByRecursion (IsBetween header.now) replication.old.handovers }
    ensures { IfOk result (λ answer. leaving replication.new answer ≡ complete_step at domain.now replication.old) }
{
    let Some(handover) = handover_to(replication.handovers(), at, domain)? else {
        return Ok(answered(alloc, ndc_world_answers::no_handover(alloc)?));
    };
    complete_one(replication, alloc, header, &handover)
}
