//! What clusters have learned of a domain.
ghost use Rattle.std.specs.Prelude.{◌≡◌, ◌<◌, ◌++◌, false, option_copied, IfOk, OnOk};
ghost use Rattle.std.specs.List.{flat_map};
ghost use Rattle.ndc_model.specs.Reading.{learned_at};
ghost use Rattle.ndc_model.specs.World.{cell_of};
ghost use Rattle.ndc_world_queries.specs.Same.{same_batches};
ghost use Rattle.ndc_world_replication.specs.Found.{batches_or_none};
ghost use Rattle.ndc_probe.specs.Learned.{workflows_text};
ghost use Rattle.ndc_probe.specs.Workflows.{differ_in, differs_text, dump_in, dumps_head, dumps_text, forks_in, forks_text, named_in, not_among, workflows_at, workflows_in, workflows_of_both};
ghost use Rattle.ndc_script_types.specs.WellFormed.{IsCluster, IsWellFormedHeader};

use crate::learned::{push_fork, push_lines_or_none, push_quoted, push_workflow, push_workflows};
use crate::names::is_among;
use crate::piece::{Piece, push_pieces};
use ndc_domain::ClusterNo;
use ndc_dump::dump_text;
use ndc_event::{Name, OutOfMemory};
use ndc_probe_questions::DomainAt;
use ndc_script_types::Header;
use ndc_shard::{Shard, shard_of};
use ndc_shard_runs::Runs;
use ndc_state::Steps;
use ndc_world::ShardWorld;
use ndc_world_queries::are_same;
use std::alloc::Global;

/// Marks the counters of steps of this program.
struct Probing;

/// The cell of a workflow at a cluster.
fn cell_of<'w, 'h>(
    world: &'w ShardWorld<'h>,
    header: &Header,
    cluster: ClusterNo,
    domain: &Name,
    workflow: &Name,
) -> &'w Shard
    requires unspent { world.now.spent ≡ false }
    requires header { world.now.header ≡ header.now }
    requires fit { IsWellFormedHeader header.now }
    requires cluster { IsCluster header.now cluster }
    ensures { result.now ≡ cell_of header.now cluster domain.now workflow.now world.now.world }
{
    let shard = shard_of(domain, workflow, header.shards);
    world.cluster(cluster.number).shard(shard)
}

/// What a cluster has learned of a workflow. There is none only where nothing is.
fn runs_at<'w, 'h>(
    world: &'w ShardWorld<'h>,
    header: &Header,
    cluster: ClusterNo,
    domain: &Name,
    workflow: &Name,
) -> Option<&'w Runs>
    requires unspent { world.now.spent ≡ false }
    requires header { world.now.header ≡ header.now }
    requires fit { IsWellFormedHeader header.now }
    requires cluster { IsCluster header.now cluster }
    ensures { batches_or_none (option_copied result) ≡ learned_at header.now cluster domain.now workflow.now world.now.world }
{
    cell_of(world, header, cluster, domain, workflow).runs(domain, workflow)
}

/// Adds those of workflows that are of a domain.
fn add_named(
    names: &mut Vec<Name>,
    domain: &Name,
    pairs: &[(Name, Name)],
) -> Result<(), OutOfMemory>
    ensures { OnOk result (names.new.items ≡ names.old.items ++ named_in domain.now pairs.now) }
{
    for pair in pairs {
        if pair.0 == *domain {
            names.push(pair.1.try_copy()?)?;
        }
    }
    Ok(())
}

/// Adds the workflows of a domain of which a cluster has learned something in a shard.
fn add_shard(
    names: &mut Vec<Name>,
    world: &ShardWorld,
    cluster: ClusterNo,
    domain: &Name,
    shard: u32,
) -> Result<(), OutOfMemory>
    requires unspent { world.now.spent ≡ false }
    requires cluster { IsCluster world.now.header cluster }
    requires shard { shard < world.now.header.shards }
    ensures { OnOk result (names.new.items ≡ names.old.items ++ workflows_in cluster domain.now world.now.world shard) }
{
    let pairs = world.cluster(cluster.number).shard(shard).workflows()?;
    add_named(names, domain, pairs.as_slice())
}

/// The workflows of a domain of which a cluster has learned something.
fn workflows_at(
    alloc: Global,
    header: &Header,
    world: &ShardWorld,
    cluster: ClusterNo,
    domain: &Name,
) -> Result<Vec<Name>, OutOfMemory>
    requires unspent { world.now.spent ≡ false }
    requires header { world.now.header ≡ header.now }
    requires cluster { IsCluster header.now cluster }
    ensures { IfOk result (λ names. names.items ≡ workflows_at header.now cluster domain.now world.now.world) }
{
    let mut names = Vec::new(alloc);
    for shard in 0..header.shards {
        add_shard(&mut names, world, cluster, domain, shard)?;
    }
    Ok(names)
}

/// Appends the workflows of a domain of which a cluster has learned something.
pub(crate) fn push_all_workflows(
    text: &mut Vec<u8>,
    alloc: Global,
    header: &Header,
    world: &ShardWorld,
    at: &DomainAt,
) -> Result<(), OutOfMemory>
    requires unspent { world.now.spent ≡ false }
    requires header { world.now.header ≡ header.now }
    requires cluster { IsCluster header.now at.now.cluster }
    ensures { OnOk result (text.new.items ≡ text.old.items ++ workflows_text (workflows_at header.now at.now.cluster at.now.domain world.now.world)) }
{
    let names = workflows_at(alloc, header, world, at.cluster, &at.domain)?;
    push_workflows(text, names.as_slice())
}

/// Appends the runs of a workflow that have several branches.
fn push_forks_in(
    text: &mut Vec<u8>,
    alloc: Global,
    header: &Header,
    world: &ShardWorld,
    at: &DomainAt,
    workflow: &Name,
) -> Result<(), OutOfMemory>
    requires unspent { world.now.spent ≡ false }
    requires header { world.now.header ≡ header.now }
    requires fit { IsWellFormedHeader header.now }
    requires cluster { IsCluster header.now at.now.cluster }
    ensures { OnOk result (text.new.items ≡ text.old.items ++ forks_in header.now at.now.cluster at.now.domain world.now.world workflow.now) }
{
    let mut steps: Steps<Probing> = Steps::new();
    let Some(runs) = runs_at(world, header, at.cluster, &at.domain, workflow) else {
        return Ok(());
    };
    let shown = runs.runs_shown(alloc, &mut steps)?;
    for run in shown.as_slice() {
        push_fork(alloc, text, workflow, run)?;
    }
    Ok(())
}

/// The lines of the runs of workflows that have several branches.
fn forks_of(
    alloc: Global,
    header: &Header,
    world: &ShardWorld,
    at: &DomainAt,
    workflows: &[Name],
) -> Result<Vec<u8>, OutOfMemory>
    requires unspent { world.now.spent ≡ false }
    requires header { world.now.header ≡ header.now }
    requires fit { IsWellFormedHeader header.now }
    requires cluster { IsCluster header.now at.now.cluster }
    ensures { IfOk result (λ lines. lines.items ≡ flat_map (forks_in header.now at.now.cluster at.now.domain world.now.world) workflows.now) }
{
    let mut lines = Vec::new(alloc);
    for workflow in workflows {
        push_forks_in(&mut lines, alloc, header, world, at, workflow)?;
    }
    Ok(lines)
}

/// Appends the runs of a domain that have several branches at a cluster.
#[tactic(auto, unfolding(crate::specs::Workflows::forks_text))]
pub(crate) fn push_forks(
    text: &mut Vec<u8>,
    alloc: Global,
    header: &Header,
    world: &ShardWorld,
    at: &DomainAt,
) -> Result<(), OutOfMemory>
    requires unspent { world.now.spent ≡ false }
    requires header { world.now.header ≡ header.now }
    requires fit { IsWellFormedHeader header.now }
    requires cluster { IsCluster header.now at.now.cluster }
    ensures { OnOk result (text.new.items ≡ text.old.items ++ forks_text header.now at.now.cluster at.now.domain world.now.world) }
{
    let names = workflows_at(alloc, header, world, at.cluster, &at.domain)?;
    let lines = forks_of(alloc, header, world, at, names.as_slice())?;
    push_lines_or_none(
        text,
        b"no run has several branches\n",
        b"runs with several branches\n",
        lines.as_slice(),
    )
}

/// Appends the dump of a workflow.
fn push_dump(
    text: &mut Vec<u8>,
    alloc: Global,
    header: &Header,
    world: &ShardWorld,
    at: &DomainAt,
    workflow: &Name,
) -> Result<(), OutOfMemory>
    requires unspent { world.now.spent ≡ false }
    requires header { world.now.header ≡ header.now }
    requires fit { IsWellFormedHeader header.now }
    requires cluster { IsCluster header.now at.now.cluster }
    ensures { OnOk result (text.new.items ≡ text.old.items ++ dump_in header.now at.now.cluster at.now.domain world.now.world workflow.now) }
{
    let mut steps: Steps<Probing> = Steps::new();
    let cell = cell_of(world, header, at.cluster, &at.domain, workflow);
    match cell.view(&at.domain, workflow, &mut steps)? {
        Some(view) => {
            let dump = dump_text(alloc, &at.domain, workflow, &view)?;
            push_quoted(text, dump.as_slice())
        }
        None => Ok(()),
    }
}

/// Appends what stands before the dumps of a cluster.
#[tactic(auto, unfolding(crate::specs::Workflows::dumps_head))]
fn push_dumps_head(
    text: &mut Vec<u8>,
    header: &Header,
    cluster: ClusterNo,
) -> Result<(), OutOfMemory>
    requires { IsCluster header.now cluster }
    ensures { OnOk result (text.new.items ≡ text.old.items ++ dumps_head header.now cluster) }
{
    push_pieces(
        text,
        &[
            Piece::Plain("its dumps\n| cluster "),
            Piece::Bytes(header.clusters.name(cluster).as_bytes()),
            Piece::Plain("\n"),
        ],
    )
}

/// Appends the dumps of workflows.
fn push_dumps_of(
    text: &mut Vec<u8>,
    alloc: Global,
    header: &Header,
    world: &ShardWorld,
    at: &DomainAt,
    workflows: &[Name],
) -> Result<(), OutOfMemory>
    requires unspent { world.now.spent ≡ false }
    requires header { world.now.header ≡ header.now }
    requires fit { IsWellFormedHeader header.now }
    requires cluster { IsCluster header.now at.now.cluster }
    ensures { OnOk result (text.new.items ≡ text.old.items ++ flat_map (dump_in header.now at.now.cluster at.now.domain world.now.world) workflows.now) }
{
    for workflow in workflows {
        push_dump(text, alloc, header, world, at, workflow)?;
    }
    Ok(())
}

/// Appends the dumps of a domain at a cluster.
#[tactic(auto, unfolding(crate::specs::Workflows::dumps_text))]
pub(crate) fn push_dumps(
    text: &mut Vec<u8>,
    alloc: Global,
    header: &Header,
    world: &ShardWorld,
    at: &DomainAt,
) -> Result<(), OutOfMemory>
    requires unspent { world.now.spent ≡ false }
    requires header { world.now.header ≡ header.now }
    requires fit { IsWellFormedHeader header.now }
    requires cluster { IsCluster header.now at.now.cluster }
    ensures { OnOk result (text.new.items ≡ text.old.items ++ dumps_text header.now at.now.cluster at.now.domain world.now.world) }
{
    let names = workflows_at(alloc, header, world, at.cluster, &at.domain)?;
    push_dumps_head(text, header, at.cluster)?;
    push_dumps_of(text, alloc, header, world, at, names.as_slice())
}

/// Adds those of other workflows that are none of these.
fn add_others(names: &mut Vec<Name>, known: &[Name], others: &[Name]) -> Result<(), OutOfMemory>
    ensures { OnOk result (names.new.items ≡ names.old.items ++ not_among known.now others.now) }
{
    for other in others {
        if is_among(known, other) {
            continue;
        }
        names.push(other.try_copy()?)?;
    }
    Ok(())
}

/// Whether two clusters have learned the same of a workflow.
fn have_learned_the_same(
    alloc: Global,
    header: &Header,
    world: &ShardWorld,
    one: ClusterNo,
    two: ClusterNo,
    domain: &Name,
    workflow: &Name,
) -> Result<bool, OutOfMemory>
    requires unspent { world.now.spent ≡ false }
    requires header { world.now.header ≡ header.now }
    requires fit { IsWellFormedHeader header.now }
    requires one { IsCluster header.now one }
    requires two { IsCluster header.now two }
    ensures { IfOk result (λ same. same ≡ same_batches (learned_at header.now one domain.now workflow.now world.now.world) (learned_at header.now two domain.now workflow.now world.now.world)) }
{
    let first = runs_at(world, header, one, domain, workflow);
    let second = runs_at(world, header, two, domain, workflow);
    let same = are_same(alloc, first, second)?;
    Ok(same)
}

/// The workflows of a domain of which one of two clusters has learned something: those of the first, and then the others.
fn workflows_of_both(
    alloc: Global,
    header: &Header,
    world: &ShardWorld,
    one: ClusterNo,
    two: ClusterNo,
    domain: &Name,
) -> Result<Vec<Name>, OutOfMemory>
    requires unspent { world.now.spent ≡ false }
    requires header { world.now.header ≡ header.now }
    requires one { IsCluster header.now one }
    requires two { IsCluster header.now two }
    ensures { IfOk result (λ names. names.items ≡ workflows_of_both header.now one two domain.now world.now.world) }
{
    let known = workflows_at(alloc, header, world, one, domain)?;
    let others = workflows_at(alloc, header, world, two, domain)?;
    let mut names = workflows_at(alloc, header, world, one, domain)?;
    add_others(&mut names, known.as_slice(), others.as_slice())?;
    Ok(names)
}

/// Appends a line for a workflow of which two clusters have not learned the same.
fn push_differ_in(
    text: &mut Vec<u8>,
    alloc: Global,
    header: &Header,
    world: &ShardWorld,
    one: ClusterNo,
    two: ClusterNo,
    domain: &Name,
    workflow: &Name,
) -> Result<(), OutOfMemory>
    requires unspent { world.now.spent ≡ false }
    requires header { world.now.header ≡ header.now }
    requires fit { IsWellFormedHeader header.now }
    requires one { IsCluster header.now one }
    requires two { IsCluster header.now two }
    ensures { OnOk result (text.new.items ≡ text.old.items ++ differ_in header.now one two domain.now world.now.world workflow.now) }
{
    if have_learned_the_same(alloc, header, world, one, two, domain, workflow)? {
        return Ok(());
    }
    push_workflow(text, workflow)
}

/// The lines of those of workflows of which two clusters have not learned the same.
fn differences(
    alloc: Global,
    header: &Header,
    world: &ShardWorld,
    one: ClusterNo,
    two: ClusterNo,
    domain: &Name,
    workflows: &[Name],
) -> Result<Vec<u8>, OutOfMemory>
    requires unspent { world.now.spent ≡ false }
    requires header { world.now.header ≡ header.now }
    requires fit { IsWellFormedHeader header.now }
    requires one { IsCluster header.now one }
    requires two { IsCluster header.now two }
    ensures { IfOk result (λ lines. lines.items ≡ flat_map (differ_in header.now one two domain.now world.now.world) workflows.now) }
{
    let mut lines = Vec::new(alloc);
    for workflow in workflows {
        push_differ_in(&mut lines, alloc, header, world, one, two, domain, workflow)?;
    }
    Ok(lines)
}

/// Appends the workflows of a domain of which two clusters have not learned the same.
#[tactic(auto, unfolding(crate::specs::Workflows::differs_text))]
pub(crate) fn push_differs(
    text: &mut Vec<u8>,
    alloc: Global,
    header: &Header,
    world: &ShardWorld,
    one: ClusterNo,
    two: ClusterNo,
    domain: &Name,
) -> Result<(), OutOfMemory>
    requires unspent { world.now.spent ≡ false }
    requires header { world.now.header ≡ header.now }
    requires fit { IsWellFormedHeader header.now }
    requires one { IsCluster header.now one }
    requires two { IsCluster header.now two }
    ensures { OnOk result (text.new.items ≡ text.old.items ++ differs_text header.now one two domain.now world.now.world) }
{
    let names = workflows_of_both(alloc, header, world, one, two, domain)?;
    let lines = differences(alloc, header, world, one, two, domain, names.as_slice())?;
    push_lines_or_none(text, b"none differs\n", b"these differ\n", lines.as_slice())
}
