//! What clusters are asked between lines.
ghost use Rattle.std.specs.Prelude.{◌≡◌, true, false, IfOk};
ghost use Rattle.ndc_example_world.specs.Shown.{is_member, shown_of};
ghost use Rattle.ndc_laws.specs.Promised.{LearnedTheSame};
ghost use Rattle.ndc_world.specs.Standing.{IsSettledWorld};
ghost use Rattle.ndc_model.specs.World.{cell_of};
ghost use Rattle.ndc_model_cells.specs.Cells.{learned_of};
ghost use Rattle.ndc_script_types.specs.WellFormed.{IsCluster, IsWellFormedHeader};

use crate::error::StoryError;
use crate::telling::{push_answer, push_count};
use ndc_domain::ClusterNo;
use ndc_dump::dump_text;
use ndc_event::{BatchKey, Name, OutOfMemory};
use ndc_script_types::Header;
use ndc_shard::{Shard, shard_of};
use ndc_state::Steps;
use ndc_text::line::push_key;
use ndc_world::ShardWorld;
use std::alloc::Global;

/// Marks the counters of steps of this program.
struct Looking;

/// The cell of a workflow at a cluster.
pub(crate) fn cell<'w, 'h>(
    world: &'w ShardWorld<'h>,
    header: &Header,
    at: ClusterNo,
    domain: &Name,
    workflow: &Name,
) -> &'w Shard
    requires unspent { world.now.spent ≡ false }
    requires header { world.now.header ≡ header.now }
    requires fit { IsWellFormedHeader header.now }
    requires at { IsCluster header.now at }
    ensures { result.now ≡ cell_of header.now at domain.now workflow.now world.now.world }
{
    let shard = shard_of(domain, workflow, header.shards);
    world.cluster(at.number).shard(shard)
}

/// Tells the version that a cluster's record of a domain has.
pub(crate) fn tell_record(
    text: &mut Vec<u8>,
    world: &ShardWorld,
    header: &Header,
    at: ClusterNo,
    domain: &Name,
) -> Result<(), OutOfMemory>
    requires unspent { world.now.spent ≡ false }
    requires header { world.now.header ≡ header.now }
    requires at { IsCluster header.now at }
{
    text.extend_from_slice(header.clusters.name(at).as_bytes())?;
    let version = match world.cluster(at.number).records().find(domain) {
        Some(record) => record.version,
        None => 0,
    };
    push_count(text, b" has the domain with version ", version)?;
    text.extend_from_slice(b"\n")
}

/// Tells whether a cell has learned the batch of a key.
pub(crate) fn tell_learned(
    text: &mut Vec<u8>,
    cell: &Shard,
    domain: &Name,
    workflow: &Name,
    key: BatchKey,
) -> Result<(), OutOfMemory> {
    text.extend_from_slice(b"it has learned ")?;
    push_key(text, key)?;
    let is = cell.has_learned(domain, workflow, key);
    push_answer(text, b": ", is)
}

/// Whether a cluster's record of a domain names it as a member.
pub(crate) fn is_member(world: &ShardWorld, header: &Header, at: ClusterNo, domain: &Name) -> bool
    requires unspent { world.now.spent ≡ false }
    requires header { world.now.header ≡ header.now }
    requires at { IsCluster header.now at }
    ensures { result ≡ is_member at domain.now world.now.world }
{
    match world.cluster(at.number).records().find(domain) {
        Some(record) => record.members.has(at),
        None => false,
    }
}

/// Whether two clusters show the same of a workflow. They do where they have learned the same batches of it, whatever led
/// there.
pub(crate) fn show_the_same(
    alloc: Global,
    world: &ShardWorld,
    header: &Header,
    one: ClusterNo,
    two: ClusterNo,
    domain: &Name,
    workflow: &Name,
) -> Result<bool, OutOfMemory>
    requires unspent { world.now.spent ≡ false }
    requires header { world.now.header ≡ header.now }
    requires fit { IsWellFormedHeader header.now }
    requires one { IsCluster header.now one }
    requires two { IsCluster header.now two }
    ensures { IfOk result (λ same.
        LearnedTheSame header.now one two domain.now workflow.now world.now.world → same ≡ true) }
{
    world.is_reached();
    let here = shown(
        alloc,
        cell(world, header, one, domain, workflow),
        domain,
        workflow,
    )?;
    let there = shown(
        alloc,
        cell(world, header, two, domain, workflow),
        domain,
        workflow,
    )?;
    Ok(here.as_slice() == there.as_slice())
}

/// Whether two clusters of a settled world show the same of a workflow. Where both are members of its domain, they do: that is
/// promised, and proved here. Where one is not, [`StoryError::NoMember`].
pub(crate) fn settled_alike(
    alloc: Global,
    world: &ShardWorld,
    header: &Header,
    one: ClusterNo,
    two: ClusterNo,
    domain: &Name,
    workflow: &Name,
) -> Result<bool, StoryError>
    requires unspent { world.now.spent ≡ false }
    requires header { world.now.header ≡ header.now }
    requires fit { IsWellFormedHeader header.now }
    requires settled { IsSettledWorld world.now }
    requires one { IsCluster header.now one }
    requires two { IsCluster header.now two }
    ensures { IfOk result (λ same. same ≡ true) }
{
    if !is_member(world, header, one, domain) {
        return Err(StoryError::NoMember);
    }
    if !is_member(world, header, two, domain) {
        return Err(StoryError::NoMember);
    }
    let same = show_the_same(alloc, world, header, one, two, domain, workflow)?;
    Ok(same)
}

/// The dump of what a cell shows of a workflow; nothing where it has learned nothing of it.
pub(crate) fn shown(
    alloc: Global,
    cell: &Shard,
    domain: &Name,
    workflow: &Name,
) -> Result<Vec<u8>, OutOfMemory>
    ensures { IfOk result (λ text. text.items ≡
        shown_of domain.now workflow.now (learned_of domain.now workflow.now cell.now)) }
{
    let mut steps: Steps<Looking> = Steps::new();
    match cell.view(domain, workflow, &mut steps)? {
        Some(view) => dump_text(alloc, domain, workflow, &view),
        None => Ok(Vec::new(alloc)),
    }
}
