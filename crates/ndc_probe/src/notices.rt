//! What is told unasked: that a member is late.
ghost use Rattle.std.specs.Prelude.{◌≡◌, ◌++◌, false, OnOk};
ghost use Rattle.ndc_probe.specs.Notices.{late_anywhere, late_at, late_from, noticed};
ghost use Rattle.ndc_domain.specs.Clusters.{cluster_no};
ghost use Rattle.ndc_script_types.specs.WellFormed.{IsCluster, IsWellFormedAct};

use crate::late::{push_late_line, push_late_lines};
use crate::names::is_among;
use ndc_domain::ClusterNo;
use ndc_event::{Name, OutOfMemory};
use ndc_script_types::{Act, Header};
use ndc_world::ShardWorld;

/// Appends a line, where a reader is late in a domain at the source of a number.
fn push_late_from(
    text: &mut Vec<u8>,
    header: &Header,
    world: &ShardWorld,
    reader: ClusterNo,
    domain: &Name,
    number: u32,
) -> Result<(), OutOfMemory>
    requires unspent { world.now.spent ≡ false }
    requires reader { IsCluster header.now reader }
    requires source { IsCluster header.now (cluster_no number) }
    ensures { OnOk result (text.new.items ≡ text.old.items ++ late_from header.now reader domain.now world.now.world number) }
{
    let source = ClusterNo { number };
    if is_among(world.late(reader, source), domain) {
        let reader = header.clusters.name(reader).as_bytes();
        let source = header.clusters.name(source).as_bytes();
        push_late_line(text, reader, source, domain)?;
    }
    Ok(())
}

/// Appends where a reader is late in a domain, source by source.
fn push_late_anywhere(
    text: &mut Vec<u8>,
    header: &Header,
    world: &ShardWorld,
    reader: ClusterNo,
    domain: &Name,
) -> Result<(), OutOfMemory>
    requires unspent { world.now.spent ≡ false }
    requires reader { IsCluster header.now reader }
    ensures { OnOk result (text.new.items ≡ text.old.items ++ late_anywhere header.now reader domain.now world.now.world) }
{
    for number in 0..header.clusters.count() {
        push_late_from(text, header, world, reader, domain, number)?;
    }
    Ok(())
}

/// Appends where a reader is late at a source, domain by domain.
fn push_late_at(
    text: &mut Vec<u8>,
    header: &Header,
    world: &ShardWorld,
    reader: ClusterNo,
    source: ClusterNo,
) -> Result<(), OutOfMemory>
    requires unspent { world.now.spent ≡ false }
    requires reader { IsCluster header.now reader }
    requires source { IsCluster header.now source }
    ensures { OnOk result (text.new.items ≡ text.old.items ++ late_at header.now reader source world.now.world) }
{
    let late = world.late(reader, source);
    let reader = header.clusters.name(reader).as_bytes();
    let source = header.clusters.name(source).as_bytes();
    push_late_lines(text, reader, source, late)
}

/// Appends what is told after a line.
#[tactic(auto, unfolding(crate::specs::Notices::noticed))]
pub(crate) fn push_noticed(
    text: &mut Vec<u8>,
    header: &Header,
    world: &ShardWorld,
    act: &Act,
) -> Result<(), OutOfMemory>
    requires unspent { world.now.spent ≡ false }
    requires act { IsWellFormedAct header.now act.now }
    ensures { OnOk result (text.new.items ≡ text.old.items ++ noticed header.now act.now world.now.world) }
{
    match act {
        Act::Join { domain, member, .. } => push_late_anywhere(
            text, header, world, *member, domain,
        ),
        Act::Failover { domain, target, .. } => push_late_anywhere(
            text, header, world, *target, domain,
        ),
        Act::Pull { reader, source }
        | Act::PullSome { reader, source, .. }
        | Act::LevelsOf { reader, source, .. } => push_late_at(
            text, header, world, *reader, *source,
        ),
        _ => Ok(()),
    }
}
