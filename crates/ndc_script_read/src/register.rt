ghost use Rattle.std.specs.Prelude.{◌≡◌, ◌≤◌, ◌<◌, map, length, All, IfOk};
ghost use Rattle.ndc_event.specs.Outcome.{Gives};
ghost use Rattle.ndc_domain.specs.Clusters.{count_of};
ghost use Rattle.ndc_domain.specs.Members.{AreMembers};
ghost use Rattle.ndc_script_types.specs.declared.script.ScriptError.TheVariants.{Memory};
ghost use Rattle.ndc_script_read.specs.Register.{all_differ, clusters_named, clusters_for, members_named, register_with, register_line};
ghost use Rattle.ndc_script_types.specs.WellFormed.{IsCluster, IsName, AreDays, IsWellFormedAct};

use ndc_domain::{ClusterNo, Members};
use ndc_event::{Name, OutOfMemory};
use ndc_script_types::{Act, Header, ScriptError, clusters_below};
use ndc_script_words::{Interner, bad, known, named, numbered};
use std::alloc::Global;
use std::collections::BTreeSet;

/// Whether no word stands twice.
fn all_differ(alloc: Global, words: &[&[u8]]) -> Result<bool, OutOfMemory>
    ensures { IfOk result (λ differ. differ ≡ all_differ (map (λ word. word.now) words.now)) }
{
    let mut seen = BTreeSet::new(alloc);
    for word in words {
        if !seen.insert(*word)? {
            return Ok(false);
        }
    }
    Ok(true)
}

/// The clusters of these names.
#[tactic(auto, unfolding(crate::specs::Register::clusters_named))]
fn clusters_named(
    alloc: Global,
    header: &Header,
    line: u64,
    words: &[&[u8]],
) -> Result<Vec<ClusterNo>, ScriptError>
    ensures answer { Gives Memory (λ clusters.
        clusters.items) result (clusters_named header.now line (map (λ word. word.now) words.now)) }
    ensures below { IfOk result (λ clusters. All (IsCluster header.now) clusters.items) }
    ensures count { IfOk result (λ clusters. length clusters.items ≡ length words.now) }
{
    let mut clusters = Vec::new(alloc);
    for word in words {
        let cluster = known(header, line, word)?;
        clusters.push(cluster)?;
    }
    Ok(clusters)
}

/// The clusters that a line names, all where it names none.
#[tactic(auto, unfolding(crate::specs::Register::clusters_for))]
fn clusters_for(
    alloc: Global,
    header: &Header,
    line: u64,
    words: &[&[u8]],
) -> Result<Vec<ClusterNo>, ScriptError>
    ensures below { IfOk result (λ clusters. All (IsCluster header.now) clusters.items) }
    ensures some { IfOk result (λ clusters. 0 < length clusters.items) }
    ensures answer { Gives Memory (λ clusters.
        clusters.items) result (clusters_for header.now line (map (λ word. word.now) words.now)) }
{
    match words {
        [] => Ok(clusters_below(alloc, header.clusters.count())?),
        [_, ..] => clusters_named(alloc, header, line, words),
    }
}

/// The members that a line names.
#[tactic(auto, unfolding(crate::specs::Register::members_named))]
fn members_named(
    alloc: Global,
    header: &Header,
    line: u64,
    words: &[&[u8]],
) -> Result<Members, ScriptError>
    ensures below { IfOk result (λ members.
        All (λ member. member < count_of header.now.clusters) members) }
    ensures members { IfOk result AreMembers }
    ensures some { IfOk result (λ members. 0 < length members) }
    ensures answer { Gives Memory (λ members.
        members) result (members_named header.now line (map (λ word. word.now) words.now)) }
{
    let clusters = clusters_for(alloc, header, line, words)?;
    let _count = header.clusters.count();
    Ok(Members::of(clusters.as_slice()))
}

/// A line `register`, by its domain and days, and the words for the clusters.
#[tactic(auto, unfolding(crate::specs::Register::register_with))]
fn register_with(
    alloc: Global,
    header: &Header,
    line: u64,
    domain: Name,
    days: u32,
    at: &[u8],
    target: &[u8],
    names: &[&[u8]],
) -> Result<Act, ScriptError>
    requires domain { IsName domain }
    requires days { AreDays days }
    ensures well_formed { IfOk result (IsWellFormedAct header.now) }
    ensures answer { Gives Memory (λ act.
        act) result (register_with header.now line domain days at.now target.now
        (map (λ word. word.now) names.now)) }
{
    let at = known(header, line, at)?;
    let target = known(header, line, target)?;
    let members = members_named(alloc, header, line, names)?;
    Ok(Act::Register {
        at,
        domain,
        target,
        days,
        members,
    })
}

/// `register C D ACTIVE DAYS CLUSTER ..`, after its first word.
#[tactic(auto, unfolding(crate::specs::Register::register_line))]
pub fn register_line(
    names: &mut Interner,
    header: &Header,
    line: u64,
    words: &[&[u8]],
) -> Result<Act, ScriptError>
    ensures well_formed { IfOk result (IsWellFormedAct header.now) }
    ensures answer { Gives Memory (λ act.
        act) result (register_line header.now line (map (λ word. word.now) words.now)) }
{
    match words {
        [at, domain, target, days, clusters @ ..] => {
            let domain = named(names, line, domain)?;
            let days = numbered(line, 1, 1_000, days)?;
            if !all_differ(names.alloc(), clusters)? {
                return Err(bad(line));
            }
            register_with(
                names.alloc(),
                header,
                line,
                domain,
                days as u32,
                at,
                target,
                clusters,
            )
        }
        _ => Err(bad(line)),
    }
}
