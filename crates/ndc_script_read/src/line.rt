ghost use Rattle.std.specs.Prelude.{◌≡◌, ◌<◌, map, IfOk};
ghost use Rattle.ndc_event.specs.Outcome.{Gives};
ghost use Rattle.ndc_script_types.specs.declared.script.Header.{Header};
ghost use Rattle.ndc_script_types.specs.declared.script.ScriptError.TheVariants.{Memory};
ghost use Rattle.ndc_script_read.specs.Lines.{cluster_act, cluster_line, pair_act, pair_line, domain_act, domain_line, retain_line, target_act, target_line, handover_line, levels_line, place_act, place_line, pull_line, places_act, places_with, places_line, settle_line, workflow_act, workflow_line, compare_line, reset_line, beat_with, beat_line, progress_line};
ghost use Rattle.ndc_script_types.specs.WellFormed.{IsWellFormedHeader, IsWellFormedAct};

use ndc_domain::ClusterNo;
use ndc_event::Name;
use ndc_script_types::{Act, Header, ScriptError};
use ndc_script_words::{
    ClusterVerb, DomainVerb, Interner, MAX_PLACE, PairVerb, PlaceVerb, PlacesVerb, TargetVerb,
    WorkflowAt, WorkflowVerb, bad, both_known, known, named, numbered, place_of, shard_of,
    two_clusters, workflow_at,
};

/// What a line on one cluster asks for.
fn cluster_act(verb: ClusterVerb, cluster: ClusterNo) -> Act
    ensures { result ≡ cluster_act verb cluster }
{
    match verb {
        ClusterVerb::Work => Act::Work { cluster },
        ClusterVerb::Trim => Act::Trim { source: cluster },
        ClusterVerb::Gaps => Act::Gaps { cluster },
        ClusterVerb::Resend => Act::Resend { cluster },
        ClusterVerb::Letters => Act::LettersOf { reader: cluster },
        ClusterVerb::Purge => Act::Purge { reader: cluster },
        ClusterVerb::MergeLetters => Act::MergeLetters { reader: cluster },
    }
}

/// A line `WORD C`, after its first word.
#[tactic(auto, unfolding(crate::specs::Lines::cluster_line))]
pub fn cluster_line(
    header: &Header,
    line: u64,
    verb: ClusterVerb,
    words: &[&[u8]],
) -> Result<Act, ScriptError>
    ensures answer { result ≡ cluster_line header.now line verb (map (λ word. word.now) words.now) }
    ensures well_formed { IfOk result (IsWellFormedAct header.now) }
{
    match words {
        [cluster] => {
            let cluster = known(header, line, cluster)?;
            Ok(cluster_act(verb, cluster))
        }
        _ => Err(bad(line)),
    }
}

/// What a line on two clusters that differ asks for.
fn pair_act(verb: PairVerb, one: ClusterNo, two: ClusterNo) -> Act
    ensures { result ≡ pair_act verb one two }
{
    match verb {
        PairVerb::Pull => Act::Pull {
            reader: one,
            source: two,
        },
        PairVerb::Rewind => Act::Rewind {
            reader: one,
            source: two,
        },
        PairVerb::Bootstrap => Act::Bootstrap {
            reader: one,
            source: two,
        },
        PairVerb::Domains => Act::Domains { to: one, from: two },
        PairVerb::Sync => Act::Sync { to: one, from: two },
    }
}

/// A line `WORD C C`, after its first word; the clusters differ.
#[tactic(auto, unfolding(crate::specs::Lines::pair_line))]
pub fn pair_line(
    header: &Header,
    line: u64,
    verb: PairVerb,
    words: &[&[u8]],
) -> Result<Act, ScriptError>
    ensures answer { result ≡ pair_line header.now line verb (map (λ word. word.now) words.now) }
    ensures well_formed { IfOk result (IsWellFormedAct header.now) }
{
    match words {
        [one, two] => {
            let clusters = two_clusters(header, line, one, two)?;
            Ok(pair_act(verb, clusters.one, clusters.two))
        }
        _ => Err(bad(line)),
    }
}

/// What a line on a domain at a cluster asks for.
fn domain_act(verb: DomainVerb, at: ClusterNo, domain: Name) -> Act
    ensures { result ≡ domain_act verb at domain }
{
    match verb {
        DomainVerb::Domain => Act::Domain { at, domain },
        DomainVerb::Members => Act::MembersOf { at, domain },
        DomainVerb::Complete => Act::Complete { at, domain },
    }
}

/// A line `WORD C D`, after its first word.
#[tactic(auto, unfolding(crate::specs::Lines::domain_line))]
pub fn domain_line(
    names: &mut Interner,
    header: &Header,
    line: u64,
    verb: DomainVerb,
    words: &[&[u8]],
) -> Result<Act, ScriptError>
    ensures answer { Gives Memory (λ act.
        act) result (domain_line header.now line verb (map (λ word. word.now) words.now)) }
    ensures well_formed { IfOk result (IsWellFormedAct header.now) }
{
    match words {
        [at, domain] => {
            let domain = named(names, line, domain)?;
            let at = known(header, line, at)?;
            Ok(domain_act(verb, at, domain))
        }
        _ => Err(bad(line)),
    }
}

/// `retain C D DAYS`, after its first word.
#[tactic(auto, unfolding(crate::specs::Lines::retain_line))]
pub fn retain_line(
    names: &mut Interner,
    header: &Header,
    line: u64,
    words: &[&[u8]],
) -> Result<Act, ScriptError>
    ensures answer { Gives Memory (λ act.
        act) result (retain_line header.now line (map (λ word. word.now) words.now)) }
    ensures well_formed { IfOk result (IsWellFormedAct header.now) }
{
    match words {
        [at, domain, days] => {
            let domain = named(names, line, domain)?;
            let days = numbered(line, 1, 1_000, days)?;
            let at = known(header, line, at)?;
            Ok(Act::Retain {
                at,
                domain,
                days: days as u32,
            })
        }
        _ => Err(bad(line)),
    }
}

/// What a line on a domain and another cluster asks for.
fn target_act(verb: TargetVerb, at: ClusterNo, domain: Name, target: ClusterNo) -> Act
    ensures { result ≡ target_act verb at domain target }
{
    match verb {
        TargetVerb::Join => Act::Join {
            at,
            domain,
            member: target,
        },
        TargetVerb::Failover => Act::Failover { at, domain, target },
    }
}

/// A line `WORD C D CLUSTER`, after its first word.
#[tactic(auto, unfolding(crate::specs::Lines::target_line))]
pub fn target_line(
    names: &mut Interner,
    header: &Header,
    line: u64,
    verb: TargetVerb,
    words: &[&[u8]],
) -> Result<Act, ScriptError>
    ensures answer { Gives Memory (λ act.
        act) result (target_line header.now line verb (map (λ word. word.now) words.now)) }
    ensures well_formed { IfOk result (IsWellFormedAct header.now) }
{
    match words {
        [at, domain, target] => {
            let domain = named(names, line, domain)?;
            let clusters = both_known(header, line, at, target)?;
            Ok(target_act(verb, clusters.one, domain, clusters.two))
        }
        _ => Err(bad(line)),
    }
}

/// `handover C D TARGET`, after its first word; C and TARGET differ.
#[tactic(auto, unfolding(crate::specs::Lines::handover_line))]
pub fn handover_line(
    names: &mut Interner,
    header: &Header,
    line: u64,
    words: &[&[u8]],
) -> Result<Act, ScriptError>
    ensures answer { Gives Memory (λ act.
        act) result (handover_line header.now line (map (λ word. word.now) words.now)) }
    ensures well_formed { IfOk result (IsWellFormedAct header.now) }
{
    match words {
        [at, domain, target] => {
            let domain = named(names, line, domain)?;
            let clusters = two_clusters(header, line, at, target)?;
            Ok(Act::Handover {
                at: clusters.one,
                domain,
                target: clusters.two,
            })
        }
        _ => Err(bad(line)),
    }
}

/// `levels READER SOURCE SHARD`, after its first word.
#[tactic(auto, unfolding(crate::specs::Lines::levels_line))]
pub fn levels_line(header: &Header, line: u64, words: &[&[u8]]) -> Result<Act, ScriptError>
    requires { IsWellFormedHeader header.now }
    ensures answer { result ≡ levels_line header.now line (map (λ word. word.now) words.now) }
    ensures well_formed { IfOk result (IsWellFormedAct header.now) }
{
    match words {
        [reader, source, shard] => {
            let shard = shard_of(header, line, shard)?;
            let clusters = two_clusters(header, line, reader, source)?;
            Ok(Act::LevelsOf {
                reader: clusters.one,
                source: clusters.two,
                shard,
            })
        }
        _ => Err(bad(line)),
    }
}

/// What a line on one number of one queue asks for.
fn place_act(
    verb: PlaceVerb,
    reader: ClusterNo,
    source: ClusterNo,
    shard: u32,
    number: usize,
) -> Act
    ensures { result ≡ place_act verb reader source shard number }
{
    match verb {
        PlaceVerb::Pull => Act::PullSome {
            reader,
            source,
            shard,
            count: number as u64,
        },
        PlaceVerb::Lose => Act::Lose {
            reader,
            source,
            shard,
            place: number,
        },
        PlaceVerb::Repeat => Act::Repeat {
            reader,
            source,
            shard,
            place: number,
        },
    }
}

/// A line `WORD READER SOURCE SHARD NUMBER`, after its first word.
#[tactic(auto, unfolding(crate::specs::Lines::place_line))]
pub fn place_line(
    header: &Header,
    line: u64,
    verb: PlaceVerb,
    words: &[&[u8]],
) -> Result<Act, ScriptError>
    requires { IsWellFormedHeader header.now }
    ensures answer { result ≡ place_line header.now line verb (map (λ word. word.now) words.now) }
    ensures well_formed { IfOk result (IsWellFormedAct header.now) }
{
    match words {
        [reader, source, shard, number] => {
            let shard = shard_of(header, line, shard)?;
            let number = place_of(line, number)?;
            let clusters = two_clusters(header, line, reader, source)?;
            Ok(place_act(verb, clusters.one, clusters.two, shard, number))
        }
        _ => Err(bad(line)),
    }
}

/// `pull READER SOURCE`, or `pull READER SOURCE SHARD COUNT`, after its first word.
#[tactic(auto, unfolding(crate::specs::Lines::pull_line))]
pub fn pull_line(header: &Header, line: u64, words: &[&[u8]]) -> Result<Act, ScriptError>
    requires { IsWellFormedHeader header.now }
    ensures answer { result ≡ pull_line header.now line (map (λ word. word.now) words.now) }
    ensures well_formed { IfOk result (IsWellFormedAct header.now) }
{
    if words.len() == 2 {
        pair_line(header, line, PairVerb::Pull, words)
    } else {
        place_line(header, line, PlaceVerb::Pull, words)
    }
}

/// What a line on two numbers of one queue asks for.
fn places_act(
    verb: PlacesVerb,
    reader: ClusterNo,
    source: ClusterNo,
    shard: u32,
    place: usize,
    number: usize,
) -> Act
    ensures { result ≡ places_act verb reader source shard place number }
{
    match verb {
        PlacesVerb::Move => Act::Move {
            reader,
            source,
            shard,
            place,
            to: number,
        },
        PlacesVerb::Damage => Act::Damage {
            reader,
            source,
            shard,
            place,
            cut: number,
        },
    }
}

/// The numbers and clusters of a line on two numbers of one queue.
#[tactic(auto, unfolding(crate::specs::Lines::places_with))]
fn places_with(
    header: &Header,
    line: u64,
    verb: PlacesVerb,
    reader: &[u8],
    source: &[u8],
    shard: u32,
    place: &[u8],
    number: &[u8],
) -> Result<Act, ScriptError>
    requires { shard < header.now.shards }
    ensures answer { result ≡ places_with header.now line verb reader.now source.now shard place.now
        number.now }
    ensures well_formed { IfOk result (IsWellFormedAct header.now) }
{
    let place = place_of(line, place)?;
    let number = place_of(line, number)?;
    let clusters = two_clusters(header, line, reader, source)?;
    Ok(places_act(verb, clusters.one, clusters.two, shard, place, number))
}

/// A line `WORD READER SOURCE SHARD PLACE NUMBER`, after its first word.
#[tactic(auto, unfolding(crate::specs::Lines::places_line))]
pub fn places_line(
    header: &Header,
    line: u64,
    verb: PlacesVerb,
    words: &[&[u8]],
) -> Result<Act, ScriptError>
    requires { IsWellFormedHeader header.now }
    ensures answer { result ≡ places_line header.now line verb (map (λ word. word.now) words.now) }
    ensures well_formed { IfOk result (IsWellFormedAct header.now) }
{
    match words {
        [reader, source, shard, place, number] => {
            let shard = shard_of(header, line, shard)?;
            places_with(header, line, verb, reader, source, shard, place, number)
        }
        _ => Err(bad(line)),
    }
}

/// `settle`, after its first word.
#[tactic(auto, unfolding(crate::specs::Lines::settle_line))]
pub fn settle_line(line: u64, words: &[&[u8]]) -> Result<Act, ScriptError>
    ensures answer { result ≡ settle_line line (map (λ word. word.now) words.now) }
    ensures well_formed { IfOk result (λ act. (header : Header) → IsWellFormedAct header act) }
{
    match words {
        [] => Ok(Act::Settle),
        _ => Err(bad(line)),
    }
}

/// What a line that reads a workflow asks for.
fn workflow_act(verb: WorkflowVerb, at: WorkflowAt) -> Act
    ensures { result ≡ workflow_act verb at }
{
    match verb {
        WorkflowVerb::History => Act::History {
            cluster: at.cluster,
            domain: at.domain,
            workflow: at.workflow,
        },
        WorkflowVerb::Branches => Act::Branches {
            cluster: at.cluster,
            domain: at.domain,
            workflow: at.workflow,
        },
        WorkflowVerb::Current => Act::Current {
            cluster: at.cluster,
            domain: at.domain,
            workflow: at.workflow,
        },
        WorkflowVerb::State => Act::StateOf {
            cluster: at.cluster,
            domain: at.domain,
            workflow: at.workflow,
        },
        WorkflowVerb::Dump => Act::Dump {
            cluster: at.cluster,
            domain: at.domain,
            workflow: at.workflow,
        },
    }
}

/// A line `WORD C D W`, after its first word.
#[tactic(auto, unfolding(crate::specs::Lines::workflow_line))]
pub fn workflow_line(
    names: &mut Interner,
    header: &Header,
    line: u64,
    verb: WorkflowVerb,
    words: &[&[u8]],
) -> Result<Act, ScriptError>
    ensures answer { Gives Memory (λ act.
        act) result (workflow_line header.now line verb (map (λ word. word.now) words.now)) }
    ensures well_formed { IfOk result (IsWellFormedAct header.now) }
{
    match words {
        [cluster, domain, workflow] => {
            let at = workflow_at(names, header, line, cluster, domain, workflow)?;
            Ok(workflow_act(verb, at))
        }
        _ => Err(bad(line)),
    }
}

/// `compare C C D W`, after its first word.
#[tactic(auto, unfolding(crate::specs::Lines::compare_line))]
pub fn compare_line(
    names: &mut Interner,
    header: &Header,
    line: u64,
    words: &[&[u8]],
) -> Result<Act, ScriptError>
    ensures answer { Gives Memory (λ act.
        act) result (compare_line header.now line (map (λ word. word.now) words.now)) }
    ensures well_formed { IfOk result (IsWellFormedAct header.now) }
{
    match words {
        [one, two, domain, workflow] => {
            let at = workflow_at(names, header, line, one, domain, workflow)?;
            let two = known(header, line, two)?;
            Ok(Act::Compare {
                one: at.cluster,
                two,
                domain: at.domain,
                workflow: at.workflow,
            })
        }
        _ => Err(bad(line)),
    }
}

/// `reset C D W EVENT`, after its first word.
#[tactic(auto, unfolding(crate::specs::Lines::reset_line))]
pub fn reset_line(
    names: &mut Interner,
    header: &Header,
    line: u64,
    words: &[&[u8]],
) -> Result<Act, ScriptError>
    ensures answer { Gives Memory (λ act.
        act) result (reset_line header.now line (map (λ word. word.now) words.now)) }
    ensures well_formed { IfOk result (IsWellFormedAct header.now) }
{
    match words {
        [cluster, domain, workflow, event] => {
            let event = numbered(line, 1, MAX_PLACE, event)?;
            let at = workflow_at(names, header, line, cluster, domain, workflow)?;
            Ok(Act::Reset {
                cluster: at.cluster,
                domain: at.domain,
                workflow: at.workflow,
                event,
            })
        }
        _ => Err(bad(line)),
    }
}

/// The names of a line `beat`, and its workflow.
#[tactic(auto, unfolding(crate::specs::Lines::beat_with))]
fn beat_with(
    names: &mut Interner,
    header: &Header,
    line: u64,
    cluster: &[u8],
    domain: &[u8],
    workflow: &[u8],
    id: &[u8],
    details: &[u8],
) -> Result<Act, ScriptError>
    ensures answer { Gives Memory (λ act.
        act) result (beat_with header.now line cluster.now domain.now workflow.now id.now
        details.now) }
    ensures well_formed { IfOk result (IsWellFormedAct header.now) }
{
    let id = named(names, line, id)?;
    let details = named(names, line, details)?;
    let at = workflow_at(names, header, line, cluster, domain, workflow)?;
    Ok(Act::Beat {
        cluster: at.cluster,
        domain: at.domain,
        workflow: at.workflow,
        id,
        details,
    })
}

/// `beat C D W ID DETAILS`, after its first word.
#[tactic(auto, unfolding(crate::specs::Lines::beat_line))]
pub fn beat_line(
    names: &mut Interner,
    header: &Header,
    line: u64,
    words: &[&[u8]],
) -> Result<Act, ScriptError>
    ensures answer { Gives Memory (λ act.
        act) result (beat_line header.now line (map (λ word. word.now) words.now)) }
    ensures well_formed { IfOk result (IsWellFormedAct header.now) }
{
    match words {
        [cluster, domain, workflow, id, details] => {
            beat_with(names, header, line, cluster, domain, workflow, id, details)
        }
        _ => Err(bad(line)),
    }
}

/// `progress C D W ID`, after its first word.
#[tactic(auto, unfolding(crate::specs::Lines::progress_line))]
pub fn progress_line(
    names: &mut Interner,
    header: &Header,
    line: u64,
    words: &[&[u8]],
) -> Result<Act, ScriptError>
    ensures answer { Gives Memory (λ act.
        act) result (progress_line header.now line (map (λ word. word.now) words.now)) }
    ensures well_formed { IfOk result (IsWellFormedAct header.now) }
{
    match words {
        [cluster, domain, workflow, id] => {
            let id = named(names, line, id)?;
            let at = workflow_at(names, header, line, cluster, domain, workflow)?;
            Ok(Act::ProgressOf {
                cluster: at.cluster,
                domain: at.domain,
                workflow: at.workflow,
                id,
            })
        }
        _ => Err(bad(line)),
    }
}
