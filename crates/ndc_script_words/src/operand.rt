ghost use Rattle.std.specs.Prelude.{◌≡◌, ◌≤◌, ◌<◌, IfOk};
ghost use Rattle.ndc_event.specs.Outcome.{Gives};
ghost use Rattle.ndc_domain.specs.Clusters.{AreClusters};
ghost use Rattle.ndc_script_types.specs.declared.script.ScriptCause.TheVariants.{BadLine};
ghost use Rattle.ndc_script_types.specs.declared.script.ScriptError.TheVariants.{Refused, Memory};
ghost use Rattle.ndc_script_words.specs.Operands.{named, numbered, shard_of, place_of, known, both_known, two_clusters, workflow_at};
ghost use Rattle.ndc_script_types.specs.WellFormed.{IsCluster, IsName, AreTwoClusters, IsWorkflowAt, IsPlace};

use crate::header::within;
use crate::interning::Interner;
use crate::number::number_of;
use ndc_domain::ClusterNo;
use ndc_event::{Name, NameError};
use ndc_script_types::{Header, ScriptCause, ScriptError};

/// The greatest place, count or cut.
pub const MAX_PLACE: u64 = 1_000_000;

/// Two clusters, in the order in which a line names them.
#[derive(Clone, Copy)]
pub struct TwoClusters {
    pub one: ClusterNo,
    pub two: ClusterNo,
}

/// A workflow at a cluster.
#[derive(Drop)]
pub struct WorkflowAt {
    pub cluster: ClusterNo,
    pub domain: Name,
    pub workflow: Name,
}

/// The refusal of a line that is not of the language.
pub fn bad(line: u64) -> ScriptError
    ensures { result ≡ Refused line BadLine }
{
    ScriptError::Refused {
        line,
        cause: ScriptCause::BadLine,
    }
}

/// The name that a word is.
pub fn named(names: &mut Interner, line: u64, word: &[u8]) -> Result<Name, ScriptError>
    ensures answer { Gives Memory (λ name. name) result (named line word.now) }
    ensures well_formed { IfOk result IsName }
{
    match names.read(word) {
        Ok(name) => Ok(name),
        Err(NameError::Memory) => Err(ScriptError::Memory),
        Err(_) => Err(bad(line)),
    }
}

/// A number within bounds.
#[tactic(auto, unfolding(crate::specs::Operands::numbered))]
pub fn numbered(line: u64, low: u64, high: u64, word: &[u8]) -> Result<u64, ScriptError>
    ensures answer { result ≡ numbered line low high word.now }
    ensures least { IfOk result (λ number. low ≤ number) }
    ensures most { IfOk result (λ number. number ≤ high) }
{
    match within(low, high, number_of(word)) {
        Some(number) => Ok(number),
        None => Err(bad(line)),
    }
}

/// The shard of the header that a word is.
pub fn shard_of(header: &Header, line: u64, word: &[u8]) -> Result<u32, ScriptError>
    requires least { 1 ≤ header.now.shards }
    requires most { header.now.shards ≤ 64 }
    ensures answer { result ≡ shard_of header.now line word.now }
    ensures below { IfOk result (λ shard. shard < header.now.shards) }
{
    let shard = numbered(line, 0, u64::from(header.shards - 1), word)?;
    Ok(shard as u32)
}

/// The place, count or cut that a word is.
pub fn place_of(line: u64, word: &[u8]) -> Result<usize, ScriptError>
    ensures answer { result ≡ place_of line word.now }
    ensures most { IfOk result IsPlace }
{
    let place = numbered(line, 0, MAX_PLACE, word)?;
    Ok(place as usize)
}

/// The cluster of this name in the header.
#[tactic(auto, unfolding(crate::specs::Operands::known))]
pub fn known(header: &Header, line: u64, word: &[u8]) -> Result<ClusterNo, ScriptError>
    ensures answer { result ≡ known header.now line word.now }
    ensures below { IfOk result (IsCluster header.now) }
    ensures sound { AreClusters header.now.clusters }
{
    let _count = header.clusters.count();
    match header.clusters.find(word) {
        Some(cluster) => Ok(cluster),
        None => Err(ScriptError::Refused {
            line,
            cause: ScriptCause::UnknownName,
        }),
    }
}

/// The clusters of two names.
#[tactic(auto, unfolding(crate::specs::Operands::both_known))]
pub fn both_known(
    header: &Header,
    line: u64,
    one: &[u8],
    two: &[u8],
) -> Result<TwoClusters, ScriptError>
    ensures answer { result ≡ both_known header.now line one.now two.now }
    ensures first { IfOk result (λ clusters. IsCluster header.now clusters.one) }
    ensures second { IfOk result (λ clusters. IsCluster header.now clusters.two) }
{
    let one = known(header, line, one)?;
    let two = known(header, line, two)?;
    Ok(TwoClusters { one, two })
}

/// The clusters of two names, which have to differ.
#[tactic(auto, unfolding(crate::specs::Operands::two_clusters))]
pub fn two_clusters(
    header: &Header,
    line: u64,
    one: &[u8],
    two: &[u8],
) -> Result<TwoClusters, ScriptError>
    ensures answer { result ≡ two_clusters header.now line one.now two.now }
    ensures well_formed { IfOk result (λ clusters.
        AreTwoClusters header.now clusters.one clusters.two) }
{
    if one == two {
        return Err(bad(line));
    }
    both_known(header, line, one, two)
}

/// The workflow at a cluster that three words name: a cluster, a domain, a workflow.
#[tactic(auto, unfolding(crate::specs::Operands::workflow_at))]
pub fn workflow_at(
    names: &mut Interner,
    header: &Header,
    line: u64,
    cluster: &[u8],
    domain: &[u8],
    workflow: &[u8],
) -> Result<WorkflowAt, ScriptError>
    ensures answer { Gives Memory (λ at.
        at) result (workflow_at header.now line cluster.now domain.now workflow.now) }
    ensures well_formed { IfOk result (λ at.
        IsWorkflowAt header.now at.cluster at.domain at.workflow) }
{
    let domain = named(names, line, domain)?;
    let workflow = named(names, line, workflow)?;
    let cluster = known(header, line, cluster)?;
    Ok(WorkflowAt {
        cluster,
        domain,
        workflow,
    })
}
