ghost use Rattle.std.specs.Prelude.{◌≡◌, ◌<◌, length, All, IfOk};
ghost use Rattle.ndc_script_types.specs.Below.{clusters_below};

use ndc_domain::ClusterNo;
use ndc_event::OutOfMemory;
use std::alloc::Global;

/// The first clusters, as many as this.
pub fn clusters_below(alloc: Global, count: u32) -> Result<Vec<ClusterNo>, OutOfMemory>
    ensures answer { IfOk result (λ clusters. clusters.items ≡ clusters_below count) }
    ensures below { IfOk result (λ clusters.
        All (λ cluster. cluster.number < count) clusters.items) }
    ensures count { IfOk result (λ clusters. length clusters.items ≡ count) }
{
    let mut clusters = Vec::new(alloc);
    for number in 0..count {
        clusters.push(ClusterNo { number })?;
    }
    Ok(clusters)
}
