//! The clusters that write, where they were given.
ghost use Rattle.std.specs.Prelude.{◌≡◌};
ghost use Rattle.ndc_explain.specs.Writers.{writer_name};

use ndc_domain::Clusters;

/// The name of the cluster that writes with this version; empty where no clusters were given, or none of them does.
pub fn writer_name(clusters: &Option<Clusters>, version: u64) -> &[u8]
    ensures { result.now ≡ writer_name clusters.now version }
{
    let Some(clusters) = clusters else {
        return b"";
    };
    match clusters.writer_of(version) {
        None => b"",
        Some(cluster) => clusters.name(cluster).as_bytes(),
    }
}
