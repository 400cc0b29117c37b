ghost use Rattle.std.specs.Prelude.{◌≤◌, drop, length, take};
ghost use Rattle.ndc_script_types.specs.WellFormed.{IsCluster};
ghost use Rattle.ndc_model.specs.Fair.{IsShaped};
ghost use Rattle.ndc_model.specs.World.{World};
ghost use Rattle.ndc_world_replication.specs.Own.{AreOthers};

use ndc_domain::ClusterNo;
use ndc_script_types::Header;

/// Where the links of a reader stand among all links: from the first of these places to before the other one. Links are in
/// the order of their readers, and each reader has one for each other cluster.
pub(crate) fn own_places(header: &Header, reader: ClusterNo) -> (usize, usize)
    requires { IsCluster header.now reader }
    ensures front { (w : World) → IsShaped header.now w → AreOthers reader (take result.0 w.links) }
    ensures back { (w : World) → IsShaped header.now w → AreOthers reader (drop result.1 w.links) }
    ensures within { (w : World) → IsShaped header.now w → result.1 ≤ length w.links }
    ensures rising { result.0 ≤ result.1 }
{
    let others = header.clusters.count() as usize - 1;
    let mut first = 0;
    for _before in 0..reader.number {
        first += others;
    }
    (first, first + others)
}
