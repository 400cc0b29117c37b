//! What is true of clusters and their versions. Each law is the contract of a function that does nothing.

ghost use Rattle.std.specs.Prelude.{◌≡◌, ℕ, ◌%◌, ◌<◌, List, Some, Ok};
ghost use Rattle.ndc_domain.specs.declared.clusters.ClusterNo.{ClusterNo};
ghost use Rattle.ndc_domain.specs.Clusters.{ClusterList, AreClusters, clusters_of, count_of, name_of, initial_of, find_of, writer_of};
ghost use Rattle.ndc_domain.specs.Next.{IsNext, next_of};

/// Exactly the clusters as they should be can be built.
pub fn clusters_can_be_built_where_sound()
    ensures sound { (increment : ℕ) (members : List (List ℕ × ℕ)) (clusters : ClusterList) →
        clusters_of increment members ≡ Ok clusters → AreClusters clusters }
    ensures complete { (clusters : ClusterList) →
        AreClusters clusters → clusters_of clusters.increment clusters.members ≡ Ok clusters }
{}

/// A cluster is found by its name, and by no other.
pub fn clusters_are_found_by_name()
    ensures name { (clusters : ClusterList) (name : List ℕ) (cluster : ClusterNo) →
        find_of clusters name ≡ Some cluster →
        (cluster.number < count_of clusters) × (name_of clusters cluster ≡ name) }
    ensures found { (clusters : ClusterList) (cluster : ClusterNo) →
        AreClusters clusters → cluster.number < count_of clusters →
        find_of clusters (name_of clusters cluster) ≡ Some cluster }
{}

/// The writer of a version is the one cluster whose initial version is the version modulo the
/// increment.
pub fn versions_have_one_writer()
    ensures rest { (clusters : ClusterList) (version : ℕ) (cluster : ClusterNo) →
        writer_of clusters version ≡ Some cluster →
        (cluster.number < count_of clusters)
        × (initial_of clusters cluster ≡ version % clusters.increment) }
    ensures writer { (clusters : ClusterList) (version : ℕ) (cluster : ClusterNo) →
        AreClusters clusters → cluster.number < count_of clusters →
        initial_of clusters cluster ≡ version % clusters.increment → writer_of clusters version
        ≡ Some cluster }
{}

/// The next version that is found by remainders is the least version of the cluster that is not
/// below the old one.
pub fn next_version_is_the_least()
    ensures { (clusters : ClusterList) (old : ℕ) (to : ClusterNo) →
        AreClusters clusters → to.number < count_of clusters →
        IsNext clusters old to (next_of clusters old to) }
{}
