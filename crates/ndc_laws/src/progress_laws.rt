// Progress reports, as laws.
ghost use Rattle.std.specs.List.{AllByRecursion};
ghost use Rattle.std.specs.Prelude.{◌≡◌, ℕ, List};
ghost use Rattle.ndc_script_types.specs.WellFormed.{AreTwoClusters, IsCluster, IsWellFormed};
ghost use Rattle.ndc_script_types.specs.declared.script.Header.{Header as Head};
ghost use Rattle.ndc_script_types.specs.declared.script.Script.{Script as Whole};
ghost use Rattle.ndc_domain.specs.declared.clusters.ClusterNo.{ClusterNo as Number};
ghost use Rattle.ndc_laws.specs.Promised.{HaveTheSameReports};
ghost use Rattle.ndc_laws.specs.TakenOver.{HaveTheSameClusters, synced};
ghost use Rattle.ndc_model.specs.Facts.{IsReached, ReportsAgree};
ghost use Rattle.ndc_model.specs.Lines.{worlds_of};
ghost use Rattle.ndc_model.specs.World.{World, cluster_at};
ghost use Rattle.ndc_progress.specs.Reports.{held};
ghost use Rattle.ndc_progress.specs.declared.report.ActivityRef.{ActivityRef};

/// In every world of a well-formed script two reports of one activity, version and beat are equal, and each stands in the
/// list of the cluster that writes with its version.
pub fn reports_of_one_beat_are_one_in_every_world()
    ensures { (script : Whole) → IsWellFormed script
        → AllByRecursion (ReportsAgree script.header) (worlds_of script) }
{}

/// Clusters that have the same reports hold the same of each activity.
pub fn clusters_with_the_same_reports_hold_the_same()
    ensures { (header : Head) (lines : ℕ) (w : World) (one two : Number) (activity : ActivityRef)
        → IsReached header lines w → IsCluster header one → IsCluster header two
        → HaveTheSameReports one two w → held activity (cluster_at one w).reports
        ≡ held activity (cluster_at two w).reports }
{}

/// What a cluster holds after taking over the reports of others, one after the other, does not depend on their order,
/// nor on how often they are taken over.
pub fn reports_are_taken_over_in_any_order()
    ensures { (header : Head) (lines : ℕ) (w : World) (to : Number) (one two : List Number)
        (activity : ActivityRef) → IsReached header lines w → IsCluster header to
        → AllByRecursion (AreTwoClusters header to) one
        → AllByRecursion (AreTwoClusters header to) two → HaveTheSameClusters one two
        → held activity (cluster_at to (synced header to one w)).reports
        ≡ held activity (cluster_at to (synced header to two w)).reports }
{}
