// Progress reports in fair worlds, as laws.
ghost use Rattle.std.specs.Prelude.{ℕ, ◌+◌, ◌<◌};
ghost use Rattle.ndc_script_types.specs.WellFormed.{AreTwoClusters, IsCluster};
ghost use Rattle.ndc_script_types.specs.declared.script.Header.{Header as Head};
ghost use Rattle.ndc_domain.specs.declared.clusters.ClusterNo.{ClusterNo as Number};
ghost use Rattle.ndc_event.specs.declared.name.Name.{Name};
ghost use Rattle.ndc_model.specs.Facts.{IsReached};
ghost use Rattle.ndc_model.specs.Progress.{beat_step, sync_step};
ghost use Rattle.ndc_model.specs.World.{World};

/// A cluster may tell of an activity, and it may take over the reports of another: the world stays as it should be,
/// with one line more where a beat is told.
pub fn reports_keep_worlds_reached()
    ensures told { (header : Head) (lines : ℕ) (cluster : Number)
        (domain workflow id details : Name) (w : World) → IsCluster header cluster → lines < 100000
        → IsReached header lines w
        → IsReached header (lines
        + 1) (beat_step header cluster domain workflow id details w).world }
    ensures taken_over { (header : Head) (lines : ℕ) (to from : Number) (w : World)
        → AreTwoClusters header to from → IsReached header lines w
        → IsReached header lines (sync_step to from w).world }
{}
