// Handovers in fair worlds, as laws.
ghost use Rattle.std.specs.Prelude.{ℕ};
ghost use Rattle.ndc_script_types.specs.WellFormed.{AreTwoClusters};
ghost use Rattle.ndc_script_types.specs.declared.script.Header.{Header as Head};
ghost use Rattle.ndc_domain.specs.Clusters.{AreClusters};
ghost use Rattle.ndc_domain.specs.declared.clusters.ClusterNo.{ClusterNo as Number};
ghost use Rattle.ndc_event.specs.declared.name.Name.{Name};
ghost use Rattle.ndc_model.specs.Facts.{IsReached};
ghost use Rattle.ndc_model.specs.Handovers.{complete_step, handover_step};
ghost use Rattle.ndc_model.specs.World.{World};

/// A handover may begin, and it may be completed, or end because the target's record has come to the new version: the
/// world stays as it should be.
pub fn handovers_keep_worlds_reached()
    ensures begun { (header : Head) (lines : ℕ) (at target : Number) (domain : Name) (w : World)
        → AreClusters header.clusters → AreTwoClusters header at target → IsReached header lines w
        → IsReached header lines (handover_step header at domain target w).world }
    ensures completed { (header : Head) (lines : ℕ) (at : Number) (domain : Name) (w : World)
        → IsReached header lines w → IsReached header lines (complete_step at domain w).world }
{}
