// Resets, as a law.
ghost use Rattle.std.specs.Prelude.{◌≡◌, ℕ, ◌<◌, List, Ok};
ghost use Rattle.ndc_script_types.specs.WellFormed.{IsWellFormedHeader, IsWorkflowAt};
ghost use Rattle.ndc_script_types.specs.declared.script.Act.TheVariants as act;
ghost use Rattle.ndc_script_types.specs.declared.script.Header.{Header as Head};
ghost use Rattle.ndc_model_cells.specs.Writing.{Entry, reset_at};
ghost use Rattle.ndc_domain.specs.declared.clusters.ClusterNo.{ClusterNo as Number};
ghost use Rattle.ndc_event.specs.declared.name.Name.{Name as Text};
ghost use Rattle.ndc_laws.specs.Promised.{IsResetFrom};
ghost use Rattle.ndc_model.specs.Facts.{IsReached};
ghost use Rattle.ndc_model.specs.Lines.{act_step};
ghost use Rattle.ndc_model.specs.Reading.{learned_at};
ghost use Rattle.ndc_model.specs.World.{World, cell_of, home_at};

/// Where a reset is not refused the new run is the current one of its workflow at the cluster. Its state is the replay of the
/// events of the reset, and it has each origin of the old current branch once, and no other.
pub fn a_reset_goes_on_in_a_new_current_run()
    ensures { (header : Head) (lines : ℕ) (w : World) (cluster : Number) (domain workflow : Text)
        (event : ℕ) (entries : List Entry) → IsWellFormedHeader header → lines < 100000
        → IsReached header lines w
        → IsWorkflowAt header cluster domain workflow
        → reset_at (home_at header cluster w) domain workflow event (cell_of header cluster
        domain workflow w) ≡ Ok entries
        → IsResetFrom event (learned_at header cluster domain workflow w) (learned_at header cluster
        domain workflow (act_step header (act.Reset cluster domain workflow event) w).world) }
{}
