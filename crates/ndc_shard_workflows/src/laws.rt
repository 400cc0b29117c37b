//! What reapplication in a cell comes to, as laws: a law is what an empty function ensures.
ghost use Rattle.std.specs.Prelude.{◌≡◌, false, List, []};
ghost use Rattle.ndc_model_cells.specs.Cells.{Cell, learned_of};
ghost use Rattle.ndc_model_cells.specs.Jobs.{reapplied_in, reapplied_now, workflows_of};
ghost use Rattle.ndc_model_cells.specs.Places.{AreInOrder};
ghost use Rattle.ndc_model_cells.specs.Writing.{Desk, reapplication_of};
ghost use Rattle.ndc_event.specs.declared.name.Name.{Name as Text};
ghost use Rattle.ndc_shard_runs.specs.Kept.{is_due};
ghost use Rattle.ndc_model_cells.specs.Allowed.{MayReapply};
ghost use Rattle.ndc_shard_workflows.specs.Due.{is_named, AreDue};
ghost use Rattle.ndc_shard_workflows.specs.Reapplied.{reapplied_at, reapplied_among, written_among, AreReapplied, MayReapplyAmong};

/// Where reapplication is not due in a workflow, it writes nothing there; and it leaves what is learned of all others.
pub fn reapplication_concerns_one_workflow()
    ensures nothing { (home : Desk) (names : Text × Text) (cell : Cell)
        → is_due (learned_of names.0 names.1 cell) ≡ false
        → reapplication_of home names.0 names.1 cell ≡ [] }
    ensures others { (home : Desk) (names : Text × Text) (cell : Cell) (domain workflow : Text)
        → is_named domain workflow names ≡ false
        → learned_of domain workflow (reapplied_at home names cell)
        ≡ learned_of domain workflow cell }
{}

/// Reapplication in all workflows of a cell is that in a list, in order, of all to which it writes: it comes to the same
/// cell, writes the same, and may be done where that may be done. All in which it is due are such a list.
pub fn reapplication_is_done_where_it_writes()
    ensures due { (home : Desk) (list : List (Text × Text)) (cell : Cell) → AreDue list cell
        → AreReapplied home list cell }
    ensures cell { (home : Desk) (list : List (Text × Text)) (cell : Cell) → AreInOrder cell.arrived
        → AreReapplied home list cell → reapplied_among home list cell
        ≡ reapplied_in home (workflows_of cell.arrived) cell }
    ensures batches { (home : Desk) (list : List (Text × Text)) (cell : Cell)
        → AreInOrder cell.arrived → AreReapplied home list cell → written_among home list cell
        ≡ reapplied_now home (workflows_of cell.arrived) cell }
    ensures may { (home : Desk) (list : List (Text × Text)) (cell : Cell) → AreInOrder cell.arrived
        → AreReapplied home list cell → MayReapply home (workflows_of cell.arrived) cell
        → MayReapplyAmong home list cell }
{}
