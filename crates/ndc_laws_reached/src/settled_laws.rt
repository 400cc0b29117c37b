// Settlement in fair worlds, as a law.
ghost use Rattle.std.specs.Prelude.{ℕ, ◌+◌, ◌<◌};
ghost use Rattle.ndc_script_types.specs.WellFormed.{IsWellFormedHeader};
ghost use Rattle.ndc_script_types.specs.declared.script.Header.{Header as Head};
ghost use Rattle.ndc_laws_reached.specs.Writing.{ApplyingKeeps};
ghost use Rattle.ndc_laws_reached.specs.Settled.{ApplyingSettles, IsSettled};
ghost use Rattle.ndc_model.specs.Facts.{IsReached};
ghost use Rattle.ndc_model.specs.Moves.{after_settlement};
ghost use Rattle.ndc_model.specs.World.{World};

/// A settlement leaves a settled world, where reapplication in one workflow keeps worlds reached, and a writer that has
/// learned all of a workflow settles it by reapplication.
pub fn a_settlement_settles_all()
    ensures { (header : Head) (lines : ℕ) (w : World) → IsWellFormedHeader header → lines < 100000
        → ApplyingKeeps header (lines + 1) → ApplyingSettles header (lines + 1)
        → IsReached header lines w
        → IsSettled header (after_settlement header w).world }
{}
