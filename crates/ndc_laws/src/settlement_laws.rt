// What a settlement and a resend leave, as laws.
ghost use Rattle.std.specs.Prelude.{ℕ, ◌<◌, List, ◌∷◌, ◌++◌};
ghost use Rattle.ndc_script_types.specs.WellFormed.{IsWellFormed, IsWellFormedHeader};
ghost use Rattle.ndc_script_types.specs.declared.script.Act.TheVariants as act;
ghost use Rattle.ndc_script_types.specs.declared.script.Header.{Header as Head};
ghost use Rattle.ndc_script_types.specs.declared.script.Line.{Line as ScriptLine};
ghost use Rattle.ndc_domain.specs.declared.clusters.ClusterNo.{ClusterNo as Number};
ghost use Rattle.ndc_laws_reached.specs.Settled.{ApplyingSettles, IsSettled};
ghost use Rattle.ndc_laws.specs.Promised.{NothingPutOff, line, world_before};
ghost use Rattle.ndc_model.specs.Facts.{IsReached};
ghost use Rattle.ndc_model.specs.Laws.{script_of};
ghost use Rattle.ndc_model.specs.Lines.{act_step};
ghost use Rattle.ndc_model.specs.Moves.{after_settlement};
ghost use Rattle.ndc_model.specs.World.{World};

/// A writer that has learned all that was written of a workflow settles it by reapplication: it has learned all
/// afterwards, and leaves nothing to be applied again.
pub fn a_writer_that_has_learned_all_settles_the_workflow()
    ensures { (header : Head) (lines : ℕ) → ApplyingSettles header lines }
{}

/// A settlement of a world that is as it should be, with a line to spare, leaves a settled world: the tables of all
/// clusters are one, each member of a domain has learned all that was written of its workflows, and nothing is put off,
/// in flight, late or to be applied again.
pub fn a_settlement_leaves_a_settled_world()
    ensures { (header : Head) (lines : ℕ) (w : World) → IsWellFormedHeader header → lines < 100000
        → IsReached header lines w → IsSettled header (after_settlement header w).world }
{}

/// After each line `settle` of a well-formed script the world is settled.
pub fn behind_settle_the_world_is_settled()
    ensures { (header : Head) (front back : List ScriptLine) (number : ℕ)
        → IsWellFormed (script_of header (front ++ line number act.Settle ∷ back))
        → IsSettled header (act_step header act.Settle (world_before header front)).world }
{}

/// After each line `resend` of a well-formed script nothing is put off at its cluster.
pub fn behind_resend_nothing_is_put_off()
    ensures { (header : Head) (front back : List ScriptLine) (number : ℕ) (cluster : Number)
        → IsWellFormed (script_of header (front ++ line number (act.Resend cluster) ∷ back))
        → NothingPutOff header cluster (act_step header (act.Resend cluster)
        (world_before header front)).world }
{}
