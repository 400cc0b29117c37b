// What work leaves, as a law.
ghost use Rattle.std.specs.Prelude.{ℕ, List, ◌∷◌, ◌++◌};
ghost use Rattle.ndc_script_types.specs.WellFormed.{IsWellFormed};
ghost use Rattle.ndc_script_types.specs.declared.script.Act.TheVariants as act;
ghost use Rattle.ndc_script_types.specs.declared.script.Header.{Header as Head};
ghost use Rattle.ndc_script_types.specs.declared.script.Line.{Line as ScriptLine};
ghost use Rattle.ndc_domain.specs.declared.clusters.ClusterNo.{ClusterNo as Number};
ghost use Rattle.ndc_laws.specs.Promised.{line, world_before};
ghost use Rattle.ndc_laws.specs.Worked.{HasWorked};
ghost use Rattle.ndc_model.specs.Laws.{script_of};
ghost use Rattle.ndc_model.specs.Lines.{act_step};

/// After each line `work` of a well-formed script nothing is in flight to its cluster, what is put off there is what
/// lacks an ancestor, and of each workflow to which the cluster may write and whose current run is open it has no
/// stray.
pub fn behind_work_nothing_is_left_to_do()
    ensures { (header : Head) (front back : List ScriptLine) (number : ℕ) (cluster : Number)
        → IsWellFormed (script_of header (front ++ line number (act.Work cluster) ∷ back))
        → HasWorked header cluster (act_step header (act.Work cluster)
        (world_before header front)).world }
{}
