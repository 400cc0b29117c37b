// Dumps in the report of a script, as laws.
ghost use Rattle.std.specs.List.{AllByRecursion};
ghost use Rattle.std.specs.Prelude.{◌≡◌, ◌⊎◌, ℕ, List, [], ◌∷◌, ◌++◌, codes};
ghost use Rattle.ndc_script_types.specs.WellFormed.{IsWellFormed};
ghost use Rattle.ndc_script_types.specs.declared.script.Act.TheVariants as act;
ghost use Rattle.ndc_script_types.specs.declared.script.Header.{Header as Head};
ghost use Rattle.ndc_script_types.specs.declared.script.Line.{Line as ScriptLine};
ghost use Rattle.ndc_script_types.specs.declared.script.Script.{Script as Whole};
ghost use Rattle.ndc_domain.specs.declared.clusters.ClusterNo.{ClusterNo as Number};
ghost use Rattle.ndc_event.specs.declared.name.Name.{Name};
ghost use Rattle.ndc_laws_program.specs.Dumps.{HoldsDump, LearnedCanBeDumped};
ghost use Rattle.ndc_laws.specs.Promised.{line, world_before};
ghost use Rattle.ndc_model.specs.Laws.{script_of};
ghost use Rattle.ndc_model.specs.Lines.{act_step, worlds_of};
ghost use Rattle.ndc_model.specs.Texts.{refused};

/// In every world of a well-formed script each cluster can dump what it has learned of a workflow, where it has learned
/// anything.
pub fn what_clusters_learn_can_be_dumped()
    ensures { (script : Whole) → IsWellFormed script → AllByRecursion (LearnedCanBeDumped script.header) (worlds_of script) }
{}

/// A line `dump` of a well-formed script is refused, or it answers with a dump of the workflow: the text is read, and
/// printed again it is the same.
pub fn each_dump_in_a_report_is_a_dump()
    ensures { (header : Head) (front back : List ScriptLine) (number : ℕ) (cluster : Number) (domain workflow : Name) → IsWellFormed (script_of header (front ++ line number (act.Dump cluster domain workflow) ∷ back))
        → ((act_step header (act.Dump cluster domain workflow) (world_before header front)).answer ≡ refused (codes "NoWorkflow" ∷ []))
        ⊎ HoldsDump domain workflow (act_step header (act.Dump cluster domain workflow) (world_before header front)).answer }
{}
