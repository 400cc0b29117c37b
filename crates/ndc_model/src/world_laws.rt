// Worlds, as laws.
ghost use Rattle.std.specs.Prelude.{◌≡◌, ℕ, false, ◌&&◌, [], ◌∷◌, IfSome};
ghost use Rattle.std.specs.Str.{bytes_eq};
ghost use Rattle.ndc_command.specs.declared.command.Command.{Command as Asked};
ghost use Rattle.ndc_domain.specs.declared.clusters.ClusterNo.{ClusterNo as Number};
ghost use Rattle.ndc_event.specs.declared.name.Name.{Name as Text};
ghost use Rattle.ndc_script_types.specs.declared.script.Header.{Header as Head};
ghost use Rattle.ndc_model_cells.specs.declared.message.Message.{Message};
ghost use Rattle.ndc_model_cells.specs.Cells.{learned_of};
ghost use Rattle.ndc_model_cells.specs.Places.{is_of};
ghost use Rattle.ndc_model.specs.Moves.{Trace, arrives, jobs_done};
ghost use Rattle.ndc_model.specs.Steps.{command_step, reset_step};
ghost use Rattle.ndc_model.specs.World.{World, cell_of};

/// A line that writes to one workflow, and a message of one workflow that arrives, leave what any cluster has
/// learned of another workflow as it was.
#[tactic(auto, using(crate::proofs::WorldLemmas::command_leaves_others, crate::proofs::WorldLemmas::reset_leaves_others, crate::proofs::WorldLemmas::arrival_leaves_others))]
pub fn a_move_leaves_other_workflows()
    ensures command { (header : Head) (cluster other : Number)
        (written_domain written_workflow domain workflow : Text) (asked : Asked) (w : World)
        → (bytes_eq written_domain domain && bytes_eq written_workflow workflow) ≡ false
        → learned_of domain workflow (cell_of header other domain workflow
        (command_step header cluster written_domain written_workflow asked w).world)
        ≡ learned_of domain workflow (cell_of header other domain workflow w) }
    ensures reset { (header : Head) (cluster other : Number)
        (written_domain written_workflow domain workflow : Text) (event : ℕ) (w : World)
        → (bytes_eq written_domain domain && bytes_eq written_workflow workflow) ≡ false
        → learned_of domain workflow (cell_of header other domain workflow
        (reset_step header cluster written_domain written_workflow event w).world)
        ≡ learned_of domain workflow (cell_of header other domain workflow w) }
    ensures arrival { (header : Head) (cluster other : Number) (shard : ℕ) (domain workflow : Text)
        (sent : Message) (t : Trace) → is_of domain workflow sent.batch ≡ false
        → IfSome sent.second (λ b. is_of domain workflow b ≡ false)
        → learned_of domain workflow (cell_of header other domain workflow
        (jobs_done header cluster (arrives shard sent ∷ []) t).world)
        ≡ learned_of domain workflow (cell_of header other domain workflow t.world) }
{}
