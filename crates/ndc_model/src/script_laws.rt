// Lines and scripts, as laws.
ghost use Rattle.std.specs.Prelude.{◌≡◌, ◌++◌, [], ◌∷◌, true, false, codes, List};
ghost use Rattle.ndc_event.specs.declared.name.Name.{Name as Text};
ghost use Rattle.ndc_domain.specs.declared.clusters.ClusterNo.{ClusterNo as Number};
ghost use Rattle.ndc_script_types.specs.declared.script.Act.{Act as Asked};
ghost use Rattle.ndc_script_types.specs.declared.script.Act.TheVariants as act;
ghost use Rattle.ndc_script_types.specs.declared.script.Header.{Header as Head};
ghost use Rattle.ndc_script_types.specs.declared.script.Line.{Line as ScriptLine};
ghost use Rattle.ndc_model.specs.Handovers.{without_handover};
ghost use Rattle.ndc_model.specs.Laws.{ChangesNothing, is_overtaken, is_reading, is_refusal, script_of};
ghost use Rattle.ndc_model.specs.Lines.{act_step, answers_of, plain_lines, ran_from, ran_of, seen_in, world_behind};
ghost use Rattle.ndc_model.specs.Report.{report_of};
ghost use Rattle.ndc_model.specs.Reading.{learned_at};
ghost use Rattle.ndc_model.specs.Texts.{ok};
ghost use Rattle.ndc_model.specs.World.{World, opening_world};

/// A refused line changes nothing, but that a handover which was overtaken has ended.
#[tactic(auto, using(crate::proofs::StepLemmas::refused_changes_nothing, crate::proofs::StepLemmas::overtaken_ends))]
pub fn a_refused_line_changes_nothing()
    ensures refused { (header : Head) (asked : Asked) (w : World)
        → is_refusal (act_step header asked w).answer ≡ true
        → is_overtaken (act_step header asked w).answer ≡ false
        → ChangesNothing w (act_step header asked w) }
    ensures overtaken { (header : Head) (at : Number) (domain : Text) (w : World)
        → is_overtaken (act_step header (act.Complete at domain) w).answer ≡ true
        → ChangesNothing (without_handover domain w) (act_step header (act.Complete at domain) w) }
{}

/// A line that only reads changes nothing.
#[tactic(auto, using(crate::proofs::StepLemmas::reading_changes_nothing))]
pub fn a_reading_line_changes_nothing()
    ensures { (header : Head) (asked : Asked) (w : World) → is_reading asked ≡ true
        → ChangesNothing w (act_step header asked w) }
{}

/// The lines of a script in two parts are those of the first, and then those of the second in the world that the
/// first left; so are what they answer and what they make learned. So the report of the first part, where no
/// indexer is asked for, is a prefix of that of the whole.
#[tactic(auto, using(crate::proofs::ScriptLemmas::script_in_parts, crate::proofs::ScriptLemmas::answers_in_parts, crate::proofs::ScriptLemmas::report_in_parts, crate::proofs::ScriptLemmas::seen_in_parts))]
pub fn a_script_runs_in_parts()
    ensures lines { (header : Head) (lines more : List ScriptLine)
        → ran_of (script_of header (lines ++ more))
        ≡ ran_of (script_of header lines)
        ++ ran_from header (world_behind (opening_world header)
        (ran_of (script_of header lines))) (plain_lines more) }
    ensures answers { (header : Head) (lines more : List ScriptLine)
        → answers_of (ran_of (script_of header (lines ++ more)))
        ≡ answers_of (ran_of (script_of header lines))
        ++ answers_of (ran_from header
        (world_behind (opening_world header) (ran_of (script_of header lines)))
        (plain_lines more)) }
    ensures report { (header : Head) (lines more : List ScriptLine)
        → report_of (script_of header (lines ++ more)) [] []
        ≡ report_of (script_of header lines) [] []
        ++ answers_of (ran_from header
        (world_behind (opening_world header) (ran_of (script_of header lines)))
        (plain_lines more)) }
    ensures seen { (header : Head) (lines more : List ScriptLine)
        → seen_in (ran_of (script_of header (lines ++ more)))
        ≡ seen_in (ran_of (script_of header lines))
        ++ seen_in (ran_from header
        (world_behind (opening_world header) (ran_of (script_of header lines)))
        (plain_lines more)) }
{}

/// Clusters that have learned the same batches of a workflow answer alike, and `compare` answers that they show the same.
#[tactic(auto, using(crate::proofs::AlikeLemmas::history_alike, crate::proofs::AlikeLemmas::branches_alike, crate::proofs::AlikeLemmas::current_alike, crate::proofs::AlikeLemmas::state_alike, crate::proofs::AlikeLemmas::dump_alike, crate::proofs::AlikeLemmas::compare_same))]
pub fn clusters_that_learned_the_same_answer_alike()
    ensures history { (header : Head) (one two : Number) (domain workflow : Text) (w : World)
        → learned_at header one domain workflow w ≡ learned_at header two domain workflow w
        → (act_step header (act.History one domain workflow) w).answer
        ≡ (act_step header (act.History two domain workflow) w).answer }
    ensures branches { (header : Head) (one two : Number) (domain workflow : Text) (w : World)
        → learned_at header one domain workflow w ≡ learned_at header two domain workflow w
        → (act_step header (act.Branches one domain workflow) w).answer
        ≡ (act_step header (act.Branches two domain workflow) w).answer }
    ensures current { (header : Head) (one two : Number) (domain workflow : Text) (w : World)
        → learned_at header one domain workflow w ≡ learned_at header two domain workflow w
        → (act_step header (act.Current one domain workflow) w).answer
        ≡ (act_step header (act.Current two domain workflow) w).answer }
    ensures state { (header : Head) (one two : Number) (domain workflow : Text) (w : World)
        → learned_at header one domain workflow w ≡ learned_at header two domain workflow w
        → (act_step header (act.StateOf one domain workflow) w).answer
        ≡ (act_step header (act.StateOf two domain workflow) w).answer }
    ensures dump { (header : Head) (one two : Number) (domain workflow : Text) (w : World)
        → learned_at header one domain workflow w ≡ learned_at header two domain workflow w
        → (act_step header (act.Dump one domain workflow) w).answer
        ≡ (act_step header (act.Dump two domain workflow) w).answer }
    ensures compare { (header : Head) (one two : Number) (domain workflow : Text) (w : World)
        → learned_at header one domain workflow w ≡ learned_at header two domain workflow w
        → (act_step header (act.Compare one two domain workflow) w).answer
        ≡ ok (codes "same" ∷ []) }
{}
