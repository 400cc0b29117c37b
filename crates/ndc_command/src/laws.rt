//! Laws of planning. The functions do nothing: what each ensures is the law.
ghost use Rattle.std.specs.Prelude.{◌≡◌, ◌≤◌, ◌<◌, ◌+◌, ℕ, List, length, Option, Some, Ok, false};
ghost use Rattle.ndc_event.specs.declared.key.RunId.{RunId as Run};
ghost use Rattle.ndc_event.specs.declared.kind.EventKind.{EventKind as Kind};
ghost use Rattle.ndc_event.specs.declared.name.Name.{Name as NameValue};
ghost use Rattle.ndc_state.specs.Value.{StateValue, new_state};
ghost use Rattle.ndc_state.specs.Written.{replay_kinds};
ghost use Rattle.ndc_command.specs.declared.command.Command.{Command as Asked};
ghost use Rattle.ndc_command.specs.declared.command.Command.TheVariants.{Start};
ghost use Rattle.ndc_command.specs.Actions.{after_kinds};
ghost use Rattle.ndc_command.specs.Laws.{IsFresh, begins_run, last_id};
ghost use Rattle.ndc_command.specs.Plan.{plan_of};

/// What is planned below the tip of a run replays on its state, and leaves the state that the planning went by.
#[tactic(auto, using(crate::proofs::LawProofs::replays))]
pub fn planned_events_replay()
    ensures { (s : StateValue) (command : Asked) (version limit : ℕ) (next_run : Run)
        (kinds : List Kind) → 1 < s.next → IsFresh s version → begins_run command ≡ false
        → plan_of (Some s) command version limit next_run ≡ Ok kinds → replay_kinds s version kinds
        ≡ Ok (after_kinds version s kinds) }
{}

/// What is planned for a start replays on the state of a run that has seen no event.
#[tactic(auto, using(crate::proofs::LawProofs::start_replays))]
pub fn planned_start_replays_on_no_event()
    ensures { (state : Option StateValue) (workflow_type : NameValue) (version limit : ℕ)
        (next_run run : Run) (kinds : List Kind)
        → plan_of state (Start workflow_type) version limit next_run ≡ Ok kinds
        → replay_kinds (new_state run) version kinds
        ≡ Ok (after_kinds version (new_state run) kinds) }
{}

/// No plan takes the history of its run above the limit.
#[tactic(auto, using(crate::proofs::LawProofs::fits))]
pub fn planned_events_keep_within_the_limit()
    ensures { (state : Option StateValue) (command : Asked) (version limit : ℕ) (next_run : Run)
        (kinds : List Kind) → plan_of state command version limit next_run ≡ Ok kinds
        → last_id state command + length kinds ≤ limit }
{}
