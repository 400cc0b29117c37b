// What the definitions give of small worked cells; the checker computes it.
ghost use Rattle.std.specs.Prelude.{◌≡◌, [], ◌∷◌, codes, Ok, Err, Some, None};
ghost use Rattle.ndc_command.specs.declared.command.Command.TheVariants as command;
ghost use Rattle.ndc_command.specs.declared.refusal.CommandError.TheVariants.{Refused};
ghost use Rattle.ndc_command.specs.declared.refusal.Refusal.TheVariants as refusal;
ghost use Rattle.ndc_event.specs.declared.kind.EventKind.TheVariants.{WorkflowExecutionTerminated};
ghost use Rattle.ndc_model_sets.specs.Worked.{key, item, run, batch, begun};
ghost use Rattle.ndc_model_cells.specs.declared.job.Arrived.TheVariants.{Known, Learned, PutOff};
ghost use Rattle.ndc_model_cells.specs.Arrival.{arrival_of, arrived_at, learned_by};
ghost use Rattle.ndc_model_cells.specs.Cells.{empty_cell};
ghost use Rattle.ndc_model_cells.specs.Writing.{alone, command_of, reapplication_of, reset_at};
ghost use Rattle.ndc_model_cells.specs.Worked.{home, holding, sent_alone, first_signal, other_signal, applied_again, decided, signaled_over, to_be_reset, reset_to};

/// The active cluster begins a run and signals it; a cluster that is not active is refused, and so is one that
/// has learned a greater version than its record has.
#[tactic(auto, unfolding(crate::specs::Writing::may_write, crate::specs::Writing::command_of, ndc_state::specs::Table::row, ndc_command::specs::Plan::plan_of, ndc_command::specs::Plan::start_of, ndc_command::specs::Plan::plan_below, ndc_command::specs::Plan::written, ndc_command::specs::Plan::judged_at, ndc_command::specs::Plan::within, ndc_command::specs::Stage::refuse))]
pub fn the_active_cluster_writes()
    ensures start { command_of (home 0 1) (codes "alpha") (codes "w1")
        (command.Start (codes "order")) empty_cell ≡ Ok (alone begun ∷ []) }
    ensures signal { command_of (home 0 1) (codes "alpha") (codes "w1")
        (command.Signal (codes "a1") (codes "x")) (holding (begun ∷ []))
        ≡ Ok (alone first_signal ∷ []) }
    ensures unknown { command_of (home 0 1) (codes "beta") (codes "w1")
        (command.Start (codes "order")) empty_cell ≡ Err (Refused refusal.UnknownDomain) }
    ensures passive { command_of (home 1 1) (codes "alpha") (codes "w1")
        (command.Signal (codes "a1") (codes "x")) (holding (begun ∷ []))
        ≡ Err (Refused (refusal.NotActive 1)) }
    ensures behind { command_of (home 0 1) (codes "alpha") (codes "w1")
        (command.Signal (codes "a2") (codes "x"))
        (holding (begun ∷ first_signal ∷ other_signal ∷ [])) ≡ Err (Refused (refusal.Behind 2)) }
{}

/// The new active cluster applies the signal of the branch that lost again, once; a cluster that may not write
/// applies nothing.
#[tactic(auto, unfolding(crate::specs::Writing::may_write, crate::specs::Writing::reapplication_of, ndc_state::specs::Table::row, ndc_reapply::specs::Reapplied::reapplied))]
pub fn a_lost_signal_is_applied_again()
    ensures again { reapplication_of (home 1 2) (codes "alpha") (codes "w1")
        (holding (begun ∷ first_signal ∷ other_signal ∷ [])) ≡ alone applied_again ∷ [] }
    ensures once { reapplication_of (home 1 2) (codes "alpha") (codes "w1")
        (holding (begun ∷ first_signal ∷ other_signal ∷ applied_again ∷ [])) ≡ [] }
    ensures passive { reapplication_of (home 0 1) (codes "alpha") (codes "w1")
        (holding (begun ∷ first_signal ∷ other_signal ∷ [])) ≡ [] }
{}

/// A batch of a new version below a started decision fails it and schedules it again, before its own events.
#[tactic(auto, unfolding(crate::specs::Writing::may_write, crate::specs::Writing::command_of, ndc_state::specs::Table::row, ndc_command::specs::Plan::plan_of, ndc_command::specs::Plan::start_of, ndc_command::specs::Plan::plan_below, ndc_command::specs::Plan::written, ndc_command::specs::Plan::judged_at, ndc_command::specs::Plan::within, ndc_command::specs::Stage::refuse))]
pub fn a_started_decision_is_closed_after_a_failover()
    ensures { command_of (home 1 2) (codes "alpha") (codes "w1")
        (command.Signal (codes "b1") (codes "y")) (holding (begun ∷ decided ∷ []))
        ≡ Ok (alone signaled_over ∷ []) }
{}

/// A batch whose parent has not arrived is put off, and its message waits; when the parent comes both are learned and
/// nothing waits, and what has come before is known.
#[tactic(auto, unfolding(crate::specs::Arrival::arrival_of, crate::specs::Arrival::arrived_at, crate::specs::Arrival::learned_by))]
pub fn a_batch_waits_for_its_parent()
    ensures waits { arrival_of (sent_alone other_signal (item 2 1 ∷ item 3 2 ∷ [])) empty_cell
        ≡ PutOff (key 1 1) }
    ensures kept { (arrived_at
        (sent_alone other_signal (item 2 1 ∷ item 3 2 ∷ [])) empty_cell).waiting
        ≡ sent_alone other_signal (item 2 1 ∷ item 3 2 ∷ []) ∷ [] }
    ensures both { arrival_of (sent_alone begun (item 2 1 ∷ [])) (holding (other_signal ∷ []))
        ≡ Learned (key 1 1 ∷ key 2 2 ∷ []) }
    ensures learned { learned_by (sent_alone begun (item 2 1 ∷ [])) (holding (other_signal ∷ []))
        ≡ begun ∷ other_signal ∷ [] }
    ensures freed { (arrived_at (sent_alone begun (item 2 1 ∷ []))
        (arrived_at (sent_alone other_signal (item 2 1 ∷ item 3 2 ∷ [])) empty_cell)).waiting ≡ [] }
    ensures again { arrival_of (sent_alone begun (item 2 1 ∷ []))
        (holding (begun ∷ other_signal ∷ [])) ≡ Known }
{}

/// A reset closes the open run and begins another one with what stood before the point and copies of all signals;
/// another event than a completed decision is not a point.
#[tactic(auto, unfolding(crate::specs::Writing::may_write, crate::specs::Writing::reset_at, ndc_state::specs::Table::row, ndc_reset::specs::Reset::reset_kinds, ndc_reset::specs::Reset::reset_of))]
pub fn a_run_is_reset_at_a_decision()
    ensures point { reset_at (home 0 1) (codes "alpha") (codes "w1") 5 (holding to_be_reset)
        ≡ Ok (alone (batch (run 1) (key 1 6) (Some (key 1 5)) None 9
        (WorkflowExecutionTerminated (codes "reset") ∷ [])) ∷ alone reset_to ∷ []) }
    ensures none { reset_at (home 0 1) (codes "alpha") (codes "w1") 4 (holding to_be_reset)
        ≡ Err (Refused refusal.NoSuchPoint) }
{}
