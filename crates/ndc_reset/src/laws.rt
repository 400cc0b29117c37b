//! The law of resets. The function does nothing: what it ensures is the law.
ghost use Rattle.std.specs.Prelude.{◌≡◌, ℕ, List, Ok, IsTrue, IsOkAnd};
ghost use Rattle.ndc_event.specs.declared.batch.Event.{Event};
ghost use Rattle.ndc_event.specs.declared.key.RunId.{RunId};
ghost use Rattle.ndc_reset.specs.Laws.{GoesOn};
ghost use Rattle.ndc_reset.specs.Reset.{is_point, reset_kinds};
ghost use Rattle.ndc_state.specs.Replay.{replay_of};
ghost use Rattle.ndc_state.specs.Value.{StateValue, new_state};
ghost use Rattle.ndc_state.specs.Written.{replay_kinds};

/// The kinds of a reset replay in any new run and with any version: the new run is open, a decision is
/// pending, and its origins are those of the old run, in their order.
#[tactic(auto, using(crate::proofs::LawProofs::reset_goes_on))]
pub fn a_reset_goes_on()
    ensures { (run new : RunId) (version point : ℕ) (history : List Event) (s : StateValue)
        → replay_of run history ≡ Ok s → IsTrue (is_point point history)
        → IsOkAnd (replay_kinds (new_state new) version (reset_kinds run point history))
        (GoesOn s new) }
{}
