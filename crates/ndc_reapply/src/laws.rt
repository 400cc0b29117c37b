//! Laws of signals that are applied again. The functions do nothing: what each ensures is the law.
ghost use Rattle.std.specs.Prelude.{◌≡◌, ◌&&◌, not, ℕ, List, None, IsTrue, IsOkAnd, if◌then◌else◌};
ghost use Rattle.ndc_event.specs.declared.key.Origin.{Origin};
ghost use Rattle.ndc_reapply.specs.declared.stray.Stray.{Stray};
ghost use Rattle.ndc_reapply.specs.Laws.{rises, signal_at, are_unlisted, AreAmong, IsOpen, IsReapplied};
ghost use Rattle.ndc_reapply.specs.Reapplied.{reapplied};
ghost use Rattle.ndc_reapply.specs.Strays.{origins_of, strays_of};
ghost use Rattle.ndc_state.specs.Laws.{AreApart};
ghost use Rattle.ndc_state.specs.Origins.{is_among};
ghost use Rattle.ndc_state.specs.Value.{StateValue};
ghost use Rattle.ndc_state.specs.Written.{replay_kinds};

/// Strays rise by origin: by version, then by event, then by run.
#[tactic(auto, using(crate::proofs::LawProofs::strays_rise))]
pub fn strays_rise_by_origin()
    ensures { (signals : List Stray) (settled : List Origin)
        → IsTrue (rises (origins_of (strays_of signals settled))) }
{}

/// No origin stands twice among strays.
#[tactic(auto, using(crate::proofs::LawProofs::strays_apart))]
pub fn no_stray_stands_twice()
    ensures { (signals : List Stray) (settled : List Origin)
        → AreApart (origins_of (strays_of signals settled)) }
{}

/// An origin is that of a stray exactly where a signal has it and it is not settled.
#[tactic(auto, using(crate::proofs::LawProofs::unsettled_origins))]
pub fn strays_are_the_origins_not_settled()
    ensures { (origin : Origin) (signals : List Stray) (settled : List Origin)
        → is_among origin (origins_of (strays_of signals settled))
        ≡ (is_among origin (origins_of signals) && not (is_among origin settled)) }
{}

/// The stray with an origin is the first signal that has it, with its name and input.
#[tactic(auto, using(crate::proofs::LawProofs::first_unsettled))]
pub fn strays_are_the_first_signals()
    ensures { (origin : Origin) (signals : List Stray) (settled : List Origin)
        → signal_at origin (strays_of signals settled)
        ≡ (if is_among origin settled then None else signal_at origin signals) }
{}

/// Strays depend on the first signal of each origin and on what is settled alone, not on the order of either.
#[tactic(auto, using(crate::proofs::LawProofs::told_by_first))]
pub fn strays_are_told_by_the_first_signals()
    ensures { (one two : List Stray) (settled others : List Origin)
        → ((origin : Origin) → signal_at origin one ≡ signal_at origin two)
        → ((origin : Origin) → is_among origin settled ≡ is_among origin others)
        → strays_of one settled ≡ strays_of two others }
{}

/// Signals whose origins are new to an open state, each once, are applied again by what is written for them:
/// it replays, lists their origins after those listed before, and leaves a decision pending.
#[tactic(auto, using(crate::proofs::LawProofs::copies_replay))]
pub fn reapplied_kinds_replay()
    ensures { (s : StateValue) (version : ℕ) (list : List Stray) → IsOpen s
        → AreApart (origins_of list) → IsTrue (are_unlisted (origins_of list) s.origins)
        → IsOkAnd (replay_kinds s version (reapplied s version list)) (IsReapplied s version list) }
{}

/// So are strays below an open state whose origins are settled.
#[tactic(auto, using(crate::proofs::LawProofs::strays_replay))]
pub fn strays_replay()
    ensures { (s : StateValue) (version : ℕ) (signals : List Stray) (settled : List Origin)
        → IsOpen s → AreAmong s.origins settled
        → IsOkAnd (replay_kinds s version (reapplied s version (strays_of signals settled)))
        (IsReapplied s version (strays_of signals settled)) }
{}
