//! Laws of replay. The functions do nothing: what each ensures is the law.
ghost use Rattle.std.specs.Prelude.{◌≡◌, List, [], ◌++◌, IsSome, IsErr};
ghost use Rattle.ndc_event.specs.declared.batch.Event.{Event as HistoryEvent};
ghost use Rattle.ndc_event.specs.declared.key.RunId.{RunId as Run};
ghost use Rattle.ndc_state.specs.Laws.{IsOpenFit, CountsFromOne, AreApart};
ghost use Rattle.ndc_state.specs.Replay.{replay, replay_on, replay_of, collected};
ghost use Rattle.ndc_state.specs.Table.{applied};
ghost use Rattle.ndc_state.specs.Value.{StateValue};

/// Replay of a list in two parts is replay of the whole.
#[tactic(auto, using(crate::proofs::LawProofs::in_parts))]
pub fn replay_in_parts()
    ensures { (s : StateValue) (front rest : List HistoryEvent) → replay s (front ++ rest)
        ≡ replay_on (replay s front) rest }
{}

/// The events that replay have the ids 1, 2, 3 and so on, and the next id follows.
#[tactic(auto, using(crate::proofs::LawProofs::counts_from_one))]
pub fn replayed_ids_count_from_one()
    ensures { (run : Run) (events : List HistoryEvent) (s : StateValue)
        → replay_of run events ≡ Ok s → CountsFromOne events s }
{}

/// A run that was replayed is open exactly where it has seen an event and has not closed.
#[tactic(auto, using(crate::proofs::LawProofs::open_fit))]
pub fn replayed_run_is_open_until_closed()
    ensures { (run : Run) (events : List HistoryEvent) (s : StateValue)
        → replay_of run events ≡ Ok s → IsOpenFit s }
{}

/// A closed run takes no event.
#[tactic(auto, using(crate::proofs::LawProofs::closed_takes))]
pub fn closed_run_takes_no_event()
    ensures { (run : Run) (events : List HistoryEvent) (s : StateValue)
        → replay_of run events ≡ Ok s → IsSome s.close → (event : HistoryEvent)
        → IsErr (applied s event) }
{}

/// The origins of a state are those of the signals among its events, in order.
#[tactic(auto, using(crate::proofs::LawProofs::origins_collected))]
pub fn replayed_origins_are_those_of_the_signals()
    ensures { (run : Run) (events : List HistoryEvent) (s : StateValue)
        → replay_of run events ≡ Ok s → s.origins ≡ collected run [] events }
{}

/// No origin stands twice among a state's origins.
#[tactic(auto, using(crate::proofs::LawProofs::origins_apart))]
pub fn no_origin_stands_twice()
    ensures { (run : Run) (events : List HistoryEvent) (s : StateValue)
        → replay_of run events ≡ Ok s → AreApart s.origins }
{}
