// What one write adds to a workflow, as laws.
ghost use Rattle.std.specs.List.{AllByRecursion};
ghost use Rattle.std.specs.Prelude.{◌≡◌, ◌≤◌, ℕ, false, ◌⊎◌, List, ◌∷◌, ◌++◌, length, count_by, Some, Ok, IsTrue};
ghost use Rattle.ndc_script_types.specs.WellFormed.{IsWellFormedCommand};
ghost use Rattle.ndc_model_cells.specs.Writing.{Entry, command_entries, reapplication_below, reset_below};
ghost use Rattle.ndc_command.specs.declared.command.Command.{Command as Asked};
ghost use Rattle.ndc_command.specs.Laws.{begins_run};
ghost use Rattle.ndc_command.specs.Plan.{plan_of};
ghost use Rattle.ndc_event.specs.declared.batch.Batch.{Batch};
ghost use Rattle.ndc_event.specs.declared.batch.Event.{Event};
ghost use Rattle.ndc_event.specs.declared.key.RunId.{RunId as Run};
ghost use Rattle.ndc_event.specs.declared.kind.EventKind.{EventKind as Kind};
ghost use Rattle.ndc_event.specs.declared.name.Name.{Name as NameValue};
ghost use Rattle.ndc_index.specs.Texts.{is_original};
ghost use Rattle.ndc_model_sets.specs.Branches.{workflow_tip};
ghost use Rattle.ndc_model_sets.specs.Current.{strays};
ghost use Rattle.ndc_model_sets.specs.Paths.{events_to};
ghost use Rattle.ndc_model_sets.specs.Sound.{CopiesFit, CopiesNamed, IsSound, NamesOriginal};
ghost use Rattle.ndc_model_sets.specs.Writing.{Begins, GoesBelow};
ghost use Rattle.ndc_state.specs.Replay.{replay_of};
ghost use Rattle.ndc_state.specs.Value.{StateValue};
ghost use Rattle.ndc_text.specs.Ranges.{IsName, KindFits, is_run};
ghost use Rattle.ndc_laws_cells.specs.Adding.{Added, IsChained, MayAdd};
ghost use Rattle.ndc_laws_cells.specs.Entries.{AreFew, IsPlain, WritesAlone, WritesBehind, WritesOne, originals_in};
ghost use Rattle.ndc_laws_cells.specs.Past.{EventsAreOne};

/// An event that is named by its run, id and version has one content and one past: on whichever paths it stands,
/// it is the same event, and so is all that stands before it.
pub fn an_event_has_one_content_and_one_past()
    ensures { (batches : List Batch) → IsChained batches → EventsAreOne batches }
{}

/// Where each copied signal names an original one, copies fit.
#[tactic(auto, using(crate::proofs::NamedLemmas::copies_fit))]
pub fn copies_that_name_originals_fit()
    ensures { (batches : List Batch) → IsChained batches → CopiesNamed batches → CopiesFit batches }
{}

/// A batch that goes below the tip of what its writer has learned, or begins a run, is added to a sound set whose
/// copies name originals, where its own copies do and its path replays.
pub fn a_batch_that_replays_is_added()
    ensures below { (all part : List Batch) (tip new : Batch) (s : StateValue) → IsSound all
        → CopiesNamed all → GoesBelow all part tip new
        → AllByRecursion (λ (event : Event). NamesOriginal all event.kind) new.events
        → replay_of new.run (events_to tip.key all ++ new.events) ≡ Ok s → Added all new }
    ensures first { (all : List Batch) (new : Batch) (s : StateValue) → IsSound all
        → CopiesNamed all → Begins all new
        → AllByRecursion (λ (event : Event). NamesOriginal all event.kind) new.events
        → replay_of new.run new.events ≡ Ok s → Added all new }
{}

/// What a command plans below a tip has no copied signal and one original signal at most, goes on only as the next
/// run, and is in the ranges of batch texts.
pub fn plans_copy_no_signal()
    ensures plain { (s : StateValue) (command : Asked) (version limit : ℕ) (run : Run)
        (kinds : List Kind) → begins_run command ≡ false
        → plan_of (Some s) command version limit run ≡ Ok kinds
        → AllByRecursion (IsPlain run) kinds }
    ensures few { (s : StateValue) (command : Asked) (version limit : ℕ) (run : Run)
        (kinds : List Kind) → begins_run command ≡ false
        → plan_of (Some s) command version limit run ≡ Ok kinds → count_by is_original kinds ≤ 1 }
    ensures fit { (s : StateValue) (command : Asked) (version limit : ℕ) (run : Run)
        (kinds : List Kind) → IsTrue (is_run run.value) → IsWellFormedCommand command
        → begins_run command ≡ false
        → plan_of (Some s) command version limit run ≡ Ok kinds → AllByRecursion KindFits kinds }
{}

/// What a command writes, where its cluster may add to all that was written, is one entry that may be written.
pub fn what_a_command_writes_may_be_added()
    ensures { (all part : List Batch) (version limit : ℕ) (domain workflow : NameValue)
        (command : Asked) (entries : List Entry) → MayAdd all part version → AreFew all version
        → IsName domain → IsName workflow
        → limit ≤ 204800 → IsWellFormedCommand command
        → command_entries domain workflow command limit version part ≡ Ok entries
        → WritesOne all part domain workflow version 1 entries }
{}

/// What a reset writes is the first batch of a new run, or that after one that closes the old run, and may be
/// written.
pub fn what_a_reset_writes_may_be_added()
    ensures { (all part : List Batch) (version limit event : ℕ) (domain workflow : NameValue)
        (entries : List Entry) → MayAdd all part version → AreFew all version → IsName domain
        → IsName workflow
        → limit ≤ 204800 → reset_below domain workflow event limit version (workflow_tip part) part
        ≡ Ok entries → WritesAlone all part domain workflow version entries
        ⊎ WritesBehind all part domain workflow version entries }
{}

/// What a reapplication writes, where it writes anything, is one batch that may be written.
pub fn what_a_reapplication_writes_may_be_added()
    ensures { (all part : List Batch) (version : ℕ) (domain workflow : NameValue) (entry : Entry)
        (more : List Entry) → MayAdd all part version → AreFew all version → IsName domain
        → IsName workflow
        → reapplication_below domain workflow version (workflow_tip part) part (strays part)
        ≡ entry ∷ more → WritesAlone all part domain workflow version (entry ∷ more) }
{}

/// There are no more strays than original signals.
pub fn strays_are_no_more_than_original_signals()
    ensures { (all part : List Batch) (version : ℕ) → MayAdd all part version
        → length (strays part) ≤ originals_in all }
{}
