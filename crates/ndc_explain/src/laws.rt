//! Laws of explanations. The functions do nothing: what each ensures is the law.
ghost use Rattle.std.specs.Prelude.{◌≡◌, ◌&&◌, Bool, true, false, not, map, List};
ghost use Rattle.ndc_event.specs.declared.batch.Batch.{Batch};
ghost use Rattle.ndc_event.specs.declared.key.Origin.{Origin};
ghost use Rattle.ndc_model_sets.specs.Current.{strays};
ghost use Rattle.ndc_model_sets.specs.Origins.{signals};
ghost use Rattle.ndc_model_sets.specs.Sets.{Has};
ghost use Rattle.ndc_model_sets.specs.Sound.{IsSound};
ghost use Rattle.ndc_model_sets.specs.View.{view_of};
ghost use Rattle.ndc_model_sets.specs.declared.view.View.{View};
ghost use Rattle.ndc_reapply.specs.Strays.{origins_of};
ghost use Rattle.ndc_state.specs.Laws.{AreApart};
ghost use Rattle.ndc_state.specs.Origins.{is_among};
ghost use Rattle.ndc_explain.specs.Explanation.{findings, waits};
ghost use Rattle.ndc_explain.specs.Losses.{is_told, is_told_as};
ghost use Rattle.ndc_dump_causes.specs.Keys.{is_listed};
ghost use Rattle.ndc_explain.specs.Standing.{is_on_current, standing};
ghost use Rattle.ndc_explain_sides.specs.Sides.{Lost, events_beside, placed_of};

/// Each event that stands on no current branch, but for signals, is told exactly once, or is a decision's: those that are
/// found lost are, one after the other, the events of the batches on no current branch; and one that is told is told either
/// as what happened on both sides or as what has to be driven again.
pub fn each_event_is_told_once()
    ensures lost { (view : View) → map placed_of (findings view).sides.lost
        ≡ events_beside (standing view) view.batches }
    ensures once { (all : Bool) (loss : Lost) → is_told_as all true loss
        ≡ (is_told all loss.event && not (is_told_as all false loss)) }
{}

/// Of a sound set, as a dump is one, a batch is told as lost exactly where it is on no run's current branch: it stands
/// where it is on the current branch of a run that is not a zombie.
pub fn what_stands_is_on_a_current_branch()
    ensures { (batches : List Batch) → IsSound batches → (b : Batch) → Has batches b
        → is_listed b.key (standing (view_of batches)) ≡ is_on_current batches b }
{}

/// Each signal is told exactly once: an origin is among those told exactly where a signal of the batches has it, and
/// none is told twice.
pub fn each_signal_is_told_once()
    ensures told { (view : View) (origin : Origin)
        → is_among origin (origins_of (findings view).signals)
        ≡ is_among origin (origins_of (signals view.batches)) }
    ensures once { (view : View) → AreApart (origins_of (findings view).signals) }
{}

/// What waits are the strays of the view, by which `ndc` applies signals again: of a sound set, as a dump is one, a signal
/// is told as waiting exactly where it is among its strays.
pub fn what_waits_are_strays()
    ensures { (batches : List Batch) → IsSound batches → (origin : Origin)
        → waits (findings (view_of batches)) origin
        ≡ is_among origin (origins_of (strays batches)) }
{}
