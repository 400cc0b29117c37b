//! Laws of runs. The functions do nothing: what each ensures is the law.
ghost use Rattle.std.specs.Prelude.{◌≡◌, ◌+◌, List, Some};
ghost use Rattle.ndc_event.specs.declared.batch.Batch.{Batch};
ghost use Rattle.ndc_event.specs.declared.key.RunId.{RunId as RunKey};
ghost use Rattle.ndc_run.specs.Run.{IsRun};
ghost use Rattle.ndc_model_sets.specs.Branches.{current_tip};
ghost use Rattle.ndc_model_sets.specs.Current.{current_state, origins_at};
ghost use Rattle.ndc_model_sets.specs.Paths.{last_id};
ghost use Rattle.ndc_model_sets.specs.Sound.{PathsReplay, VersionsAreChains};
ghost use Rattle.ndc_state.specs.Laws.{IsOpenFit};

/// In a run the batches of one version form a chain, and every path replays.
pub fn paths_of_a_run_replay()
    ensures chains { (run : RunKey) (batches : List Batch) → IsRun run batches
        → VersionsAreChains batches }
    ensures replays { (run : RunKey) (batches : List Batch) → IsRun run batches
        → PathsReplay batches }
{}

/// The next id of a run's state comes just after the last id of the current branch's last batch.
pub fn the_next_event_comes_behind_the_tip()
    ensures { (run : RunKey) (batches : List Batch) (tip : Batch) → IsRun run batches
        → current_tip run batches ≡ Some tip
        → (current_state run batches).next ≡ last_id tip.events + 1 }
{}

/// A run is open exactly where it has seen an event and has not closed.
pub fn a_run_is_open_until_closed()
    ensures { (run : RunKey) (batches : List Batch) → IsRun run batches
        → IsOpenFit (current_state run batches) }
{}

/// The origins of a run's state are those of the signals on its current branch, in order.
pub fn states_have_the_origins_of_their_paths()
    ensures { (run : RunKey) (batches : List Batch) → IsRun run batches
        → (current_state run batches).origins ≡ origins_at run (current_tip run batches) batches }
{}
