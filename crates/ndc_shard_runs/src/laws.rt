//! Laws of what is learned of a workflow. The functions do nothing: what each ensures is the law.
ghost use Rattle.std.specs.Prelude.{◌≡◌, ◌<◌, ◌^◌, List, Option, Some, None, IfSome, IsOk};
ghost use Rattle.std.specs.List.{AllByRecursion, filter};
ghost use Rattle.ndc_event.specs.declared.batch.Batch.{Batch};
ghost use Rattle.ndc_event.specs.declared.key.RunId.{RunId as Run};
ghost use Rattle.ndc_model_cells.specs.Laws.{arrived_second};
ghost use Rattle.ndc_model_cells.specs.Writing.{greatest_task};
ghost use Rattle.ndc_event.specs.declared.key.Origin.{Origin};
ghost use Rattle.ndc_run.specs.Learning.{learned};
ghost use Rattle.ndc_shard_runs.specs.Copies.{CopiesFitInto, event_of};
ghost use Rattle.ndc_shard_runs.specs.Fitting.{ComesNext, Fits, GoesWithNew, fit_of};
ghost use Rattle.ndc_shard_runs.specs.Kept.{Follows, is_unlisted};
ghost use Rattle.ndc_shard_runs.specs.RunMap.{part_of};
ghost use Rattle.ndc_model_sets.specs.Branches.{tips};
ghost use Rattle.ndc_model_sets.specs.Current.{current_state, state_to, strays};
ghost use Rattle.ndc_model_sets.specs.Origins.{origins_in};
ghost use Rattle.ndc_model_sets.specs.Paths.{path_to};
ghost use Rattle.ndc_model_sets.specs.Sets.{batch_at, Has, arrived};
ghost use Rattle.ndc_model_sets.specs.Sound.{CopiesNamed, IsSound, Names};
ghost use Rattle.ndc_model_sets.specs.Writing.{CopiesFitWith};

/// The batches of a run have among themselves the paths, the states and the tips that they have in the workflow, and
/// the run has the same current state.
#[tactic(auto, using(crate::proofs::LawProofs::paths_of_parts, crate::proofs::LawProofs::states_of_parts, crate::proofs::LawProofs::tips_of_parts, crate::proofs::LawProofs::current_of_parts))]
pub fn a_run_is_told_by_its_own_batches()
    ensures paths { (batches : List Batch) (run : Run) (b : Batch) → IsSound batches → Has batches b
        → b.run ≡ run → path_to b.key (part_of run batches) ≡ path_to b.key batches }
    ensures states { (batches : List Batch) (run : Run) (b : Batch) → IsSound batches
        → Has batches b → b.run ≡ run → state_to run b.key (part_of run batches)
        ≡ state_to run b.key batches }
    ensures tips { (batches : List Batch) (run : Run) → IsSound batches
        → tips run (part_of run batches) ≡ tips run batches }
    ensures current { (batches : List Batch) (run : Run) → IsSound batches
        → current_state run (part_of run batches) ≡ current_state run batches }
{}

/// After a batch that goes on from the current branch of the current run, or begins a run after a current one that is
/// not open, the strays are those whose origins it does not settle.
pub fn a_batch_that_follows_settles_its_origins_alone()
    ensures { (batches : List Batch) (b : Batch) → IsSound batches → IsSound (arrived b batches)
        → batch_at b.key batches ≡ None → Follows batches b
        → strays (arrived b batches)
        ≡ filter (is_unlisted (origins_in b.run b.events)) (strays batches) }
{}

/// An event of a batch of a sound set is the one that is found by each origin that names it.
pub fn an_origin_names_one_event()
    ensures { (batches : List Batch) (origin : Origin) (b : Batch) → IsSound batches → Has batches b
        → AllByRecursion (λ event.
        Names origin b.run event → event_of origin batches ≡ Some event) b.events }
{}

/// A batch that comes next leaves a sound set exactly where it fits: its run takes it, copies of signals fit in both
/// directions, and its carrier, where it has one, goes on as its run. So these tests of the batch alone decide what holds of
/// all, for tasks below 2^64, as those of batches are.
pub fn what_fits_leaves_a_sound_set()
    ensures sound { (batches : List Batch) (b : Batch) → IsSound batches → ComesNext batches b
        → Fits batches b → IsSound (arrived b batches) }
    ensures fits { (batches : List Batch) (b : Batch) → IsSound batches → ComesNext batches b
        → greatest_task batches < 2 ^ 64 → b.key.task < 2 ^ 64
        → IsSound (arrived b batches) → Fits batches b }
{}

/// Where each learned copy of a signal names an original that is learned, no copy names an event of a batch that comes next
/// and that its run takes: its copies fit in both directions where they fit the events that are learned and its own.
pub fn copies_that_name_originals_fit_what_comes_next()
    ensures { (batches : List Batch) (b : Batch) → IsSound batches → CopiesNamed batches
        → ComesNext batches b → IsOk (learned b.run (part_of b.run batches) b)
        → CopiesFitInto batches b → CopiesFitWith batches b }
{}

/// What `Runs::admit` refuses would not be sound: where what is learned with a batch that comes next, and with the one that goes
/// right after it, is sound, both fit, for tasks below 2^64, as those of batches are.
pub fn what_is_refused_would_not_be_sound()
    ensures { (batches : List Batch) (b : Batch) (second : Option Batch) → IsSound batches
        → ComesNext batches b → IfSome second (GoesWithNew batches b)
        → greatest_task batches < 2 ^ 64 → b.key.task < 2 ^ 64
        → IfSome second (λ s. s.key.task < 2 ^ 64)
        → IsSound (arrived_second second (arrived b batches)) → IsOk (fit_of batches b second) }
{}
