// Sound sets, as laws.
ghost use Rattle.std.specs.Prelude.{◌≡◌, true, List, [], ◌∷◌, ◌++◌, Some, None, IsOk};
ghost use Rattle.ndc_event.specs.Batch.{fault_of};
ghost use Rattle.ndc_event.specs.declared.batch.Batch.{Batch};
ghost use Rattle.ndc_state.specs.Laws.{AreApart};
ghost use Rattle.ndc_state.specs.Replay.{replay_of};
ghost use Rattle.ndc_model_sets.specs.Sets.{IsSet, Has, arrived, batch_at, earlier};
ghost use Rattle.ndc_model_sets.specs.Learned.{IsClosed, IsPart, has_key};
ghost use Rattle.ndc_model_sets.specs.Origins.{origins_in};
ghost use Rattle.ndc_model_sets.specs.Paths.{events_to, path_to};
ghost use Rattle.ndc_model_sets.specs.Sound.{ParentsFit, VersionsAreChains, OriginsDiffer, CopiesFit, PathsReplay, CarriersFit, IsSound};
ghost use Rattle.ndc_model_sets.specs.Writing.{GoesBelow, Begins, CopiesFitWith};

/// A closed part of a sound set is sound.
#[tactic(auto, using(crate::proofs::SoundLemmas::part_is_sound))]
pub fn closed_parts_are_sound()
    ensures { (batches part : List Batch) → IsSound batches → IsSet part → IsClosed part
        → IsPart part batches → IsSound part }
{}

/// A batch that goes below the tip of what its writer has learned, where this has all batches of its version,
/// keeps what holds of parents, chains and carriers; what holds of origins, where those on its path differ; what
/// holds of copies, where they fit; and that paths replay, where its own does.
#[tactic(auto, using(crate::proofs::WriteLaws::below_keeps_parents, crate::proofs::WriteLaws::below_keeps_chains, crate::proofs::WriteLaws::below_keeps_origins, crate::proofs::WriteLaws::below_keeps_copies, crate::proofs::WriteLaws::below_keeps_replays, crate::proofs::WriteLaws::below_keeps_carriers))]
pub fn a_batch_below_the_tip_keeps_each_part()
    ensures parents { (batches part : List Batch) (tip new : Batch) → IsSound batches
        → GoesBelow batches part tip new → ParentsFit (arrived new batches) }
    ensures chains { (batches part : List Batch) (tip new : Batch) → IsSound batches
        → GoesBelow batches part tip new → VersionsAreChains (arrived new batches) }
    ensures origins { (batches part : List Batch) (tip new : Batch) → IsSound batches
        → GoesBelow batches part tip new
        → AreApart (origins_in new.run (events_to tip.key batches ++ new.events))
        → OriginsDiffer (arrived new batches) }
    ensures copies { (batches part : List Batch) (tip new : Batch) → IsSound batches
        → GoesBelow batches part tip new
        → CopiesFitWith batches new → CopiesFit (arrived new batches) }
    ensures replays { (batches part : List Batch) (tip new : Batch) → IsSound batches
        → GoesBelow batches part tip new
        → IsOk (replay_of new.run (events_to tip.key batches ++ new.events))
        → PathsReplay (arrived new batches) }
    ensures carriers { (batches part : List Batch) (tip new : Batch) → IsSound batches
        → GoesBelow batches part tip new → CarriersFit (arrived new batches) }
{}

/// A batch that goes below the tip of what its writer has learned keeps a set sound, where this has all batches
/// of its version, the origins on its path differ, its copies fit, and its path replays.
#[tactic(auto, using(crate::proofs::WriteLaws::below_keeps_sound))]
pub fn a_batch_below_the_tip_keeps_sets_sound()
    ensures { (batches part : List Batch) (tip new : Batch) → IsSound batches
        → GoesBelow batches part tip new
        → AreApart (origins_in new.run (events_to tip.key batches ++ new.events))
        → CopiesFitWith batches new
        → IsOk (replay_of new.run (events_to tip.key batches ++ new.events))
        → IsSound (arrived new batches) }
{}

/// The first batch of a new run keeps a set sound, where its origins differ, its copies fit, and it replays.
#[tactic(auto, using(crate::proofs::WriteLaws::beginning_keeps_sound))]
pub fn the_first_batch_of_a_run_keeps_sets_sound()
    ensures { (batches : List Batch) (new : Batch) → IsSound batches → Begins batches new
        → AreApart (origins_in new.run new.events) → CopiesFitWith batches new
        → IsOk (replay_of new.run new.events) → IsSound (arrived new batches) }
{}

/// A batch that is written to a sound set, whose earlier key is one of the set's, leaves the paths to all others
/// as they were; the path to it goes on after its parent's, and where it begins a run it is the batch alone.
#[tactic(auto, using(crate::proofs::WritePaths::paths_stay, crate::proofs::WritePaths::path_behind_parent, crate::proofs::WritePaths::path_of_beginning))]
pub fn a_batch_that_is_written_leaves_paths()
    ensures old { (batches : List Batch) (new b : Batch) → IsSound batches
        → batch_at new.key batches ≡ None → fault_of new ≡ None → has_key (earlier new) batches
        ≡ true
        → Has batches b → path_to b.key (arrived new batches) ≡ path_to b.key batches }
    ensures below { (batches : List Batch) (new parent : Batch) → IsSound batches
        → batch_at new.key batches ≡ None → fault_of new ≡ None → has_key (earlier new) batches
        ≡ true
        → Has batches parent → new.parent ≡ Some parent.key → path_to new.key (arrived new batches)
        ≡ path_to parent.key batches ++ new ∷ [] }
    ensures first { (batches : List Batch) (new : Batch) → IsSound batches
        → batch_at new.key batches ≡ None → fault_of new ≡ None → has_key (earlier new) batches
        ≡ true
        → new.parent ≡ None → path_to new.key (arrived new batches) ≡ new ∷ [] }
{}
