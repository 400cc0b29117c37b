// Paths, as laws.
ghost use Rattle.std.specs.Prelude.{◌≡◌, ℕ, true, List, [], ◌∷◌, ◌++◌, Some, None};
ghost use Rattle.ndc_event.specs.declared.batch.Batch.{Batch};
ghost use Rattle.ndc_event.specs.declared.key.BatchKey.{BatchKey};
ghost use Rattle.ndc_event.specs.Batch.{follow_from};
ghost use Rattle.ndc_event.specs.declared.batch.Event.{Event as HistoryEvent};
ghost use Rattle.ndc_history.specs.Common.{id_of, common_of, best_from};
ghost use Rattle.ndc_history.specs.History.{rises};
ghost use Rattle.ndc_model_sets.specs.Sets.{IsSet, batch_at, Has};
ghost use Rattle.ndc_model_sets.specs.Learned.{IsClosed, IsPart};
ghost use Rattle.ndc_model_sets.specs.Branches.{histories};
ghost use Rattle.ndc_state.specs.Replay.{history_of};
ghost use Rattle.ndc_model_sets.specs.Paths.{path_to, IsPath, events_to, last_event, versions_of, last_id_of, GoApart, last_item_of, best_item};
ghost use Rattle.ndc_model_sets.specs.Sound.{AreFaultless, ParentsFit, IsSound};

/// In a closed set each batch has its path: following parents upwards from it one meets the batches of the
/// path, up to one without a parent.
#[tactic(auto, using(crate::proofs::PathLemmas::path_is))]
pub fn paths_follow_parents()
    ensures { (batches : List Batch) (b : Batch) → IsSet batches → IsClosed batches → Has batches b
        → IsPath batches b (path_to b.key batches) }
{}

/// The events of a path have the ids 1, 2, 3 and so on, and end with those of its last batch.
#[tactic(auto, using(crate::proofs::PathLaws::counts_from_one, crate::proofs::PathLaws::ends_with_batch))]
pub fn paths_count_from_one()
    ensures ids { (batches : List Batch) (b : Batch) → IsSet batches → IsClosed batches
        → AreFaultless batches → ParentsFit batches → Has batches b
        → follow_from 0 (events_to b.key batches) ≡ true }
    ensures end { (batches : List Batch) (b : Batch) → IsSet batches → IsClosed batches
        → AreFaultless batches → ParentsFit batches → Has batches b
        → last_event (events_to b.key batches) ≡ last_event b.events }
{}

/// The path to a batch is that to its parent, and then the batch.
#[tactic(auto, using(crate::proofs::PathLaws::behind_parent))]
pub fn path_to_the_parent_comes_before()
    ensures { (batches : List Batch) (b : Batch) (parent : BatchKey) → IsSet batches → Has batches b
        → b.parent ≡ Some parent
        → path_to b.key batches ≡ path_to parent batches ++ b ∷ [] }
{}

/// The version history of a path rises: it has one item a version.
#[tactic(auto, using(crate::proofs::PathLaws::histories_rise))]
pub fn histories_of_paths_rise()
    ensures { (batches : List Batch) (b : Batch) → IsSet batches → IsClosed batches
        → AreFaultless batches → ParentsFit batches → Has batches b
        → rises (versions_of (events_to b.key batches)) ≡ true }
{}

/// The version history of a path has for each version the id of the last event written with it.
#[tactic(auto, using(crate::proofs::PathLaws::histories_name_last_ids))]
pub fn histories_of_paths_name_last_ids()
    ensures { (batches : List Batch) (b : Batch) (version : ℕ) → IsSet batches → IsClosed batches
        → AreFaultless batches → ParentsFit batches → Has batches b
        → id_of version (versions_of (events_to b.key batches))
        ≡ last_id_of version (events_to b.key batches) }
{}

/// For two paths of one run in a sound set, what their version histories have in common is the last event of
/// the longest list of events that both begin with; nothing, where they begin differently.
#[tactic(auto, using(crate::proofs::CommonPaths::common_is_the_last_shared_event))]
pub fn common_item_is_the_last_shared_event()
    ensures { (batches : List Batch) (one two : Batch) (front rest other : List HistoryEvent)
        → IsSound batches → Has batches one → Has batches two → one.run ≡ two.run
        → events_to one.key batches ≡ front ++ rest → events_to two.key batches ≡ front ++ other
        → GoApart rest other
        → common_of (versions_of (events_to one.key batches)) (versions_of
        (events_to two.key batches)) ≡ last_item_of front }
{}

/// Of a batch whose path begins with learned batches and goes on with others, the best that its version history
/// has in common with those of the learned branches is the last event of the last learned batch of the path;
/// nothing, where none is learned.
#[tactic(auto, using(crate::proofs::GapLaws::gap_names_the_last_learned))]
pub fn best_common_item_is_that_of_the_last_learned_ancestor()
    ensures { (batches part : List Batch) (b : Batch) (front rest : List Batch) → IsSound batches
        → IsSet part → IsClosed part → IsPart part batches → Has batches b
        → path_to b.key batches ≡ front ++ rest → IsPart front part
        → ((c : Batch) → Has rest c → batch_at c.key part ≡ None)
        → best_item (best_from 0 (histories b.run part) (versions_of (events_to b.key batches)))
        ≡ last_item_of (history_of front) }
{}
