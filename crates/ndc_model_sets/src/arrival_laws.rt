// What is learned of the batches that have arrived, as laws.
ghost use Rattle.std.specs.Prelude.{◌≡◌, ◌⊎◌, ◌↔◌, true, List, None};
ghost use Rattle.ndc_event.specs.declared.batch.Batch.{Batch};
ghost use Rattle.ndc_model_sets.specs.Sets.{earlier, IsSet, PointsBack, batch_at, Has, arrived};
ghost use Rattle.ndc_model_sets.specs.Learned.{has_key, learned, ReachesTop, WaitsFor, IsClosed, IsPart};

/// A batch is learned exactly where following earlier keys upwards from it meets only batches that have
/// arrived.
#[tactic(auto, using(crate::proofs::LearnedLemmas::learned_exactly))]
pub fn learned_where_earlier_keys_have_arrived()
    ensures { (batches : List Batch) (b : Batch) → IsSet batches → (Has (learned batches) b)
        ↔ (ReachesTop batches b) }
{}

/// The learned batches are a set, and closed.
#[tactic(auto, using(crate::proofs::LearnedLemmas::learned_closed))]
pub fn learned_batches_are_closed()
    ensures { (batches : List Batch) → IsSet batches → IsSet (learned batches)
        × IsClosed (learned batches) }
{}

/// Every closed part of a set lies in what is learned of it.
#[tactic(auto, using(crate::proofs::LearnedLemmas::closed_part))]
pub fn closed_parts_are_learned()
    ensures { (batches part : List Batch) → IsSet batches → IsSet part → IsPart part batches
        → IsClosed part → IsPart part (learned batches) }
{}

/// Of a closed set all is learned.
#[tactic(auto, using(crate::proofs::LearnedLemmas::closed_whole))]
pub fn all_of_a_closed_set_is_learned()
    ensures { (batches : List Batch) → IsSet batches → IsClosed batches
        → learned batches ≡ batches }
{}

/// Where the key of a batch has not arrived, its arrival makes a set of the batches that were there and it.
#[tactic(auto, using(crate::proofs::ArrivalLemmas::arrival_keeps_sets, crate::proofs::ArrivalLemmas::arrived_exactly))]
pub fn arrival_adds_the_batch()
    ensures set { (new : Batch) (batches : List Batch) → IsSet batches → PointsBack new
        → IsSet (arrived new batches) }
    ensures members { (batches : List Batch) (new b : Batch) → IsSet batches
        → batch_at new.key batches ≡ None
        → (Has (arrived new batches) b) ↔ ((b ≡ new) ⊎ Has batches b) }
{}

/// Arrival takes nothing from what is learned.
#[tactic(auto, using(crate::proofs::ArrivalLemmas::only_adds))]
pub fn arrival_only_adds_learned_batches()
    ensures { (batches : List Batch) (new : Batch) → IsSet batches → PointsBack new
        → IsPart (learned batches) (learned (arrived new batches)) }
{}

/// What arrival makes learned is the batch and what waited for it.
#[tactic(auto, using(crate::proofs::ArrivalLemmas::newly_waited))]
pub fn newly_learned_batches_waited()
    ensures { (batches : List Batch) (new b : Batch) → IsSet batches → PointsBack new
        → Has (learned (arrived new batches)) b
        → Has (learned batches) b ⊎ WaitsFor (arrived new batches) new b }
{}

/// Where the earlier key of the batch is learned, the batch and all that waited for it are learned.
#[tactic(auto, using(crate::proofs::ArrivalLemmas::waited_learned))]
pub fn what_waited_is_learned()
    ensures { (batches : List Batch) (new b : Batch) → IsSet batches → PointsBack new
        → batch_at new.key batches ≡ None
        → has_key (earlier new) (learned batches) ≡ true → WaitsFor (arrived new batches) new b
        → Has (learned (arrived new batches)) b }
{}

/// Sets that hold the same batches are equal.
#[tactic(auto, using(crate::proofs::ArrivalLemmas::equal_sets))]
pub fn sets_of_the_same_batches_are_equal()
    ensures { (one two : List Batch) → IsSet one → IsSet two → IsPart one two → IsPart two one
        → one ≡ two }
{}
