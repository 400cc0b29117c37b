//! Laws of the current run. The functions do nothing: what each ensures is the law.
ghost use Rattle.std.specs.Prelude.{◌≡◌, ℕ, List, map, Some, slice_get};
ghost use Rattle.ndc_event.specs.declared.batch.Batch.{Batch};
ghost use Rattle.ndc_event.specs.declared.key.BatchKey.{BatchKey as Key};
ghost use Rattle.ndc_model_sets.specs.Branches.{current_tips, workflow_tip};
ghost use Rattle.ndc_current.specs.Pick.{pick_of, IsGreatestAt};

/// What is picked is the greatest key.
#[tactic(auto, using(crate::proofs::PickLemmas::picked_is_greatest))]
pub fn the_greatest_key_is_picked()
    ensures { (keys : List Key) (place : ℕ) → pick_of keys ≡ Some place → (key : Key)
        × IsGreatestAt keys place key }
{}

/// Of the tips of the current branches of all runs, the one of the current run is picked.
#[tactic(auto, using(crate::proofs::PickLemmas::picks_the_workflow_tip))]
pub fn the_tip_of_the_current_run_is_picked()
    ensures { (batches : List Batch) (tip : Batch) → workflow_tip batches ≡ Some tip
        → (place : ℕ) × (pick_of (map (λ b. b.key) (current_tips batches)) ≡ Some place)
        × (slice_get (current_tips batches) place ≡ Some tip) }
{}
