// Branches and the current one, as laws.
ghost use Rattle.std.specs.Prelude.{◌≡◌, List, Some};
ghost use Rattle.std.specs.List.{filter};
ghost use Rattle.ndc_event.specs.declared.batch.Batch.{Batch};
ghost use Rattle.ndc_event.specs.declared.key.RunId.{RunId as Run};
ghost use Rattle.ndc_model_sets.specs.Sets.{IsSet, Has};
ghost use Rattle.ndc_model_sets.specs.Learned.{IsClosed};
ghost use Rattle.ndc_model_sets.specs.Branches.{same_run, current_tip, greatest_key, workflow_tip, IsLeading};
ghost use Rattle.ndc_model_sets.specs.Sound.{ParentsFit, VersionsAreChains};

/// Where the batches of one run and one version form a chain, each run has exactly one branch of greatest last
/// version, and it is the current one.
#[tactic(auto, using(crate::proofs::CurrentLaws::one_branch_leads))]
pub fn each_run_has_one_branch_of_greatest_version()
    ensures { (batches : List Batch) (b : Batch) → IsSet batches → IsClosed batches
        → ParentsFit batches → VersionsAreChains batches → Has batches b
        → (tip : Batch) × (current_tip b.run batches ≡ Some tip) × IsLeading b.run batches tip
        × ((other : Batch) → IsLeading b.run batches other → other ≡ tip) }
{}

/// The current branch of a run ends with the greatest of the run's batches.
#[tactic(auto, using(crate::proofs::CurrentLaws::current_is_greatest))]
pub fn current_branch_ends_with_the_greatest_batch()
    ensures { (batches : List Batch) (b : Batch) → IsSet batches → IsClosed batches
        → ParentsFit batches → VersionsAreChains batches → Has batches b
        → current_tip b.run batches ≡ greatest_key (filter (λ x. same_run x.run b.run) batches) }
{}

/// The current branch of the current run ends with the greatest batch of all.
#[tactic(auto, using(crate::proofs::CurrentLaws::workflow_is_greatest))]
pub fn current_run_ends_with_the_greatest_batch()
    ensures { (batches : List Batch) → IsSet batches → IsClosed batches → ParentsFit batches
        → VersionsAreChains batches
        → workflow_tip batches ≡ greatest_key batches }
{}

/// Two runs never have current branches with one tip.
#[tactic(auto, using(crate::proofs::CurrentLaws::runs_apart))]
pub fn runs_have_different_tips()
    ensures { (batches : List Batch) (one two : Run) (tip other : Batch) → IsSet batches
        → current_tip one batches ≡ Some tip → current_tip two batches ≡ Some other
        → tip.key ≡ other.key → one ≡ two }
{}
