//! Laws of trees. The functions do nothing: what each ensures is the law.
ghost use Rattle.std.specs.Prelude.{◌≡◌, ◌↔◌, true, List, [], ◌∷◌, ◌++◌, Some, Err};
ghost use Rattle.std.specs.List.{AllByRecursion};
ghost use Rattle.ndc_event.specs.Batch.{fault_of};
ghost use Rattle.ndc_event.specs.declared.batch.Batch.{Batch};
ghost use Rattle.ndc_event.specs.declared.key.BatchKey.{BatchKey};
ghost use Rattle.ndc_event.specs.declared.key.RunId.{RunId as Run};
ghost use Rattle.ndc_model_sets.specs.Branches.{current_tip, greatest_key};
ghost use Rattle.ndc_model_sets.specs.Learned.{IsPart, has_key};
ghost use Rattle.ndc_model_sets.specs.Paths.{IsPath, path_to};
ghost use Rattle.ndc_model_sets.specs.Sets.{Has, arrived};
ghost use Rattle.ndc_model_sets.specs.Sound.{VersionsAreChains};
ghost use Rattle.ndc_tree.specs.declared.answer.TreeError.TheVariants.{NotWellFormed};
ghost use Rattle.ndc_tree.specs.Events.{event_at};
ghost use Rattle.ndc_tree.specs.Fitting.{splits_version};
ghost use Rattle.ndc_tree.specs.Inserting.{inserted};
ghost use Rattle.ndc_tree.specs.Refused.{SplitsVersion, DoesNotFit};
ghost use Rattle.ndc_tree.specs.Tree.{IsTree, Joins};

/// A tree with a batch that joins it is a tree.
pub fn a_tree_stays_a_tree()
    ensures { (run : Run) (batches : List Batch) (new : Batch) → IsTree run batches
        → Joins run batches new → IsTree run (arrived new batches) }
{}

/// In a tree each batch has its path: following parents upwards from it one meets the batches of the path, up to one
/// without a parent.
pub fn paths_follow_parents()
    ensures { (run : Run) (batches : List Batch) (b : Batch) → IsTree run batches → Has batches b
        → IsPath batches b (path_to b.key batches) }
{}

/// Where a tree is a part of another one, each of its batches has the same path there.
pub fn paths_of_a_part_are_those_of_the_whole()
    ensures { (run : Run) (part batches : List Batch) (b : Batch) → IsTree run part
        → IsTree run batches → IsPart part batches → Has part b
        → path_to b.key batches ≡ path_to b.key part }
{}

/// Of two batches of one version in a tree, the one with the smaller task is an ancestor of the other.
pub fn batches_of_one_version_are_a_chain()
    ensures { (run : Run) (batches : List Batch) → IsTree run batches → VersionsAreChains batches }
{}

/// In a tree ids rise along the batches of each version, so each event is the one that is found by its version and id.
pub fn an_event_is_found_by_its_version_and_id()
    ensures { (run : Run) (batches : List Batch) (b : Batch) → IsTree run batches → Has batches b
        → AllByRecursion (λ event. event_at event.version event.id batches ≡ Some event) b.events }
{}

/// The current branch of a tree ends with the greatest of its batches.
#[tactic(auto, using(crate::proofs::LastLemmas::current_is_greatest))]
pub fn current_branch_ends_with_the_greatest_batch()
    ensures { (run : Run) (batches : List Batch) → IsTree run batches → current_tip run batches
        ≡ greatest_key batches }
{}

/// A batch whose parent is in the tree splits a version exactly where a batch of its version in the tree is not an
/// ancestor of it.
pub fn a_version_is_split_where_a_batch_of_it_is_no_ancestor()
    ensures { (run : Run) (batches : List Batch) (new : Batch) → IsTree run batches
        → fault_of new ≡ None → has_key new.parent batches ≡ true
        → (splits_version batches new.key.version new.parent ≡ true) ↔ SplitsVersion batches new }
{}

/// A batch whose parent is in the tree is refused exactly where it does not fit: it is of another run, its key is there, it
/// has no parent and the tree has a batch, its first id is not one past the parent's last, or a batch of its version is no
/// ancestor. That an equal batch is known and not refused, [`Tree::insert`](crate::Tree::insert) tests first.
pub fn what_does_not_fit_is_refused()
    ensures { (run : Run) (batches : List Batch) (new : Batch) → IsTree run batches
        → fault_of new ≡ None → has_key new.parent batches ≡ true
        → (inserted run batches new ≡ Err (NotWellFormed new.key)) ↔ DoesNotFit run batches new }
{}
