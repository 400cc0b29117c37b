//! Laws of messages by themselves. The functions do nothing: what each ensures is the law.
ghost use Rattle.std.specs.Prelude.{◌≡◌, ◌^◌, None, IfSome, IsSome, List, true};
ghost use Rattle.std.specs.List.{AllByRecursion};
ghost use Rattle.ndc_admission.specs.Faults.{IsWellMade, first_fault};
ghost use Rattle.ndc_admission.specs.History.{history_ends, tells_path, TellsPathIn};
ghost use Rattle.ndc_admission.specs.Numbers.{is_in_range};
ghost use Rattle.ndc_domain.specs.Clusters.{ClusterList, writer_of};
ghost use Rattle.ndc_event.specs.declared.batch.Batch.{Batch};
ghost use Rattle.ndc_model_cells.specs.declared.message.Message.{Message as Sent};
ghost use Rattle.ndc_model_cells.specs.Cells.{both};
ghost use Rattle.ndc_model_cells.specs.Keeping.{HaveTasksUpTo, IsMessageOf};
ghost use Rattle.ndc_model_cells.specs.Messages.{HasSmallIds, IsMessage};
ghost use Rattle.ndc_model_cells.specs.Places.{is_of};
ghost use Rattle.ndc_model_sets.specs.Learned.{has_key, IsClosed, IsPart};
ghost use Rattle.ndc_model_sets.specs.Sets.{Has, IsSet, earlier};
ghost use Rattle.ndc_model_sets.specs.Sound.{IsSound};
ghost use Rattle.ndc_text.specs.Ranges.{InRange};

/// The test of ranges passes exactly where a batch's numbers are in range and its names are names.
#[tactic(auto, using(crate::proofs::RangeLemmas::passes_in_range, crate::proofs::RangeLemmas::in_range_passes))]
pub fn ranges_are_tested()
    ensures range { (b : Batch) → is_in_range b ≡ true → InRange b }
    ensures passes { (b : Batch) → InRange b → is_in_range b ≡ true }
{}

/// A message has no fault exactly where it is well-made. So [`crate::first_fault`] tests what `IsWellMade` says, and
/// nothing else.
#[tactic(auto, using(crate::proofs::FaultLemmas::faultless_made, crate::proofs::FaultLemmas::made_faultless))]
pub fn a_faultless_message_is_well_made()
    ensures made { (sent : Sent) (clusters : ClusterList) → first_fault sent clusters ≡ None
        → IsWellMade clusters sent }
    ensures faultless { (sent : Sent) (clusters : ClusterList) → IsWellMade clusters sent
        → first_fault sent clusters ≡ None }
{}

/// A message that is well-made is one as cells write them, its event ids are at most 10^12, and its second batch has
/// the same writer as its own.
#[tactic(auto, using(crate::proofs::MadeLemmas::made_message, crate::proofs::MadeLemmas::made_small, crate::proofs::MadeLemmas::made_writer))]
pub fn a_well_made_message_is_as_cells_write_it()
    ensures message { (sent : Sent) (clusters : ClusterList) → IsWellMade clusters sent
        → IsMessage sent }
    ensures ids { (sent : Sent) (clusters : ClusterList) → IsWellMade clusters sent
        → AllByRecursion HasSmallIds (both sent) }
    ensures writer { (sent : Sent) (clusters : ClusterList) → IsWellMade clusters sent
        → IfSome sent.second (λ b.
        writer_of clusters b.key.version ≡ writer_of clusters sent.batch.key.version) }
{}

/// A message of a sound set of one workflow, whose batches are in range with tasks at most 10^11, is well-made where a
/// cluster writes with its version: so no test refuses what honest cells send.
#[tactic(auto, using(crate::proofs::HonestLemmas::honest_made))]
pub fn a_message_of_a_sound_set_is_well_made()
    ensures { (all : List Batch) (sent : Sent) (clusters : ClusterList) → IsSound all
        → AllByRecursion (λ b. is_of sent.batch.domain sent.batch.workflow b ≡ true) all
        → AllByRecursion InRange all → HaveTasksUpTo (10 ^ 11) all → IsMessageOf all sent
        → IsSome (writer_of clusters sent.batch.key.version) → IsWellMade clusters sent }
{}

/// The history of a message of a sound set ends with its batch: the version history of a path has the last event of the
/// path's last batch as its last item.
#[tactic(auto, using(crate::proofs::EndLemmas::set_history_ends))]
pub fn histories_of_a_sound_set_end_with_their_batch()
    ensures { (all : List Batch) (sent : Sent) → IsSound all → IsMessageOf all sent
        → history_ends sent ≡ true }
{}

/// The history of a message of a sound set is that of its path as any closed part of the set tells it that has the batch's
/// parent, where there is one: no cell refuses a history that an honest cell sends.
#[tactic(auto, using(crate::proofs::AddedLemmas::set_tells_path))]
pub fn histories_of_a_sound_set_are_those_of_their_paths()
    ensures { (all known : List Batch) (sent : Sent) → IsSound all → IsSet known → IsClosed known
        → IsPart known all → Has all sent.batch → has_key (earlier sent.batch) known ≡ true
        → TellsPathIn all sent → tells_path known sent ≡ true }
{}
