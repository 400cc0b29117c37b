//! Laws of what is written. The functions do nothing: what each ensures is the law.
ghost use Rattle.std.specs.Prelude.{◌≡◌, ◌≤◌, ◌+◌, ◌^◌, ℕ, List, [], length, Option, None, Some, IfOk, IfSome};
ghost use Rattle.std.specs.List.{AllByRecursion};
ghost use Rattle.ndc_model_cells.specs.Writing.{Entry, Desk, command_entries, greatest_task, greatest_version, may_write_by, reapplication_below, reset_below, state_under};
ghost use Rattle.ndc_model_cells.specs.declared.message.Message.{Message};
ghost use Rattle.ndc_command.specs.declared.command.Command.{Command as Asked};
ghost use Rattle.ndc_domain.specs.declared.record.DomainRecord.{DomainRecord as RecordValue};
ghost use Rattle.ndc_shard_entries.specs.Written.{AreWrittenTo, HasIdsUpTo, IsWrittenTo};
ghost use Rattle.ndc_event.specs.declared.batch.Batch.{Batch};
ghost use Rattle.ndc_event.specs.declared.name.Name.{Name as NameValue};
ghost use Rattle.ndc_model_sets.specs.Branches.{workflow_tip};
ghost use Rattle.ndc_model_sets.specs.Current.{strays};
ghost use Rattle.ndc_shard_runs.specs.RunMap.{part_of};
ghost use Rattle.ndc_model_sets.specs.Sets.{arrived, batch_at};
ghost use Rattle.ndc_model_sets.specs.Sound.{IsSound};
ghost use Rattle.ndc_model_cells.specs.Messages.{IsMessage, IsNewTo};

/// The version with which a cluster may write is not below any that it has learned.
pub fn a_writer_is_not_behind()
    ensures { (home : Desk) (one : Option RecordValue) (batches : List Batch)
        → IfOk (may_write_by home one batches) (λ version. greatest_version batches ≤ version) }
{}

/// With a version that is not below any learned one, what a command, a reset or a reapplication writes is of its
/// workflow and comes after all that is learned, each entry also after those that are written before it.
pub fn what_is_written_comes_behind_all_that_is_learned()
    ensures commands { (batches : List Batch) (version limit : ℕ) (domain workflow : NameValue)
        (command : Asked) → IsSound batches → greatest_version batches ≤ version
        → IfOk (command_entries domain workflow command limit version batches) (AreWrittenTo batches
        domain workflow) }
    ensures resets { (batches : List Batch) (version limit event : ℕ) (domain workflow : NameValue)
        → IsSound batches → greatest_version batches ≤ version
        → IfOk (reset_below domain workflow event limit version
        (workflow_tip batches) batches) (AreWrittenTo batches domain workflow) }
    ensures reapplications { (batches : List Batch) (version : ℕ) (domain workflow : NameValue)
        → IsSound batches → greatest_version batches ≤ version
        → AreWrittenTo batches domain workflow (reapplication_below domain workflow version
        (workflow_tip batches) batches (strays batches)) }
{}

/// No event that a command or a reset writes has an id above the limit of histories, which is at least 2; what a
/// reapplication writes goes on from the last event of the current branch of the current run.
pub fn what_is_written_keeps_ids_small()
    ensures commands { (batches : List Batch) (version limit : ℕ) (domain workflow : NameValue)
        (command : Asked) → 2 ≤ limit
        → IfOk (command_entries domain workflow command limit version batches) (AllByRecursion
        (HasIdsUpTo limit)) }
    ensures resets { (batches : List Batch) (version limit event : ℕ) (domain workflow : NameValue)
        → IfOk (reset_below domain workflow event limit version
        (workflow_tip batches) batches) (AllByRecursion (HasIdsUpTo limit)) }
    ensures reapplications { (batches : List Batch) (version most : ℕ) (domain workflow : NameValue)
        → IfSome (state_under (workflow_tip batches) batches) (λ s.
        s.next + length (strays batches) + 2 ≤ most)
        → AllByRecursion (HasIdsUpTo most) (reapplication_below domain workflow version
        (workflow_tip batches) batches (strays batches)) }
{}

/// What is sent of an entry that comes after all that is learned is a message as cells write them, and is new.
pub fn what_is_written_is_a_new_message()
    ensures message { (batches : List Batch) (domain workflow : NameValue) (entry : Entry)
        (sent : Message) → IsWrittenTo batches domain workflow entry
        → sent.batch ≡ entry.batch → sent.second ≡ entry.second → IsMessage sent }
    ensures fresh { (batches : List Batch) (domain workflow : NameValue) (entry : Entry)
        (sent : Message) → IsWrittenTo batches domain workflow entry
        → sent.batch ≡ entry.batch → sent.second ≡ entry.second → IsNewTo batches sent }
{}

/// The batch that is carried is new also after the one that carries it, and begins a run of which no batch is learned.
pub fn a_carried_batch_begins_a_new_run()
    ensures fresh { (batches : List Batch) (domain workflow : NameValue) (entry : Entry)
        (second : Batch) → IsSound batches → IsWrittenTo batches domain workflow entry
        → entry.second ≡ Some second → batch_at second.key (arrived entry.batch batches) ≡ None }
    ensures begins { (batches : List Batch) (domain workflow : NameValue) (entry : Entry)
        (second : Batch) → IsSound batches → IsSound (arrived entry.batch batches)
        → greatest_task batches ≤ 10 ^ 12
        → IsWrittenTo batches domain workflow entry → entry.second ≡ Some second
        → part_of second.run (arrived entry.batch batches) ≡ [] }
{}
