//! What a workflow is in its cell, as laws: a law is what an empty function ensures.
ghost use Rattle.std.specs.Prelude.{◌≡◌, ◌<◌, ◌^◌, true, false, map, List, [], IsOk, IfSome};
ghost use Rattle.std.specs.List.{AllByRecursion};
ghost use Rattle.ndc_admission.specs.History.{TellsPathIn};
ghost use Rattle.ndc_event.specs.declared.batch.Batch.{Batch as One};
ghost use Rattle.ndc_model_cells.specs.Arrival.{arrival_of, arrived_at, learned_by};
ghost use Rattle.ndc_model_cells.specs.Cells.{both, Cell, IsCell};
ghost use Rattle.ndc_model_cells.specs.Places.{AreInOrder, is_of};
ghost use Rattle.ndc_model_cells.specs.Writing.{Entry, greatest_task};
ghost use Rattle.ndc_model_cells.specs.Writing as writing;
ghost use Rattle.ndc_model_cells.specs.declared.message.Message.{Message as Sent};
ghost use Rattle.ndc_event.specs.declared.name.Name.{Name as Text};
ghost use Rattle.ndc_model_sets.specs.Learned.{has_key, learned, IsPart};
ghost use Rattle.ndc_model_sets.specs.Sets.{PointsBack, earlier, IsSet};
ghost use Rattle.ndc_shard_workflows.specs.Arriving.{ComesFrom};
ghost use Rattle.ndc_model_sets.specs.Sound.{IsSound};
ghost use Rattle.ndc_model_cells.specs.Messages.{batches_of, carrying, HasSmallIds, IsMessage, IsNewTo};
ghost use Rattle.ndc_shard_waiting.specs.Learning.{with_message, with_messages, ArePutOff};
ghost use Rattle.ndc_shard_waiting.specs.Waiting.{freed, still_put_off};
ghost use Rattle.ndc_shard_workflows.specs.Admitting.{fit_message, settled_with, HasSmallTask, IsLone};
ghost use Rattle.ndc_model_cells.specs.Workflow.{WorkflowValue, workflow_of};
ghost use Rattle.ndc_shard_workflows.specs.Workflow.{IsWorkflow, off_in, still_waiting, answer_to, made_learned, after_arrival, with_written};

/// Of what has arrived of a workflow, the batches that are put off are those of the messages that wait; and all of these
/// still wait.
#[tactic(auto, using(crate::proofs::PutOffLemmas::put_off_waits, crate::proofs::PutOffLemmas::all_wait))]
pub fn what_is_put_off_waits()
    ensures batches { (w : WorkflowValue) → IsWorkflow w → off_in w ≡ batches_of w.waiting }
    ensures messages { (w : WorkflowValue) → IsWorkflow w → still_waiting w ≡ w }
{}

/// What comes of the arrival of a message at a cell is what comes of it in the message's workflow.
pub fn an_arrival_at_a_cell_is_one_in_its_workflow()
    ensures answer { (sent : Sent) (cell : Cell) → IsCell cell
        → AreInOrder (map (λ m. m.batch) cell.waiting) → PointsBack sent.batch
        → IfSome sent.second (λ b. is_of sent.batch.domain sent.batch.workflow b ≡ true)
        → arrival_of sent cell ≡ answer_to sent (workflow_of sent.batch.domain
        sent.batch.workflow cell) }
    ensures learned { (sent : Sent) (cell : Cell) → IsCell cell
        → AreInOrder (map (λ m. m.batch) cell.waiting) → PointsBack sent.batch
        → IfSome sent.second (λ b. is_of sent.batch.domain sent.batch.workflow b ≡ true)
        → learned_by sent cell ≡ made_learned sent (workflow_of sent.batch.domain
        sent.batch.workflow cell) }
    ensures own { (sent : Sent) (cell : Cell) → IsCell cell
        → AreInOrder (map (λ m. m.batch) cell.waiting) → PointsBack sent.batch
        → IfSome sent.second (λ b. is_of sent.batch.domain sent.batch.workflow b ≡ true)
        → workflow_of sent.batch.domain sent.batch.workflow (arrived_at sent cell)
        ≡ after_arrival sent (workflow_of sent.batch.domain sent.batch.workflow cell) }
{}

/// A message of one workflow leaves all others as they were, where all of their waiting messages still wait.
#[tactic(auto, using(crate::proofs::CellLemmas::other_same))]
pub fn an_arrival_leaves_other_workflows()
    ensures { (domain workflow : Text) (sent : Sent) (cell : Cell)
        → is_of domain workflow sent.batch ≡ false
        → IfSome sent.second (λ b. is_of domain workflow b ≡ false)
        → still_waiting (workflow_of domain workflow cell) ≡ workflow_of domain workflow cell
        → workflow_of domain workflow (arrived_at sent cell)
        ≡ workflow_of domain workflow cell }
{}

/// What a cell writes to a workflow is written to it.
#[tactic(auto, using(crate::proofs::CellLemmas::written_same))]
pub fn what_a_cell_writes_is_written_to_its_workflow()
    ensures { (domain workflow : Text) (entry : Entry) (cell : Cell) → IsCell cell
        → PointsBack entry.batch → is_of domain workflow entry.batch ≡ true
        → IfSome entry.second (λ b. is_of domain workflow b ≡ true)
        → workflow_of domain workflow (writing.with_written entry cell)
        ≡ with_written (carrying entry.batch entry.second) (workflow_of domain workflow cell) }
{}

/// A message of which the earlier key is learned, and with which what is learned then would be sound, as by its arrival, fits,
/// and so does all that waited for it: nothing is set aside. Their version histories are those of their paths in a sound set
/// that has all that is learned then, no other carries its batch, nor any that waits, and tasks are below 2^64, as those of
/// batches are. So what a cell does with a message that its caller vouches for does not depend on whether it is admitted or
/// arrives.
pub fn what_may_arrive_is_admitted_whole()
    ensures fits { (known : List One) (waiting : List Sent) (new : Sent) → ArePutOff known waiting
        → IsMessage new → IsNewTo (with_messages waiting known) new
        → has_key (earlier new.batch) known ≡ true → AllByRecursion HasSmallIds (both new)
        → AllByRecursion HasSmallIds (batches_of waiting)
        → IsSound known → IsSound (learned (with_message new (with_messages waiting known)))
        → IsLone new → AllByRecursion IsLone waiting → greatest_task known < 2 ^ 64
        → AllByRecursion HasSmallTask (both new)
        → AllByRecursion HasSmallTask (batches_of waiting)
        → (all : List One) → IsSound all
        → IsPart (learned (with_message new (with_messages waiting known))) all
        → TellsPathIn all new → AllByRecursion (TellsPathIn all) waiting
        → IsOk (fit_message known new) }
    ensures settled { (known : List One) (waiting : List Sent) (new : Sent)
        → ArePutOff known waiting → IsMessage new → IsNewTo (with_messages waiting known) new
        → has_key (earlier new.batch) known ≡ true → AllByRecursion HasSmallIds (both new)
        → AllByRecursion HasSmallIds (batches_of waiting)
        → IsSound known → IsSound (learned (with_message new (with_messages waiting known)))
        → IsLone new → AllByRecursion IsLone waiting → greatest_task known < 2 ^ 64
        → AllByRecursion HasSmallTask (both new)
        → AllByRecursion HasSmallTask (batches_of waiting)
        → (all : List One) → IsSound all
        → IsPart (learned (with_message new (with_messages waiting known))) all
        → TellsPathIn all new → AllByRecursion (TellsPathIn all) waiting
        → settled_with new known waiting
        ≡ record {
          known = with_messages
              (freed new waiting) known;
          waiting = still_put_off new waiting;
          learned = freed new
              waiting;
          aside = [];
        } }
{}

/// What is learned of a workflow only grows: a set that came from another one by messages that arrived has all of it.
pub fn what_is_learned_only_grows()
    ensures { (known after : List One) → IsSet known → ComesFrom known after → IsPart known after }
{}
