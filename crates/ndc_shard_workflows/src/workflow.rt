use crate::admission::{Admission, AdmitError, NotWritten, Terms};
use crate::admitting::{admit, fit};
use crate::arrival::Arrival;
use crate::forgetting::but_for;
use crate::learning::{is_reached, learn, take_in};
use ndc_event::{Batch, BatchKey, OutOfMemory};
use ndc_model_cells::Message;
use ndc_shard_runs::{Misfit, Runs};
use ndc_shard_waiting::{PutOff, Waiting};
use ndc_state::Steps;
use std::alloc::Global;
use std::marker::Model;

/// One workflow in one cell: what is learned of it, with its states, and what is put off until an ancestor arrives.
/// Seen as the batches that have arrived, in key order, and the messages of what is put off, in key order.
pub struct Workflow {
    runs: Runs,
    waiting: Waiting,
}

impl Model for Workflow {
    ghost use Rattle.ndc_model_cells.specs.Workflow.{WorkflowValue};

    ghost Value = { WorkflowValue };

    ghost use Rattle.ndc_shard_workflows.specs.WorkflowFields.{workflow_in, IsWorkflowInside};

    ghost view = { workflow_in };

    ghost invariant = { IsWorkflowInside };
}

impl Drop for Workflow {
    fn drop(self) {
        let Workflow {
            runs: _runs,
            waiting: _waiting,
        } = self;
    }
}

impl Workflow {
    ghost use Rattle.std.specs.Prelude.{◌≡◌, [], ◌∷◌, false, length, map, true, Some, IfOk, IfErr, IfSome, IfNone, OnOk, OnErr};
    ghost use Rattle.std.specs.List.{AllByRecursion};
    ghost use Rattle.std.specs.Option.{option_copied};
    ghost use Rattle.ndc_model_cells.specs.Cells.{both};
    ghost use Rattle.ndc_shard_runs.specs.Kept.{is_due};
    ghost use Rattle.ndc_model_sets.specs.Learned.{has_key, learned};
    ghost use Rattle.ndc_model_sets.specs.Sets.{batch_at, earlier};
    ghost use Rattle.ndc_model_sets.specs.Sound.{IsSound};
    ghost use Rattle.ndc_state.specs.Counted.{counted};
    ghost use Rattle.ndc_model_sets.specs.Reading.{current_key};
    ghost use Rattle.ndc_shard_waiting.specs.Learning.{with_message};
    ghost use Rattle.ndc_model_cells.specs.Messages.{waits_for, IsMessage, IsNewTo};
    ghost use Rattle.ndc_model_cells.specs.Messages.{carrying, HasSmallIds};
    ghost use Rattle.ndc_shard_workflows.specs.Admitting.{IsAdmitted, IsLeftBy};
    ghost use Rattle.ndc_shard_workflows.specs.Arriving.{ComesFrom};
    ghost use Rattle.ndc_shard_workflows.specs.Forgetting.{is_put_off, without};
    ghost use Rattle.ndc_shard_workflows.specs.Writing.{GoTogether, IsMadeTogether, MayBeWrittenTogether};
    ghost use Rattle.ndc_shard_workflows.specs.Refused.{IsNotWritten};
    ghost use Rattle.ndc_shard_workflows.specs.Workflow.{IsWorkflow, empty_workflow, has_arrived, all_missing, answer_to, made_learned, after_arrival, with_written, counted_for};

    /// Nothing has arrived.
    pub fn new(alloc: Global) -> Workflow
        ensures { result ≡ empty_workflow }
    {
        Workflow {
            runs: Runs::new(alloc),
            waiting: Waiting::new(alloc),
        }
    }

    /// What is learned, to be read; beside it the messages are put off.
    pub fn runs(&self) -> &Runs
        ensures learned { result.now ≡ learned self.now.arrived }
        ensures workflow { IsWorkflow self.now }
    {
        &self.runs
    }

    /// The messages that are put off, to be read.
    pub fn put_off(&self) -> &Waiting
        ensures { result.now ≡ self.now.waiting }
    {
        &self.waiting
    }

    /// The batch of this key, where it has arrived.
    pub fn get(&self, key: BatchKey) -> Option<&Batch>
        ensures { option_copied result ≡ batch_at key self.now.arrived }
    {
        match self.runs.get(key) {
            Some(batch) => Some(batch),
            None => self.waiting.get(key),
        }
    }

    /// Whether the batch of this key has arrived.
    pub fn has_arrived(&self, key: BatchKey) -> bool
        ensures { result ≡ has_arrived key self.now }
    {
        self.get(key).is_some()
    }

    /// Whether nothing has arrived.
    pub fn is_empty(&self) -> bool
        ensures { result ≡ true → self.now ≡ empty_workflow }
    {
        self.runs.is_empty() && self.waiting.is_empty()
    }

    /// Whether reapplication is due: there are strays, and the current run is open. Where it is open, the strays are known
    /// then. In time of all learned events where they were not known. For want of memory they stay unknown.
    pub fn is_due(&mut self, alloc: Global) -> Result<bool, OutOfMemory>
        ensures due { IfOk result (λ due. due ≡ is_due (learned self.old.arrived)) }
        ensures same { self.new ≡ self.old }
    {
        self.runs.is_due(alloc)
    }

    /// Of each batch that is put off, those that are carried too, in key order, its key and the nearest ancestor that has
    /// not arrived. In time of the put-off batches times the logarithm of them.
    pub fn all_missing(&self, alloc: Global) -> Result<Vec<PutOff>, OutOfMemory>
        ensures { IfOk result (λ list.
            map (λ one. (one.key, Some one.missing)) list.items ≡ all_missing self.now) }
    {
        self.waiting.all_missing(alloc)
    }

    /// A message arrives. A known one changes nothing. One of which the batch's earlier key is not learned is put off,
    /// and any other is learned with all that waits for it. That a batch then waits exactly while an ancestor of it has not
    /// arrived is `ndc_model_sets::arrival_laws::learned_where_earlier_keys_have_arrived`. For want of memory nothing has arrived any more: the
    /// workflow is empty.
    ///
    /// Where it is not known, it is a message as cells write them, neither of its batches has arrived, and what is
    /// learned after it is sound; event ids are at most 10^12.
    #[tactic(auto, unfolding(crate::specs::Workflow::answer_to, crate::specs::Workflow::made_learned, crate::specs::Workflow::after_arrival))]
    pub fn arrive<L>(
        &mut self,
        alloc: Global,
        message: Message,
        steps: &mut Steps<L>,
    ) -> Result<Arrival, OutOfMemory>
        requires message { IsMessage message }
        requires new { has_arrived message.batch.key self.old ≡ false
            → IsNewTo self.old.arrived message }
        requires sound { IsSound (learned (after_arrival message self.old).arrived) }
        requires ids { AllByRecursion HasSmallIds (both message) }
        ensures outcome { IfOk result (λ arrival. arrival.outcome ≡ answer_to message self.old) }
        ensures learned { IfOk result (λ arrival. arrival.learned ≡ made_learned message self.old) }
        ensures ok { OnOk result (self.new ≡ after_arrival message self.old) }
        ensures err { OnErr result (self.new ≡ empty_workflow) }
    {
        if self.has_arrived(message.batch.key) {
            return Ok(Arrival::known(alloc));
        }
        match take_in(&mut self.runs, &mut self.waiting, alloc, message, steps) {
            Ok(arrival) => Ok(arrival),
            Err(error) => {
                self.runs = Runs::new(alloc);
                self.waiting = Waiting::new(alloc);
                Err(error)
            }
        }
    }

    /// A message that nobody vouches for, on these terms. The first of these that holds decides: the cell's own versions
    /// ([`NotAdmitted::OwnVersion`], [`NotAdmitted::OwnOrigin`]); another batch under one of its keys ([`NotAdmitted::Rival`]);
    /// its version history does not end with its batch ([`NotAdmitted::History`]); it has arrived ([`Admission::Known`]); it
    /// has a fault ([`NotAdmitted::Misfit`]); its earlier key is not learned: it is put off, where one more may wait
    /// ([`NotAdmitted::Full`]); its version history is not that of its path ([`NotAdmitted::History`]); it does not fit
    /// ([`NotAdmitted::Misfit`]). Any other is learned, and then what waited for it, in key order: what fits is learned, what
    /// does not is set aside, and what waits for that waits on. What is learned is sound, whatever came, and only grows.
    /// For want of memory nothing changes, or, where it is learned, nothing has arrived any more: the workflow is empty.
    ///
    /// It is a message as cells write them, and event ids are at most 10^12.
    pub fn admit<L>(
        &mut self,
        alloc: Global,
        terms: &Terms,
        message: Message,
        steps: &mut Steps<L>,
    ) -> Result<Admission, AdmitError>
        requires message { IsMessage message }
        requires ids { AllByRecursion HasSmallIds (both message) }
        ensures admitted { IfOk result (λ admission.
            IsAdmitted terms.now message admission self.old self.new) }
        ensures sound { OnOk result (IsSound (learned self.new.arrived)) }
        ensures comes { OnOk result
            (ComesFrom (learned self.old.arrived) (learned self.new.arrived)) }
        ensures err { IfErr result (λ error. IsLeftBy error self.old self.new) }
    {
        self.runs.is_sound();
        if let Some(cause) = self.refusal(terms, &message) {
            return Ok(Admission::Refused { cause });
        }
        if self.has_arrived(message.batch.key) {
            return Ok(Admission::Known);
        }
        match admit(
            &mut self.runs,
            &mut self.waiting,
            alloc,
            terms.may_wait,
            message,
            steps,
        ) {
            Ok(admission) => {
                self.runs.is_sound();
                Ok(admission)
            }
            Err(AdmitError::Memory) => Err(AdmitError::Memory),
            Err(AdmitError::Spent) => {
                self.runs = Runs::new(alloc);
                self.waiting = Waiting::new(alloc);
                Err(AdmitError::Spent)
            }
        }
    }

    /// Drops the message that has a batch of this key, its own or the one that it carries, where it is put off: whether there
    /// was one. What waits for it waits on. In time of what is put off. For want of memory nothing changes.
    pub fn forget(&mut self, alloc: Global, key: BatchKey) -> Result<bool, OutOfMemory>
        ensures dropped { IfOk result (λ dropped. dropped ≡ is_put_off key self.old) }
        ensures ok { OnOk result (self.new ≡ without key self.old) }
        ensures err { OnErr result (self.new ≡ self.old) }
    {
        if !self.waiting.has(key) {
            return Ok(false);
        }
        let kept = but_for(&self.waiting, alloc, key)?;
        self.waiting = kept;
        Ok(true)
    }

    /// Learns a batch that is written in this cell, and the one that goes right after it, which it carries or not. For
    /// want of memory nothing changes. A batch that goes on from the current branch of its run takes a step for each
    /// event of both.
    ///
    /// The batch points back to a learned one, or has no earlier key, the other begins a run, neither of the two has arrived,
    /// no message that is put off waits for either, and what is learned with them is sound; event ids are at most 10^12.
    pub fn write<L>(
        &mut self,
        alloc: Global,
        batch: &Batch,
        second: Option<&Batch>,
        steps: &mut Steps<L>,
    ) -> Result<(), OutOfMemory>
        requires together { GoTogether (carrying batch.now (option_copied second)) }
        requires new { IsNewTo self.old.arrived (carrying batch.now (option_copied second)) }
        requires reached { has_key (earlier batch.now) (learned self.old.arrived) ≡ true }
        requires awaited { AllByRecursion (λ sent.
            waits_for (both (carrying batch.now (option_copied second))) sent
            ≡ false) self.old.waiting }
        requires sound { IsSound
            (with_message (carrying batch.now (option_copied second)) (learned self.old.arrived)) }
        requires ids { AllByRecursion HasSmallIds
            (both (carrying batch.now (option_copied second))) }
        ensures ok { OnOk result
            (self.new ≡ with_written (carrying batch.now (option_copied second.entry)) self.old) }
        ensures learned { OnOk result
            (learned self.new.arrived
            ≡ with_message (carrying batch.now (option_copied second.entry))
            (learned self.old.arrived)) }
        ensures err { OnErr result (self.new ≡ self.old) }
        ensures steps { OnOk result
            (batch.now.parent ≡ current_key batch.now.run (learned self.old.arrived)
            → steps.new ≡ counted (counted_for (option_copied second.entry) steps.old)
            (length batch.now.events)) }
    {
        learn(&mut self.runs, alloc, batch, second, steps)
    }

    /// Learns a batch that would be written in this cell, and the one that goes right after it, which it carries or not, if
    /// nothing stands under their keys, nothing waits for them, and they fit what is learned; or nothing changes. Of what has
    /// arrived nothing is asked.
    pub fn try_write<L>(
        &mut self,
        alloc: Global,
        batch: &Batch,
        second: Option<&Batch>,
        steps: &mut Steps<L>,
    ) -> Result<(), NotWritten>
        requires { IsMadeTogether (carrying batch.now (option_copied second)) }
        ensures may { OnOk result
            (MayBeWrittenTogether (carrying batch.now (option_copied second.entry)) self.old) }
        ensures ok { OnOk result
            (self.new ≡ with_written (carrying batch.now (option_copied second.entry)) self.old) }
        ensures refused { IfErr result (λ cause.
            IsNotWritten cause (carrying batch.now (option_copied second.entry)) self.old) }
        ensures err { OnErr result (self.new ≡ self.old) }
    {
        if let Some(key) = self.taken_key(batch, second) {
            let waits = !self.runs.has(key);
            return Err(NotWritten::Rival { key, waits });
        }
        if let Some(key) = self.waiting.first_waiter(alloc, batch, second)? {
            return Err(NotWritten::Awaited { key });
        }
        if !is_reached(&self.runs, batch) {
            return Err(NotWritten::Misfit(Misfit::ParentUnfit));
        }
        match fit(&mut self.runs, alloc, batch, second, steps) {
            Ok(_) => {}
            Err(Misfit::Memory) => return Err(NotWritten::Memory),
            Err(misfit) => return Err(NotWritten::Misfit(misfit)),
        }
        self.runs.is_sound();
        Ok(())
    }

    /// The first of the keys of these batches under which something stands.
    fn taken_key(&self, batch: &Batch, second: Option<&Batch>) -> Option<BatchKey>
        ensures some { IfSome result (λ key.
            has_key (Some key) (both (carrying batch.now (option_copied second.entry))) ≡ true) }
        ensures there { IfSome result (λ key. has_arrived key self.now ≡ true) }
        ensures none { IfNone result
            (IsNewTo self.now.arrived (carrying batch.now (option_copied second.entry))) }
    {
        if self.has_arrived(batch.key) {
            return Some(batch.key);
        }
        match second {
            Some(second) if self.has_arrived(second.key) => Some(second.key),
            _ => None,
        }
    }
}
