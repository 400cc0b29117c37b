ghost use Rattle.std.specs.Prelude.{IfOk};
ghost use Rattle.std.specs.List.Sorted.{IsStrictlySortedBy};
ghost use Rattle.ndc_domain.specs.Records.{names_cmp};
ghost use Rattle.ndc_shard.specs.Again.{AreReappliedOf};

use crate::asking::{as_command_error, batches_of, place_of, push_batches, refuses, version_of};
use ndc_cluster::{Desk, Home};
use ndc_command::{Command, CommandError, Refusal};
use ndc_event::{Batch, BatchKey, Name, OutOfMemory};
use ndc_model_cells::{Message, Place};
use ndc_model_sets::Batches;
use ndc_shard_entries::{Entry, command_entry, reapplication_entry, reset_entries, unless_behind};
use ndc_shard_runs::Runs;
use ndc_shard_workflows::{Admission, AdmitError, Arrival, CellTerms, NotWritten, Workflows};
use ndc_state::Steps;
use std::alloc::Global;
use std::marker::Model;

/// The greatest task of what is learned of a workflow after which more may be written.
pub(crate) const MOST_TASK: u64 = 1_000_000_000_000;

/// One shard of one cluster: its workflows, and where the batches stand that it has written and that none carries, in the
/// order of writing. Seen as the cell, which has written their messages.
pub struct Shard {
    alloc: Global,
    workflows: Workflows,
    places: Vec<Place>,
}

impl Model for Shard {
    ghost use Rattle.ndc_model_cells.specs.Cells.{Cell};
    ghost use Rattle.ndc_shard.specs.Sent.{AreSent, messages_at};
    ghost use Rattle.ndc_shard.specs.Shards.{having_written};

    ghost Value = { Cell };

    ghost view = { λ shard. having_written
        (messages_at shard.places.items shard.workflows) shard.workflows };

    ghost invariant = { λ shard. AreSent shard.places.items shard.workflows };
}

impl Drop for Shard {
    fn drop(self) {
        let Shard {
            alloc: _alloc,
            workflows: _workflows,
            places: _places,
        } = self;
    }
}

impl Shard {
    ghost use Rattle.std.specs.Prelude.{◌≡◌, ◌≢◌, ◌<◌, ◌≤◌, ◌^◌, ◌++◌, [], ◌∷◌, length, option_to_list, slice_get, None, Some, Ok, Err, MatchResult, IfSome, IfNone, IfOk, IfErr, IsTrue, OnOk, OnErr, true, false};
    ghost use Rattle.ndc_model_cells.specs.Arrival.{arrival_of, arrived_at, learned_by};
    ghost use Rattle.ndc_model_cells.specs.Cells.{empty_cell, learned_of};
    ghost use Rattle.ndc_model_cells.specs.Jobs.{all_batches, reapplied_in, reapplied_now, workflows_of, written_at};
    ghost use Rattle.ndc_model_cells.specs.Writing.{Desk as DeskValue, command_of, greatest_task, may_write, reapplication_below, reapplication_of, reset_at, with_all_written, with_written};
    ghost use Rattle.ndc_command.specs.declared.refusal.CommandError.TheVariants.{Memory};
    ghost use Rattle.ndc_event.specs.Outcome.{Gives};
    ghost use Rattle.ndc_shard_runs.specs.Kept.{is_due};
    ghost use Rattle.ndc_model_sets.specs.Branches.{workflow_tip};
    ghost use Rattle.ndc_model_sets.specs.Current.{strays};
    ghost use Rattle.ndc_model_sets.specs.Learned.{has_key};
    ghost use Rattle.ndc_shard.specs.Shards.{AreLone, AreOneOrTwo, AreWritable, GoAsTwo, IsFit, batches_written, having_written};
    ghost use Rattle.ndc_shard.specs.Trying.{AreMade, LeavesRoom, together};
    ghost use Rattle.ndc_model_cells.specs.Allowed.{HasRoom, MayArrive, MayBeAsked, MayReapply, MayWriteAll};
    ghost use Rattle.ndc_model_cells.specs.Messages.{carrying};
    ghost use Rattle.ndc_model_cells.specs.Workflow.{workflow_of};
    ghost use Rattle.ndc_shard_workflows.specs.Reapplied.{AreReapplied, IsReappliedAmongFirst, IsReappliedInFirst, MayReapplyAmong, reapplied_among, reapplied_at, written_among};
    ghost use Rattle.ndc_shard_workflows.specs.Writing.{IsMadeTogether, MayBeWritten};
    ghost use Rattle.ndc_shard_workflows.specs.Refused.{IsNotWritten};
    ghost use Rattle.ndc_model_cells.specs.Messages.{IsMessage};
    ghost use Rattle.std.specs.List.{AllByRecursion};
    ghost use Rattle.ndc_event.specs.declared.name.Name.{Name as Text};
    ghost use Rattle.ndc_model_cells.specs.Cells.{IsCell};
    ghost use Rattle.ndc_shard.specs.Sent.{HasCarrier};
    ghost use Rattle.ndc_shard_workflows.specs.Workflow.{IsWorkflow};
    ghost use Rattle.ndc_shard_workflows.specs.Forgetting.{is_put_off, IsForgotten};
    ghost use Rattle.ndc_shard_workflows.specs.Terms.{terms_in};
    ghost use Rattle.ndc_shard_workflows.specs.Workflows.{IsAdmittedTo};
    ghost use Rattle.ndc_shard_workflows.specs.declared.admission.AdmitError.TheVariants.{Memory as OutOfMemory, Spent};
    ghost use Rattle.ndc_model_sets.specs.Sound.{IsSound};

    /// Nothing has happened.
    pub fn new(alloc: Global, _home: &Home) -> Result<Shard, OutOfMemory>
        ensures { IfOk result (λ shard. shard ≡ empty_cell) }
    {
        Ok(Shard {
            alloc,
            workflows: Workflows::new(alloc),
            places: Vec::new(alloc),
        })
    }

    /// Where its memory comes from.
    pub(crate) fn alloc(&self) -> Global {
        self.alloc
    }

    /// Its workflows, to be read: as a cell they differ from it by what was written alone.
    pub(crate) fn held(&self) -> &Workflows
        ensures { having_written self.now.written result.now ≡ self.now }
    {
        &self.workflows
    }

    /// It is in order, and so is each workflow of it; no batch has arrived without its carrier, which none carries. Takes no
    /// time.
    pub fn is_in_order(&self)
        ensures cell { IsCell self.now }
        ensures workflows { (domain workflow : Text)
            → IsWorkflow (workflow_of domain workflow self.now) }
        ensures carried { AllByRecursion (HasCarrier self.now) self.now.arrived }
    {
        self.workflows.is_in_order();
    }

    /// How many messages it has written.
    pub(crate) fn written_len(&self) -> usize
        ensures { result ≡ length self.now.written }
    {
        self.places.len()
    }

    /// The message that it has written at a place, counted from 0 in the order of writing.
    pub(crate) fn written_at(&self, place: usize) -> Result<Message, OutOfMemory>
        requires { place < length self.now.written }
        ensures { IfOk result (λ sent. slice_get self.now.written place ≡ Some sent) }
    {
        let at = &self.places[place];
        let found = self.message(&at.domain, &at.workflow, at.key)?;
        match found {
            Some(message) => Ok(message),
            None => unreachable!(),
        }
    }

    /// What is learned of a workflow, with its states. There is none only where nothing is. What is
    /// learned of it is sound.
    pub fn runs(&self, domain: &Name, workflow: &Name) -> Option<&Runs>
        ensures found { IfSome result (λ runs.
            runs.now ≡ learned_of domain.now workflow.now self.now) }
        ensures none { IfNone result (learned_of domain.now workflow.now self.now ≡ []) }
        ensures fit { IsFit domain.now workflow.now self.now }
    {
        Some(self.workflows.find(domain, workflow)?.runs())
    }

    /// Whether the tasks of what is learned of a workflow leave room for more.
    pub(crate) fn has_tasks_left(&self, domain: &Name, workflow: &Name) -> bool
        ensures left { result ≡ true → greatest_task (learned_of domain.now workflow.now self.now)
            ≤ 10 ^ 12 }
        ensures none { result ≡ false → greatest_task (learned_of domain.now workflow.now self.now)
            ≤ 10 ^ 12 → ⊥ }
    {
        match self.runs(domain, workflow) {
            Some(runs) => runs.greatest_task() <= MOST_TASK,
            None => true,
        }
    }

    /// The version with which the cell may write to a workflow, that of its record of the domain, and what is learned of the
    /// workflow; none only where nothing is. Takes no memory. Refused with the first of these that holds:
    /// [`Refusal::UnknownDomain`] where there is no record, [`Refusal::NotActive`] with the version where another cluster
    /// writes with it, or none does, and [`Refusal::Behind`] with the greatest learned version where that is above it. The
    /// workflow is looked up once, and only where the record lets it write.
    pub(crate) fn writable(
        &self,
        desk: &Desk,
        domain: &Name,
        workflow: &Name,
    ) -> Result<(u64, Option<&Runs>), Refusal>
        ensures version { MatchResult result (λ it.
            may_write desk.now domain.now workflow.now self.now ≡ Ok it.0) (λ refusal.
            may_write desk.now domain.now workflow.now self.now ≡ Err refusal) }
        ensures found { IfOk result (λ it.
            IfSome it.1 (λ runs. runs.now ≡ learned_of domain.now workflow.now self.now)) }
        ensures none { IfOk result (λ it.
            IfNone it.1 (learned_of domain.now workflow.now self.now ≡ [])) }
        ensures fit { IfOk result (λ _. IsFit domain.now workflow.now self.now) }
    {
        let version = match version_of(desk, domain) {
            Ok(version) => version,
            Err(refusal) => return Err(refusal),
        };
        let runs = self.runs(domain, workflow);
        let version = match runs {
            Some(runs) => unless_behind(version, runs),
            None => Ok(version),
        };
        match version {
            Ok(version) => Ok((version, runs)),
            Err(refusal) => Err(refusal),
        }
    }

    /// A message arrives. After want of memory nothing has arrived or is written any more.
    pub(crate) fn take_in<L>(
        &mut self,
        message: Message,
        steps: &mut Steps<L>,
    ) -> Result<Arrival, OutOfMemory>
        requires { MayArrive message self.old }
        ensures outcome { IfOk result (λ arrival. arrival.outcome ≡ arrival_of message self.old) }
        ensures learned { IfOk result (λ arrival. arrival.learned ≡ learned_by message self.old) }
        ensures cell { OnOk result (self.new ≡ arrived_at message self.old) }
    {
        self.workflows.is_in_order();
        match self.workflows.arrive(self.alloc, message, steps) {
            Ok(arrival) => Ok(arrival),
            Err(error) => {
                self.places.clear();
                Err(error)
            }
        }
    }

    /// A message that nobody vouches for is handed to the shard on these terms: of the message nothing is asked. It is
    /// refused with the first cause of [`NotAdmitted`] that holds; it is known; it is put off; or it is learned, and of
    /// what waited for it, in key order, each that fits ([`Admission`]). What is learned of each workflow stays sound,
    /// whatever came, and only grows. For want of memory nothing changes ([`AdmitError::Memory`]), or, where the
    /// message is learned, nothing has arrived or is written any more ([`AdmitError::Spent`]).
    pub fn admit<L>(
        &mut self,
        terms: &CellTerms,
        message: Message,
        steps: &mut Steps<L>,
    ) -> Result<Admission, AdmitError>
        ensures admitted { IfOk result (λ admission.
            IsAdmittedTo (terms_in terms.now self.old) message admission self.old self.new) }
        ensures written { OnOk result (self.new.written ≡ self.old.written) }
        ensures sound { OnOk result ((domain workflow : Text)
            → IsSound (learned_of domain workflow self.new)) }
        ensures memory { result ≡ Err OutOfMemory → self.new ≡ self.old }
        ensures spent { result ≡ Err Spent → self.new ≡ empty_cell }
    {
        self.workflows.is_in_order();
        match self.workflows.admit(self.alloc, terms, message, steps) {
            Ok(admission) => {
                self.workflows.is_in_order();
                Ok(admission)
            }
            Err(AdmitError::Memory) => Err(AdmitError::Memory),
            Err(AdmitError::Spent) => {
                self.places.clear();
                Err(AdmitError::Spent)
            }
        }
    }

    /// Drops the message of a workflow that has a batch of this key, its own or the one that it carries, where it is put off:
    /// whether there was one. What waits for it waits on. What is learned and what was written stays, and all other workflows
    /// stay as they are. In time of what is put off of the workflow. For want of memory nothing changes.
    pub fn forget(
        &mut self,
        domain: &Name,
        workflow: &Name,
        key: BatchKey,
    ) -> Result<bool, OutOfMemory>
        ensures dropped { IfOk result (λ dropped.
            dropped ≡ is_put_off key (workflow_of domain.now workflow.now self.old)) }
        ensures forgotten { OnOk result
            (IsForgotten domain.now workflow.now key self.old self.new) }
        ensures learned { (d w : Text) → learned_of d w self.new ≡ learned_of d w self.old }
        ensures written { self.new.written ≡ self.old.written }
        ensures unchanged { OnErr result (self.new ≡ self.old) }
    {
        self.workflows.is_in_order();
        let dropped = self.workflows.forget(self.alloc, domain, workflow, key)?;
        self.workflows.is_in_order();
        Ok(dropped)
    }

    /// Writes an entry: its batches are learned in their workflow, and its message goes last among those written. For want of
    /// memory nothing changes.
    fn write<L>(&mut self, entry: &Entry, steps: &mut Steps<L>) -> Result<(), OutOfMemory>
        requires may { MayBeWritten (carrying entry.now.batch entry.now.second)
            (workflow_of entry.now.batch.domain entry.now.batch.workflow self.old) }
        requires lone { entry.now.batch.carrier ≡ None }
        ensures ok { OnOk result (self.new ≡ with_written entry.now self.old) }
        ensures err { OnErr result (self.new ≡ self.old) }
    {
        self.workflows.is_in_order();
        let place = place_of(entry.batch())?;
        self.places.reserve(1)?;
        self.workflows
            .write(self.alloc, entry.batch(), entry.second(), steps)?;
        self.places.push_reserved(place);
        Ok(())
    }

    /// Writes an entry for which nobody vouches: its batches are learned in their workflow, and its message goes last among
    /// those written. It is not where something stands under their keys, something waits for them, or they do not fit; after
    /// an error nothing changes.
    pub(crate) fn try_write<L>(
        &mut self,
        entry: &Entry,
        steps: &mut Steps<L>,
    ) -> Result<(), NotWritten>
        requires message { IsMessage (carrying entry.now.batch entry.now.second) }
        requires made { IsMadeTogether (carrying entry.now.batch entry.now.second) }
        requires lone { entry.now.batch.carrier ≡ None }
        ensures ok { OnOk result (self.new ≡ with_written entry.now self.old) }
        ensures refused { IfErr result (λ cause.
            IsNotWritten cause (carrying entry.now.batch entry.now.second)
            (workflow_of entry.now.batch.domain entry.now.batch.workflow self.old)) }
        ensures err { OnErr result (self.new ≡ self.old) }
    {
        self.workflows.is_in_order();
        let place = place_of(entry.batch())?;
        self.places.reserve(1)?;
        match self
            .workflows
            .try_write(self.alloc, entry.batch(), entry.second(), steps)
        {
            Ok(()) => {}
            Err(cause) => return Err(cause),
        }
        self.places.push_reserved(place);
        Ok(())
    }

    /// Writes two entries together, of which the second goes right after the first: their batches are learned in their
    /// workflow, and their messages go last among those written. For want of memory nothing changes.
    fn write_both<L>(
        &mut self,
        first: &Entry,
        second: &Entry,
        steps: &mut Steps<L>,
    ) -> Result<(), OutOfMemory>
        requires may { AreWritable (first.now ∷ second.now ∷ []) self.old }
        requires lone { AreLone (first.now ∷ second.now ∷ []) }
        requires two { GoAsTwo first.now second.now }
        ensures ok { OnOk result
            (self.new ≡ with_all_written (first.now ∷ second.now ∷ []) self.old) }
        ensures err { OnErr result (self.new ≡ self.old) }
    {
        self.workflows.is_in_order();
        let place = place_of(first.batch())?;
        let behind = place_of(second.batch())?;
        self.places.reserve(2)?;
        self.workflows
            .write(self.alloc, first.batch(), Some(second.batch()), steps)?;
        self.places.push_reserved(place);
        self.places.push_reserved(behind);
        Ok(())
    }

    /// Writes two entries together for which nobody vouches, of which the second goes right after the first: their batches are
    /// learned in their workflow, and their messages go last among those written. They are not where something stands under
    /// their keys, something waits for them, or they do not fit; after an error nothing changes.
    fn try_write_both<L>(
        &mut self,
        first: &Entry,
        second: &Entry,
        steps: &mut Steps<L>,
    ) -> Result<(), NotWritten>
        requires made { IsMadeTogether (carrying first.now.batch (Some second.now.batch)) }
        requires lone { AreLone (first.now ∷ second.now ∷ []) }
        requires two { GoAsTwo first.now second.now }
        ensures ok { OnOk result
            (self.new ≡ with_all_written (first.now ∷ second.now ∷ []) self.old) }
        ensures refused { IfErr result (λ cause.
            IsNotWritten cause (carrying first.now.batch (Some second.now.batch))
            (workflow_of first.now.batch.domain first.now.batch.workflow self.old)) }
        ensures err { OnErr result (self.new ≡ self.old) }
    {
        self.workflows.is_in_order();
        let place = place_of(first.batch())?;
        let behind = place_of(second.batch())?;
        self.places.reserve(2)?;
        match self
            .workflows
            .try_write(self.alloc, first.batch(), Some(second.batch()), steps)
        {
            Ok(()) => {}
            Err(cause) => return Err(cause),
        }
        self.places.push_reserved(place);
        self.places.push_reserved(behind);
        Ok(())
    }

    /// Writes one entry, or two together, for which nobody vouches. They are not where something stands under their keys,
    /// something waits for them, or they do not fit; after an error nothing changes.
    pub(crate) fn try_write_all<L>(
        &mut self,
        entries: &[Entry],
        steps: &mut Steps<L>,
    ) -> Result<(), NotWritten>
        requires made { AreMade entries.now }
        requires lone { AreLone entries.now }
        ensures ok { OnOk result (self.new ≡ with_all_written entries.now self.old) }
        ensures refused { IfErr result (λ cause.
            IfSome (together entries.now) (λ new.
            IsNotWritten cause new (workflow_of new.batch.domain new.batch.workflow self.old))) }
        ensures err { OnErr result (self.new ≡ self.old) }
    {
        match entries {
            [entry] => self.try_write(entry, steps),
            [first, second] => self.try_write_both(first, second, steps),
            _ => unreachable!(),
        }
    }

    /// Writes one entry, or two together. For want of memory nothing changes.
    fn write_all<L>(&mut self, entries: &[Entry], steps: &mut Steps<L>) -> Result<(), OutOfMemory>
        requires may { AreWritable entries.now self.old }
        requires lone { AreLone entries.now }
        requires some { AreOneOrTwo entries.now }
        ensures ok { OnOk result (self.new ≡ with_all_written entries.now self.old) }
        ensures err { OnErr result (self.new ≡ self.old) }
    {
        match entries {
            [entry] => self.write(entry, steps),
            [first, second] => self.write_both(first, second, steps),
            _ => unreachable!(),
        }
    }

    /// What a command writes.
    #[tactic(auto, unfolding(ndc_model_cells::specs::Writing::command_of))]
    pub(crate) fn command_entry(
        &self,
        desk: &Desk,
        domain: &Name,
        workflow: &Name,
        command: &Command,
    ) -> Result<Entry, CommandError>
        requires { greatest_task (learned_of domain.now workflow.now self.now) ≤ 10 ^ 12 }
        ensures entries { Gives Memory (λ entry.
            entry ∷ []) result (command_of desk.now domain.now workflow.now command.now self.now) }
        ensures fit { IfOk result (λ _. IsFit domain.now workflow.now self.now) }
    {
        let (version, runs) = as_command_error(self.writable(desk, domain, workflow))?;
        let alloc = self.alloc;
        let limit = desk.limit();
        match runs {
            Some(runs) => command_entry(alloc, domain, workflow, command, limit, version, runs),
            None => {
                let none = Runs::new(alloc);
                command_entry(alloc, domain, workflow, command, limit, version, &none)
            }
        }
    }

    /// What a reset writes.
    #[tactic(auto, unfolding(ndc_model_cells::specs::Writing::reset_at))]
    pub(crate) fn reset_entries(
        &self,
        desk: &Desk,
        domain: &Name,
        workflow: &Name,
        event: u64,
    ) -> Result<Vec<Entry>, CommandError>
        requires { greatest_task (learned_of domain.now workflow.now self.now) ≤ 10 ^ 12 }
        ensures entries { Gives Memory (λ entries.
            entries.items) result (reset_at desk.now domain.now workflow.now event self.now) }
        ensures fit { IfOk result (λ _. IsFit domain.now workflow.now self.now) }
    {
        let (version, runs) = as_command_error(self.writable(desk, domain, workflow))?;
        let alloc = self.alloc;
        let limit = desk.limit();
        match runs {
            Some(runs) => reset_entries(alloc, domain, workflow, event, limit, version, runs),
            None => {
                let none = Runs::new(alloc);
                reset_entries(alloc, domain, workflow, event, limit, version, &none)
            }
        }
    }

    /// A command to a workflow: what it writes, in order, or its refusal. Where it is refused, and for want of memory, nothing
    /// changes.
    pub(crate) fn write_command<L>(
        &mut self,
        desk: &Desk,
        domain: &Name,
        workflow: &Name,
        command: &Command,
        steps: &mut Steps<L>,
    ) -> Result<Batches, CommandError>
        requires { MayBeAsked desk.now domain.now workflow.now
            (command_of desk.now domain.now workflow.now command.now self.old) self.old }
        ensures batches { Gives Memory (λ batches.
            batches) result (batches_written
            (command_of desk.now domain.now workflow.now command.now self.old)) }
        ensures some { IfOk result (λ batches. 0 < length batches) }
        ensures cell { OnOk result
            (self.new ≡ written_at (command_of desk.now domain.now workflow.now command.now
            self.old) self.old) }
        ensures unchanged { OnErr result (self.new ≡ self.old) }
    {
        let entry = self.command_entry(desk, domain, workflow, command)?;
        let mut batches = Vec::with_capacity(self.alloc, 1)?;
        push_batches(&mut batches, &entry)?;
        self.write(&entry, steps)?;
        Ok(Batches::new(batches))
    }

    /// A new run repeats the current one of a workflow up to an event, counted from 1: what is written, in order, or the
    /// refusal. Where it is refused, and for want of memory, nothing changes.
    pub(crate) fn write_reset<L>(
        &mut self,
        desk: &Desk,
        domain: &Name,
        workflow: &Name,
        event: u64,
        steps: &mut Steps<L>,
    ) -> Result<Batches, CommandError>
        requires { MayBeAsked desk.now domain.now workflow.now
            (reset_at desk.now domain.now workflow.now event self.old) self.old }
        ensures batches { Gives Memory (λ batches.
            batches) result (batches_written
            (reset_at desk.now domain.now workflow.now event self.old)) }
        ensures some { IfOk result (λ batches. 0 < length batches) }
        ensures cell { OnOk result
            (self.new ≡ written_at (reset_at desk.now domain.now workflow.now event self.old)
            self.old) }
        ensures unchanged { OnErr result (self.new ≡ self.old) }
    {
        let entries = self.reset_entries(desk, domain, workflow, event)?;
        let batches = batches_of(self.alloc, entries.as_slice())?;
        self.write_all(entries.as_slice(), steps)?;
        Ok(batches)
    }

    /// Whether reapplication is due in a workflow.
    pub(crate) fn is_due(&mut self, domain: &Name, workflow: &Name) -> Result<bool, OutOfMemory>
        ensures due { IfOk result (λ due.
            due ≡ is_due (learned_of domain.now workflow.now self.old)) }
        ensures same { self.new ≡ self.old }
    {
        self.workflows.is_due(self.alloc, domain, workflow)
    }

    /// What reapplication writes to a workflow of which the strays may be known, with this version.
    fn entry_again(
        &self,
        domain: &Name,
        workflow: &Name,
        version: u64,
    ) -> Result<Option<Entry>, OutOfMemory>
        requires { LeavesRoom (learned_of domain.now workflow.now self.now) }
        ensures fit { IsFit domain.now workflow.now self.now }
        ensures entry { IfOk result (λ entry.
            option_to_list entry ≡ reapplication_below domain.now workflow.now version
            (workflow_tip (learned_of domain.now workflow.now self.now))
            (learned_of domain.now workflow.now self.now)
            (strays (learned_of domain.now workflow.now self.now))) }
    {
        let Some(runs) = self.runs(domain, workflow) else {
            return Ok(None);
        };
        let alloc = self.alloc;
        match runs.known_strays() {
            Some(list) => reapplication_entry(alloc, domain, workflow, version, list, runs),
            None => {
                let list = runs.strays(alloc)?;
                reapplication_entry(alloc, domain, workflow, version, list.as_slice(), runs)
            }
        }
    }

    /// What reapplication writes to a workflow.
    #[tactic(auto, unfolding(ndc_model_cells::specs::Writing::reapplication_of))]
    pub(crate) fn reapplication(
        &mut self,
        desk: &Desk,
        domain: &Name,
        workflow: &Name,
    ) -> Result<Option<Entry>, OutOfMemory>
        requires { LeavesRoom (learned_of domain.now workflow.now self.old) }
        ensures entry { IfOk result (λ entry.
            option_to_list entry ≡ reapplication_of desk.now domain.now workflow.now self.old) }
        ensures same { self.new ≡ self.old }
        ensures fit { IfOk result (λ entry.
            IfSome entry (λ _. IsFit domain.now workflow.now self.new)) }
    {
        let Ok((version, _)) = self.writable(desk, domain, workflow) else {
            return Ok(None);
        };
        if !self.is_due(domain, workflow)? {
            return Ok(None);
        }
        self.entry_again(domain, workflow, version)
    }

    /// Strays are applied again in a workflow, and the batches that are written go last among these. For want of memory the
    /// cell stays as it was.
    fn reapply_in<L>(
        &mut self,
        desk: &Desk,
        domain: &Name,
        workflow: &Name,
        batches: &mut Vec<Batch>,
        steps: &mut Steps<L>,
    ) -> Result<(), OutOfMemory>
        requires room { HasRoom (learned_of domain.now workflow.now self.old) }
        requires may { MayWriteAll domain.now workflow.now
            (reapplication_of desk.now domain.now workflow.now self.old) self.old }
        ensures cell { OnOk result
            (self.new ≡ reapplied_at desk.now (domain.now, workflow.now) self.old) }
        ensures batches { OnOk result
            (batches.new.items ≡ batches.old.items
            ++ all_batches (reapplication_of desk.now domain.now workflow.now self.old)) }
        ensures err { OnErr result (self.new ≡ self.old) }
    {
        let Some(entry) = self.reapplication(desk, domain, workflow)? else {
            return Ok(());
        };
        push_batches(batches, &entry)?;
        self.write(&entry, steps)
    }

    /// Strays are applied again in these workflows, in order. For want of memory some of them, in order, have their batches.
    fn reapply_among<L>(
        &mut self,
        desk: &Desk,
        list: Vec<(Name, Name)>,
        steps: &mut Steps<L>,
    ) -> Result<Batches, OutOfMemory>
        requires { MayReapplyAmong desk.now list.items self.old }
        ensures cell { OnOk result (self.new ≡ reapplied_among desk.now list.items self.old) }
        ensures batches { IfOk result (λ batches.
            batches ≡ written_among desk.now list.items self.old) }
        ensures err { OnErr result (IsReappliedAmongFirst desk.now list.items self.old self.new) }
    {
        let mut batches = Vec::new(self.alloc);
        for (domain, workflow) in list {
            self.reapply_in(desk, &domain, &workflow, &mut batches, steps)?;
        }
        Ok(Batches::new(batches))
    }

    /// Whether there is no workflow in which reapplication may be due. Then it writes nothing, whatever versions the cell may
    /// write with. Takes no memory.
    pub(crate) fn applies_nothing(&self) -> bool
        ensures cell { IsTrue result → (desk : DeskValue)
            → reapplied_in desk (workflows_of self.now.arrived) self.now ≡ self.now }
        ensures batches { IsTrue result → (desk : DeskValue)
            → reapplied_now desk (workflows_of self.now.arrived) self.now ≡ [] }
    {
        self.workflows.has_none_due()
    }

    /// The workflows, in order, in which reapplication may be due, without those of domains to which the cluster's record does
    /// not let it write: such a domain costs one look, however many workflows it has.
    pub(crate) fn due_again(&self, desk: &Desk) -> Result<Vec<(Name, Name)>, OutOfMemory>
        ensures { IfOk result (λ list. AreReapplied desk.now list.items self.now) }
    {
        let domains = self.workflows.due_domains(self.alloc)?;
        due_of(&self.workflows, self.alloc, desk, domains)
    }

    /// Strays are applied again in each workflow, in order, where the cell may write to it and its current run is open:
    /// the batches that are written, in order. For want of memory some of the workflows, in order, have their batches, and the
    /// rest of the cell is as it was. It looks only at workflows in which reapplication may be due, of domains to which the
    /// cluster's record lets it write.
    pub(crate) fn apply_again<L>(
        &mut self,
        desk: &Desk,
        steps: &mut Steps<L>,
    ) -> Result<Batches, OutOfMemory>
        requires { MayReapply desk.now (workflows_of self.old.arrived) self.old }
        ensures cell { OnOk result
            (self.new ≡ reapplied_in desk.now (workflows_of self.old.arrived) self.old) }
        ensures batches { IfOk result (λ batches.
            batches ≡ reapplied_now desk.now (workflows_of self.old.arrived) self.old) }
        ensures err { OnErr result
            (IsReappliedInFirst desk.now (workflows_of self.old.arrived) self.old self.new) }
    {
        self.is_in_order();
        let list = self.due_again(desk)?;
        let batches = self.reapply_among(desk, list, steps)?;
        Ok(batches)
    }
}

/// Of these domains the workflows, in order, in which reapplication may be due, without those of domains to which the
/// cluster's record does not let it write.
fn due_of(
    workflows: &Workflows,
    alloc: Global,
    desk: &Desk,
    domains: Vec<Name>,
) -> Result<Vec<(Name, Name)>, OutOfMemory>
    requires { IsStrictlySortedBy names_cmp domains.items }
    ensures { IfOk result (λ list. AreReappliedOf desk.now domains.items list.items workflows.now) }
{
    let mut list = Vec::new(alloc);
    for domain in domains {
        if refuses(desk, &domain) {
            continue;
        }
        let mut more = workflows.due_in(alloc, &domain)?;
        list.append(&mut more)?;
    }
    Ok(list)
}
