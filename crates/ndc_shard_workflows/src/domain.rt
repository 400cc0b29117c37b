ghost use Rattle.std.specs.Prelude.{◌≡◌, ◌++◌, [], true, false, None, IfOk, IfErr, OnOk, OnErr};
ghost use Rattle.std.specs.List.{AllByRecursion};
ghost use Rattle.std.specs.Option.{option_copied};
ghost use Rattle.ndc_event.specs.declared.name.Name.{Name as Text};
ghost use Rattle.ndc_model_cells.specs.Cells.{both};
ghost use Rattle.ndc_model_cells.specs.Messages.{carrying, HasSmallIds, IsMessage, IsNewTo};
ghost use Rattle.ndc_model_sets.specs.Learned.{learned};
ghost use Rattle.ndc_model_sets.specs.Sound.{IsSound};
ghost use Rattle.ndc_shard_runs.specs.Kept.{is_due, StaysSettled};
ghost use Rattle.ndc_shard_workflows.specs.Admitting.{IsAdmitted, IsLeftBy};
ghost use Rattle.ndc_shard_workflows.specs.Arriving.{ComesFrom};
ghost use Rattle.ndc_shard_workflows.specs.Due.{is_listed};
ghost use Rattle.ndc_shard_workflows.specs.Lacking.{one_lacks_own};
ghost use Rattle.ndc_shard_workflows.specs.Listed.{IsListedBefore};
ghost use Rattle.ndc_shard_workflows.specs.Reading.{learned_in_domain, named_where_learned};
ghost use Rattle.ndc_shard_workflows.specs.Refused.{IsNotWritten};
ghost use Rattle.ndc_shard_workflows.specs.Workflow.{after_arrival, answer_to, empty_workflow, has_arrived, made_learned, with_written, IsWorkflow};
ghost use Rattle.ndc_shard_workflows.specs.Writing.{IsMadeTogether, MayBeWrittenTogether};

use crate::admission::{AdmitError, NotWritten, Terms};
use crate::arrival::{Admitted, Received};
use crate::due::DueListing;
use crate::workflow::Workflow;
use ndc_event::{Batch, BatchKey, Name, OutOfMemory};
use ndc_model_cells::Message;
use ndc_state::Steps;
use std::alloc::Global;
use std::collections::BTreeMap;
use std::marker::Model;

/// The workflows of a domain by name. Seen as the list of them, in order of name.
pub(crate) struct Domain {
    workflows: BTreeMap<Name, Workflow>,
}

impl Model for Domain {
    ghost use Rattle.ndc_shard_workflows.specs.Workflows.{DomainValue};

    ghost Value = { DomainValue };

    ghost view = { λ domain. domain.workflows.entries };
}

impl Drop for Domain {
    fn drop(self) {
        let Domain {
            workflows: _workflows,
        } = self;
    }
}

/// Adds the workflow of these names, where something of it is learned.
fn add_where_learned(
    domain: &Name,
    name: &Name,
    workflow: &Workflow,
    list: &mut Vec<(Name, Name)>,
) -> Result<(), OutOfMemory>
    ensures { OnOk result (list.new.items
        ≡ list.old.items ++ named_where_learned domain.now name.now workflow.now) }
{
    if workflow.runs().is_empty() {
        return Ok(());
    }
    list.push((domain.try_copy()?, name.try_copy()?))?;
    Ok(())
}

/// Adds those of the domain's workflows of which something is learned, in order.
fn add_learned(
    domain: &Name,
    workflows: &BTreeMap<Name, Workflow>,
    list: &mut Vec<(Name, Name)>,
) -> Result<(), OutOfMemory>
    ensures { OnOk result (list.new.items
        ≡ list.old.items ++ learned_in_domain domain.now workflows.now.entries) }
{
    for (name, workflow) in workflows.iter() {
        add_where_learned(domain, name, workflow, list)?;
    }
    Ok(())
}

/// A message arrives in its workflow. For want of memory nothing has arrived any more: the workflow is empty.
fn receive<L>(
    workflow: &mut Workflow,
    alloc: Global,
    message: Message,
    steps: &mut Steps<L>,
) -> Result<Received, OutOfMemory>
    requires message { IsMessage message }
    requires new { has_arrived message.batch.key workflow.old ≡ false
        → IsNewTo workflow.old.arrived message }
    requires sound { IsSound (learned (after_arrival message workflow.old).arrived) }
    requires ids { AllByRecursion HasSmallIds (both message) }
    ensures outcome { IfOk result (λ received.
        received.arrival.outcome ≡ answer_to message workflow.old) }
    ensures learned { IfOk result (λ received.
        received.arrival.learned ≡ made_learned message workflow.old) }
    ensures due { IfOk result (λ received.
        received.may_be_due ≡ false → is_due (learned (after_arrival message workflow.old).arrived)
        ≡ false) }
    ensures behind { IfOk result (λ received.
        received.is_behind ≡ false → (after_arrival message workflow.old).waiting ≡ []) }
    ensures ok { OnOk result (workflow.new ≡ after_arrival message workflow.old) }
    ensures err { OnErr result (workflow.new ≡ empty_workflow) }
{
    let arrival = workflow.arrive(alloc, message, steps)?;
    Ok(Received {
        arrival,
        may_be_due: workflow.runs().may_be_due(),
        is_behind: !workflow.put_off().is_empty(),
    })
}

/// A message that nobody vouches for is handed to its workflow. After want of memory the workflow is as it was, or
/// empty.
fn take<L>(
    workflow: &mut Workflow,
    alloc: Global,
    terms: &Terms,
    message: Message,
    steps: &mut Steps<L>,
) -> Result<Admitted, AdmitError>
    requires message { IsMessage message }
    requires ids { AllByRecursion HasSmallIds (both message) }
    ensures admitted { IfOk result (λ it.
        IsAdmitted terms.now message it.admission workflow.old workflow.new) }
    ensures due { IfOk result (λ it.
        it.may_be_due ≡ false → is_due (learned workflow.new.arrived) ≡ false) }
    ensures behind { IfOk result (λ it. it.is_behind ≡ false → workflow.new.waiting ≡ []) }
    ensures sound { OnOk result (IsSound (learned workflow.new.arrived)) }
    ensures workflow { OnOk result (IsWorkflow workflow.new) }
    ensures comes { OnOk result
        (ComesFrom (learned workflow.old.arrived) (learned workflow.new.arrived)) }
    ensures err { IfErr result (λ error. IsLeftBy error workflow.old workflow.new) }
{
    let admission = workflow.admit(alloc, terms, message, steps)?;
    Ok(Admitted {
        admission,
        may_be_due: workflow.runs().may_be_due(),
        is_behind: !workflow.put_off().is_empty(),
    })
}

/// Learns a batch that is written in this cell, and the one that goes right after it, in their workflow, which is
/// listed before, unless the batch leaves no stray. Where the caller does not vouch for them they are tried. After an
/// error nothing changes but for what is listed.
fn write_to<L>(
    workflow: &mut Workflow,
    alloc: Global,
    vouched: bool,
    batch: &Batch,
    second: Option<&Batch>,
    due: &mut DueListing,
    steps: &mut Steps<L>,
) -> Result<(), NotWritten>
    requires may { vouched ≡ true
        → MayBeWrittenTogether (carrying batch.now (option_copied second)) workflow.old }
    requires made { IsMadeTogether (carrying batch.now (option_copied second)) }
    ensures ok { OnOk result
        (workflow.new ≡ with_written
        (carrying batch.now (option_copied second.entry)) workflow.old) }
    ensures may { OnOk result
        (MayBeWrittenTogether (carrying batch.now (option_copied second.entry)) workflow.old) }
    ensures refused { IfErr result (λ cause.
        IsNotWritten cause (carrying batch.now (option_copied second.entry)) workflow.old) }
    ensures err { OnErr result (workflow.new ≡ workflow.old) }
    ensures listed { OnOk result
        (IsListedBefore batch.now (option_copied second.entry)
        (learned workflow.old.arrived) due.old due.new) }
    ensures kept { (d w : Text) → is_listed d w due.new ≡ false → is_listed d w due.old ≡ false }
{
    list_before(workflow, due, batch, second)?;
    if vouched {
        workflow.write(alloc, batch, second, steps)?;
        return Ok(());
    }
    workflow.try_write(alloc, batch, second, steps)
}

/// Lists the workflow of a batch that is to be written, unless the batch leaves no stray, by what is known of it.
fn list_before(
    workflow: &Workflow,
    due: &mut DueListing,
    batch: &Batch,
    second: Option<&Batch>,
) -> Result<(), OutOfMemory>
    ensures ok { OnOk result
        (IsListedBefore batch.now (option_copied second.entry)
        (learned workflow.now.arrived) due.old due.new) }
    ensures err { OnErr result (due.new ≡ due.old) }
{
    if stays_settled(workflow, batch, second) {
        return Ok(());
    }
    due.put(&batch.domain, &batch.workflow)
}

/// Whether a batch that carries none leaves no stray in its workflow, by what is known of it.
fn stays_settled(workflow: &Workflow, batch: &Batch, second: Option<&Batch>) -> bool
    ensures alone { result ≡ true → option_copied second.entry ≡ None }
    ensures settled { result ≡ true → StaysSettled batch.now (learned workflow.now.arrived) }
{
    if second.is_some() {
        return false;
    }
    workflow.runs().stays_settled(batch)
}

/// Whether one of these workflows tells of a batch of the cell's own cluster that is not learned, on these terms.
fn lacks_own_in(
    alloc: Global,
    terms: &Terms,
    workflows: &BTreeMap<Name, Workflow>,
) -> Result<bool, OutOfMemory>
    ensures { IfOk result (λ lacks. lacks ≡ one_lacks_own terms.now workflows.now.entries) }
{
    for (_, workflow) in workflows.iter() {
        if workflow.lacks_own(alloc, terms)? {
            return Ok(true);
        }
    }
    Ok(false)
}

impl Domain {
    ghost use Rattle.std.specs.Prelude.{◌≡◌, ◌++◌, [], map, true, false, Err, IfOk, IfErr, IfSome, OnOk, OnErr};
    ghost use Rattle.std.specs.List.{AllByRecursion};
    ghost use Rattle.std.specs.Map.{values_of};
    ghost use Rattle.std.specs.Option.{option_copied};
    ghost use Rattle.ndc_model_cells.specs.Cells.{both};
    ghost use Rattle.ndc_model_cells.specs.Places.{is_of};
    ghost use Rattle.ndc_shard_runs.specs.Kept.{is_due};
    ghost use Rattle.ndc_model_sets.specs.Learned.{learned};
    ghost use Rattle.ndc_model_sets.specs.Sound.{IsSound};
    ghost use Rattle.ndc_model_cells.specs.Messages.{IsMessage, IsNewTo};
    ghost use Rattle.ndc_model_cells.specs.Messages.{carrying, HasSmallIds};
    ghost use Rattle.ndc_shard_workflows.specs.Workflow.{has_arrived, answer_to, made_learned, after_arrival, with_written};
    ghost use Rattle.ndc_event.specs.declared.name.Name.{Name as Text};
    ghost use Rattle.ndc_shard_workflows.specs.Admitting.{IsAdmitted};
    ghost use Rattle.ndc_shard_workflows.specs.Arriving.{ComesFrom};
    ghost use Rattle.ndc_shard_workflows.specs.Due.{is_listed};
    ghost use Rattle.ndc_shard_workflows.specs.Lacking.{one_lacks_own};
    ghost use Rattle.ndc_shard_workflows.specs.Listed.{IsListedBefore};
    ghost use Rattle.ndc_shard_workflows.specs.Named.{under, IsPut, StayUnder};
    ghost use Rattle.ndc_shard_workflows.specs.declared.admission.AdmitError.TheVariants.{Memory};
    ghost use Rattle.ndc_shard_workflows.specs.Reading.{learned_in_domain};
    ghost use Rattle.ndc_shard_workflows.specs.Refused.{IsNotWritten};
    ghost use Rattle.ndc_shard_workflows.specs.Workflows.{workflow_or_empty, AreOwn};
    ghost use Rattle.ndc_shard_workflows.specs.Forgetting.{is_put_off, without};
    ghost use Rattle.ndc_shard_workflows.specs.Writing.{IsMadeTogether, MayBeWrittenTogether};

    /// There is no workflow.
    pub(crate) fn new(alloc: Global) -> Domain
        ensures { result ≡ [] }
    {
        Domain {
            workflows: BTreeMap::new(alloc),
        }
    }

    /// The workflow of this name.
    pub(crate) fn get(&self, workflow: &Name) -> Option<&Workflow>
        ensures { option_copied result ≡ under workflow.now self.now }
    {
        self.workflows.get(workflow)
    }

    /// Whether there is none.
    pub(crate) fn is_empty(&self) -> bool
        ensures { result ≡ true → self.now ≡ [] }
    {
        self.workflows.is_empty()
    }

    /// The workflows, in order of name.
    pub(crate) fn list(&self, alloc: Global) -> Result<Vec<&Workflow>, OutOfMemory>
        ensures { IfOk result (λ list. map (λ w. w.now) list.items ≡ values_of self.now) }
    {
        self.workflows.values().collect(alloc)
    }

    /// Adds the workflows of which something is learned to a list, each as the domain of this name and its own, in order.
    pub(crate) fn add_learned(
        &self,
        domain: &Name,
        list: &mut Vec<(Name, Name)>,
    ) -> Result<(), OutOfMemory>
        ensures { OnOk result (list.new.items
            ≡ list.old.items ++ learned_in_domain domain.now self.now) }
    {
        add_learned(domain, &self.workflows, list)
    }

    /// Whether one of the workflows tells of a batch of the cell's own cluster that is not learned ([`Workflow::lacks_own`]).
    pub(crate) fn lacks_own(&self, alloc: Global, terms: &Terms) -> Result<bool, OutOfMemory>
        ensures { IfOk result (λ lacks. lacks ≡ one_lacks_own terms.now self.now) }
    {
        lacks_own_in(alloc, terms, &self.workflows)
    }

    /// Whether reapplication is due in the workflow of this name, as [`Workflow::is_due`] finds it.
    pub(crate) fn is_due(&mut self, alloc: Global, workflow: &Name) -> Result<bool, OutOfMemory>
        ensures due { IfOk result (λ due.
            due ≡ is_due (learned (workflow_or_empty (under workflow.now self.old)).arrived)) }
        ensures same { self.new ≡ self.old }
    {
        if let Some(found) = self.workflows.get_mut(workflow) {
            return found.is_due(alloc);
        }
        Ok(false)
    }

    /// A message of the domain arrives in its workflow. After want of memory the workflow may be anything.
    pub(crate) fn arrive<L>(
        &mut self,
        alloc: Global,
        message: Message,
        steps: &mut Steps<L>,
    ) -> Result<Received, OutOfMemory>
        requires own { AreOwn message.batch.domain self.old }
        requires message { IsMessage message }
        requires second { IfSome message.second (λ b.
            is_of message.batch.domain message.batch.workflow b ≡ true) }
        requires new { has_arrived message.batch.key
            (workflow_or_empty (under message.batch.workflow self.old)) ≡ false
            → IsNewTo (workflow_or_empty (under message.batch.workflow self.old)).arrived message }
        requires sound { IsSound
            (learned (after_arrival message
            (workflow_or_empty (under message.batch.workflow self.old))).arrived) }
        requires ids { AllByRecursion HasSmallIds (both message) }
        ensures outcome { IfOk result (λ received.
            received.arrival.outcome
            ≡ answer_to message (workflow_or_empty (under message.batch.workflow self.old))) }
        ensures learned { IfOk result (λ received.
            received.arrival.learned
            ≡ made_learned message (workflow_or_empty (under message.batch.workflow self.old))) }
        ensures due { IfOk result (λ received.
            received.may_be_due ≡ false
            → is_due (learned (after_arrival message
            (workflow_or_empty (under message.batch.workflow self.old))).arrived) ≡ false) }
        ensures behind { IfOk result (λ received.
            received.is_behind ≡ false
            → (after_arrival message
            (workflow_or_empty (under message.batch.workflow self.old))).waiting ≡ []) }
        ensures ok { OnOk result
            (IsPut message.batch.workflow
            (after_arrival message (workflow_or_empty (under message.batch.workflow self.old)))
            self.old self.new) }
        ensures own { AreOwn message.batch.domain self.new }
    {
        if let Some(workflow) = self.workflows.get_mut(&message.batch.workflow) {
            return receive(workflow, alloc, message, steps);
        }
        let name = message.batch.workflow.try_copy()?;
        let mut workflow = Workflow::new(alloc);
        let received = receive(&mut workflow, alloc, message, steps)?;
        self.workflows.insert(name, workflow)?;
        Ok(received)
    }

    /// A message of the domain that nobody vouches for is handed to its workflow. A workflow of which nothing has
    /// arrived then leaves no trace. For want of memory nothing changes, or nothing is said of the workflow
    /// ([`AdmitError::Spent`]).
    pub(crate) fn admit<L>(
        &mut self,
        alloc: Global,
        terms: &Terms,
        message: Message,
        steps: &mut Steps<L>,
    ) -> Result<Admitted, AdmitError>
        requires own { AreOwn message.batch.domain self.old }
        requires message { IsMessage message }
        requires second { IfSome message.second (λ b.
            is_of message.batch.domain message.batch.workflow b ≡ true) }
        requires ids { AllByRecursion HasSmallIds (both message) }
        ensures admitted { IfOk result (λ it. IsAdmitted terms.now message it.admission
            (workflow_or_empty (under message.batch.workflow self.old)) (workflow_or_empty
            (under message.batch.workflow self.new))) }
        ensures due { IfOk result (λ it.
            it.may_be_due ≡ false → is_due
            (learned (workflow_or_empty (under message.batch.workflow self.new)).arrived) ≡ false) }
        ensures behind { IfOk result (λ it.
            it.is_behind ≡ false → (workflow_or_empty
            (under message.batch.workflow self.new)).waiting ≡ []) }
        ensures comes { OnOk result
            (ComesFrom (learned (workflow_or_empty (under message.batch.workflow self.old)).arrived)
            (learned (workflow_or_empty (under message.batch.workflow self.new)).arrived)) }
        ensures others { StayUnder message.batch.workflow self.old self.new }
        ensures own { AreOwn message.batch.domain self.new }
        ensures memory { result ≡ Err Memory → self.new ≡ self.old }
    {
        if let Some(workflow) = self.workflows.get_mut(&message.batch.workflow) {
            return take(workflow, alloc, terms, message, steps);
        }
        let name = message.batch.workflow.try_copy()?;
        let mut workflow = Workflow::new(alloc);
        let admitted = take(&mut workflow, alloc, terms, message, steps)?;
        if workflow.is_empty() {
            return Ok(admitted);
        }
        self.workflows.insert(name, workflow)?;
        Ok(admitted)
    }

    /// Drops the message of the workflow of this name that has a batch of this key, as [`Workflow::forget`] does.
    pub(crate) fn forget(
        &mut self,
        alloc: Global,
        workflow: &Name,
        key: BatchKey,
    ) -> Result<bool, OutOfMemory>
        ensures dropped { IfOk result (λ dropped.
            dropped ≡ is_put_off key (workflow_or_empty (under workflow.now self.old))) }
        ensures forgotten { OnOk result (workflow_or_empty (under workflow.now self.new)
            ≡ without key (workflow_or_empty (under workflow.now self.old))) }
        ensures others { StayUnder workflow.now self.old self.new }
        ensures own { (domain : Text) → AreOwn domain self.old → AreOwn domain self.new }
        ensures err { OnErr result (self.new ≡ self.old) }
    {
        if let Some(found) = self.workflows.get_mut(workflow) {
            return found.forget(alloc, key);
        }
        Ok(false)
    }

    /// Learns a batch of the domain that is written in this cell, and the one that goes right after it, in a workflow
    /// that is listed before, unless the batch leaves no stray. Where the caller does not vouch for them they are
    /// tried. After an error nothing changes but for what is listed.
    pub(crate) fn write<L>(
        &mut self,
        alloc: Global,
        vouched: bool,
        batch: &Batch,
        second: Option<&Batch>,
        due: &mut DueListing,
        steps: &mut Steps<L>,
    ) -> Result<(), NotWritten>
        requires own { AreOwn batch.now.domain self.old }
        requires may { vouched ≡ true
            → MayBeWrittenTogether (carrying batch.now (option_copied second))
            (workflow_or_empty (under batch.now.workflow self.old)) }
        requires made { IsMadeTogether (carrying batch.now (option_copied second)) }
        ensures ok { OnOk result
            (IsPut batch.now.workflow
            (with_written (carrying batch.now (option_copied second.entry))
            (workflow_or_empty (under batch.now.workflow self.old))) self.old self.new) }
        ensures may { OnOk result
            (MayBeWrittenTogether (carrying batch.now (option_copied second.entry))
            (workflow_or_empty (under batch.now.workflow self.old))) }
        ensures refused { IfErr result (λ cause.
            IsNotWritten cause (carrying batch.now (option_copied second.entry))
            (workflow_or_empty (under batch.now.workflow self.old))) }
        ensures own { AreOwn batch.now.domain self.new }
        ensures err { OnErr result (self.new ≡ self.old) }
        ensures listed { OnOk result
            (IsListedBefore batch.now (option_copied second.entry)
            (learned (workflow_or_empty (under batch.now.workflow self.old)).arrived) due.old
            due.new) }
        ensures kept { (d w : Text) → is_listed d w due.new ≡ false → is_listed d w due.old
            ≡ false }
    {
        if let Some(workflow) = self.workflows.get_mut(&batch.workflow) {
            return write_to(workflow, alloc, vouched, batch, second, due, steps);
        }
        let name = batch.workflow.try_copy()?;
        let mut workflow = Workflow::new(alloc);
        write_to(&mut workflow, alloc, vouched, batch, second, due, steps)?;
        self.workflows.insert(name, workflow)?;
        Ok(())
    }
}
