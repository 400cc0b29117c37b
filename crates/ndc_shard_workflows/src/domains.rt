ghost use Rattle.std.specs.Prelude.{◌≡◌, map, IfOk};
ghost use Rattle.std.specs.List.{list_any};
ghost use Rattle.std.specs.Str.{bytes_eq};
ghost use Rattle.ndc_shard_workflows.specs.Lacking.{some_lack_own};
ghost use Rattle.ndc_shard_workflows.specs.Reading.{learned_in_all, workflows_named};

use crate::admission::{AdmitError, NotWritten, Terms};
use crate::arrival::{Admitted, Received};
use crate::domain::Domain;
use crate::due::DueListing;
use crate::workflow::Workflow;
use ndc_event::{Batch, BatchKey, Name, OutOfMemory};
use ndc_model_cells::Message;
use ndc_state::Steps;
use std::alloc::Global;
use std::collections::BTreeMap;
use std::marker::Model;

/// The domains of a cell with their workflows, by name. Seen as the cell, as which it has written nothing.
pub(crate) struct Domains {
    domains: BTreeMap<Name, Domain>,
}

impl Model for Domains {
    ghost use Rattle.ndc_model_cells.specs.Cells.{Cell};
    ghost use Rattle.ndc_shard_workflows.specs.Workflows.{cell_of, AreDomains};

    ghost Value = { Cell };

    ghost view = { λ cell. cell_of cell.domains.entries };

    ghost invariant = { λ cell. AreDomains cell.domains.entries };
}

impl Drop for Domains {
    fn drop(self) {
        let Domains { domains: _domains } = self;
    }
}

/// The workflows of these domains, in order of domain and then of name.
fn named_in<'d>(
    alloc: Global,
    domains: &'d BTreeMap<Name, Domain>,
    names: &[Name],
) -> Result<Vec<&'d Workflow>, OutOfMemory>
    ensures { IfOk result (λ list.
        map (λ w. w.now) list.items ≡ workflows_named names.now domains.now.entries) }
{
    let mut list = Vec::new(alloc);
    for (name, domain) in domains.iter() {
        if has_name(names, name) {
            let mut more = domain.list(alloc)?;
            list.append(&mut more)?;
        }
    }
    Ok(list)
}

/// The workflows of which something is learned, each as its domain and its name, in order.
fn learned_in(
    alloc: Global,
    domains: &BTreeMap<Name, Domain>,
) -> Result<Vec<(Name, Name)>, OutOfMemory>
    ensures { IfOk result (λ list. list.items ≡ learned_in_all domains.now.entries) }
{
    let mut list = Vec::new(alloc);
    for (name, domain) in domains.iter() {
        domain.add_learned(name, &mut list)?;
    }
    Ok(list)
}

/// Whether a workflow of one of these domains tells of a batch of the cell's own cluster that is not learned, on these terms.
fn lacks_own_in(
    alloc: Global,
    terms: &Terms,
    domains: &BTreeMap<Name, Domain>,
) -> Result<bool, OutOfMemory>
    ensures { IfOk result (λ lacks. lacks ≡ some_lack_own terms.now domains.now.entries) }
{
    for (_, domain) in domains.iter() {
        if domain.lacks_own(alloc, terms)? {
            return Ok(true);
        }
    }
    Ok(false)
}

/// Whether the name is one of these.
fn has_name(names: &[Name], name: &Name) -> bool
    ensures { result ≡ list_any (λ one. bytes_eq one name.now) names.now }
{
    names.iter().any(|one| *one == *name)
}

impl Domains {
    ghost use Rattle.std.specs.Prelude.{◌≡◌, [], true, false, map, Err, IfSome, IfNone, IfOk, IfErr, OnOk, OnErr};
    ghost use Rattle.std.specs.List.{AllByRecursion};
    ghost use Rattle.ndc_model_cells.specs.Cells.{both};
    ghost use Rattle.ndc_model_cells.specs.Messages.{HasSmallIds, IsMessage};
    ghost use Rattle.ndc_model_cells.specs.Places.{is_of};
    ghost use Rattle.ndc_shard_workflows.specs.Forgetting.{is_put_off, IsForgotten};
    ghost use Rattle.ndc_shard_workflows.specs.Admitting.{IsAdmitted};
    ghost use Rattle.ndc_shard_workflows.specs.Arriving.{ComesFrom};
    ghost use Rattle.ndc_shard_workflows.specs.Workflows.{OthersStay};
    ghost use Rattle.ndc_shard_workflows.specs.declared.admission.AdmitError.TheVariants.{Memory};
    ghost use Rattle.std.specs.Option.{option_copied};
    ghost use Rattle.ndc_model_cells.specs.Arrival.{arrival_of, arrived_at, learned_by};
    ghost use Rattle.ndc_model_cells.specs.Cells.{empty_cell, learned_of, IsCell};
    ghost use Rattle.ndc_model_cells.specs.Writing.{with_batches};
    ghost use Rattle.ndc_event.specs.declared.name.Name.{Name as Text};
    ghost use Rattle.ndc_shard_runs.specs.Kept.{is_due};
    ghost use Rattle.ndc_model_sets.specs.Sound.{IsSound};
    ghost use Rattle.ndc_model_cells.specs.Allowed.{MayArrive};
    ghost use Rattle.ndc_model_cells.specs.Messages.{carrying};
    ghost use Rattle.ndc_shard_workflows.specs.Workflow.{empty_workflow, IsWorkflow};
    ghost use Rattle.ndc_model_cells.specs.Workflow.{workflow_of};
    ghost use Rattle.ndc_shard_workflows.specs.Lacking.{LacksNoOwn, LacksOwn};
    ghost use Rattle.ndc_shard_workflows.specs.Reading.{HoldLearned, learned_workflows};
    ghost use Rattle.ndc_shard_workflows.specs.Due.{is_listed};
    ghost use Rattle.ndc_shard_workflows.specs.Listed.{IsListedBefore};
    ghost use Rattle.ndc_shard_workflows.specs.Writing.{IsMadeTogether, MayBeWrittenTogether};
    ghost use Rattle.ndc_shard_workflows.specs.Refused.{IsNotWritten};

    /// Nothing has arrived.
    pub(crate) fn new(alloc: Global) -> Domains
        ensures { result ≡ empty_cell }
    {
        Domains {
            domains: BTreeMap::new(alloc),
        }
    }

    /// The workflow of these names. There is none only where nothing of it has arrived. In the logarithm of the domains and
    /// of the domain's workflows. What is learned of it is sound, and the cell is in order.
    pub(crate) fn find(&self, domain: &Name, workflow: &Name) -> Option<&Workflow>
        ensures found { IfSome result (λ found.
            found.now ≡ workflow_of domain.now workflow.now self.now) }
        ensures none { IfNone result
            (workflow_of domain.now workflow.now self.now ≡ empty_workflow) }
        ensures workflow { IsWorkflow (workflow_of domain.now workflow.now self.now) }
        ensures sound { IsSound (learned_of domain.now workflow.now self.now) }
        ensures cell { IsCell self.now }
    {
        self.domains.get(domain)?.get(workflow)
    }

    /// Whether reapplication is due in the workflow of these names, as [`Workflow::is_due`] finds it.
    pub(crate) fn is_due(
        &mut self,
        alloc: Global,
        domain: &Name,
        workflow: &Name,
    ) -> Result<bool, OutOfMemory>
        ensures due { IfOk result (λ due.
            due ≡ is_due (learned_of domain.now workflow.now self.old)) }
        ensures same { self.new ≡ self.old }
    {
        if let Some(found) = self.domains.get_mut(domain) {
            return found.is_due(alloc, workflow);
        }
        Ok(false)
    }

    /// The workflows of these domains, in order of domain and then of name. They hold, in order, all that is learned of
    /// these domains.
    pub(crate) fn of_domains(
        &self,
        alloc: Global,
        names: &[Name],
    ) -> Result<Vec<&Workflow>, OutOfMemory>
        ensures { IfOk result (λ list.
            HoldLearned names.now (map (λ w. w.now) list.items) self.now) }
    {
        named_in(alloc, &self.domains, names)
    }

    /// The workflows of which something is learned, each as its domain and its name, in order. In time of the workflows of
    /// the cell.
    pub(crate) fn learned(&self, alloc: Global) -> Result<Vec<(Name, Name)>, OutOfMemory>
        ensures { IfOk result (λ list. list.items ≡ learned_workflows self.now) }
    {
        learned_in(alloc, &self.domains)
    }

    /// Whether a workflow tells of a batch of the cell's own cluster that is not learned ([`Workflow::lacks_own`]).
    pub(crate) fn lacks_own(&self, alloc: Global, terms: &Terms) -> Result<bool, OutOfMemory>
        ensures some { IfOk result (λ lacks. lacks ≡ true → LacksOwn terms.now self.now) }
        ensures none { IfOk result (λ lacks. lacks ≡ false → LacksNoOwn terms.now self.now) }
    {
        lacks_own_in(alloc, terms, &self.domains)
    }

    /// The cell is in order, and so is each workflow of it, of which what is learned is sound.
    pub(crate) fn is_in_order(&self)
        ensures cell { IsCell self.now }
        ensures workflows { (domain workflow : Text)
            → IsWorkflow (workflow_of domain workflow self.now) }
        ensures sound { (domain workflow : Text) → IsSound (learned_of domain workflow self.now) }
    {
        let _domains = &self.domains;
    }

    /// A message arrives in its workflow. After want of memory nothing is said of what has arrived.
    pub(crate) fn arrive<L>(
        &mut self,
        alloc: Global,
        message: Message,
        steps: &mut Steps<L>,
    ) -> Result<Received, OutOfMemory>
        requires { MayArrive message self.old }
        ensures outcome { IfOk result (λ received.
            received.arrival.outcome ≡ arrival_of message self.old) }
        ensures learned { IfOk result (λ received.
            received.arrival.learned ≡ learned_by message self.old) }
        ensures due { IfOk result (λ received.
            received.may_be_due ≡ false
            → is_due (learned_of message.batch.domain message.batch.workflow
            (arrived_at message self.old)) ≡ false) }
        ensures behind { IfOk result (λ received.
            received.is_behind ≡ false
            → (workflow_of message.batch.domain message.batch.workflow
            (arrived_at message self.old)).waiting ≡ []) }
        ensures cell { OnOk result (self.new ≡ arrived_at message self.old) }
    {
        if let Some(domain) = self.domains.get_mut(&message.batch.domain) {
            return domain.arrive(alloc, message, steps);
        }
        let name = message.batch.domain.try_copy()?;
        let mut domain = Domain::new(alloc);
        let received = domain.arrive(alloc, message, steps)?;
        self.domains.insert(name, domain)?;
        Ok(received)
    }

    /// A message that nobody vouches for is handed to its workflow. A workflow or a domain of which nothing has arrived
    /// then leaves no trace. For want of memory nothing changes, or nothing is said of what has arrived
    /// ([`AdmitError::Spent`]).
    pub(crate) fn admit<L>(
        &mut self,
        alloc: Global,
        terms: &Terms,
        message: Message,
        steps: &mut Steps<L>,
    ) -> Result<Admitted, AdmitError>
        requires message { IsMessage message }
        requires second { IfSome message.second (λ b.
            is_of message.batch.domain message.batch.workflow b ≡ true) }
        requires ids { AllByRecursion HasSmallIds (both message) }
        ensures admitted { IfOk result (λ it. IsAdmitted terms.now message it.admission
            (workflow_of message.batch.domain message.batch.workflow self.old) (workflow_of
            message.batch.domain message.batch.workflow self.new)) }
        ensures due { IfOk result (λ it.
            it.may_be_due ≡ false → is_due
            (learned_of message.batch.domain message.batch.workflow self.new) ≡ false) }
        ensures behind { IfOk result (λ it.
            it.is_behind ≡ false → (workflow_of message.batch.domain message.batch.workflow
            self.new).waiting ≡ []) }
        ensures comes { OnOk result
            (ComesFrom (learned_of message.batch.domain message.batch.workflow self.old)
            (learned_of message.batch.domain message.batch.workflow self.new)) }
        ensures others { OthersStay message.batch self.old self.new }
        ensures memory { result ≡ Err Memory → self.new ≡ self.old }
    {
        if let Some(domain) = self.domains.get_mut(&message.batch.domain) {
            return domain.admit(alloc, terms, message, steps);
        }
        let name = message.batch.domain.try_copy()?;
        let mut domain = Domain::new(alloc);
        let admitted = domain.admit(alloc, terms, message, steps)?;
        if domain.is_empty() {
            return Ok(admitted);
        }
        self.domains.insert(name, domain)?;
        Ok(admitted)
    }

    /// Drops the message of a workflow that has a batch of this key, as [`Workflow::forget`] does; all other workflows stay as
    /// they are.
    pub(crate) fn forget(
        &mut self,
        alloc: Global,
        domain: &Name,
        workflow: &Name,
        key: BatchKey,
    ) -> Result<bool, OutOfMemory>
        ensures dropped { IfOk result (λ dropped.
            dropped ≡ is_put_off key (workflow_of domain.now workflow.now self.old)) }
        ensures ok { OnOk result (IsForgotten domain.now workflow.now key self.old self.new) }
        ensures err { OnErr result (self.new ≡ self.old) }
    {
        if let Some(found) = self.domains.get_mut(domain) {
            return found.forget(alloc, workflow, key);
        }
        Ok(false)
    }

    /// Learns a batch that is written in this cell, and the one that goes right after it, in their workflow, which is
    /// listed before, unless the batch leaves no stray. Where the caller does not vouch for them they are tried. After
    /// an error nothing changes but for what is listed.
    pub(crate) fn write<L>(
        &mut self,
        alloc: Global,
        vouched: bool,
        batch: &Batch,
        second: Option<&Batch>,
        due: &mut DueListing,
        steps: &mut Steps<L>,
    ) -> Result<(), NotWritten>
        requires may { vouched ≡ true
            → MayBeWrittenTogether (carrying batch.now (option_copied second))
            (workflow_of batch.now.domain batch.now.workflow self.old) }
        requires made { IsMadeTogether (carrying batch.now (option_copied second)) }
        ensures ok { OnOk result
            (self.new ≡ with_batches
            (record { batch = batch.now; second = option_copied second.entry }) self.old) }
        ensures may { OnOk result
            (MayBeWrittenTogether (carrying batch.now (option_copied second.entry))
            (workflow_of batch.now.domain batch.now.workflow self.old)) }
        ensures refused { IfErr result (λ cause.
            IsNotWritten cause (carrying batch.now (option_copied second.entry))
            (workflow_of batch.now.domain batch.now.workflow self.old)) }
        ensures err { OnErr result (self.new ≡ self.old) }
        ensures listed { OnOk result
            (IsListedBefore batch.now (option_copied second.entry)
            (learned_of batch.now.domain batch.now.workflow self.old) due.old due.new) }
        ensures kept { (d w : Text) → is_listed d w due.new ≡ false → is_listed d w due.old
            ≡ false }
    {
        if let Some(domain) = self.domains.get_mut(&batch.domain) {
            return domain.write(alloc, vouched, batch, second, due, steps);
        }
        let name = batch.domain.try_copy()?;
        let mut domain = Domain::new(alloc);
        match domain.write(alloc, vouched, batch, second, due, steps) {
            Ok(()) => {}
            Err(cause) => return Err(cause),
        }
        self.domains.insert(name, domain)?;
        Ok(())
    }
}
