ghost use Rattle.std.specs.Prelude.{◌≡◌, ◌+◌, ◌≤◌, [], length, map, true, false, None, Err, IfOk, IfSome, OnOk, OnErr};
ghost use Rattle.std.specs.List.{filter_map};
ghost use Rattle.std.specs.Option.{option_copied, option_map};
ghost use Rattle.ndc_model_cells.specs.Arrival.{arrival_of, arrived_at, learned_by};
ghost use Rattle.ndc_model_cells.specs.Cells.{learned_of, IsCell};
ghost use Rattle.ndc_model_cells.specs.Places.{place_of};
ghost use Rattle.ndc_shard_runs.specs.Kept.{is_due};
ghost use Rattle.ndc_model_cells.specs.Allowed.{MayArrive};
ghost use Rattle.ndc_shard_workflows.specs.Workflow.{off_in, IsWorkflow};
ghost use Rattle.ndc_model_cells.specs.Workflow.{workflow_of};
ghost use Rattle.ndc_shard_workflows.specs.Behind.{HoldBehind, first_behind, first_batch};
ghost use Rattle.ndc_shard_workflows.specs.Due.{HoldDue};
ghost use Rattle.ndc_shard_workflows.specs.Forgetting.{is_put_off, IsForgotten};
ghost use Rattle.ndc_shard_workflows.specs.Listed.{IsListedWhereBehind, IsListedWhereDue};
ghost use Rattle.ndc_shard_workflows.specs.Workflows.{IsHandedTo};
ghost use Rattle.ndc_shard_workflows.specs.declared.admission.AdmitError.TheVariants.{Memory};
ghost use Rattle.std.specs.List.{AllByRecursion};
ghost use Rattle.ndc_model_cells.specs.Cells.{both};
ghost use Rattle.ndc_model_cells.specs.Messages.{HasSmallIds, IsMessage};
ghost use Rattle.ndc_model_cells.specs.Places.{is_of};

use crate::admission::{Admission, AdmitError, CellTerms, NotAdmitted, NotWritten, Terms};
use crate::arrival::{Admitted, Arrival, Received};
use crate::domains::Domains;
use crate::due::DueListing;
use crate::listing::Listing;
use crate::workflow::Workflow;
use ndc_admission::first_fault;
use ndc_event::{Batch, BatchKey, Name, OutOfMemory};
use ndc_model_cells::{Message, Place};
use ndc_state::Steps;
use std::alloc::{AllocError, Global};
use std::marker::Model;

/// All workflows of a cell, found by domain and then by workflow, which of them reapplication may be due in, and which of
/// them something is put off of. Seen as the cell, as which it has written nothing: what has arrived, and what waits, both
/// in order of place.
pub struct Workflows {
    domains: Domains,
    due: DueListing,
    behind: Listing,
    /// How many messages wait in all.
    waiting: u64,
}

impl Model for Workflows {
    ghost use Rattle.std.specs.Prelude.{◌≡◌, length};
    ghost use Rattle.ndc_model_cells.specs.Cells.{Cell};
    ghost use Rattle.ndc_shard_workflows.specs.Behind.{HoldBehind};
    ghost use Rattle.ndc_shard_workflows.specs.Due.{HoldDue};

    ghost Value = { Cell };

    ghost view = { λ workflows. workflows.domains };

    ghost invariant = { λ workflows.
        HoldDue workflows.due workflows.domains × HoldBehind workflows.behind workflows.domains
        × (workflows.waiting ≡ length workflows.domains.waiting) };
}

impl Drop for Workflows {
    fn drop(self) {
        let Workflows {
            domains: _domains,
            due: _due,
            behind: _behind,
            waiting: _waiting,
        } = self;
    }
}

impl Workflows {
    ghost use Rattle.std.specs.Prelude.{◌≡◌, [], length, map, true, false, Err, IsTrue, IfSome, IfNone, IfOk, IfErr, OnOk, OnErr};
    ghost use Rattle.std.specs.List.{AllByRecursion};
    ghost use Rattle.ndc_model_cells.specs.Cells.{both};
    ghost use Rattle.ndc_model_cells.specs.Messages.{HasSmallIds, IsMessage};
    ghost use Rattle.ndc_model_cells.specs.Places.{is_of};
    ghost use Rattle.ndc_shard_workflows.specs.Forgetting.{is_put_off, IsForgotten};
    ghost use Rattle.ndc_shard_workflows.specs.Terms.{terms_in};
    ghost use Rattle.ndc_shard_workflows.specs.Workflows.{IsAdmittedTo};
    ghost use Rattle.ndc_shard_workflows.specs.declared.admission.AdmitError.TheVariants.{Memory, Spent};
    ghost use Rattle.std.specs.Option.{option_copied};
    ghost use Rattle.ndc_model_cells.specs.Arrival.{arrival_of, arrived_at, learned_by};
    ghost use Rattle.ndc_event.specs.declared.name.Name.{Name as Text};
    ghost use Rattle.ndc_model_cells.specs.Cells.{empty_cell, learned_of, put_off_in, IsCell};
    ghost use Rattle.ndc_model_cells.specs.Jobs.{workflows_of};
    ghost use Rattle.ndc_model_cells.specs.Places.{place_of};
    ghost use Rattle.ndc_model_cells.specs.Writing.{with_batches};
    ghost use Rattle.ndc_shard_runs.specs.Kept.{is_due};
    ghost use Rattle.ndc_model_sets.specs.Sound.{IsSound};
    ghost use Rattle.ndc_model_cells.specs.Allowed.{MayArrive};
    ghost use Rattle.ndc_model_cells.specs.Messages.{carrying};
    ghost use Rattle.ndc_shard_workflows.specs.Workflow.{empty_workflow, IsWorkflow};
    ghost use Rattle.ndc_model_cells.specs.Workflow.{workflow_of};
    ghost use Rattle.ndc_shard_workflows.specs.Due.{AreDue, AreDueDomains, AreDueIn};
    ghost use Rattle.ndc_shard_workflows.specs.Lacking.{LacksNoOwn, LacksOwn};
    ghost use Rattle.ndc_shard_workflows.specs.Reading.{HoldLearned, learned_workflows};
    ghost use Rattle.ndc_shard_workflows.specs.Writing.{IsMadeTogether, MayBeWrittenTogether};
    ghost use Rattle.ndc_shard_workflows.specs.Refused.{IsNotWritten};

    /// Nothing has arrived.
    pub fn new(alloc: Global) -> Workflows
        ensures { result ≡ empty_cell }
    {
        Workflows {
            domains: Domains::new(alloc),
            due: DueListing::new(alloc),
            behind: Listing::new(alloc),
            waiting: 0,
        }
    }

    /// The cell is in order, and so is each workflow of it, of which what is learned is sound. Takes no time.
    pub fn is_in_order(&self)
        ensures cell { IsCell self.now }
        ensures workflows { (domain workflow : Text)
            → IsWorkflow (workflow_of domain workflow self.now) }
        ensures sound { (domain workflow : Text) → IsSound (learned_of domain workflow self.now) }
    {
        self.domains.is_in_order();
    }

    /// The workflow of these names. There is none only where nothing of it has arrived. In the logarithm of the domains and
    /// of the domain's workflows. What is learned of it is sound, and the cell is in order.
    pub fn find(&self, domain: &Name, workflow: &Name) -> Option<&Workflow>
        ensures found { IfSome result (λ found.
            found.now ≡ workflow_of domain.now workflow.now self.now) }
        ensures none { IfNone result
            (workflow_of domain.now workflow.now self.now ≡ empty_workflow) }
        ensures workflow { IsWorkflow (workflow_of domain.now workflow.now self.now) }
        ensures sound { IsSound (learned_of domain.now workflow.now self.now) }
        ensures cell { IsCell self.now }
    {
        self.domains.find(domain, workflow)
    }

    /// A message arrives in its workflow. After want of memory nothing has arrived any more.
    pub fn arrive<L>(
        &mut self,
        alloc: Global,
        message: Message,
        steps: &mut Steps<L>,
    ) -> Result<Arrival, OutOfMemory>
        requires { MayArrive message self.old }
        ensures outcome { IfOk result (λ arrival. arrival.outcome ≡ arrival_of message self.old) }
        ensures learned { IfOk result (λ arrival. arrival.learned ≡ learned_by message self.old) }
        ensures cell { OnOk result (self.new ≡ arrived_at message self.old) }
        ensures err { OnErr result (self.new ≡ empty_cell) }
    {
        match arrive_in(
            &mut self.domains,
            &mut self.due,
            &mut self.behind,
            &mut self.waiting,
            alloc,
            message,
            steps,
        ) {
            Ok(arrival) => Ok(arrival),
            Err(error) => {
                self.domains = Domains::new(alloc);
                self.due = DueListing::new(alloc);
                self.behind = Listing::new(alloc);
                self.waiting = 0;
                Err(error)
            }
        }
    }

    /// A message that nobody vouches for is handed to its workflow on these terms ([`Workflow::admit`]); all other
    /// workflows stay as they are. Refused first where it is not one that cells of these clusters send, whatever is
    /// learned ([`NotAdmitted::Fault`]). For want of memory nothing changes ([`AdmitError::Memory`]), or, where it is
    /// learned, nothing has arrived any more ([`AdmitError::Spent`]). Of the message nothing is asked.
    pub fn admit<L>(
        &mut self,
        alloc: Global,
        terms: &CellTerms,
        message: Message,
        steps: &mut Steps<L>,
    ) -> Result<Admission, AdmitError>
        ensures admitted { IfOk result (λ admission.
            IsAdmittedTo (terms_in terms.now self.old) message admission self.old self.new) }
        ensures memory { result ≡ Err Memory → self.new ≡ self.old }
        ensures spent { result ≡ Err Spent → self.new ≡ empty_cell }
    {
        if let Some(fault) = first_fault(&message, terms.clusters) {
            return Ok(Admission::Refused {
                cause: NotAdmitted::Fault(fault),
            });
        }
        let terms = terms.where_wait(self.waiting);
        match admit_in(
            &mut self.domains,
            &mut self.due,
            &mut self.behind,
            &mut self.waiting,
            alloc,
            &terms,
            message,
            steps,
        ) {
            Ok(admission) => Ok(admission),
            Err(AdmitError::Memory) => Err(AdmitError::Memory),
            Err(AdmitError::Spent) => {
                self.domains = Domains::new(alloc);
                self.due = DueListing::new(alloc);
                self.behind = Listing::new(alloc);
                self.waiting = 0;
                Err(AdmitError::Spent)
            }
        }
    }

    /// Drops the message of a workflow that has a batch of this key, its own or the one that it carries, where it is put off:
    /// whether there was one. What waits for it waits on, what is learned stays, and all other workflows stay as they are. In
    /// time of what is put off of the workflow. For want of memory nothing changes.
    pub fn forget(
        &mut self,
        alloc: Global,
        domain: &Name,
        workflow: &Name,
        key: BatchKey,
    ) -> Result<bool, OutOfMemory>
        ensures dropped { IfOk result (λ dropped.
            dropped ≡ is_put_off key (workflow_of domain.now workflow.now self.old)) }
        ensures ok { OnOk result (IsForgotten domain.now workflow.now key self.old self.new) }
        ensures err { OnErr result (self.new ≡ self.old) }
    {
        self.domains.is_in_order();
        forget_in(
            &mut self.domains,
            &mut self.waiting,
            alloc,
            domain,
            workflow,
            key,
        )
    }

    /// How many messages wait, in all workflows together. In constant time.
    pub fn waiting_count(&self) -> u64
        ensures { result ≡ length self.now.waiting }
    {
        self.waiting
    }

    /// Learns a batch that is written in this cell, and the one that goes right after it, which it carries or not, in
    /// their workflow. For want of memory nothing changes.
    pub fn write<L>(
        &mut self,
        alloc: Global,
        batch: &Batch,
        second: Option<&Batch>,
        steps: &mut Steps<L>,
    ) -> Result<(), OutOfMemory>
        requires { MayBeWrittenTogether (carrying batch.now (option_copied second))
            (workflow_of batch.now.domain batch.now.workflow self.old) }
        ensures ok { OnOk result
            (self.new ≡ with_batches
            (record { batch = batch.now; second = option_copied second.entry }) self.old) }
        ensures err { OnErr result (self.new ≡ self.old) }
    {
        self.domains.is_in_order();
        match self
            .domains
            .write(alloc, true, batch, second, &mut self.due, steps)
        {
            Ok(()) => Ok(()),
            Err(_) => Err(AllocError),
        }
    }

    /// Learns a batch that would be written in this cell, and the one that goes right after it, which it carries or not, if
    /// nothing stands under their keys, nothing waits for them, and they fit what is learned ([`Workflow::try_write`]). After an
    /// error nothing changes.
    pub fn try_write<L>(
        &mut self,
        alloc: Global,
        batch: &Batch,
        second: Option<&Batch>,
        steps: &mut Steps<L>,
    ) -> Result<(), NotWritten>
        requires { IsMadeTogether (carrying batch.now (option_copied second)) }
        ensures ok { OnOk result
            (self.new ≡ with_batches
            (record { batch = batch.now; second = option_copied second.entry }) self.old) }
        ensures may { OnOk result
            (MayBeWrittenTogether (carrying batch.now (option_copied second.entry))
            (workflow_of batch.now.domain batch.now.workflow self.old)) }
        ensures refused { IfErr result (λ cause.
            IsNotWritten cause (carrying batch.now (option_copied second.entry))
            (workflow_of batch.now.domain batch.now.workflow self.old)) }
        ensures err { OnErr result (self.new ≡ self.old) }
    {
        self.domains.is_in_order();
        self.domains
            .write(alloc, false, batch, second, &mut self.due, steps)
    }

    /// The workflows of these domains, in order of domain and then of name. They hold, in order, all that is learned of
    /// these domains, and each has of its workflow all that has arrived. In time of the domains of the cell and the workflows
    /// of these.
    pub fn of_domains(&self, alloc: Global, domains: &[Name]) -> Result<Vec<&Workflow>, OutOfMemory>
        ensures { IfOk result (λ list.
            HoldLearned domains.now (map (λ w. w.now) list.items) self.now) }
    {
        self.domains.of_domains(alloc, domains)
    }

    /// The workflows of which something is learned, each as its domain and its name, in order. In time of the workflows of
    /// the cell.
    pub fn learned(&self, alloc: Global) -> Result<Vec<(Name, Name)>, OutOfMemory>
        ensures { IfOk result (λ list. list.items ≡ learned_workflows self.now) }
    {
        self.domains.learned(alloc)
    }

    /// Whether a workflow of the cell tells of a batch of its own cluster that is not learned, on these terms
    /// ([`Workflow::lacks_own`]). In time of all events that have arrived.
    pub fn lacks_own(&self, alloc: Global, terms: &Terms) -> Result<bool, OutOfMemory>
        ensures some { IfOk result (λ lacks. lacks ≡ true → LacksOwn terms.now self.now) }
        ensures none { IfOk result (λ lacks. lacks ≡ false → LacksNoOwn terms.now self.now) }
    {
        self.domains.lacks_own(alloc, terms)
    }

    /// Of each workflow of which something is put off the place of the first batch that is, in order of place. In time of
    /// what is put off, however many other workflows there are.
    pub fn behind(&self, alloc: Global) -> Result<Vec<Place>, OutOfMemory>
        ensures cell { IsCell self.now }
        ensures list { IfOk result (λ list.
            list.items ≡ map place_of (workflows_of (put_off_in self.now))) }
    {
        self.domains.is_in_order();
        let list = self.behind.list(alloc)?;
        let places = first_places(&self.domains, alloc, list)?;
        Ok(places)
    }

    /// The domains that have workflows in which reapplication may be due, in order. In time of these domains, however many
    /// workflows they have.
    pub fn due_domains(&self, alloc: Global) -> Result<Vec<Name>, OutOfMemory>
        ensures { IfOk result (λ domains. AreDueDomains domains.items self.now) }
    {
        self.due.domains(alloc)
    }

    /// The workflows of a domain in which reapplication may be due, each as its domain and its name, in order. A workflow is
    /// among them from when something is learned of it that may leave strays until [`Workflows::is_due`] finds that nothing
    /// is due.
    pub fn due_in(&self, alloc: Global, domain: &Name) -> Result<Vec<(Name, Name)>, OutOfMemory>
        ensures { IfOk result (λ list. AreDueIn domain.now list.items self.now) }
    {
        self.due.of_domain(alloc, domain)
    }

    /// Whether [`Workflows::due_domains`] has no domain. Takes no memory.
    pub fn has_none_due(&self) -> bool
        ensures none { IsTrue result → AreDue [] self.now }
        ensures cell { IsCell self.now }
    {
        self.domains.is_in_order();
        self.due.is_empty()
    }

    /// Whether reapplication is due in a workflow: there are strays, and the current run is open. Then the strays are known
    /// to its [`Runs`]. Where it is not due, [`Workflows::due_in`] has the workflow no more. In time of all learned events of
    /// the workflow where the strays are not known, else of some look-ups.
    pub fn is_due(
        &mut self,
        alloc: Global,
        domain: &Name,
        workflow: &Name,
    ) -> Result<bool, OutOfMemory>
        ensures due { IfOk result (λ due.
            due ≡ is_due (learned_of domain.now workflow.now self.old)) }
        ensures same { self.new ≡ self.old }
    {
        let is_due = self.domains.is_due(alloc, domain, workflow)?;
        if !is_due {
            self.due.take(domain, workflow)?;
        }
        Ok(is_due)
    }
}

/// A message arrives in its workflow, which is listed where reapplication may be due in it then, and where something is put
/// off of it.
fn arrive_in<L>(
    domains: &mut Domains,
    due: &mut DueListing,
    behind: &mut Listing,
    waiting: &mut u64,
    alloc: Global,
    message: Message,
    steps: &mut Steps<L>,
) -> Result<Arrival, OutOfMemory>
    requires may { MayArrive message domains.old }
    requires counted { waiting.old ≡ length domains.old.waiting }
    requires hold { HoldDue due.old domains.old }
    requires behind { HoldBehind behind.old domains.old }
    ensures outcome { IfOk result (λ arrival. arrival.outcome ≡ arrival_of message domains.old) }
    ensures learned { IfOk result (λ arrival. arrival.learned ≡ learned_by message domains.old) }
    ensures cell { OnOk result (domains.new ≡ arrived_at message domains.old) }
    ensures hold { OnOk result (HoldDue due.new domains.new) }
    ensures behind { OnOk result (HoldBehind behind.new domains.new) }
    ensures counted { OnOk result (waiting.new ≡ length domains.new.waiting) }
{
    domains.is_in_order();
    let domain = message.batch.domain.try_copy()?;
    let workflow = message.batch.workflow.try_copy()?;
    let waited = waited_in(domains, *waiting, &domain, &workflow);
    let received = domains.arrive(alloc, message, steps)?;
    count_again(
        domains,
        waiting,
        waited,
        received.is_behind,
        &domain,
        &workflow,
    )?;
    list_in(
        due,
        behind,
        received.may_be_due,
        received.is_behind,
        &domain,
        &workflow,
    )?;
    let Received { arrival, .. } = received;
    Ok(arrival)
}

/// A message that nobody vouches for is handed to its workflow, which is listed where reapplication may be due in it,
/// and where something is put off of it. For want of memory nothing changes, or nothing is said.
fn admit_in<L>(
    domains: &mut Domains,
    due: &mut DueListing,
    behind: &mut Listing,
    waiting: &mut u64,
    alloc: Global,
    terms: &Terms,
    message: Message,
    steps: &mut Steps<L>,
) -> Result<Admission, AdmitError>
    requires counted { waiting.old ≡ length domains.old.waiting }
    requires hold { HoldDue due.old domains.old }
    requires waiting { HoldBehind behind.old domains.old }
    requires message { IsMessage message }
    requires second { IfSome message.second (λ b.
        is_of message.batch.domain message.batch.workflow b ≡ true) }
    requires ids { AllByRecursion HasSmallIds (both message) }
    ensures handed { IfOk result (λ admission.
        IsHandedTo terms.now message admission domains.old domains.new) }
    ensures hold { OnOk result (HoldDue due.new domains.new) }
    ensures waiting { OnOk result (HoldBehind behind.new domains.new) }
    ensures domains_kept { result ≡ Err Memory → domains.new ≡ domains.old }
    ensures due_kept { result ≡ Err Memory → due.new ≡ due.old }
    ensures behind_kept { result ≡ Err Memory → behind.new ≡ behind.old }
    ensures counted { OnOk result (waiting.new ≡ length domains.new.waiting) }
    ensures waiting_kept { result ≡ Err Memory → waiting.new ≡ waiting.old }
{
    let domain = message.batch.domain.try_copy()?;
    let workflow = message.batch.workflow.try_copy()?;
    let waited = waited_in(domains, *waiting, &domain, &workflow);
    match domains.admit(alloc, terms, message, steps) {
        Ok(admitted) => {
            let Admitted {
                admission,
                may_be_due,
                is_behind,
            } = admitted;
            match count_again(domains, waiting, waited, is_behind, &domain, &workflow) {
                Ok(()) => {}
                Err(_) => return Err(AdmitError::Spent),
            }
            match list_in(due, behind, may_be_due, is_behind, &domain, &workflow) {
                Ok(()) => Ok(admission),
                Err(_) => Err(AdmitError::Spent),
            }
        }
        Err(error) => Err(error),
    }
}

/// Drops the message of a workflow that has a batch of this key, and counts again. For want of memory nothing changes.
fn forget_in(
    domains: &mut Domains,
    waiting: &mut u64,
    alloc: Global,
    domain: &Name,
    workflow: &Name,
    key: BatchKey,
) -> Result<bool, OutOfMemory>
    requires counted { waiting.old ≡ length domains.old.waiting }
    ensures dropped { IfOk result (λ dropped.
        dropped ≡ is_put_off key (workflow_of domain.now workflow.now domains.old)) }
    ensures ok { OnOk result (IsForgotten domain.now workflow.now key domains.old domains.new) }
    ensures err { OnErr result (domains.new ≡ domains.old) }
    ensures counted { waiting.new ≡ length domains.new.waiting }
{
    let waited = waited_in(domains, *waiting, domain, workflow);
    let dropped = domains.forget(alloc, domain, workflow, key)?;
    let waits = count_in(domains, domain, workflow);
    *waiting = lowered(*waiting, waited, waits);
    Ok(dropped)
}

/// How many messages wait in a workflow.
fn count_in(domains: &Domains, domain: &Name, workflow: &Name) -> u64
    ensures { result ≡ length (workflow_of domain.now workflow.now domains.now).waiting }
{
    match domains.find(domain, workflow) {
        Some(found) => found.put_off().len() as u64,
        None => 0,
    }
}

/// The same where so many wait in all.
#[tactic(auto, using(crate::proofs::RecountLemmas::own_few))]
fn waited_in(domains: &Domains, all: u64, domain: &Name, workflow: &Name) -> u64
    requires { all ≡ length domains.now.waiting }
    ensures own { result ≡ length (workflow_of domain.now workflow.now domains.now).waiting }
    ensures few { result ≤ all }
{
    if all == 0 {
        return 0;
    }
    count_in(domains, domain, workflow)
}

/// The same where none waits unless the workflow is told to be behind.
fn waits_in(domains: &Domains, is_behind: bool, domain: &Name, workflow: &Name) -> u64
    requires { is_behind ≡ false
        → (workflow_of domain.now workflow.now domains.now).waiting ≡ [] }
    ensures { result ≡ length (workflow_of domain.now workflow.now domains.now).waiting }
{
    if !is_behind {
        return 0;
    }
    count_in(domains, domain, workflow)
}

/// Counts all messages that wait, of which so many waited in a workflow.
fn count_again(
    domains: &Domains,
    waiting: &mut u64,
    waited: u64,
    is_behind: bool,
    domain: &Name,
    workflow: &Name,
) -> Result<(), OutOfMemory>
    requires few { waited ≤ waiting.old }
    requires behind { is_behind ≡ false
        → (workflow_of domain.now workflow.now domains.now).waiting ≡ [] }
    ensures { OnOk result
        (waiting.new + waited
        ≡ waiting.old + length (workflow_of domain.now workflow.now domains.now).waiting) }
{
    let waits = waits_in(domains, is_behind, domain, workflow);
    *waiting = recounted(*waiting, waited, waits)?;
    Ok(())
}

/// The number of all messages that wait, where so many wait in a workflow in which so many did. There is none where it would
/// not be a number of 64 bits.
fn recounted(all: u64, waited: u64, waits: u64) -> Result<u64, OutOfMemory>
    requires { waited ≤ all }
    ensures { IfOk result (λ count. count + waited ≡ all + waits) }
{
    match (all - waited).checked_add(waits) {
        Some(count) => Ok(count),
        None => Err(AllocError),
    }
}

/// The same where no more wait than did.
fn lowered(all: u64, waited: u64, waits: u64) -> u64
    requires few { waited ≤ all }
    requires fewer { waits ≤ waited }
    ensures { result + waited ≡ all + waits }
{
    all - (waited - waits)
}

/// Lists a workflow in both lists, where it belongs there.
fn list_in(
    due: &mut DueListing,
    behind: &mut Listing,
    may_be_due: bool,
    is_behind: bool,
    domain: &Name,
    workflow: &Name,
) -> Result<(), OutOfMemory>
    ensures due { OnOk result
        (IsListedWhereDue domain.now workflow.now may_be_due due.old due.new) }
    ensures behind { OnOk result
        (IsListedWhereBehind domain.now workflow.now is_behind behind.old behind.new) }
{
    list_where_due(may_be_due, due, domain, workflow)?;
    list_where_behind(is_behind, behind, domain, workflow)
}

/// Lists a workflow where reapplication may be due in it.
fn list_where_due(
    may_be_due: bool,
    due: &mut DueListing,
    domain: &Name,
    workflow: &Name,
) -> Result<(), OutOfMemory>
    ensures { OnOk result (IsListedWhereDue domain.now workflow.now may_be_due due.old due.new) }
{
    if !may_be_due {
        return Ok(());
    }
    due.put(domain, workflow)
}

/// Lists a workflow where something is put off of it; else it is listed no more.
fn list_where_behind(
    is_behind: bool,
    behind: &mut Listing,
    domain: &Name,
    workflow: &Name,
) -> Result<(), OutOfMemory>
    ensures { OnOk result (IsListedWhereBehind domain.now workflow.now is_behind behind.old
        behind.new) }
{
    if is_behind {
        return behind.put(domain, workflow);
    }
    if behind.is_empty() {
        return Ok(());
    }
    behind.take(domain, workflow)
}

/// The places of the first batches that are put off of these workflows.
fn first_places(
    domains: &Domains,
    alloc: Global,
    list: Vec<(Name, Name)>,
) -> Result<Vec<Place>, OutOfMemory>
    ensures { IfOk result (λ places.
        places.items ≡ filter_map (first_behind domains.now) list.items) }
{
    let mut places = Vec::new(alloc);
    for (domain, workflow) in list {
        if let Some(place) = first_place(domains, alloc, &domain, &workflow)? {
            places.push(place)?;
        }
    }
    Ok(places)
}

/// The place of the first batch that is put off of a workflow, where there is one.
fn first_place(
    domains: &Domains,
    alloc: Global,
    domain: &Name,
    workflow: &Name,
) -> Result<Option<Place>, OutOfMemory>
    ensures { IfOk result (λ place. place ≡ first_behind domains.now (domain.now, workflow.now)) }
{
    match domains.find(domain, workflow) {
        Some(found) => first_put_off(alloc, found),
        None => Ok(None),
    }
}

/// The same of one workflow.
fn first_put_off(alloc: Global, workflow: &Workflow) -> Result<Option<Place>, OutOfMemory>
    requires { IsWorkflow workflow.now }
    ensures { IfOk result (λ place.
        place ≡ option_map place_of (first_batch (off_in workflow.now))) }
{
    let batches = workflow.put_off().batches(alloc)?;
    place_in(batches.as_slice())
}

/// The place of the first of these batches, where there is one.
fn place_in(batches: &[&Batch]) -> Result<Option<Place>, OutOfMemory>
    ensures { IfOk result (λ place.
        place ≡ option_map place_of (first_batch (map (λ b. b.now) batches.now))) }
{
    match batches {
        [] => Ok(None),
        [batch, ..] => Ok(Some(Place {
            domain: batch.domain.try_copy()?,
            workflow: batch.workflow.try_copy()?,
            key: batch.key,
        })),
    }
}
