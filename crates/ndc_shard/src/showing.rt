ghost use Rattle.std.specs.Prelude.{◌≡◌, length, map, IfOk};
ghost use Rattle.ndc_model_cells.specs.Workflow.{workflow_of};
ghost use Rattle.ndc_shard.specs.Waits.{waits_since};

use crate::finding::gaps;
use crate::serving::serve;
use crate::shard::Shard;
use ndc_event::{BatchKey, Name, OutOfMemory};
use ndc_model_cells::{Message, Place};
use ndc_model_sets::View;
use ndc_resend::GapOf;
use ndc_shard_workflows::{Terms, Workflows, message_there, messages_of};
use ndc_state::Steps;
use std::alloc::Global;

/// How much waits in a workflow, and since when.
#[derive(Debug, Drop)]
pub struct Waits {
    /// Where the first batch stands that is put off.
    pub since: Place,
    /// How many messages wait.
    pub count: usize,
}

/// How many messages wait in a workflow.
fn count_in(workflows: &Workflows, domain: &Name, workflow: &Name) -> usize
    ensures { result ≡ length (workflow_of domain.now workflow.now workflows.now).waiting }
{
    match workflows.find(domain, workflow) {
        Some(found) => found.put_off().len(),
        None => 0,
    }
}

/// How much waits in the workflows of these places.
fn waits_at(
    alloc: Global,
    workflows: &Workflows,
    places: Vec<Place>,
) -> Result<Vec<Waits>, OutOfMemory>
    ensures { IfOk result (λ list. list.items ≡ map (waits_since workflows.now) places.items) }
{
    let mut list = Vec::with_capacity(alloc, places.len())?;
    for since in places {
        let count = count_in(workflows, &since.domain, &since.workflow);
        list.push(Waits { since, count })?;
    }
    Ok(list)
}

impl Shard {
    ghost use Rattle.std.specs.Prelude.{◌≡◌, [], ◌∷◌, length, true, false, IfOk, Some};
    ghost use Rattle.ndc_model_cells.specs.Workflow.{workflow_of};
    ghost use Rattle.ndc_shard.specs.Waits.{all_waits};
    ghost use Rattle.ndc_shard_workflows.specs.Lacking.{lacks_own, LacksNoOwn, LacksOwn};
    ghost use Rattle.ndc_model_cells.specs.Cells.{learned_of, message_at};
    ghost use Rattle.ndc_model_cells.specs.Domains.{learned_of_domains};
    ghost use Rattle.ndc_model_sets.specs.Learned.{has_key};
    ghost use Rattle.ndc_resend.specs.PutOff.{gaps_of};
    ghost use Rattle.ndc_resend.specs.Serving.{served_for};
    ghost use Rattle.ndc_shard_runs.specs.View.{view_at};
    ghost use Rattle.ndc_shard_workflows.specs.Reading.{learned_workflows};

    /// Whether the batch of this key of a workflow is learned. Takes no memory.
    pub fn has_learned(&self, domain: &Name, workflow: &Name, key: BatchKey) -> bool
        ensures { result ≡ has_key (Some key) (learned_of domain.now workflow.now self.now) }
    {
        match self.runs(domain, workflow) {
            Some(runs) => runs.has(key),
            None => false,
        }
    }

    /// The message of the learned batch of this key of a workflow: the batch, the version history of its path, and the
    /// batch that it carries, where it carries one. None exactly where the batch is not learned, or is carried itself.
    pub fn message(
        &self,
        domain: &Name,
        workflow: &Name,
        key: BatchKey,
    ) -> Result<Option<Message>, OutOfMemory>
        ensures { IfOk result (λ message.
            message ≡ message_at self.now
            (record { domain = domain.now; workflow = workflow.now; key = key })) }
    {
        message_there(self.alloc(), self.held(), domain, workflow, key)
    }

    /// The messages of all learned batches of a domain, by workflow and key. A batch that another one carries comes with
    /// the message of its carrier alone.
    pub fn all_of(&self, domain: &Name) -> Result<Vec<Message>, OutOfMemory>
        ensures { IfOk result (λ list. list.items ≡ learned_of_domains (domain.now ∷ []) self.now) }
    {
        let mut domains = Vec::with_capacity(self.alloc(), 1)?;
        domains.push(domain.try_copy()?)?;
        messages_of(self.alloc(), self.held(), domains.as_slice())
    }

    /// The workflows with a learned batch, each as its domain and its name, in order of these.
    pub fn workflows(&self) -> Result<Vec<(Name, Name)>, OutOfMemory>
        ensures { IfOk result (λ list. list.items ≡ learned_workflows self.now) }
    {
        self.held().learned(self.alloc())
    }

    /// What is shown of a workflow: its learned batches, and its runs with their branches and states. None exactly where
    /// nothing of it is learned.
    pub fn view<L>(
        &self,
        domain: &Name,
        workflow: &Name,
        steps: &mut Steps<L>,
    ) -> Result<Option<View>, OutOfMemory>
        ensures { IfOk result (λ view.
            view ≡ view_at (learned_of domain.now workflow.now self.now)) }
    {
        match self.runs(domain, workflow) {
            Some(runs) => runs.view(self.alloc(), steps),
            None => Ok(None),
        }
    }

    /// What is put off, in order of domain, workflow and key, each batch with the gap before it, as [`gaps`] finds it by
    /// version histories, and with its nearest ancestor that has not arrived. It looks into no other cell.
    pub fn gaps(&self) -> Result<Vec<GapOf>, OutOfMemory>
        ensures { IfOk result (λ list. list.items ≡ gaps_of self.now) }
    {
        gaps(self.alloc(), self.held())
    }

    /// How much waits, by workflow: of each workflow of which something is put off, in order of domain and name, how many
    /// messages wait, and where the first batch stands that is put off. In time of these workflows and what is put off.
    pub fn waiting(&self) -> Result<Vec<Waits>, OutOfMemory>
        ensures { IfOk result (λ list. list.items ≡ all_waits self.now) }
    {
        let alloc = self.alloc();
        let places = self.held().behind(alloc)?;
        waits_at(alloc, self.held(), places)
    }

    /// How many messages wait, in all workflows together. In constant time.
    pub fn waiting_count(&self) -> u64
        ensures { result ≡ length self.now.waiting }
    {
        self.held().waiting_count()
    }

    /// The same of all workflows: whether one tells of a batch of the cluster's own that is not learned. In time of all events
    /// that have arrived.
    pub fn lacks_any_own(&self, terms: &Terms) -> Result<bool, OutOfMemory>
        ensures some { IfOk result (λ lacks. lacks ≡ true → LacksOwn terms.now self.now) }
        ensures none { IfOk result (λ lacks. lacks ≡ false → LacksNoOwn terms.now self.now) }
    {
        self.held().lacks_own(self.alloc(), terms)
    }

    /// Whether a batch of the cluster's own is known of in a workflow that is not learned, on these terms: one that is put off
    /// is such a batch, or one that is learned or put off names such a batch as its parent, as its carrier or as the origin of
    /// a copied signal. Then the shard has lost something, and what it would write next may be there already. In time of all
    /// events of the workflow that have arrived.
    pub fn lacks_own(
        &self,
        terms: &Terms,
        domain: &Name,
        workflow: &Name,
    ) -> Result<bool, OutOfMemory>
        ensures { IfOk result (λ lacks.
            lacks ≡ lacks_own terms.now (workflow_of domain.now workflow.now self.now)) }
    {
        match self.held().find(domain, workflow) {
            Some(found) => found.lacks_own(self.alloc(), terms),
            None => Ok(false),
        }
    }

    /// What the cell serves for a gap of another one, as [`serve`] says: the messages of the batches in the gap on the path
    /// to the batch that was asked for, in path order, after those of the carriers above the first of them. Nothing,
    /// where the batch that was asked for is not learned.
    pub fn serve(&self, asked: &GapOf) -> Result<Vec<Message>, OutOfMemory>
        ensures { IfOk result (λ list. list.items ≡ served_for asked.now self.now) }
    {
        serve(self.alloc(), self.held(), asked)
    }
}
