// Reapplication in a shard that nobody vouches for.
ghost use Rattle.std.specs.Prelude.{◌≡◌, ◌≢◌, true, false, IfOk};
ghost use Rattle.ndc_shard.specs.declared.error.TryError.TheVariants.{NotWritten as Passed};
ghost use Rattle.ndc_shard_workflows.specs.declared.admission.NotWritten.TheVariants.{Memory};
ghost use Rattle.ndc_shard.specs.Answers.{names_of};
ghost use Rattle.ndc_shard.specs.Trying.{LeavesRoom};

use crate::calls::{MOST_ID, has_small_ids};
use crate::error::TryError;
use crate::shard::{MOST_TASK, Shard};
use ndc_cluster::{Desk, Home};
use ndc_domain::DomainTable;
use ndc_event::{Batch, BatchKey, Name, OutOfMemory};
use ndc_shard_runs::Runs;
use ndc_shard_workflows::NotWritten;
use ndc_state::Steps;
use std::alloc::AllocError;

/// A workflow that reapplication passed over: nothing is written to it.
#[derive(Drop)]
pub struct Skipped {
    pub domain: Name,
    pub workflow: Name,
    /// Why: there is no room ([`TryError::Full`]), or what would be written is not because of what has arrived
    /// ([`TryError::NotWritten`]).
    pub cause: TryError,
}

/// What came of reapplication in a shard that nobody vouches for.
#[derive(Drop)]
pub struct Reapplied {
    /// Where the batches stand that are written, in order.
    pub written: Vec<(Name, Name, BatchKey)>,
    /// The workflows that were passed over, in order.
    pub skipped: Vec<Skipped>,
}

/// Where a batch stands.
fn standing(batch: &Batch) -> Result<(Name, Name, BatchKey), OutOfMemory>
    ensures { IfOk result (λ place. place ≡ names_of batch.now) }
{
    let domain = batch.domain.try_copy()?;
    let workflow = batch.workflow.try_copy()?;
    Ok((domain, workflow, batch.key))
}

/// Whether the tasks of what is learned of a workflow, and the ids of its current branch, leave room for one more batch.
fn have_room(runs: &Runs) -> bool
    ensures left { result ≡ true → LeavesRoom runs.now }
    ensures none { result ≡ false → LeavesRoom runs.now → ⊥ }
{
    if runs.greatest_task() > MOST_TASK {
        return false;
    }
    match runs.state() {
        Some(state) => state.next() <= MOST_ID,
        None => true,
    }
}

/// Why a workflow is passed over to which nothing is written; for want of memory it is not.
fn passed_over(cause: NotWritten) -> Result<TryError, OutOfMemory>
    ensures told { IfOk result (λ why. why ≡ Passed cause) }
    ensures calm { IfOk result (λ _. cause ≢ Memory) }
{
    match cause {
        NotWritten::Rival { .. } | NotWritten::Awaited { .. } | NotWritten::Misfit(_) => {
            Ok(TryError::NotWritten(cause))
        }
        NotWritten::Memory => Err(AllocError),
    }
}

impl Shard {
    ghost use Rattle.std.specs.Prelude.{◌≡◌, ◌++◌, [], map, true, false, IfOk, IfSome, IfNone, OnErr, OnOk};
    ghost use Rattle.ndc_cluster.specs.Homes.{desk_of};
    ghost use Rattle.ndc_model_cells.specs.Cells.{learned_of};
    ghost use Rattle.ndc_model_cells.specs.Jobs.{all_batches};
    ghost use Rattle.ndc_model_cells.specs.Writing.{reapplication_of};
    ghost use Rattle.ndc_shard.specs.Answers.{names_of};
    ghost use Rattle.ndc_shard.specs.Trying.{AreTried, IsPassedOver, IsTriedAgain, IsTriedInSome, IsTriedOnce, LeavesRoom};
    ghost use Rattle.ndc_shard_workflows.specs.Reapplied.{reapplied_at};

    /// Whether there is room for one more batch of the current run of a workflow.
    fn leaves_room(&self, domain: &Name, workflow: &Name) -> bool
        ensures left { result ≡ true → LeavesRoom (learned_of domain.now workflow.now self.now) }
        ensures none { result ≡ false → LeavesRoom (learned_of domain.now workflow.now self.now)
            → ⊥ }
    {
        match self.runs(domain, workflow) {
            Some(runs) => have_room(runs),
            None => true,
        }
    }

    /// Whether reapplication may write to a workflow: the shard may, and it is due.
    #[tactic(auto, unfolding(ndc_model_cells::specs::Writing::reapplication_of))]
    fn may_apply(
        &mut self,
        desk: &Desk,
        domain: &Name,
        workflow: &Name,
    ) -> Result<bool, OutOfMemory>
        ensures none { IfOk result (λ may.
            may ≡ false → reapplication_of desk.now domain.now workflow.now self.old ≡ []) }
        ensures same { self.new ≡ self.old }
    {
        let Ok(_) = self.writable(desk, domain, workflow) else {
            return Ok(false);
        };
        self.is_due(domain, workflow)
    }

    /// Reapplication is tried in a workflow: what it would write is written and stands last among these, or nothing is and the
    /// cause is told. For want of memory the shard stays as it was.
    fn try_reapply_in<L>(
        &mut self,
        desk: &Desk,
        domain: &Name,
        workflow: &Name,
        written: &mut Vec<(Name, Name, BatchKey)>,
        steps: &mut Steps<L>,
    ) -> Result<Option<TryError>, OutOfMemory>
        ensures cell { IfOk result (λ cause.
            IfNone cause (self.new ≡ reapplied_at desk.now (domain.now, workflow.now) self.old)) }
        ensures places { IfOk result (λ cause.
            IfNone cause (written.new.items
            ≡ written.old.items ++ map names_of
            (all_batches (reapplication_of desk.now domain.now workflow.now self.old)))) }
        ensures why { IfOk result (λ cause.
            IfSome cause (λ why. IsPassedOver why desk.now (domain.now, workflow.now) self.old)) }
        ensures none { IfOk result (λ cause.
            IfSome cause (λ _. written.new.items ≡ written.old.items)) }
        ensures same { IfOk result (λ cause. IfSome cause (λ _. self.new ≡ self.old)) }
        ensures err { OnErr result (self.new ≡ self.old) }
    {
        if !self.may_apply(desk, domain, workflow)? {
            return Ok(None);
        }
        if !self.leaves_room(domain, workflow) {
            return Ok(Some(TryError::Full));
        }
        let Some(entry) = self.reapplication(desk, domain, workflow)? else {
            return Ok(None);
        };
        if !has_small_ids(&entry) {
            return Ok(Some(TryError::Full));
        }
        let place = standing(entry.batch())?;
        written.reserve(1)?;
        match self.try_write(&entry, steps) {
            Ok(()) => {}
            Err(cause) => {
                let why = passed_over(cause)?;
                return Ok(Some(why));
            }
        }
        written.push_reserved(place);
        Ok(None)
    }

    /// Reapplication is tried in a workflow, and told. For want of memory the shard is as it was or as after it.
    fn try_reapply_one<L>(
        &mut self,
        desk: &Desk,
        domain: Name,
        workflow: Name,
        told: &mut Reapplied,
        steps: &mut Steps<L>,
    ) -> Result<(), OutOfMemory>
        ensures ok { OnOk result
            (IsTriedOnce desk.now (domain, workflow) self.old self.new told.old.written.items
            told.new.written.items told.old.skipped.items told.new.skipped.items) }
        ensures err { OnErr result (self.new ≡ self.old) }
    {
        match self.try_reapply_in(desk, &domain, &workflow, &mut told.written, steps)? {
            None => {}
            Some(cause) => told.skipped.push(Skipped {
                domain,
                workflow,
                cause,
            })?,
        }
        Ok(())
    }

    /// Reapplication is tried in these workflows, in order. For want of memory it was in some of them.
    fn try_reapply_among<L>(
        &mut self,
        desk: &Desk,
        list: Vec<(Name, Name)>,
        steps: &mut Steps<L>,
    ) -> Result<Reapplied, OutOfMemory>
        ensures tried { IfOk result (λ told.
            AreTried desk.now list.items self.old told.written.items told.skipped.items self.new) }
        ensures err { OnErr result (IsTriedInSome desk.now self.old self.new) }
    {
        let mut told = Reapplied {
            written: Vec::new(self.alloc()),
            skipped: Vec::new(self.alloc()),
        };
        for (domain, workflow) in list {
            self.try_reapply_one(desk, domain, workflow, &mut told, steps)?;
        }
        Ok(told)
    }

    /// Strays are applied again in each workflow, in order, of a shard that nobody vouches for: of what has arrived
    /// nothing is asked. Where the batches stand that are written, and which workflows were passed over, each with why:
    /// the tasks of what is learned, the ids of its current branch or those of what would be written leave no room
    /// ([`TryError::Full`]), or something stands under the key that would be written, waits for it, or what would be
    /// written does not fit ([`TryError::NotWritten`]). A workflow that is passed over stays as it was. After want of
    /// memory some workflows, in order, have their batches, and the rest of the shard is as it was.
    pub fn try_reapply<L>(
        &mut self,
        home: &Home,
        table: &DomainTable,
        steps: &mut Steps<L>,
    ) -> Result<Reapplied, OutOfMemory>
        ensures tried { IfOk result (λ told.
            IsTriedAgain (desk_of home.now table.now) told.written.items told.skipped.items self.old
            self.new) }
        ensures err { OnErr result (IsTriedInSome (desk_of home.now table.now) self.old self.new) }
    {
        let desk = Desk::new(home.clusters, home.me, home.limit, table);
        let list = self.due_again(&desk)?;
        let told = self.try_reapply_among(&desk, list, steps)?;
        Ok(told)
    }
}
