ghost use Rattle.std.specs.Prelude.{◌≡◌, ◌^◌, map, true, false, nat_le, Ok, IfOk};
ghost use Rattle.std.specs.List.{AllByRecursion, list_all};
ghost use Rattle.ndc_model_cells.specs.Writing.{batches_in};
ghost use Rattle.ndc_model_cells.specs.Jobs.{all_batches};
ghost use Rattle.ndc_shard.specs.Shards.{AreOneOrTwo};
ghost use Rattle.ndc_shard.specs.Trying.{HasSmallIdsIn};
ghost use Rattle.ndc_event.specs.Outcome.{Gives};
ghost use Rattle.ndc_shard.specs.Answers.{keys_of, names_of};
ghost use Rattle.ndc_shard.specs.declared.error.ShardError.TheVariants.{Memory};

use crate::error::{ShardError, TryError};
use crate::shard::Shard;
use ndc_cluster::{Desk, Home};
use ndc_command::{Command, Refusal};
use ndc_domain::DomainTable;
use ndc_event::{Batch, BatchKey, Name, OutOfMemory};
use ndc_model_cells::{Arrived, Message, Written};
use ndc_shard_entries::Entry;
use ndc_state::Steps;
use std::alloc::Global;

/// The keys of batches that were written: there is one, or there are two.
fn keys_of(batches: &[Batch]) -> Result<Written, ShardError>
    ensures { result ≡ keys_of batches.now }
{
    match batches {
        [] => Err(ShardError::Memory),
        [batch] => Ok(Written {
            key: batch.key,
            second: None,
        }),
        [batch, second, ..] => Ok(Written {
            key: batch.key,
            second: Some(second.key),
        }),
    }
}

/// Where batches stand, in order: the domain, the workflow and the key of each.
fn places_of(alloc: Global, batches: &[Batch]) -> Result<Vec<(Name, Name, BatchKey)>, OutOfMemory>
    ensures { IfOk result (λ places. places.items ≡ map names_of batches.now) }
{
    let mut places = Vec::with_capacity(alloc, batches.len())?;
    for batch in batches {
        let domain = batch.domain.try_copy()?;
        let workflow = batch.workflow.try_copy()?;
        places.push((domain, workflow, batch.key))?;
    }
    Ok(places)
}

/// The greatest id of an event that is written.
pub(crate) const MOST_ID: u64 = 1_000_000_000_000;

/// The keys of an entry: of its batch, and of the one that it carries.
fn written_by(entry: &Entry) -> Written
    ensures { keys_of (batches_in entry.now) ≡ Ok result }
{
    Written {
        key: entry.batch().key,
        second: match entry.second() {
            None => None,
            Some(second) => Some(second.key),
        },
    }
}

/// The keys of what is written together: of one entry, or of two that carry none.
fn written_together(entries: &[Entry]) -> Written
    requires { AreOneOrTwo entries.now }
    ensures { keys_of (all_batches entries.now) ≡ Ok result }
{
    match entries {
        [entry] => written_by(entry),
        [first, second] => Written {
            key: first.batch().key,
            second: Some(second.batch().key),
        },
        _ => unreachable!(),
    }
}

/// Whether the ids of all events of one entry, or of two, are at most 10^12.
fn have_small_ids(entries: &[Entry]) -> bool
    requires { AreOneOrTwo entries.now }
    ensures small { result ≡ true → AllByRecursion HasSmallIdsIn entries.now }
    ensures none { result ≡ false → AllByRecursion HasSmallIdsIn entries.now → ⊥ }
{
    match entries {
        [entry] => has_small_ids(entry),
        [first, second] => has_small_ids(first) && has_small_ids(second),
        _ => unreachable!(),
    }
}

/// Whether the ids of all events of an entry are at most 10^12.
pub(crate) fn has_small_ids(entry: &Entry) -> bool
    ensures small { result ≡ true → HasSmallIdsIn entry.now }
    ensures none { result ≡ false → HasSmallIdsIn entry.now → ⊥ }
{
    if !are_small(entry.batch()) {
        return false;
    }
    match entry.second() {
        None => true,
        Some(second) => are_small(second),
    }
}

/// Whether the event ids of a batch are at most 10^12.
fn are_small(batch: &Batch) -> bool
    ensures { result ≡ list_all (λ event. nat_le event.id (10 ^ 12)) batch.now.events }
{
    batch
        .events
        .as_slice()
        .iter()
        .all(|event| event.id <= MOST_ID)
}

impl Shard {
    ghost use Rattle.std.specs.Prelude.{◌≡◌, ◌≢◌, map, Ok, IfOk, IfErr, OnOk, OnErr};
    ghost use Rattle.ndc_cluster.specs.Homes.{desk_of};
    ghost use Rattle.ndc_event.specs.Outcome.{Gives};
    ghost use Rattle.ndc_model_cells.specs.Keeping.{CanArrive, CanWrite, CanWriteEach};
    ghost use Rattle.ndc_model_cells.specs.Arrival.{arrival_of, arrived_at};
    ghost use Rattle.ndc_model_cells.specs.Jobs.{reapplied_in, reapplied_now, workflows_of, written_at};
    ghost use Rattle.ndc_model_cells.specs.Writing.{command_of, may_go_on, reset_at};
    ghost use Rattle.ndc_shard.specs.Answers.{answer_of, names_of};
    ghost use Rattle.ndc_shard.specs.Trying.{IsNotTaken};
    ghost use Rattle.ndc_shard.specs.declared.error.ShardError.TheVariants.{Memory};
    ghost use Rattle.ndc_shard_workflows.specs.Reapplied.{IsReappliedInFirst};

    /// The version with which the shard may write to a workflow that has begun: that of its cluster's record of the domain.
    /// Takes no memory. Refused with the first of these that holds: [`Refusal::UnknownDomain`] where there is no record,
    /// [`Refusal::NotActive`] with the version where another cluster writes with it, or none does, [`Refusal::Behind`] with
    /// the greatest learned version where that is above it, and [`Refusal::NoWorkflow`] where no run of the workflow is
    /// learned.
    pub fn may_write(
        &self,
        home: &Home,
        table: &DomainTable,
        domain: &Name,
        workflow: &Name,
    ) -> Result<u64, Refusal>
        ensures { result ≡ may_go_on (desk_of home.now table.now) domain.now workflow.now self.now }
    {
        let desk = Desk::new(home.clusters, home.me, home.limit, table);
        let (version, runs) = self.writable(&desk, domain, workflow)?;
        match runs.and_then(|runs| runs.tip()) {
            Some(_) => Ok(version),
            None => Err(Refusal::NoWorkflow),
        }
    }

    /// A command to a workflow: the keys of what it writes, or its refusal, the first that holds. Where it is refused, and for
    /// want of memory, the shard stays as it was.
    pub fn command<L>(
        &mut self,
        home: &Home,
        table: &DomainTable,
        domain: &Name,
        workflow: &Name,
        command: &Command,
        steps: &mut Steps<L>,
    ) -> Result<Written, ShardError>
        requires { CanWrite (desk_of home.now table.now) domain.now workflow.now self.old }
        ensures written { Gives Memory (λ written.
            written) result (answer_of
            (command_of (desk_of home.now table.now) domain.now workflow.now command.now
            self.old)) }
        ensures cell { OnOk result
            (self.new ≡ written_at (command_of
            (desk_of home.now table.now) domain.now workflow.now command.now self.old) self.old) }
        ensures unchanged { OnErr result (self.new ≡ self.old) }
    {
        self.is_in_order();
        let desk = Desk::new(home.clusters, home.me, home.limit, table);
        let batches = self.write_command(&desk, domain, workflow, command, steps)?;
        keys_of(batches.as_slice())
    }

    /// A command to a workflow of a shard that nobody vouches for: of what has arrived nothing is asked. The keys of
    /// what it writes, or why it writes nothing: the tasks of what is learned leave no room ([`TryError::Full`]); its
    /// refusal, the first that holds; an id of what would be written is above 10^12 ([`TryError::Full`]); something
    /// stands under the key that would be written, waits for it, or what would be written does not fit
    /// ([`TryError::NotWritten`]). After an error the shard stays as it was.
    pub fn try_command<L>(
        &mut self,
        home: &Home,
        table: &DomainTable,
        domain: &Name,
        workflow: &Name,
        command: &Command,
        steps: &mut Steps<L>,
    ) -> Result<Written, TryError>
        ensures written { IfOk result (λ written.
            answer_of (command_of (desk_of home.now table.now) domain.now workflow.now command.now
            self.old) ≡ Ok written) }
        ensures cell { OnOk result
            (self.new ≡ written_at (command_of
            (desk_of home.now table.now) domain.now workflow.now command.now self.old) self.old) }
        ensures refused { IfErr result (λ why.
            IsNotTaken why domain.now workflow.now
            (command_of (desk_of home.now table.now) domain.now workflow.now command.now self.old)
            self.old) }
        ensures unchanged { OnErr result (self.new ≡ self.old) }
    {
        self.is_in_order();
        let desk = Desk::new(home.clusters, home.me, home.limit, table);
        if !self.has_tasks_left(domain, workflow) {
            return Err(TryError::Full);
        }
        let entry = match self.command_entry(&desk, domain, workflow, command) {
            Ok(entry) => entry,
            Err(error) => return Err(TryError::from(error)),
        };
        if !has_small_ids(&entry) {
            return Err(TryError::Full);
        }
        match self.try_write(&entry, steps) {
            Ok(()) => {}
            Err(cause) => return Err(TryError::NotWritten(cause)),
        }
        Ok(written_by(&entry))
    }

    /// A new run repeats the current one of a workflow up to an event, counted from 1: the key of the first batch that is
    /// written, and of the other one, where an open run is closed first; or the refusal, the first that holds. Where it is
    /// refused, and for want of memory, the shard stays as it was: both batches are written, or neither.
    pub fn reset<L>(
        &mut self,
        home: &Home,
        table: &DomainTable,
        domain: &Name,
        workflow: &Name,
        event: u64,
        steps: &mut Steps<L>,
    ) -> Result<Written, ShardError>
        requires { CanWrite (desk_of home.now table.now) domain.now workflow.now self.old }
        ensures written { Gives Memory (λ written.
            written) result (answer_of
            (reset_at (desk_of home.now table.now) domain.now workflow.now event self.old)) }
        ensures cell { OnOk result
            (self.new ≡ written_at (reset_at
            (desk_of home.now table.now) domain.now workflow.now event self.old) self.old) }
        ensures unchanged { OnErr result (self.new ≡ self.old) }
    {
        self.is_in_order();
        let desk = Desk::new(home.clusters, home.me, home.limit, table);
        let batches = self.write_reset(&desk, domain, workflow, event, steps)?;
        keys_of(batches.as_slice())
    }

    /// A new run repeats the current one of a workflow of a shard that nobody vouches for, up to an event, counted from
    /// 1: of what has arrived nothing is asked. The key of the first batch that is written, and of the other one, where
    /// an open run is closed first; or why nothing is written, as [`Shard::try_command`] tells it. After an error the
    /// shard stays as it was: both batches are written, or neither.
    pub fn try_reset<L>(
        &mut self,
        home: &Home,
        table: &DomainTable,
        domain: &Name,
        workflow: &Name,
        event: u64,
        steps: &mut Steps<L>,
    ) -> Result<Written, TryError>
        ensures written { IfOk result (λ written.
            answer_of (reset_at (desk_of home.now table.now) domain.now workflow.now event self.old)
            ≡ Ok written) }
        ensures cell { OnOk result
            (self.new ≡ written_at (reset_at
            (desk_of home.now table.now) domain.now workflow.now event self.old) self.old) }
        ensures refused { IfErr result (λ why.
            IsNotTaken why domain.now workflow.now
            (reset_at (desk_of home.now table.now) domain.now workflow.now event self.old)
            self.old) }
        ensures unchanged { OnErr result (self.new ≡ self.old) }
    {
        self.is_in_order();
        let desk = Desk::new(home.clusters, home.me, home.limit, table);
        if !self.has_tasks_left(domain, workflow) {
            return Err(TryError::Full);
        }
        let entries = match self.reset_entries(&desk, domain, workflow, event) {
            Ok(entries) => entries,
            Err(error) => return Err(TryError::from(error)),
        };
        if !have_small_ids(entries.as_slice()) {
            return Err(TryError::Full);
        }
        match self.try_write_all(entries.as_slice(), steps) {
            Ok(()) => {}
            Err(cause) => return Err(TryError::NotWritten(cause)),
        }
        Ok(written_together(entries.as_slice()))
    }

    /// A message arrives: what comes of it. After want of memory the shard is spent: nothing is said of it.
    pub fn arrive<L>(
        &mut self,
        message: &Message,
        steps: &mut Steps<L>,
    ) -> Result<Arrived, OutOfMemory>
        requires { CanArrive message.now self.old }
        ensures arrived { IfOk result (λ arrived. arrived ≡ arrival_of message.now self.old) }
        ensures cell { OnOk result (self.new ≡ arrived_at message.now self.old) }
    {
        self.is_in_order();
        let arrival = self.take_in(message.try_copy()?, steps)?;
        Ok(arrival.outcome)
    }

    /// Strays are applied again in each workflow, in order, where the shard may write to it and its current run is open: where
    /// the batches stand that are written, in order. After want of memory some of the workflows, in order, have their batches,
    /// and the rest of the shard is as it was.
    pub fn reapply<L>(
        &mut self,
        home: &Home,
        table: &DomainTable,
        steps: &mut Steps<L>,
    ) -> Result<Vec<(Name, Name, BatchKey)>, OutOfMemory>
        requires { CanWriteEach (desk_of home.now table.now) self.old }
        ensures cell { OnOk result
            (self.new ≡ reapplied_in (desk_of home.now table.now)
            (workflows_of self.old.arrived) self.old) }
        ensures places { IfOk result (λ places.
            places.items ≡ map names_of
            (reapplied_now (desk_of home.now table.now) (workflows_of self.old.arrived) self.old)) }
        ensures err { OnErr result
            (IsReappliedInFirst (desk_of home.now table.now)
            (workflows_of self.old.arrived) self.old self.new) }
    {
        self.is_in_order();
        let desk = Desk::new(home.clusters, home.me, home.limit, table);
        let batches = self.apply_again(&desk, steps)?;
        places_of(self.alloc(), batches.as_slice())
    }
}
