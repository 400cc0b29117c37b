use crate::error::{CallError, of_try};
use crate::node::Node;
use crate::seat::Seat;
use ndc_cluster::Home;
use ndc_command::Command;
use ndc_domain::DomainTable;
use ndc_event::{BatchKey, Name, OutOfMemory};
use ndc_model_cells::Written;
use ndc_shard::TryError;
use ndc_state::Steps;
use std::alloc::Global;

/// Counts the steps of writing.
struct Writing;

/// What is to be written to a workflow.
#[derive(Clone, Copy)]
enum Asked<'a> {
    Command(&'a Command),
    /// A reset, up to an event.
    Reset(u64),
}

/// What is applied again is written in each of these shards: where the batches stand, shard by shard.
fn write_in_each(
    alloc: Global,
    seats: &mut [Seat],
    home: &Home,
    table: &DomainTable,
) -> Result<Vec<(Name, Name, BatchKey)>, OutOfMemory> {
    let mut all = Vec::new(alloc);
    for seat in seats.iter_mut() {
        let mut written = seat.apply_again(home, table)?;
        all.append(&mut written)?;
    }
    Ok(all)
}

impl Node {
    /// A command to a workflow: the keys of what it writes. Refused as [`Shard::try_command`](ndc_shard::Shard::try_command)
    /// refuses it, where the node is behind its past, and with [`CallError::NeedsFailover`]; nothing changes then.
    pub fn command(
        &mut self,
        domain: &Name,
        workflow: &Name,
        command: &Command,
    ) -> Result<Written, CallError<TryError>> {
        self.begin_writing()?;
        let written = self.write(domain, workflow, Asked::Command(command));
        self.end(written)
    }

    /// A new run repeats the current one of a workflow up to an event, counted from 1: the keys of what is written. Refused
    /// as [`Shard::try_reset`](ndc_shard::Shard::try_reset) refuses it, where the node is behind its past, and with
    /// [`CallError::NeedsFailover`]; nothing changes then.
    pub fn reset(
        &mut self,
        domain: &Name,
        workflow: &Name,
        event: u64,
    ) -> Result<Written, CallError<TryError>> {
        self.begin_writing()?;
        let written = self.write(domain, workflow, Asked::Reset(event));
        self.end(written)
    }

    /// What is asked for is written, and its messages go last in the queue of the shard.
    fn write(
        &mut self,
        domain: &Name,
        workflow: &Name,
        asked: Asked,
    ) -> Result<Written, CallError<TryError>> {
        self.writes_anew(domain)?;
        let shard = self.shard_of(domain, workflow);
        let home = Home {
            clusters: &self.clusters,
            me: self.me,
            limit: self.limit,
        };
        let Some(seat) = self.seats.get_mut(shard as usize) else {
            return Err(CallError::Full);
        };
        let cell = &mut seat.cell;
        let table = &self.table;
        let mut steps: Steps<Writing> = Steps::new();
        let tried = match asked {
            Asked::Command(command) => {
                cell.try_command(&home, table, domain, workflow, command, &mut steps)
            }
            Asked::Reset(event) => {
                cell.try_reset(&home, table, domain, workflow, event, &mut steps)
            }
        };
        let written = match tried {
            Ok(written) => written,
            Err(error) => return Err(of_try(error)),
        };
        seat.queue_up_both(domain, workflow, written)?;
        Ok(written)
    }

    /// Signals that current runs have not seen are applied again in each workflow to which the node may write: where the
    /// batches stand that are written, shard by shard. Workflows in which nothing can be written are passed over, and domains
    /// to which it has to fail over first.
    pub fn reapply(&mut self) -> Result<Vec<(Name, Name, BatchKey)>, CallError<()>> {
        self.begin_writing()?;
        let written = self.write_again();
        self.end(written)
    }

    /// What is applied again is written in each shard, and goes last in its queue.
    fn write_again(&mut self) -> Result<Vec<(Name, Name, BatchKey)>, CallError<()>> {
        let unused = self.unused_records()?;
        let alloc = self.alloc;
        let home = Home {
            clusters: &self.clusters,
            me: self.me,
            limit: self.limit,
        };
        let seats = self.seats.as_mut_slice();
        match unused {
            Some(unused) => Ok(write_in_each(alloc, seats, &home, &unused)?),
            None => Ok(write_in_each(alloc, seats, &home, &self.table)?),
        }
    }

    /// Drops the message of a batch that is put off, where one is: whether one was.
    pub fn forget(
        &mut self,
        domain: &Name,
        workflow: &Name,
        key: BatchKey,
    ) -> Result<bool, CallError<()>> {
        self.begin()?;
        let forgotten = self.forgotten(domain, workflow, key);
        self.end(forgotten)
    }

    /// The message is dropped.
    fn forgotten(
        &mut self,
        domain: &Name,
        workflow: &Name,
        key: BatchKey,
    ) -> Result<bool, CallError<()>> {
        let shard = self.shard_of(domain, workflow);
        match self.seats.get_mut(shard as usize) {
            Some(seat) => Ok(seat.forget(domain, workflow, key)?),
            None => Ok(false),
        }
    }

    /// Drops from each queue what all readers are done with: how many entries. Takes no memory.
    pub fn trim(&mut self) -> u64 {
        let mut dropped: u64 = 0;
        for seat in self.seats.as_mut_slice() {
            dropped = dropped.saturating_add(seat.trim());
        }
        dropped
    }
}
