ghost use Rattle.std.specs.Prelude.{◌≡◌, map, replicate, IfOk};
ghost use Rattle.ndc_model_cells.specs.Cells.{empty_cell};

use crate::cell::Cell;
use crate::cells::Cells;
use crate::fresh::Fresh;
use crate::home::{Desk, Home};
use crate::rounds::round;
use ndc_domain::DomainTable;
use ndc_model_cells::{JobReply, ShardJob};
use ndc_port::{Gate, OutOfMemory};
use std::alloc::Global;
use std::marker::Model;
use std::mem;
use std::thread::Threads;

/// A cluster: its domain records, and its cells by shard. Nothing but [`Cluster::round`] changes a cell.
pub struct Cluster<C: Cell + Drop> {
    table: DomainTable,
    cells: Cells<C>,
}

impl<C: Cell + Drop> Model for Cluster<C> {
    ghost use Rattle.ndc_cluster.specs.Clusters.{ClusterValue};

    ghost Value = { ClusterValue };

    ghost view = { λ cluster. record { table = cluster.table; cells = cluster.cells } };
}

impl<C: Cell + Drop> Drop for Cluster<C> {
    fn drop(self) {
        let Cluster {
            table: _table,
            cells: _cells,
        } = self;
    }
}

/// So many cells in which nothing has happened.
fn empty_cells<C: Cell + Drop>(
    alloc: Global,
    home: &Home,
    shards: u32,
) -> Result<Vec<C>, OutOfMemory>
    ensures { IfOk result (λ cells. map C.cell cells.items ≡ replicate shards empty_cell) }
{
    let mut cells = Vec::new(alloc);
    while cells.len() < shards as usize {
        cells.push(C::new(alloc, home)?)?;
    }
    Ok(cells)
}

impl<C: Cell + Drop> Cluster<C> {
    ghost use Rattle.std.specs.Borrow.{sem};
    ghost use Rattle.std.specs.Prelude.{◌≡◌, ◌<◌, length, map, [], IfOk, IfSome, OnOk, OnErr};
    ghost use Rattle.std.specs.List.{AllByRecursion};
    ghost use Rattle.ndc_cluster.specs.Clusters.{new_cluster, with_cells};
    ghost use Rattle.ndc_cluster.specs.Lending.{LendsRecords};
    ghost use Rattle.ndc_cluster.specs.Homes.{desk_of};
    ghost use Rattle.ndc_cluster.specs.Rounds.{AreFresh};
    ghost use Rattle.ndc_model_cells.specs.Conditions.{AreAllowed};
    ghost use Rattle.ndc_model_cells.specs.Jobs.{cell_for, cells_after, cells_behind, replies_to, reply_to};

    /// A cluster without a record, of so many cells in which nothing has happened.
    pub fn new(alloc: Global, home: &Home, shards: u32) -> Result<Cluster<C>, OutOfMemory>
        ensures { IfOk result (λ cluster. cluster ≡ new_cluster shards) }
    {
        let cells = empty_cells(alloc, home, shards)?;
        Ok(Cluster {
            table: DomainTable::new(alloc),
            cells: Cells::new(cells, None),
        })
    }

    /// Its domain records, to change them. When the loan ends, they stay as they were left. Takes no memory.
    pub fn table(&mut self) -> &mut DomainTable
        ensures* writes_back { sem 𝓛 (LendsRecords C.row C.Cell self.entry result) }
        ensures records { result.now ≡ self.old.table }
    {
        &mut self.table
    }

    /// Its domain records, to be read. Takes no memory.
    pub fn records(&self) -> &DomainTable
        ensures { result.now ≡ self.now.table }
    {
        &self.table
    }

    /// Its cells, by shard. Takes no memory.
    pub fn cells(&self) -> &[C]
        ensures { map C.cell result.now ≡ self.now.cells }
    {
        self.cells.as_slice()
    }

    /// Its cell for a shard. Takes no memory.
    pub fn shard(&self, shard: u32) -> &C
        requires { shard < length self.now.cells }
        ensures { C.cell result.now ≡ cell_for shard self.now.cells }
    {
        &self.cells()[shard as usize]
    }

    /// Its cells do jobs side by side, on so many workers at most, 1 at least, each worker on neighbouring cells. Each worker
    /// first enters the gate with its number, counted from 0. The cells and the replies, in the order of the jobs, are those of
    /// the jobs done one after the other. The shard of each job is that of a cell, and each job may be done by the cell that
    /// the jobs before it leave. After want of memory there are no cells, and the domain records are as they were.
    pub fn round<R: Threads + Sync, G: Gate>(
        &mut self,
        rt: &R,
        alloc: Global,
        gate: &G,
        workers: u32,
        home: &Home,
        jobs: &[ShardJob],
    ) -> Result<Vec<JobReply>, OutOfMemory>
    where
        C: Send,
        requires workers { 0 < workers }
        requires shards { AllByRecursion (λ asked. asked.shard < length self.old.cells) jobs.now }
        requires allowed { AreAllowed C.allows
            (desk_of home.now self.old.table) jobs.now self.old.cells }
        ensures cells { OnOk result
            (self.new ≡ with_cells (cells_after
            (desk_of home.now self.old.table) jobs.now self.old.cells) self.old) }
        ensures err { OnErr result (self.new ≡ with_cells [] self.old) }
        ensures replies { IfOk result (λ replies.
            replies.items ≡ replies_to (desk_of home.now self.old.table) jobs.now self.old.cells) }
    {
        let no_cells = Cells::new(Vec::new(alloc), None);
        let cells = mem::replace(&mut self.cells, no_cells).into_vec();
        let desk = Desk::new(home.clusters, home.me, home.limit, &self.table);
        let rounded = round(rt, alloc, gate, workers, &desk, cells, jobs)?;
        self.cells = Cells::new(rounded.cells, rounded.fresh);
        Ok(rounded.replies)
    }

    /// The cell of its shard does one job, which it may do, without a gate. After want of memory there are no cells, and the
    /// domain records are as they were. What was at hand of what the cells have written (`take_fresh`) is gone.
    pub fn do_one(
        &mut self,
        alloc: Global,
        home: &Home,
        asked: &ShardJob,
    ) -> Result<JobReply, OutOfMemory>
        requires shard { asked.now.shard < length self.old.cells }
        requires allowed { C.allows (desk_of home.now self.old.table) asked.now.job
            (cell_for asked.now.shard self.old.cells) }
        ensures cells { OnOk result
            (self.new ≡ with_cells (cells_behind
            (desk_of home.now self.old.table) asked.now self.old.cells) self.old) }
        ensures err { OnErr result (self.new ≡ with_cells [] self.old) }
        ensures reply { IfOk result (λ reply.
            reply ≡ reply_to (desk_of home.now self.old.table) asked.now.job
            (cell_for asked.now.shard self.old.cells)) }
    {
        let desk = Desk::new(home.clusters, home.me, home.limit, &self.table);
        match self.cells.do_one(&desk, asked) {
            Ok(reply) => Ok(reply),
            Err(error) => {
                self.cells = Cells::new(Vec::new(alloc), None);
                Err(error)
            }
        }
    }

    /// For each cell messages that it has written, from some place on, where the last round was done in pieces: they are at
    /// hand until they are taken. Takes no memory. `None` tells nothing of what was written, since the way in which a round is
    /// done is told by nothing else: who wants the messages reads them from the cells then.
    pub fn take_fresh(&mut self) -> Option<Vec<Fresh>>
        ensures fresh { IfSome result (λ fresh. AreFresh fresh.items self.old.cells) }
        ensures same { self.new ≡ self.old }
    {
        self.cells.take_fresh()
    }
}
