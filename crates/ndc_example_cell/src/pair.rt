//! Two cells with what both keep: who uses the pair owes nothing.
ghost use Rattle.std.specs.Prelude.{◌≡◌};

use crate::engine::{self, GROWTH, Shared, home_of};
use crate::error::StoryError;
use crate::telling::shown;
use ndc_command::{Command, Refusal};
use ndc_domain::{ClusterNo, Clusters, DomainTable};
use ndc_event::{BatchKey, Name, OutOfMemory};
use ndc_shard::{Arrived, Shard, Written};
use std::alloc::Global;
use std::marker::Model;
use std::mem::swap;

/// The first cluster.
pub(crate) const A: ClusterNo = ClusterNo { number: 0 };

/// The second one.
pub(crate) const B: ClusterNo = ClusterNo { number: 1 };

/// How many events, and tasks, a workflow may have before a command.
const MOST: u64 = 1_000_000;

/// Two cells of two clusters that hold batches of one workflow. One of them is in hand: what is done is done there. After
/// want of memory in a call that changes it the pair is spent.
pub(crate) struct Pair<'a> {
    shared: Shared<'a>,
    mine: Shard,
    theirs: Shard,
    spent: bool,
}

impl<'a> Model for Pair<'a> {
    ghost use Rattle.std.specs.Prelude.{Bool, ◌≡◌, false};
    ghost use Rattle.ndc_example_cell.specs.Shared.{AreShared};

    ghost Value = { Bool };

    ghost view = { λ pair. pair.spent };

    ghost invariant = { λ pair. pair.spent ≡ false → AreShared pair.shared.clusters.now pair.shared.me pair.shared.them pair.shared.most pair.shared.domain.now pair.shared.workflow.now pair.mine pair.theirs };
}

impl<'a> Drop for Pair<'a> {
    fn drop(self) {
        let Pair {
            shared: _shared,
            mine: _mine,
            theirs: _theirs,
            spent: _spent,
        } = self;
    }
}

impl<'a> Pair<'a> {
    /// The cells of A and of B, in which nothing has happened. That of A is in hand.
    pub(crate) fn new(
        alloc: Global,
        clusters: &'a Clusters,
        domain: &'a Name,
        workflow: &'a Name,
    ) -> Result<Pair<'a>, OutOfMemory> {
        let mine = Shard::new(alloc, &home_of(clusters, A))?;
        let theirs = Shard::new(alloc, &home_of(clusters, B))?;
        Ok(Pair {
            shared: Shared {
                clusters,
                domain,
                workflow,
                me: A,
                them: B,
                most: 0,
            },
            mine,
            theirs,
            spent: false,
        })
    }

    /// The other cell comes to hand.
    pub(crate) fn turn(&mut self) {
        let (me, them) = (self.shared.me, self.shared.them);
        self.shared.me = them;
        self.shared.them = me;
        swap(&mut self.mine, &mut self.theirs);
    }

    /// The other cell, to be read.
    pub(crate) fn theirs(&self) -> &Shard {
        &self.theirs
    }

    /// Whether a cell shows the same of the workflow as the one in hand.
    pub(crate) fn shows_as(&self, alloc: Global, cell: &Shard) -> Result<bool, OutOfMemory> {
        let (domain, workflow) = (self.shared.domain, self.shared.workflow);
        let here = shown(alloc, &self.mine, domain, workflow)?;
        let there = shown(alloc, cell, domain, workflow)?;
        Ok(here.as_slice() == there.as_slice())
    }

    /// With which version the cell in hand may write to the workflow, or why it may not.
    pub(crate) fn may_write(&self, table: &DomainTable) -> Result<u64, Refusal> {
        let home = home_of(self.shared.clusters, self.shared.me);
        let (domain, workflow) = (self.shared.domain, self.shared.workflow);
        self.mine.may_write(&home, table, domain, workflow)
    }

    /// The cell in hand takes a command: what it writes, or why it does not. Refused with [`StoryError::Spent`] where the pair
    /// is spent or the workflow has grown too great.
    pub(crate) fn write(
        &mut self,
        table: &DomainTable,
        command: &Command,
    ) -> Result<Result<Written, Refusal>, StoryError> {
        if self.spent || self.shared.most > MOST {
            return Err(StoryError::Spent);
        }
        self.spent = true;
        let written = engine::write(&mut self.mine, &self.theirs, &self.shared, table, command)?;
        self.shared.most += GROWTH;
        self.spent = false;
        Ok(written)
    }

    /// The cell in hand tells the other one the batch of a key, where it has learned it: what comes of it.
    pub(crate) fn tell(&mut self, key: BatchKey) -> Result<Option<Arrived>, StoryError> {
        if self.spent {
            return Err(StoryError::Spent);
        }
        self.spent = true;
        let arrived = engine::tell(&self.mine, &mut self.theirs, &self.shared, key)?;
        self.spent = false;
        Ok(arrived)
    }

    /// The other cell is served for what it has put off by the one in hand: for how many gaps.
    pub(crate) fn repair(&mut self) -> Result<usize, StoryError> {
        if self.spent {
            return Err(StoryError::Spent);
        }
        self.spent = true;
        let gaps = engine::repair(&self.mine, &mut self.theirs, &self.shared)?;
        self.spent = false;
        Ok(gaps)
    }

    /// The other cell made anew of all that the one in hand has learned.
    pub(crate) fn remake(&self, alloc: Global) -> Result<Shard, StoryError> {
        if self.spent {
            return Err(StoryError::Spent);
        }
        let copy = engine::remake(alloc, &self.mine, &self.theirs, &self.shared)?;
        Ok(copy)
    }

    /// A new run repeats the current one in the cell in hand up to an event: what is written, or why it is not. The pair is
    /// spent by it.
    pub(crate) fn reset(
        &mut self,
        table: &DomainTable,
        event: u64,
    ) -> Result<Result<Written, Refusal>, StoryError> {
        if self.spent {
            return Err(StoryError::Spent);
        }
        self.spent = true;
        let written = engine::reset(&mut self.mine, &self.theirs, &self.shared, table, event)?;
        Ok(written)
    }

    /// The cell in hand applies signals again that its current run has not seen: how many batches it writes. The pair is spent
    /// by it.
    pub(crate) fn reapply(&mut self, table: &DomainTable) -> Result<usize, StoryError> {
        if self.spent {
            return Err(StoryError::Spent);
        }
        self.spent = true;
        let count = engine::reapply(&mut self.mine, &self.theirs, &self.shared, table)?;
        Ok(count)
    }
}
