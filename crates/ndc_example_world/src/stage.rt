//! A world with the header that it was made of: who uses it owes nothing.
ghost use Rattle.std.specs.Prelude.{◌≡◌, true, IfOk};

use crate::dumping::read_again;
use crate::error::StoryError;
use crate::looking::{self, cell, settled_alike, shown};
use crate::making::{Made, cluster, command_line, start_of};
use crate::running;
use ndc_event::{BatchKey, Name, OutOfMemory};
use ndc_script_types::Header;
use ndc_shard::Shard;
use ndc_world::{ShardWorld, Summary};
use std::alloc::Global;
use std::marker::Model;
use std::thread::Threads;

/// A world, and the workflow that is looked at in it. After want of memory in a call that changes the world it is spent.
pub(crate) struct Stage<'a> {
    header: &'a Header,
    domain: &'a Name,
    workflow: &'a Name,
    world: ShardWorld<'a>,
}

impl<'a> Model for Stage<'a> {
    ghost use Rattle.std.specs.Prelude.{Bool, ◌≡◌, false};
    ghost use Rattle.ndc_example_world.specs.Standing.{IsStanding};

    ghost Value = { Bool };

    ghost view = { λ stage. stage.world.spent };

    ghost invariant = { λ stage. stage.world.spent ≡ false → IsStanding stage.header.now stage.world };
}

impl<'a> Drop for Stage<'a> {
    fn drop(self) {
        let Stage {
            header: _header,
            domain: _domain,
            workflow: _workflow,
            world: _world,
        } = self;
    }
}

impl<'a> Stage<'a> {
    ghost use Rattle.std.specs.Prelude.{◌≡◌, true, IfOk};
    ghost use Rattle.ndc_script_types.specs.WellFormed.{IsWellFormedHeader};

    /// The world of a header, in which nothing has happened.
    pub(crate) fn new(
        alloc: Global,
        header: &'a Header,
        domain: &'a Name,
        workflow: &'a Name,
    ) -> Result<Stage<'a>, OutOfMemory>
        requires { IsWellFormedHeader header.now }
    {
        let world = ShardWorld::build(alloc, header)?;
        Ok(Stage {
            header,
            domain,
            workflow,
            world,
        })
    }

    /// Reads lines as they come, the first of which has this number, and runs each of them.
    pub(crate) fn run<R: Threads + Sync>(
        &mut self,
        rt: &R,
        alloc: Global,
        number: u64,
        bytes: &[u8],
        text: &mut Vec<u8>,
    ) -> Result<(), StoryError> {
        if self.world.is_spent() {
            return Err(StoryError::Spent);
        }
        running::run_text(rt, alloc, self.header, &mut self.world, number, bytes, text)?;
        Ok(())
    }

    /// The workflow is started at a cluster, by a line of this number that is made here.
    pub(crate) fn start<R: Threads + Sync>(
        &mut self,
        rt: &R,
        alloc: Global,
        number: u64,
        at: &[u8],
        text: &mut Vec<u8>,
    ) -> Result<(), StoryError> {
        if self.world.is_spent() {
            return Err(StoryError::Spent);
        }
        let at = cluster(self.header, at)?;
        let (domain, workflow) = (self.domain.try_copy()?, self.workflow.try_copy()?);
        let order = start_of(Name::new(alloc, b"order")?);
        let made = Made {
            line: command_line(self.header, number, at, domain, workflow, order),
        };
        running::run_line(rt, alloc, &mut self.world, &made.line, text)?;
        Ok(())
    }

    /// Lets all clusters come to the same state, and tells what that came to; and whether two of them then show the same of the
    /// workflow, which they do where they are members of the domain. Where one is not, [`StoryError::NoMember`].
    pub(crate) fn settle<R: Threads + Sync>(
        &mut self,
        rt: &R,
        alloc: Global,
        one: &[u8],
        two: &[u8],
        text: &mut Vec<u8>,
    ) -> Result<bool, StoryError>
        ensures { IfOk result (λ same. same ≡ true) }
    {
        if self.world.is_spent() {
            return Err(StoryError::Spent);
        }
        let one = cluster(self.header, one)?;
        let two = cluster(self.header, two)?;
        running::settle(rt, alloc, &mut self.world, text)?;
        let (world, header) = (&self.world, self.header);
        let (domain, workflow) = (self.domain, self.workflow);
        let same = settled_alike(alloc, world, header, one, two, domain, workflow)?;
        Ok(same)
    }

    /// Tells the version that a cluster's record of the domain has.
    pub(crate) fn tell_record(&self, at: &[u8], text: &mut Vec<u8>) -> Result<(), StoryError> {
        if self.world.is_spent() {
            return Err(StoryError::Spent);
        }
        let at = cluster(self.header, at)?;
        looking::tell_record(text, &self.world, self.header, at, self.domain)?;
        Ok(())
    }

    /// Tells whether a cluster has learned the batch of a key.
    pub(crate) fn tell_learned(
        &self,
        at: &[u8],
        key: BatchKey,
        text: &mut Vec<u8>,
    ) -> Result<(), StoryError> {
        let cell = self.cell(at)?;
        looking::tell_learned(text, cell, self.domain, self.workflow, key)?;
        Ok(())
    }

    /// The dump of what a cluster shows of the workflow.
    pub(crate) fn shown(&self, alloc: Global, at: &[u8]) -> Result<Vec<u8>, StoryError> {
        let cell = self.cell(at)?;
        let text = shown(alloc, cell, self.domain, self.workflow)?;
        Ok(text)
    }

    /// The dump that is read of the batches alone which a cluster has learned of the workflow.
    pub(crate) fn read_again(&self, alloc: Global, at: &[u8]) -> Result<Vec<u8>, StoryError> {
        let cell = self.cell(at)?;
        read_again(alloc, cell, self.domain, self.workflow)
    }

    /// What the world comes to, in numbers.
    pub(crate) fn summary(&self, alloc: Global) -> Result<Summary, StoryError> {
        if self.world.is_spent() {
            return Err(StoryError::Spent);
        }
        let summary = self.world.summary(alloc)?;
        Ok(summary)
    }

    /// The cell of the workflow at a cluster.
    fn cell(&self, at: &[u8]) -> Result<&Shard, StoryError> {
        if self.world.is_spent() {
            return Err(StoryError::Spent);
        }
        let at = cluster(self.header, at)?;
        Ok(cell(&self.world, self.header, at, self.domain, self.workflow))
    }
}
