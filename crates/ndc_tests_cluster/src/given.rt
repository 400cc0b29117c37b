use ndc_cluster::{Cell, Desk, Home};
use ndc_domain::Clusters;
use ndc_event::{BatchKey, Name, OutOfMemory};
use ndc_model_cells::{Job, JobReply, Message, Outcome};
use ndc_model_sets::Batches;
use std::alloc::{AllocError, Global};
use std::test::Fail;

/// A name.
pub(crate) fn name(alloc: Global, text: &str) -> Result<Name, OutOfMemory> {
    Name::new(alloc, text.as_bytes()).map_err(|_| AllocError)
}

/// A cell that has written some messages and learned nothing. That of the first cluster has nothing to apply again, and finds
/// no memory for any other job; that of another cluster finds none for any job.
#[derive(Drop)]
pub(crate) struct ListCell {
    written: Vec<Message>,
    is_scarce: bool,
}

impl Cell for ListCell {
    ghost use Rattle.std.specs.Prelude.{[]};

    ghost cell = { λ list. record { arrived = []; written = list.written.items; waiting = [] } };

    ghost allows = { λ _ _ _. Unit {0} };

    ghost may = { λ _ _ _ _. tt };

    fn new(alloc: Global, home: &Home) -> Result<ListCell, OutOfMemory> {
        Ok(ListCell {
            written: Vec::new(alloc),
            is_scarce: home.me.number > 0,
        })
    }

    fn do_job(&mut self, _desk: &Desk, job: &Job) -> Result<JobReply, OutOfMemory> {
        match job {
            Job::Reapply if !self.is_scarce => Ok(JobReply {
                outcome: Outcome::Reapplied { count: 0 },
                learned: Batches::new(Vec::new(*self.written.allocator())),
            }),
            _ => Err(AllocError),
        }
    }

    fn is_idle(&self, _desk: &Desk) -> bool {
        false
    }

    fn has_learned(&self, _domain: &Name, _workflow: &Name, _key: BatchKey) -> bool {
        false
    }

    fn written_len(&self) -> u64 {
        self.written.len() as u64
    }

    fn written_at(&self, place: u64) -> Result<Message, OutOfMemory> {
        let message = &self.written[place as usize];
        message.try_copy()
    }

    fn learned_of(&self, alloc: Global, _domains: &[Name]) -> Result<Vec<Message>, OutOfMemory> {
        Ok(Vec::new(alloc))
    }
}

/// The clusters of a header of two, A and B.
pub(crate) fn two_clusters(alloc: Global) -> Result<Clusters, Fail> {
    let mut names = Vec::new(alloc);
    names.push((name(alloc, "A")?, 1))?;
    names.push((name(alloc, "B")?, 2))?;
    Ok(Clusters::build(10, names)?)
}
