use crate::home::{Desk, Home};
use ndc_event::{BatchKey, Name, OutOfMemory};
use ndc_model_cells::{Job, JobReply, Message};
use std::alloc::Global;

/// A cell of a cluster: it begins with nothing, does jobs one after the other, and tells what it has learned and written. The
/// shards of the program are cells; tests have smaller ones.
pub trait Cell {
    ghost use Rattle.std.specs.Prelude.{◌≡◌, ◌<◌, length, slice_get, Some, IfOk, IsTrue, OnOk};
    ghost use Rattle.ndc_model_cells.specs.Allowed.{IsAllowed};
    ghost use Rattle.ndc_model_cells.specs.Cells.{Cell as CellValue, empty_cell, learned_of};
    ghost use Rattle.ndc_model_cells.specs.Domains.{learned_of_domains};
    ghost use Rattle.ndc_model_cells.specs.Jobs.{after_job, reply_to};
    ghost use Rattle.ndc_model_cells.specs.Writing.{Desk as DeskValue};
    ghost use Rattle.ndc_model_cells.specs.declared.job.Job.{Job as Asked};
    ghost use Rattle.ndc_model_sets.specs.Learned.{has_key};
    ghost use Rattle.ndc_cluster.specs.Idle.{IsIdle};

    ghost cell: { Self → CellValue };

    ghost allows: { DeskValue → Asked → CellValue → Type 0 };

    /// Nothing has happened.
    fn new(alloc: Global, home: &Home) -> Result<Self, OutOfMemory>
        ensures { IfOk result (λ made. cell made ≡ empty_cell) };

    /// Does a job: the cell is then the one after it, and the reply is that of the cell. After want of memory no more
    /// is said of it.
    fn do_job(&mut self, desk: &Desk, job: &Job) -> Result<JobReply, OutOfMemory>
        requires { allows desk.now job.now (cell self.old) }
        ensures done { OnOk result (cell self.new ≡ after_job desk.now job.now (cell self.old)) }
        ensures reply { IfOk result (λ reply. reply ≡ reply_to desk.now job.now (cell self.old)) };

    /// Whether it is known that it has nothing to apply again, so that it need not be asked to. Takes no memory.
    fn is_idle(&self, desk: &Desk) -> bool
        ensures { IsTrue result → IsIdle desk.now (cell self.now) };

    /// Whether it has learned the batch of this key of a workflow. Takes no memory.
    fn has_learned(&self, domain: &Name, workflow: &Name, key: BatchKey) -> bool
        ensures { result ≡ has_key (Some key)
            (learned_of domain.now workflow.now (cell self.now)) };

    /// How many messages it has written. Takes no memory.
    fn written_len(&self) -> u64
        ensures { result ≡ length (cell self.now).written };

    /// The message that it has written at a place, counted from 0 in the order of writing.
    fn written_at(&self, place: u64) -> Result<Message, OutOfMemory>
        requires { place < length (cell self.now).written }
        ensures { IfOk result (λ sent. slice_get (cell self.now).written place ≡ Some sent) };

    /// The messages of what it has learned of these domains, in order of place. A carried batch comes with its carrier.
    fn learned_of(&self, alloc: Global, domains: &[Name]) -> Result<Vec<Message>, OutOfMemory>
        ensures { IfOk result (λ list.
            list.items ≡ learned_of_domains domains.now (cell self.now)) };

    ghost may: { (desk : DeskValue) (asked : Asked) (at : CellValue) → IsAllowed desk asked at
        → allows desk asked at };
}
