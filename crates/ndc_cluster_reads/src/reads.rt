use ndc_cluster::{Cell, Home};
use ndc_command::Refusal;
use ndc_domain::DomainTable;
use ndc_event::{BatchKey, Name, OutOfMemory};
use ndc_model_cells::{Message, Place};
use ndc_resend::GapOf;
use ndc_shard_runs::Runs;
use std::alloc::Global;

/// Something that does the jobs of a cell, gives messages of what it has learned and written, tells what has arrived, what it
/// lacks and whether it may write, and serves what another cell lacks.
pub trait Reads: Cell {
    ghost use Rattle.std.specs.Prelude.{◌≡◌, [], is_some, map, IfSome, IfNone, IfOk};
    ghost use Rattle.ndc_cluster.specs.Homes.{desk_of};
    ghost use Rattle.ndc_model_cells.specs.Cells.{learned_of, message_at, put_off_in};
    ghost use Rattle.ndc_model_cells.specs.Jobs.{workflows_of};
    ghost use Rattle.ndc_model_cells.specs.Places.{batch_there, place_of};
    ghost use Rattle.ndc_model_cells.specs.Workflow.{workflow_of};
    ghost use Rattle.ndc_model_cells.specs.Writing.{may_go_on};
    ghost use Rattle.ndc_resend.specs.PutOff.{gaps_in, gaps_of};
    ghost use Rattle.ndc_resend.specs.Serving.{served_for};

    /// What it has learned of a workflow, with its states. There is none only where it has learned nothing of it. Takes no
    /// memory.
    fn runs(&self, domain: &Name, workflow: &Name) -> Option<&Runs>
        ensures found { IfSome result (λ runs.
            runs.now ≡ learned_of domain.now workflow.now (Self.cell self.now)) }
        ensures none { IfNone result (learned_of domain.now workflow.now (Self.cell self.now)
            ≡ []) };

    /// The version with which it may write to a workflow that has begun: that of its cluster's record of the domain. Takes no
    /// memory. Refused with the first of these that holds: [`Refusal::UnknownDomain`] where there is no record,
    /// [`Refusal::NotActive`] with the version where another cluster writes with it, or none does, [`Refusal::Behind`] with
    /// the greatest learned version where that is above it, and [`Refusal::NoWorkflow`] where no run of the workflow is
    /// learned.
    fn may_write(
        &self,
        home: &Home,
        table: &DomainTable,
        domain: &Name,
        workflow: &Name,
    ) -> Result<u64, Refusal>
        ensures { result ≡ may_go_on (desk_of home.now table.now) domain.now workflow.now
            (Self.cell self.now) };

    /// Whether the batch of this key of a workflow has arrived. Takes no memory.
    fn has_arrived(&self, domain: &Name, workflow: &Name, key: BatchKey) -> bool
        ensures { result ≡ is_some
            (batch_there (Self.cell self.now).arrived
            (record { domain = domain.now; workflow = workflow.now; key = key })) };

    /// Of each workflow of which something is put off the place of the first batch that is, in order of place.
    fn behind(&self, alloc: Global) -> Result<Vec<Place>, OutOfMemory>
        ensures { IfOk result (λ list.
            list.items ≡ map place_of (workflows_of (put_off_in (Self.cell self.now)))) };

    /// What is put off, in order of place, each batch with the gap before it.
    fn gaps(&self, alloc: Global) -> Result<Vec<GapOf>, OutOfMemory>
        ensures { IfOk result (λ list. list.items ≡ gaps_of (Self.cell self.now)) };

    /// Those of one workflow, in key order.
    fn gaps_in(
        &self,
        alloc: Global,
        domain: &Name,
        workflow: &Name,
    ) -> Result<Vec<GapOf>, OutOfMemory>
        ensures { IfOk result (λ list.
            list.items ≡ gaps_in (workflow_of domain.now workflow.now (Self.cell self.now))) };

    /// What it serves for a gap of another cell: the messages of the batches in it, in path order, after those of the
    /// carriers above the first of them. Nothing, where the batch that is put off there is not learned here.
    fn serve(&self, alloc: Global, asked: &GapOf) -> Result<Vec<Message>, OutOfMemory>
        ensures { IfOk result (λ list. list.items ≡ served_for asked.now (Self.cell self.now)) };

    /// The message of what it has learned at a place. A carried batch has none of its own.
    fn message_at(
        &self,
        alloc: Global,
        domain: &Name,
        workflow: &Name,
        key: BatchKey,
    ) -> Result<Option<Message>, OutOfMemory>
        ensures { IfOk result (λ sent.
            sent ≡ message_at (Self.cell self.now)
            (record { domain = domain.now; workflow = workflow.now; key = key })) };
}
