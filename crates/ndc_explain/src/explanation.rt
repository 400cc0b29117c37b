//! The explanation of a dump.
ghost use Rattle.std.specs.Prelude.{◌≡◌, ◌++◌, IfOk, OnOk};
ghost use Rattle.ndc_explain.specs.Explanation.{explained, findings, findings_told, has_forks, has_zombies, is_forked, is_open, is_running};

use crate::branches::push_runs;
use crate::losses::{alone_count, loss_count, push_sides};
use crate::piece::{Piece, push_pieces};
use crate::settlers::{Settlers, settlers_of};
use crate::signals::{each_signal, push_fates, waiting_count};
use crate::standing::{is_zombie, standing};
use ndc_domain::Clusters;
use ndc_dump::Dump;
use ndc_event::{Name, OutOfMemory};
use ndc_explain_sides::{Sides, sides_of};
use ndc_model_sets::{RunStatus, RunView, View};
use ndc_reapply::Stray;
use std::alloc::Global;
use std::marker::Model;

/// What a view holds beside its runs: what both sides had, and what became of each signal.
#[derive(Drop)]
pub struct Found<'v> {
    /// What both sides had.
    sides: Sides<'v>,
    /// The signals, each once by its origin.
    signals: Vec<Stray>,
    /// What settles them.
    settlers: Settlers,
}

impl<'v> Model for Found<'v> {
    ghost use Rattle.ndc_explain.specs.Explanation.{Findings};

    ghost Value = { Findings };

    ghost view = { λ found. record {
      sides = found.sides;
      signals = found.signals.items;
      settlers = found.settlers;
    } };
}

/// Whether it is the status of an open current run.
fn is_running(status: RunStatus) -> bool
    ensures { result ≡ is_running status }
{
    match status {
        RunStatus::Running => true,
        RunStatus::Zombie | RunStatus::Closed => false,
    }
}

/// Whether the current run is open.
fn is_open(runs: &[RunView]) -> bool
    ensures { result ≡ is_open runs.now }
{
    for run in runs {
        if is_running(run.status) {
            return true;
        }
    }
    false
}

/// Whether the current run of a view is open.
fn has_open(view: &View) -> bool
    ensures { result ≡ is_open view.now.runs }
{
    is_open(view.runs.as_slice())
}

/// What a view holds beside its runs. It takes time of the batches, and of sorting the signals.
pub fn findings(alloc: Global, view: &View) -> Result<Found, OutOfMemory>
    ensures { IfOk result (λ found. found ≡ findings view.now) }
{
    let batches = view.batches.as_slice();
    let keys = standing(alloc, view)?;
    let sides = sides_of(alloc, &keys, batches)?;
    let signals = each_signal(alloc, batches)?;
    let settlers = settlers_of(alloc, &keys, batches)?;
    Ok(Found {
        sides,
        signals,
        settlers,
    })
}

impl<'v> Found<'v> {
    ghost use Rattle.std.specs.Prelude.{◌≡◌, ◌++◌, OnOk};
    ghost use Rattle.std.specs.List.{flat_map};
    ghost use Rattle.ndc_explain.specs.Explanation.{counts_line, has_lost, has_waiting, leaves_any, waiting};
    ghost use Rattle.ndc_explain.specs.Losses.{sides_told};
    ghost use Rattle.ndc_explain.specs.Signals.{signal_line};

    /// How many signals wait.
    fn waiting(&self) -> usize
        ensures { result ≡ waiting self.now }
    {
        waiting_count(&self.settlers, self.signals.as_slice())
    }

    /// Whether something is to be driven again.
    pub fn has_lost(&self) -> bool
        ensures { result ≡ has_lost self.now }
    {
        0 < loss_count(false, false, self.sides.lost.as_slice())
    }

    /// Whether a signal waits.
    pub fn has_waiting(&self) -> bool
        ensures { result ≡ has_waiting self.now }
    {
        0 < self.waiting()
    }

    /// Whether something is to be driven again, or a signal waits.
    pub fn leaves_any(&self) -> bool
        ensures { result ≡ leaves_any self.now }
    {
        self.has_lost() || self.has_waiting()
    }

    /// Appends the lines of what both sides had.
    fn push_sides(
        &self,
        text: &mut Vec<u8>,
        clusters: &Option<Clusters>,
        all: bool,
    ) -> Result<(), OutOfMemory>
        ensures { OnOk result (text.new.items
            ≡ text.old.items ++ sides_told clusters.now all self.now.sides) }
    {
        push_sides(text, clusters, all, &self.sides)
    }

    /// Appends the lines of the signals of a workflow, whose current run is open or not.
    fn push_fates(
        &self,
        alloc: Global,
        text: &mut Vec<u8>,
        clusters: &Option<Clusters>,
        workflow: &Name,
        is_open: bool,
    ) -> Result<(), OutOfMemory>
        ensures { OnOk result (text.new.items
            ≡ text.old.items ++ flat_map
            (signal_line clusters.now workflow.now is_open self.now.settlers) self.now.signals) }
    {
        push_fates(
            alloc,
            text,
            clusters,
            workflow,
            is_open,
            &self.settlers,
            self.signals.as_slice(),
        )
    }

    /// Appends the line of counts.
    fn push_counts(&self, text: &mut Vec<u8>, all: bool, view: &View) -> Result<(), OutOfMemory>
        ensures { OnOk result (text.new.items
            ≡ text.old.items ++ counts_line all view.now self.now) }
    {
        let lost = self.sides.lost.as_slice();
        push_pieces(
            text,
            &[
                Piece::Plain("batches "),
                Piece::Number(view.batches.as_slice().len() as u64),
                Piece::Plain(" runs "),
                Piece::Number(view.runs.as_slice().len() as u64),
                Piece::Plain(" re-drive "),
                Piece::Number(loss_count(all, false, lost) as u64),
                Piece::Plain(" on both "),
                Piece::Number(loss_count(all, true, lost) as u64),
                Piece::Plain(" only current "),
                Piece::Number(alone_count(all, self.sides.alone.as_slice()) as u64),
                Piece::Plain(" signals "),
                Piece::Number(self.signals.len() as u64),
                Piece::Plain(" waiting "),
                Piece::Number(self.waiting() as u64),
                Piece::Plain("\n"),
            ],
        )
    }
}

/// Appends the lines of what was found.
fn push_findings(
    alloc: Global,
    text: &mut Vec<u8>,
    clusters: &Option<Clusters>,
    all: bool,
    dump: &Dump,
    found: &Found,
) -> Result<(), OutOfMemory>
    ensures { OnOk result (text.new.items
        ≡ text.old.items ++ findings_told clusters.now all dump.now found.now) }
{
    found.push_sides(text, clusters, all)?;
    found.push_fates(alloc, text, clusters, &dump.workflow, has_open(&dump.view))?;
    found.push_counts(text, all, &dump.view)?;
    Ok(())
}

/// Whether a run has several branches.
fn is_forked(run: &RunView) -> bool
    ensures { result ≡ is_forked run.now }
{
    1 < run.branches.as_slice().len()
}

/// Whether a run of a view has several branches.
pub fn has_forks(view: &View) -> bool
    ensures { result ≡ has_forks view.now }
{
    view.runs.as_slice().iter().any(|run| is_forked(run))
}

/// Whether a run of a view is a zombie: open without being the current run.
pub fn has_zombies(view: &View) -> bool
    ensures { result ≡ has_zombies view.now }
{
    view.runs.as_slice().iter().any(|run| is_zombie(run.status))
}

/// Explains a dump after the line that names its workflow, with the names of the clusters that wrote where these are
/// given: each run, which of its branches leads and why each other one lost; what both sides had but for signals: each
/// event that stands on no current branch, with the event beside it on a current one, and what happened on a current one
/// alone; each signal, once, with the batch on a current branch that has it or a copy of it, or with what it waits for;
/// and a line of counts. Decisions are left out unless all are told.
pub fn push_explained(
    alloc: Global,
    text: &mut Vec<u8>,
    clusters: &Option<Clusters>,
    all: bool,
    dump: &Dump,
    found: &Found,
) -> Result<(), OutOfMemory>
    ensures { OnOk result (text.new.items
        ≡ text.old.items ++ explained clusters.now all dump.now found.now) }
{
    push_runs(alloc, text, clusters, dump.view.runs.as_slice())?;
    push_findings(alloc, text, clusters, all, dump, found)
}
