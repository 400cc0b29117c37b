//! Runs and their branches: which branch leads, and why.
ghost use Rattle.std.specs.Prelude.{◌≡◌, ◌++◌, OnOk};
ghost use Rattle.std.specs.List.{flat_map};
ghost use Rattle.std.specs.Option.{option_copied};
ghost use Rattle.ndc_explain.specs.Branches.{branch_told, branches_told, leader, leading_line, losing_line, run_told};

use crate::piece::{Piece, push_pieces};
use crate::writer::writer_name;
use ndc_domain::Clusters;
use ndc_event::OutOfMemory;
use ndc_model_sets::{BranchView, RunView};
use ndc_text::line::push_run_line;
use std::alloc::Global;

/// The branch that leads.
pub(crate) fn leader(branches: &[BranchView]) -> Option<&BranchView>
    ensures { option_copied result ≡ leader branches.now }
{
    for branch in branches {
        if branch.is_current {
            return Some(branch);
        }
    }
    None
}

/// Appends the line of a branch that leads.
fn push_leading(
    text: &mut Vec<u8>,
    clusters: &Option<Clusters>,
    branch: &BranchView,
) -> Result<(), OutOfMemory>
    ensures { OnOk result (text.new.items
        ≡ text.old.items ++ leading_line clusters.now branch.now) }
{
    let version = branch.tip.version;
    push_pieces(
        text,
        &[
            Piece::Plain("branch "),
            Piece::Key(branch.tip),
            Piece::Plain(" leads: its last event has version "),
            Piece::Number(version),
            Piece::Writer(writer_name(clusters, version)),
            Piece::Plain("\n"),
        ],
    )
}

/// Appends the line of a branch that lost to the one that leads.
fn push_losing(
    text: &mut Vec<u8>,
    clusters: &Option<Clusters>,
    lead: &BranchView,
    branch: &BranchView,
) -> Result<(), OutOfMemory>
    ensures { OnOk result (text.new.items
        ≡ text.old.items ++ losing_line clusters.now lead.now branch.now) }
{
    let greater = lead.tip.version;
    let version = branch.tip.version;
    push_pieces(
        text,
        &[
            Piece::Plain("branch "),
            Piece::Key(branch.tip),
            Piece::Plain(" lost: the last event of "),
            Piece::Key(lead.tip),
            Piece::Plain(" has version "),
            Piece::Number(greater),
            Piece::Writer(writer_name(clusters, greater)),
            Piece::Plain(", that of "),
            Piece::Key(branch.tip),
            Piece::Plain(" has version "),
            Piece::Number(version),
            Piece::Writer(writer_name(clusters, version)),
            Piece::Plain("; "),
            Piece::Shared(lead.history.common(&branch.history)),
            Piece::Plain("\n"),
        ],
    )
}

/// Appends the line of a branch beside the one that leads.
fn push_branch(
    text: &mut Vec<u8>,
    clusters: &Option<Clusters>,
    lead: &BranchView,
    branch: &BranchView,
) -> Result<(), OutOfMemory>
    ensures { OnOk result (text.new.items
        ≡ text.old.items ++ branch_told clusters.now lead.now branch.now) }
{
    if branch.is_current {
        push_leading(text, clusters, branch)
    } else {
        push_losing(text, clusters, lead, branch)
    }
}

/// Appends the lines of branches beside the one that leads.
fn push_beside(
    text: &mut Vec<u8>,
    clusters: &Option<Clusters>,
    lead: &BranchView,
    branches: &[BranchView],
) -> Result<(), OutOfMemory>
    ensures { OnOk result (text.new.items
        ≡ text.old.items ++ flat_map (branch_told clusters.now lead.now) branches.now) }
{
    for branch in branches {
        push_branch(text, clusters, lead, branch)?;
    }
    Ok(())
}

/// Appends the lines of branches, where one leads.
fn push_branches(
    text: &mut Vec<u8>,
    clusters: &Option<Clusters>,
    branches: &[BranchView],
) -> Result<(), OutOfMemory>
    ensures { OnOk result (text.new.items
        ≡ text.old.items ++ branches_told clusters.now (leader branches.now) branches.now) }
{
    match leader(branches) {
        None => Ok(()),
        Some(lead) => push_beside(text, clusters, lead, branches),
    }
}

/// Appends the lines of a run and of its branches.
fn push_run(
    alloc: Global,
    text: &mut Vec<u8>,
    clusters: &Option<Clusters>,
    run: &RunView,
) -> Result<(), OutOfMemory>
    ensures { OnOk result (text.new.items ≡ text.old.items ++ run_told clusters.now run.now) }
{
    push_run_line(alloc, text, run)?;
    push_branches(text, clusters, run.branches.as_slice())
}

/// Appends the lines of runs.
pub(crate) fn push_runs(
    alloc: Global,
    text: &mut Vec<u8>,
    clusters: &Option<Clusters>,
    runs: &[RunView],
) -> Result<(), OutOfMemory>
    ensures { OnOk result (text.new.items
        ≡ text.old.items ++ flat_map (run_told clusters.now) runs.now) }
{
    for run in runs {
        push_run(alloc, text, clusters, run)?;
    }
    Ok(())
}
