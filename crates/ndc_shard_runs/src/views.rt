ghost use Rattle.std.specs.Prelude.{◌≡◌, ◌++◌, [], ◌∷◌, map, true, IfOk, OnOk};
ghost use Rattle.ndc_shard_runs.specs.View.{branch_with, run_with};
ghost use Rattle.ndc_model_sets.specs.Keys.{is_key_among};
ghost use Rattle.ndc_tree.specs.Tips.{tip_keys};

use crate::runs::Runs;
use ndc_current::status;
use ndc_event::{Batch, BatchKey, OutOfMemory};
use ndc_model_sets::{Batches, BranchView, BranchViews, RunView, RunViews, View, is_key};
use ndc_run::Run;
use ndc_state::Steps;
use std::alloc::Global;

impl Runs {
    ghost use Rattle.std.specs.Prelude.{◌≡◌, IfOk};
    ghost use Rattle.ndc_shard_runs.specs.View.{view_at};
    ghost use Rattle.ndc_model_sets.specs.View.{view_of};

    /// What is shown of the workflow; none exactly where nothing is learned. In time of all learned events; branches that
    /// are not current are restored from what is kept of their runs, which takes steps.
    pub fn view<L>(&self, alloc: Global, steps: &mut Steps<L>) -> Result<Option<View>, OutOfMemory>
        ensures { IfOk result (λ view. view ≡ view_at self.now) }
    {
        if self.is_empty() {
            return Ok(None);
        }
        let batches = self.batches(alloc)?;
        let copies = copies(alloc, batches.as_slice())?;
        let runs = self.runs_shown(alloc, steps)?;
        Ok(Some(View {
            batches: Batches::new(copies),
            runs: RunViews::new(runs),
        }))
    }

    /// The runs of what is shown of the workflow, ascending, with their branches. It looks at tips and version histories, not
    /// at all batches; branches that are not current are restored from what is kept of their runs, which takes steps.
    pub fn runs_shown<L>(
        &self,
        alloc: Global,
        steps: &mut Steps<L>,
    ) -> Result<Vec<RunView>, OutOfMemory>
        ensures { IfOk result (λ list. list.items ≡ (view_of self.now).runs) }
    {
        let mut list = Vec::new(alloc);
        for run in self.all_runs() {
            let is_current = self.is_current(run.tree().run());
            list.push(run_view(alloc, run, is_current, steps)?)?;
        }
        Ok(list)
    }
}

/// The run, which is the current one or not.
fn run_view<L>(
    alloc: Global,
    run: &Run,
    is_current: bool,
    steps: &mut Steps<L>,
) -> Result<RunView, OutOfMemory>
    ensures { IfOk result (λ view. view ≡ run_with run.now is_current) }
{
    let branches = branch_views(alloc, run, steps)?;
    let state = run.state();
    Ok(RunView {
        run: run.tree().run(),
        status: status(state.is_running(), is_current),
        close: state.close(),
        is_current,
        branches: BranchViews::new(branches),
    })
}

/// The branches of the run, tips ascending.
fn branch_views<L>(
    alloc: Global,
    run: &Run,
    steps: &mut Steps<L>,
) -> Result<Vec<BranchView>, OutOfMemory>
    ensures { IfOk result (λ list.
        list.items ≡ map (branch_with run.now) (tip_keys run.now.run run.now.batches)) }
{
    let keys = run.tree().branches(alloc)?;
    let mut list = Vec::new(alloc);
    for key in keys.as_slice() {
        push_branch(alloc, &mut list, run, *key, steps)?;
    }
    Ok(list)
}

/// Adds the branch with this tip.
fn push_branch<L>(
    alloc: Global,
    list: &mut Vec<BranchView>,
    run: &Run,
    key: BatchKey,
    steps: &mut Steps<L>,
) -> Result<(), OutOfMemory>
    requires { is_key_among key (tip_keys run.now.run run.now.batches) ≡ true }
    ensures { OnOk result (list.new.items ≡ list.old.items ++ branch_with run.now key ∷ []) }
{
    let Some(history) = run.tree().history_of(alloc, key)? else {
        return Ok(());
    };
    let Some(state) = run.state_of(alloc, key, steps)? else {
        return Ok(());
    };
    list.push(BranchView {
        tip: key,
        history,
        is_current: is_key(key, run.tip()),
        state,
    })?;
    Ok(())
}

/// Copies of the batches.
fn copies(alloc: Global, batches: &[&Batch]) -> Result<Vec<Batch>, OutOfMemory>
    ensures { IfOk result (λ list. list.items ≡ map (λ b. b.now) batches.now) }
{
    let mut list = Vec::with_capacity(alloc, batches.len())?;
    for batch in batches {
        list.push(batch.try_copy()?)?;
    }
    Ok(list)
}
