ghost use Rattle.std.specs.Prelude.{◌≡◌, None, Some, MatchOption};
ghost use Rattle.ndc_model_sets.specs.Branches.{workflow_tip};
ghost use Rattle.ndc_model_sets.specs.Current.{state_to};

use ndc_event::Batch;
use ndc_shard_runs::Runs;
use ndc_state::State;

/// The last batch of the current branch of the current run, with the state there.
pub(crate) struct Tip<'a> {
    pub(crate) batch: &'a Batch,
    pub(crate) state: &'a State,
}

impl<'a> Drop for Tip<'a> {
    fn drop(self) {
        let Tip {
            batch: _batch,
            state: _state,
        } = self;
    }
}

/// The tip of what is learned, where there is one.
pub(crate) fn tip_of(runs: &Runs) -> Option<Tip<'_>>
    ensures { MatchOption result (workflow_tip runs.now ≡ None) (λ tip.
        (workflow_tip runs.now ≡ Some tip.batch.now)
        × (state_to tip.batch.now.run tip.batch.now.key runs.now ≡ tip.state.now)) }
{
    let batch = runs.tip()?;
    let state = runs.state()?;
    Some(Tip { batch, state })
}
