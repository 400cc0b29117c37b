ghost use Rattle.std.specs.Prelude.{◌≡◌, ◌++◌, IfOk, OnOk, IsTrue, map};
ghost use Rattle.ndc_reapply.specs.Reapplied.{copy_of, reapplied};

use crate::stray::Stray;
use ndc_event::{EventKind, OutOfMemory, Rare};
use ndc_state::State;
use std::alloc::Global;

/// Appends a copy of each signal, in order.
fn push_copies(alloc: Global, kinds: &mut Vec<EventKind>, list: &[Stray]) -> Result<(), OutOfMemory>
    ensures ok { OnOk result (kinds.new.items ≡ kinds.old.items ++ map copy_of list.now) }
{
    for stray in list {
        kinds.push(EventKind::WorkflowExecutionSignaled {
            signal_name: stray.name.try_copy()?,
            input: stray.input.try_copy()?,
            origin: Rare::of(alloc, Some(stray.origin))?,
        })?;
    }
    Ok(())
}

/// The kinds of the batch of this version that applies the signals again below the tip of this state: the
/// failover close where it is due, a copy of each signal, and the scheduling of a decision where none is
/// pending.
#[tactic(auto, unfolding(crate::specs::Reapplied::reapplied))]
pub fn reapply_events(
    alloc: Global,
    state: &State,
    version: u64,
    list: &[Stray],
) -> Result<Vec<EventKind>, OutOfMemory>
    requires { IsTrue state.now.running }
    ensures { IfOk result (λ kinds. kinds.items ≡ reapplied state.now version list.now) }
{
    let mut kinds = Vec::new(alloc);
    state.push_failover_close(alloc, version, &mut kinds)?;
    push_copies(alloc, &mut kinds, list)?;
    state.push_wake(&mut kinds)?;
    Ok(kinds)
}
