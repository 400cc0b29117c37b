ghost use Rattle.std.specs.Prelude.{◌≡◌, IfOk, codes};

use crate::state::State;
use crate::tracked::is_started;
use ndc_event::{EventKind, Name, NameError, OutOfMemory};
use std::alloc::{AllocError, Global};

impl State {
    ghost use Rattle.std.specs.Prelude.{◌≡◌, ◌++◌, OnOk};
    ghost use Rattle.ndc_state.specs.Written.{is_failover_close_due, failover_close, wake};

    /// Whether a batch of this version that goes below the tip of this state begins with the failover close:
    /// the version is above the last event's, and a decision is started.
    pub fn is_failover_close_due(&self, version: u64) -> bool
        ensures { result ≡ is_failover_close_due self.now version }
    {
        self.version() < version && is_started(self.decision())
    }

    /// Appends what a batch of this version that goes below the tip of this state begins with: where it is
    /// due, the started decision fails with the cause `failoverClose` and is scheduled again. For want of memory
    /// the first of the two may stand there.
    pub fn push_failover_close(
        &self,
        alloc: Global,
        version: u64,
        kinds: &mut Vec<EventKind>,
    ) -> Result<(), OutOfMemory>
        ensures ok { OnOk result
            (kinds.new.items ≡ kinds.old.items ++ failover_close self.now version) }
    {
        if self.is_failover_close_due(version) {
            kinds.push(EventKind::DecisionTaskFailed {
                cause: failover_close_cause(alloc)?,
            })?;
            kinds.push(EventKind::DecisionTaskScheduled)?;
        }
        Ok(())
    }

    /// Appends the scheduling of a decision, where none is pending. For want of memory nothing is appended.
    pub fn push_wake(&self, kinds: &mut Vec<EventKind>) -> Result<(), OutOfMemory>
        ensures ok { OnOk result (kinds.new.items ≡ kinds.old.items ++ wake self.now) }
    {
        if self.decision().is_none() {
            kinds.push(EventKind::DecisionTaskScheduled)?;
        }
        Ok(())
    }
}

/// The cause of the decision that a failover fails.
fn failover_close_cause(alloc: Global) -> Result<Name, OutOfMemory>
    ensures { IfOk result (λ name. name ≡ codes "failoverClose") }
{
    match Name::new(alloc, b"failoverClose".as_slice()) {
        Ok(name) => Ok(name),
        Err(NameError::Memory) => Err(AllocError),
        Err(_) => unreachable!(),
    }
}
