ghost use Rattle.std.specs.Prelude.{◌≡◌};
ghost use Rattle.ndc_command.specs.Stage.{stage_of, refuse, needs_pending, needs_waiting, needs_started};

use crate::refusal::{CommandError, Refusal};
use ndc_state::Pending;

/// How far something is that a command speaks of.
#[derive(Clone, Copy, Debug)]
pub(crate) enum Stage {
    /// It is not pending.
    Missing,
    /// It is scheduled, and has not started.
    Waiting,
    /// It has started.
    Started,
}

/// How far it is.
pub(crate) fn stage_of(pending: Option<Pending>) -> Stage
    ensures { result ≡ stage_of pending }
{
    match pending {
        None => Stage::Missing,
        Some(pending) => match pending.started {
            None => Stage::Waiting,
            Some(_) => Stage::Started,
        },
    }
}

/// The refusal, where its test holds.
#[tactic(auto, unfolding(crate::specs::Stage::refuse))]
pub(crate) fn refuse(test: bool, refusal: Refusal) -> Result<(), CommandError>
    ensures { result ≡ refuse test refusal }
{
    if test {
        return Err(CommandError::Refused(refusal));
    }
    Ok(())
}

/// The refusal, where it is missing.
#[tactic(auto, unfolding(crate::specs::Stage::needs_pending))]
pub(crate) fn needs_pending(stage: Stage, missing: Refusal) -> Result<(), CommandError>
    ensures { result ≡ needs_pending stage missing }
{
    match stage {
        Stage::Missing => Err(CommandError::Refused(missing)),
        Stage::Waiting => Ok(()),
        Stage::Started => Ok(()),
    }
}

/// The one refusal where it is missing, the other where it has started.
#[tactic(auto, unfolding(crate::specs::Stage::needs_waiting))]
pub(crate) fn needs_waiting(
    stage: Stage,
    missing: Refusal,
    started: Refusal,
) -> Result<(), CommandError>
    ensures { result ≡ needs_waiting stage missing started }
{
    match stage {
        Stage::Missing => Err(CommandError::Refused(missing)),
        Stage::Waiting => Ok(()),
        Stage::Started => Err(CommandError::Refused(started)),
    }
}

/// The one refusal where it is missing, the other where it has not started.
#[tactic(auto, unfolding(crate::specs::Stage::needs_started))]
pub(crate) fn needs_started(
    stage: Stage,
    missing: Refusal,
    waiting: Refusal,
) -> Result<(), CommandError>
    ensures { result ≡ needs_started stage missing waiting }
{
    match stage {
        Stage::Missing => Err(CommandError::Refused(missing)),
        Stage::Waiting => Err(CommandError::Refused(waiting)),
        Stage::Started => Ok(()),
    }
}
