use ndc_event::{Items, Name, OutOfMemory};

/// What a caller asks of a workflow.
#[derive(Debug, Drop)]
pub enum Command {
    /// Begins a run.
    Start { workflow_type: Name },
    /// Sends a signal to the current run.
    Signal { name: Name, input: Name },
    /// Asks the current run to cancel itself.
    Cancel,
    /// Closes the current run from outside.
    Terminate { reason: Name },
    /// Starts the scheduled decision.
    Decide,
    /// Completes the started decision with what the workflow decided.
    Respond { actions: Actions },
    /// Fails the started decision, which is scheduled again.
    FailDecision { cause: Name },
    /// Times the started decision out, which is scheduled again.
    TimeoutDecision,
    /// Starts a scheduled activity.
    ActivityStart { id: Name },
    /// Completes a started activity.
    ActivityDone { id: Name, result: Name },
    /// Fails a started activity.
    ActivityFail { id: Name, reason: Name },
    /// Times a pending activity out.
    ActivityTimeout { id: Name },
    /// Fires a pending timer.
    Fire { id: Name },
    /// Tells that a child has started.
    ChildStart { id: Name },
    /// Tells that a started child has completed.
    ChildDone { id: Name, result: Name },
    /// Tells that a started child has failed.
    ChildFail { id: Name, reason: Name },
}

/// One action of a completed decision. The last four close the run.
#[derive(Clone, Debug, Drop)]
pub enum Action {
    /// An activity of this id and type is scheduled.
    Activity { id: Name, activity_type: Name },
    /// A timer of this id is started.
    Timer { id: Name },
    /// The timer of this id is canceled.
    Untimer { id: Name },
    /// A child workflow of this id and type is initiated.
    Child { id: Name, workflow_type: Name },
    /// A marker of this name is recorded.
    Marker { name: Name },
    /// Closes the run with this result.
    Complete { result: Name },
    /// Closes the run with this reason.
    Fail { reason: Name },
    /// Closes the run as canceled, where that was asked for.
    Canceled,
    /// Closes the run and begins a new one of this type.
    Continue { workflow_type: Name },
}

impl Action {
    ghost use Rattle.std.specs.Prelude.{◌≡◌, IfOk};

    /// The same action.
    pub fn try_copy(&self) -> Result<Action, OutOfMemory>
        ensures { IfOk result (λ copy. copy ≡ self.now) }
    {
        self.clone()
    }
}

/// A list of actions, in order.
pub type Actions = Items<Action>;

impl Command {
    ghost use Rattle.std.specs.Prelude.{◌≡◌, IfOk};

    /// The same command.
    pub fn try_copy(&self) -> Result<Command, OutOfMemory>
        ensures { IfOk result (λ copy. copy ≡ self.now) }
    {
        Ok(match self {
            Command::Start { workflow_type } => Command::Start {
                workflow_type: workflow_type.try_copy()?,
            },
            Command::Signal { name, input } => Command::Signal {
                name: name.try_copy()?,
                input: input.try_copy()?,
            },
            Command::Cancel => Command::Cancel,
            Command::Terminate { reason } => Command::Terminate {
                reason: reason.try_copy()?,
            },
            Command::Decide => Command::Decide,
            Command::Respond { actions } => Command::Respond {
                actions: actions.clone()?,
            },
            Command::FailDecision { cause } => Command::FailDecision {
                cause: cause.try_copy()?,
            },
            Command::TimeoutDecision => Command::TimeoutDecision,
            Command::ActivityStart { id } => Command::ActivityStart { id: id.try_copy()? },
            Command::ActivityDone { id, result } => Command::ActivityDone {
                id: id.try_copy()?,
                result: result.try_copy()?,
            },
            Command::ActivityFail { id, reason } => Command::ActivityFail {
                id: id.try_copy()?,
                reason: reason.try_copy()?,
            },
            Command::ActivityTimeout { id } => Command::ActivityTimeout { id: id.try_copy()? },
            Command::Fire { id } => Command::Fire { id: id.try_copy()? },
            Command::ChildStart { id } => Command::ChildStart { id: id.try_copy()? },
            Command::ChildDone { id, result } => Command::ChildDone {
                id: id.try_copy()?,
                result: result.try_copy()?,
            },
            Command::ChildFail { id, reason } => Command::ChildFail {
                id: id.try_copy()?,
                reason: reason.try_copy()?,
            },
        })
    }
}
