use ndc_event::{Name, OutOfMemory, RunId};

/// An activity, by the event that scheduled it.
#[derive(Debug, Drop, PartialEq, Eq, Hash)]
pub struct ActivityRef {
    /// The domain of the workflow.
    pub domain: Name,
    /// The workflow.
    pub workflow: Name,
    /// The run that scheduled the activity.
    pub run: RunId,
    /// The id of the event that scheduled the activity.
    pub scheduled: u64,
    /// The version of that event.
    pub version: u64,
}

impl ActivityRef {
    ghost use Rattle.std.specs.Prelude.{◌≡◌, IfOk};

    /// The same activity.
    pub fn try_copy(&self) -> Result<ActivityRef, OutOfMemory>
        ensures { IfOk result (λ copy. copy ≡ self.now) }
    {
        Ok(ActivityRef {
            domain: self.domain.try_copy()?,
            workflow: self.workflow.try_copy()?,
            run: self.run,
            scheduled: self.scheduled,
            version: self.version,
        })
    }
}

/// What was told of an activity. Reports of one activity are ordered by version, then beat.
#[derive(Debug, Drop)]
pub struct Report {
    /// The activity.
    pub activity: ActivityRef,
    /// The version of the record of the cluster that told it.
    pub version: u64,
    /// The number of the report among those of its version, counted from 1.
    pub beat: u64,
    /// What was told.
    pub details: Name,
}

impl Report {
    ghost use Rattle.std.specs.Prelude.{◌≡◌, IfOk};

    /// The same report.
    pub fn try_copy(&self) -> Result<Report, OutOfMemory>
        ensures { IfOk result (λ copy. copy ≡ self.now) }
    {
        Ok(Report {
            activity: self.activity.try_copy()?,
            version: self.version,
            beat: self.beat,
            details: self.details.try_copy()?,
        })
    }
}
