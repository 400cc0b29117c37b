ghost use Rattle.std.specs.Prelude.{◌≡◌, OnOk};
ghost use Rattle.ndc_event.specs.Outcome.{Gives};
ghost use Rattle.ndc_node_frames.specs.Parts.{activity_shape, activity_value};
ghost use Rattle.ndc_node_shapes.specs.Read.{read_of};
ghost use Rattle.ndc_node_shapes.specs.Text.{onto};
ghost use Rattle.ndc_node_shapes.specs.declared.fault.Fault.TheVariants.{Memory};

use crate::piece::{MAX_LEVEL, take_items};
use ndc_event::{Items, OutOfMemory};
use ndc_node_shapes::framed::push_list;
use ndc_node_shapes::piece::{
    MAX_ID, MAX_VERSION, push_end, push_first, push_next, push_number, push_run, take_end,
    take_first, take_name, take_next, take_number, take_run,
};
use ndc_node_shapes::{Fault, Framed};
use ndc_progress::{ActivityRef, Report};
use std::alloc::Global;

/// A report that is told.
#[derive(Debug, Drop)]
pub struct ToldReport {
    /// The report. In a frame its version is 0 to 10^13, and its beat 0 to 10^12.
    pub report: Report,
}

/// Reports that are told, in order.
pub type ToldReports = Items<ToldReport>;

/// What a node holds of the progress of activities.
#[derive(Debug, Drop)]
pub struct Held {
    /// The reports.
    pub reports: ToldReports,
}

/// Appends the text of an activity.
fn push_activity(text: &mut Vec<u8>, activity: &ActivityRef) -> Result<(), OutOfMemory>
    ensures { OnOk result (text.new.items
        ≡ onto activity_shape text.old.items (activity_value activity.now)) }
{
    push_first(text, "domain")?;
    activity.domain.push(text)?;
    push_next(text, "run")?;
    push_run(text, activity.run)?;
    push_next(text, "scheduled")?;
    push_number(text, activity.scheduled)?;
    push_next(text, "version")?;
    push_number(text, activity.version)?;
    push_next(text, "workflow")?;
    activity.workflow.push(text)?;
    push_end(text)
}

/// Takes an activity.
fn take_activity(alloc: Global, left: &[u8]) -> Result<(ActivityRef, &[u8]), Fault>
    ensures { Gives Memory (λ taken. (activity_value taken.0, taken.1.now)) result
        (read_of activity_shape left.now) }
{
    let left = take_first(left, "domain")?;
    let (domain, left) = take_name(alloc, left)?;
    let left = take_next(left, "run")?;
    let (run, left) = take_run(alloc, left)?;
    let left = take_next(left, "scheduled")?;
    let (scheduled, left) = take_number(left, 1, MAX_ID)?;
    let left = take_next(left, "version")?;
    let (version, left) = take_number(left, 0, MAX_VERSION)?;
    let left = take_next(left, "workflow")?;
    let (workflow, left) = take_name(alloc, left)?;
    let left = take_end(left)?;
    let activity = ActivityRef {
        domain,
        workflow,
        run,
        scheduled,
        version,
    };
    Ok((activity, left))
}

impl Framed for ToldReport {
    ghost use Rattle.ndc_node_frames.specs.Parts.{report_shape, report_value};

    ghost shape = { report_shape };

    ghost value = { report_value };

    fn push(&self, text: &mut Vec<u8>) -> Result<(), OutOfMemory> {
        push_first(text, "activity")?;
        push_activity(text, &self.report.activity)?;
        push_next(text, "beat")?;
        push_number(text, self.report.beat)?;
        push_next(text, "details")?;
        self.report.details.push(text)?;
        push_next(text, "version")?;
        push_number(text, self.report.version)?;
        push_end(text)
    }

    fn take(alloc: Global, left: &[u8]) -> Result<(ToldReport, &[u8]), Fault> {
        let left = take_first(left, "activity")?;
        let (activity, left) = take_activity(alloc, left)?;
        let left = take_next(left, "beat")?;
        let (beat, left) = take_number(left, 0, MAX_LEVEL)?;
        let left = take_next(left, "details")?;
        let (details, left) = take_name(alloc, left)?;
        let left = take_next(left, "version")?;
        let (version, left) = take_number(left, 0, MAX_VERSION)?;
        let left = take_end(left)?;
        Ok((
            ToldReport {
                report: Report {
                    activity,
                    version,
                    beat,
                    details,
                },
            },
            left,
        ))
    }
}

impl Framed for Held {
    ghost use Rattle.ndc_node_frames.specs.Parts.{held_shape, held_value};

    ghost shape = { held_shape };

    ghost value = { held_value };

    fn push(&self, text: &mut Vec<u8>) -> Result<(), OutOfMemory> {
        push_first(text, "reports")?;
        push_list(text, self.reports.as_slice())?;
        push_end(text)
    }

    fn take(alloc: Global, left: &[u8]) -> Result<(Held, &[u8]), Fault> {
        let left = take_first(left, "reports")?;
        let (reports, left) = take_items::<ToldReport>(alloc, left)?;
        let left = take_end(left)?;
        Ok((Held { reports }, left))
    }
}
