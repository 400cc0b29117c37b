ghost use Rattle.std.specs.Prelude.{◌≤◌, ◌<◌, ◌^◌, IfSome};
ghost use Rattle.std.specs.Bool.{OnTrue};
ghost use Rattle.ndc_progress.specs.Reports.{held};

use crate::given::name;
use ndc_event::{Name, OutOfMemory, RunId};
use ndc_progress::{ActivityRef, Progress};
use std::alloc::Global;
use std::test::Fail;

/// The activity that the fifth event of a run has scheduled.
fn activity(alloc: Global) -> Result<ActivityRef, OutOfMemory> {
    Ok(ActivityRef {
        domain: name(alloc, "shop")?,
        workflow: name(alloc, "o1")?,
        run: RunId {
            value: 18446744073709551617,
        },
        scheduled: 5,
        version: 1,
    })
}

/// Whether a report of this version may be told.
fn may_tell(progress: &Progress, activity: &ActivityRef, version: u64) -> bool
    ensures { OnTrue result (IfSome (held activity.now progress.now)
        (λ report. (report.version ≤ version) × (report.beat < 10 ^ 12))) }
{
    match progress.find(activity) {
        Some(report) => report.version <= version && report.beat < 1_000_000_000_000,
        None => true,
    }
}

/// The beat of what is told, where it may be told.
fn tell(alloc: Global, progress: &mut Progress, details: &str) -> Result<Option<u64>, OutOfMemory> {
    let activity = activity(alloc)?;
    if !may_tell(progress, &activity, 1) {
        return Ok(None);
    }
    Ok(Some(progress.tell(activity, 1, name(alloc, details)?)?))
}

/// Version and beat of the held report, where there is one.
fn held(alloc: Global, progress: &Progress) -> Result<Option<(u64, u64)>, OutOfMemory> {
    let activity = activity(alloc)?;
    match progress.find(&activity) {
        Some(report) => Ok(Some((report.version, report.beat))),
        None => Ok(None),
    }
}

/// What two clusters hold. Both are let go in one place.
struct Two {
    one: Progress,
    other: Progress,
}

impl Drop for Two {
    fn drop(self) {
        let Two {
            one: _one,
            other: _other,
        } = self;
    }
}

#[test]
fn what_is_told_is_taken_over(rt: HostRuntime) -> Result<(), Fail> {
    let alloc = rt.alloc();
    let mut two = Two {
        one: Progress::new(alloc),
        other: Progress::new(alloc),
    };
    assert_eq!(rt; tell(alloc, &mut two.one, "p10")?, Some(1));
    assert_eq!(rt; tell(alloc, &mut two.one, "p20")?, Some(2));
    assert_eq!(rt; two.other.merge(&two.one)?, 1);
    assert_eq!(rt; held(alloc, &two.other)?, Some((1, 2)));
    Ok(())
}
