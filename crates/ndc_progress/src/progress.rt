ghost use Rattle.std.specs.Prelude.{◌≡◌, ◌≤◌, ◌<◌, ◌^◌, length, map, option_copied, IfOk, IfSome, Some};
ghost use Rattle.std.specs.Map.{values_of};
ghost use Rattle.indexmap.specs.IndexMap.{insert_all, spare};
ghost use Rattle.ndc_progress.specs.Keyed.{AreKeyed, keyed, news};
ghost use Rattle.ndc_progress.specs.Reports.{held, next_beat, replaces, same_activity};

use crate::report::{ActivityRef, Report};
use indexmap::IndexMap;
use ndc_event::{Name, OutOfMemory};
use std::alloc::Global;
use std::marker::Model;

/// What is held of the progress of activities: the greatest report of each one, by version, then beat. Seen as the
/// list of these reports, in the order in which their activities came first.
#[derive(Drop)]
pub struct Progress {
    reports: IndexMap<ActivityRef, Report>,
}

impl Model for Progress {
    ghost use Rattle.std.specs.Prelude.{List};
    ghost use Rattle.ndc_progress.specs.declared.report.Report.{Report};
    ghost use Rattle.std.specs.Map.{values_of};

    ghost Value = { List Report };

    ghost use Rattle.ndc_progress.specs.Keyed.{AreKeyed};

    ghost view = { λ progress. values_of progress.reports.entries };

    ghost invariant = { λ progress. AreKeyed progress.reports.entries };
}

/// The beat of the next report with a version, after the held one.
fn beat_behind(held: Option<&Report>, version: u64) -> u64
    requires { IfSome (option_copied held) (λ report. report.beat < 10 ^ 12) }
    ensures { result ≡ next_beat version (option_copied held.entry) }
{
    match held {
        Some(report) if report.version == version => report.beat + 1,
        _ => 1,
    }
}

/// Whether a report takes the place of the held one.
fn is_greater(report: &Report, held: Option<&Report>) -> bool
    ensures { result ≡ replaces (option_copied held.entry) (Some report.now) }
{
    match held {
        Some(held) => {
            held.version < report.version
                || held.version == report.version && held.beat < report.beat
        }
        None => true,
    }
}

/// What is held of an activity, and the place after it. There is no search where it stands at the place that is given.
fn find_near<'a>(
    own: &'a IndexMap<ActivityRef, Report>,
    activity: &ActivityRef,
    near: usize,
) -> (Option<&'a Report>, usize)
    requires { AreKeyed own.now.entries }
    ensures { option_copied result.0 ≡ held activity.now (values_of own.now.entries) }
{
    if let Some((there, report)) = own.get_index(near) {
        if there == activity {
            return (Some(report), near.saturating_add(1));
        }
    }
    match own.get_full(activity) {
        Some((place, _, report)) => (Some(report), place.saturating_add(1)),
        None => (None, near),
    }
}

/// Copies of the reports that take the place of what is held, each under its activity. Reports that stand in one order in
/// both maps are compared place by place.
#[tactic(auto, using(crate::proofs::HeldLemmas::news_more, crate::proofs::HeldLemmas::news_same, crate::proofs::HeldLemmas::lookup_held))]
fn news_among(
    own: &IndexMap<ActivityRef, Report>,
    others: &IndexMap<ActivityRef, Report>,
    alloc: Global,
) -> Result<Vec<(ActivityRef, Report)>, OutOfMemory>
    requires { AreKeyed own.now.entries }
    ensures { IfOk result (λ taken.
        taken.items ≡ keyed (news (values_of own.now.entries) (values_of others.now.entries))) }
{
    let mut taken = Vec::new(alloc);
    let mut near = 0;
    for report in others.values() {
        let (held, behind) = find_near(own, &report.activity, near);
        near = behind;
        if is_greater(report, held) {
            taken.push((report.activity.try_copy()?, report.try_copy()?))?;
        }
    }
    Ok(taken)
}

/// Copies of these reports.
fn reports_of(alloc: Global, taken: &[(ActivityRef, Report)]) -> Result<Vec<Report>, OutOfMemory>
    ensures { IfOk result (λ reports. reports.items ≡ map (λ entry. entry.1) taken.now) }
{
    let mut reports = Vec::new(alloc);
    for entry in taken {
        reports.push(entry.1.try_copy()?)?;
    }
    Ok(reports)
}

/// Puts reports under their activities, where there is room.
fn put_all(reports: &mut IndexMap<ActivityRef, Report>, taken: Vec<(ActivityRef, Report)>)
    requires { length taken.items ≤ spare reports.old }
    ensures { reports.new.entries ≡ insert_all same_activity reports.old.entries taken.items }
{
    for (activity, report) in taken {
        match reports.insert(activity, report) {
            Ok(_) => {}
            Err(_) => unreachable!(),
        }
    }
}

impl Progress {
    ghost use Rattle.std.specs.Prelude.{◌≡◌, ◌≤◌, ◌<◌, ◌^◌, ◌++◌, [], map, option_copied, IfOk, IfSome, OnOk, OnErr};
    ghost use Rattle.ndc_progress.specs.Keyed.{AreOnce, news};
    ghost use Rattle.ndc_progress.specs.Reports.{greatest_of, held, next_beat, next_report, with_report, merged, merge_count};

    /// Nothing was told.
    pub fn new(alloc: Global) -> Progress
        ensures { result ≡ [] }
    {
        Progress {
            reports: IndexMap::new(alloc),
        }
    }

    /// The report that is held of an activity; none exactly where none of it was told. Takes no memory.
    pub fn find(&self, activity: &ActivityRef) -> Option<&Report>
        ensures found { option_copied result ≡ held activity.now self.now }
        ensures once { AreOnce self.now }
    {
        self.reports.get(activity)
    }

    /// Tells of an activity with a version, and answers the beat: one more than that of the held report where this
    /// has the same version, else 1. The report takes the place of the held one. The version is not below that of
    /// the held report, and its beat is below 10^12. Where memory runs out, all stays as it was.
    pub fn tell(
        &mut self,
        activity: ActivityRef,
        version: u64,
        details: Name,
    ) -> Result<u64, OutOfMemory>
        requires { IfSome (held activity self.old) (λ report.
            (report.version ≤ version) × (report.beat < 10 ^ 12)) }
        ensures beat { IfOk result (λ beat. beat ≡ next_beat version (held activity self.old)) }
        ensures told { OnOk result
            (self.new ≡ with_report self.old (next_report activity version details self.old)) }
        ensures unchanged { OnErr result (self.new ≡ self.old) }
    {
        let beat = beat_behind(self.reports.get(&activity), version);
        let key = activity.try_copy()?;
        let report = Report {
            activity,
            version,
            beat,
            details,
        };
        self.reports.insert(key, report)?;
        Ok(beat)
    }

    /// Takes over the reports of another one, and answers of how many activities it then holds another report: those
    /// of which it held none or a smaller one. Where memory runs out, all stays as it was.
    pub fn merge(&mut self, other: &Progress) -> Result<u64, OutOfMemory>
        ensures count { IfOk result (λ count. count ≡ merge_count self.old other.now) }
        ensures merged { OnOk result (self.new ≡ merged self.old other.now) }
        ensures unchanged { OnErr result (self.new ≡ self.old) }
    {
        let mut log = Vec::new(*self.reports.allocator());
        self.merge_into(other, &mut log)
    }

    /// Takes over the reports of another one, as `merge` does, and appends to a log those that it then holds. Where memory
    /// runs out, all stays as it was.
    #[tactic(auto, using(crate::proofs::MergeLemmas::values_keyed))]
    pub(crate) fn merge_into(
        &mut self,
        other: &Progress,
        log: &mut Vec<Report>,
    ) -> Result<u64, OutOfMemory>
        ensures count { IfOk result (λ count. count ≡ merge_count self.old other.now) }
        ensures merged { OnOk result (self.new ≡ merged self.old other.now) }
        ensures news { OnOk result (log.new.items ≡ log.old.items ++ news self.old other.now) }
        ensures unchanged { OnErr result (self.new ≡ self.old) }
        ensures unwritten { OnErr result (log.new.items ≡ log.old.items) }
    {
        let alloc = *self.reports.allocator();
        let taken = news_among(&self.reports, &other.reports, alloc)?;
        let mut copies = reports_of(alloc, taken.as_slice())?;
        let count = taken.len() as u64;
        self.reports.reserve(taken.len())?;
        log.append(&mut copies)?;
        put_all(&mut self.reports, taken);
        Ok(count)
    }

    /// A report joins what is held: it takes the place of the one of its activity where it is greater. Where memory runs out,
    /// all stays as it was.
    pub fn take(&mut self, report: &Report) -> Result<(), OutOfMemory>
        ensures taken { OnOk result (self.new ≡ with_report self.old report.now) }
        ensures unchanged { OnErr result (self.new ≡ self.old) }
    {
        if !is_greater(report, self.reports.get(&report.activity)) {
            return Ok(());
        }
        let key = report.activity.try_copy()?;
        let copy = report.try_copy()?;
        self.reports.insert(key, copy)?;
        Ok(())
    }

    /// The reports that are held, in the order in which their activities came first.
    pub fn list(&self, alloc: Global) -> Result<Vec<&Report>, OutOfMemory>
        ensures { IfOk result (λ list. map (λ report. report.now) list.items ≡ self.now) }
    {
        self.reports.values().collect(alloc)
    }

    /// The greatest report of each activity among these.
    pub(crate) fn greatest_of(alloc: Global, reports: &[Report]) -> Result<Progress, OutOfMemory>
        ensures { IfOk result (λ greatest. greatest ≡ greatest_of reports.now) }
    {
        let mut greatest = Progress::new(alloc);
        for report in reports {
            greatest.take(report)?;
        }
        Ok(greatest)
    }
}
