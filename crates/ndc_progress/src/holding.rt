use crate::progress::Progress;
use crate::report::{ActivityRef, Report};
use ndc_event::{Name, OutOfMemory};
use std::alloc::Global;
use std::marker::Model;

/// What a cluster holds of the progress of activities: each report that it came to hold, in order, and of these the
/// greatest one of each activity. With it stands how many of the reports of each cluster it has gone over.
#[derive(Drop)]
pub(crate) struct Holding {
    held: Progress,
    log: Vec<Report>,
    seen: Vec<usize>,
}

impl Model for Holding {
    ghost use Rattle.std.specs.Prelude.{◌≡◌};
    ghost use Rattle.ndc_progress.specs.Holdings.{HoldingValue};
    ghost use Rattle.ndc_progress.specs.Reports.{greatest_of};

    ghost Value = { HoldingValue };

    ghost view = { λ holding. record { log = holding.log.items; seen = holding.seen.items } };

    ghost invariant = { λ holding. holding.held ≡ greatest_of holding.log.items };
}

impl Holding {
    ghost use Rattle.std.specs.Prelude.{◌≡◌, ◌≤◌, ◌<◌, ◌^◌, drop, length, slice_index_or, IfOk, IfSome, OnOk, OnErr};
    ghost use Rattle.ndc_progress.specs.Holdings.{having_taken, having_told, new_holding};
    ghost use Rattle.ndc_progress.specs.Keyed.{AreOnce};
    ghost use Rattle.ndc_progress.specs.Reports.{greatest_of, held, merge_count, next_beat, next_report};

    /// One of so many clusters, in the beginning.
    pub(crate) fn new(alloc: Global, clusters: usize) -> Result<Holding, OutOfMemory>
        ensures { IfOk result (λ holding. holding ≡ new_holding clusters) }
    {
        let seen = vec![in alloc; 0; clusters]?;
        Ok(Holding {
            held: Progress::new(alloc),
            log: Vec::new(alloc),
            seen,
        })
    }

    /// The greatest report of each activity. Takes no memory.
    pub(crate) fn held(&self) -> &Progress
        ensures { result.now ≡ greatest_of self.now.log }
    {
        &self.held
    }

    /// How many reports it came to hold. Takes no memory.
    pub(crate) fn told(&self) -> usize
        ensures { result ≡ length self.now.log }
    {
        self.log.len()
    }

    /// How many of the reports of a cluster it has gone over. Takes no memory.
    pub(crate) fn seen(&self, from: usize) -> usize
        requires { from < length self.now.seen }
        ensures { result ≡ slice_index_or self.now.seen from 0 }
    {
        self.seen[from]
    }

    /// The greatest report of each activity among those after the first so many.
    pub(crate) fn behind(&self, count: usize) -> Result<Progress, OutOfMemory>
        requires { count ≤ length self.now.log }
        ensures { IfOk result (λ greatest. greatest ≡ greatest_of (drop count self.now.log)) }
    {
        let log = self.log.as_slice();
        Progress::greatest_of(*self.log.allocator(), &log[count..])
    }

    /// Tells of an activity, as `Progress::tell` does. Where memory runs out, all stays as it was.
    pub(crate) fn tell(
        &mut self,
        activity: ActivityRef,
        version: u64,
        details: Name,
    ) -> Result<u64, OutOfMemory>
        requires { IfSome (held activity (greatest_of self.old.log)) (λ report.
            (report.version ≤ version) × (report.beat < 10 ^ 12)) }
        ensures beat { IfOk result (λ beat.
            beat ≡ next_beat version (held activity (greatest_of self.old.log))) }
        ensures told { OnOk result
            (self.new ≡ having_told (next_report activity version details
            (greatest_of self.old.log)) self.old) }
        ensures unchanged { OnErr result (self.new ≡ self.old) }
    {
        self.log.reserve(1)?;
        let key = activity.try_copy()?;
        let beat = self.held.tell(key, version, details.try_copy()?)?;
        self.log.push_reserved(Report {
            activity,
            version,
            beat,
            details,
        });
        Ok(beat)
    }

    /// Takes over reports, as `Progress::merge` does, and has then gone over so many of those of a cluster. Where memory runs
    /// out, all stays as it was.
    pub(crate) fn take_over(
        &mut self,
        from: usize,
        fresh: &Progress,
        gone_over: usize,
    ) -> Result<u64, OutOfMemory>
        requires from { from < length self.old.seen }
        requires once { AreOnce fresh.now }
        ensures count { IfOk result (λ count.
            count ≡ merge_count (greatest_of self.old.log) fresh.now) }
        ensures taken { OnOk result (self.new ≡ having_taken from fresh.now gone_over self.old) }
        ensures unchanged { OnErr result (self.new ≡ self.old) }
    {
        let count = self.held.merge_into(fresh, &mut self.log)?;
        self.seen[from] = gone_over;
        Ok(count)
    }
}
