use crate::holding::Holding;
use crate::progress::Progress;
use crate::report::ActivityRef;
use ndc_event::{Name, OutOfMemory};
use std::alloc::Global;
use std::marker::Model;

/// The progress reports that all clusters hold. Seen as one list for each cluster: the greatest report of each activity, in
/// the order in which their activities came first. Where one cluster takes over what another holds, it looks only at
/// reports that it has not gone over before.
pub struct Reports {
    holdings: Vec<Holding>,
}

impl Model for Reports {
    ghost use Rattle.std.specs.Prelude.{List};
    ghost use Rattle.ndc_progress.specs.declared.report.Report.{Report};
    ghost use Rattle.ndc_progress.specs.Holdings.{AreInStep, held_by};

    ghost Value = { List (List Report) };

    ghost view = { λ reports. held_by reports.holdings.items };

    ghost invariant = { λ reports. AreInStep reports.holdings.items };
}

impl Drop for Reports {
    fn drop(self) {
        let Reports {
            holdings: _holdings,
        } = self;
    }
}

impl Reports {
    ghost use Rattle.std.specs.Prelude.{◌≡◌, ◌≤◌, ◌<◌, ◌^◌, [], length, replicate, slice_index_or, slice_set, IfOk, IfSome, OnOk, OnErr};
    ghost use Rattle.ndc_progress.specs.Reports.{held, merge_count, merged, next_beat, next_report, with_report};

    /// None of so many clusters holds a report.
    pub fn new(alloc: Global, clusters: usize) -> Result<Reports, OutOfMemory>
        ensures { IfOk result (λ reports. reports ≡ replicate clusters []) }
    {
        let mut holdings = Vec::new(alloc);
        for _place in 0..clusters {
            holdings.push(Holding::new(alloc, clusters)?)?;
        }
        Ok(Reports { holdings })
    }

    /// What the cluster at a place holds. Takes no memory.
    pub fn of(&self, cluster: usize) -> &Progress
        requires { cluster < length self.now }
        ensures { result.now ≡ slice_index_or self.now cluster [] }
    {
        self.holdings[cluster].held()
    }

    /// Tells of an activity at the cluster at a place, as `Progress::tell` does. Where memory runs out, all stays as it was.
    pub fn tell(
        &mut self,
        cluster: usize,
        activity: ActivityRef,
        version: u64,
        details: Name,
    ) -> Result<u64, OutOfMemory>
        requires cluster { cluster < length self.old }
        requires held { IfSome (held activity (slice_index_or self.old cluster [])) (λ report.
            (report.version ≤ version) × (report.beat < 10 ^ 12)) }
        ensures beat { IfOk result (λ beat.
            beat ≡ next_beat version (held activity (slice_index_or self.old cluster []))) }
        ensures told { OnOk result
            (self.new ≡ slice_set self.old cluster
            (with_report (slice_index_or self.old cluster [])
            (next_report activity version details (slice_index_or self.old cluster [])))) }
        ensures unchanged { OnErr result (self.new ≡ self.old) }
    {
        let own = &mut self.holdings[cluster];
        let beat = own.tell(activity, version, details)?;
        Ok(beat)
    }

    /// The cluster at one place takes over the reports of the one at another, and it is answered of how many activities it
    /// then holds another report. It looks only at reports that the other came to hold since it last took them over. Where
    /// memory runs out, all stays as it was.
    pub fn take_over(&mut self, to: usize, from: usize) -> Result<u64, OutOfMemory>
        requires to { to < length self.old }
        requires from { from < length self.old }
        ensures count { IfOk result (λ count.
            count ≡ merge_count (slice_index_or self.old to []) (slice_index_or self.old from [])) }
        ensures taken { OnOk result
            (self.new ≡ slice_set self.old to
            (merged (slice_index_or self.old to []) (slice_index_or self.old from []))) }
        ensures unchanged { OnErr result (self.new ≡ self.old) }
    {
        let seen = self.holdings[to].seen(from);
        let other = &self.holdings[from];
        let told = other.told();
        let fresh = other.behind(seen)?;
        let own = &mut self.holdings[to];
        let count = own.take_over(from, &fresh, told)?;
        Ok(count)
    }
}
