use crate::error::{CallError, ReportError};
use crate::heard::Heard;
use crate::node::Node;
use ndc_cluster::Home;
use ndc_command::{CommandError, Refusal};
use ndc_domain::ClusterNo;
use ndc_event::{Name, OutOfMemory, RunId};
use ndc_history::Item;
use ndc_node_frames::{Held, ToldReport, ToldReports};
use ndc_progress::{ActivityRef, Report};
use ndc_shard_runs::Runs;
use std::alloc::Global;

/// How often a node tells of one activity with one version.
const MAX_BEAT: u64 = 100_000;

/// A started activity of the current run: by the run, the event that scheduled it, and that event's version.
#[derive(Clone, Copy)]
struct Started {
    run: RunId,
    scheduled: u64,
    version: u64,
}

/// The version of the event of an id on a path with this version history: that of the first item that reaches it.
fn version_in(items: &[Item], id: u64) -> u64 {
    for item in items {
        if id <= item.id {
            return item.version;
        }
    }
    0
}

/// The activity of this name that is pending in the current run and started. Refused where there is none.
fn find_started(alloc: Global, runs: &Runs, id: &Name) -> Result<Started, CommandError> {
    let (Some(tip), Some(state)) = (runs.tip(), runs.state()) else {
        return Err(CommandError::Refused(Refusal::NoWorkflow));
    };
    if !state.is_running() {
        return Err(CommandError::Refused(Refusal::Closed));
    }
    let Some(activity) = state.activity(id) else {
        return Err(CommandError::Refused(Refusal::NoSuchActivity));
    };
    if activity.started.is_none() {
        return Err(CommandError::Refused(Refusal::ActivityNotStarted));
    }
    let version = match runs.history_of(alloc, tip.key)? {
        Some(history) => version_in(history.items(), activity.scheduled),
        None => 0,
    };
    Ok(Started {
        run: tip.run,
        scheduled: activity.scheduled,
        version,
    })
}

impl Node {
    /// Tells of the progress of a started activity: the version and the beat of the report.
    pub fn beat(
        &mut self,
        domain: &Name,
        workflow: &Name,
        id: &Name,
        details: &Name,
    ) -> Result<(u64, u64), CallError<ReportError>> {
        self.begin_writing()?;
        let beat = self.told_beat(domain, workflow, id, details);
        self.end(beat)
    }

    /// With which version the node may write to a workflow, and the started activity.
    fn beating(
        &self,
        domain: &Name,
        workflow: &Name,
        id: &Name,
    ) -> Result<(u64, Started), CommandError> {
        let home = Home {
            clusters: &self.clusters,
            me: self.me,
            limit: self.limit,
        };
        let Some(cell) = self.cell_of(domain, workflow) else {
            return Err(CommandError::Refused(Refusal::NoWorkflow));
        };
        let version = match cell.may_write(&home, &self.table, domain, workflow) {
            Ok(version) => version,
            Err(refusal) => return Err(CommandError::Refused(refusal)),
        };
        match cell.runs(domain, workflow) {
            Some(runs) => Ok((version, find_started(self.alloc, runs, id)?)),
            None => Err(CommandError::Refused(Refusal::NoWorkflow)),
        }
    }

    /// The report is told.
    fn told_beat(
        &mut self,
        domain: &Name,
        workflow: &Name,
        id: &Name,
        details: &Name,
    ) -> Result<(u64, u64), CallError<ReportError>> {
        self.writes_anew(domain)?;
        let (version, started) = match self.beating(domain, workflow, id) {
            Ok(found) => found,
            Err(CommandError::Memory) => return Err(CallError::Memory),
            Err(CommandError::Refused(refusal)) => {
                return Err(CallError::Refused(ReportError::Refused(refusal)));
            }
        };
        let activity = ActivityRef {
            domain: domain.try_copy()?,
            workflow: workflow.try_copy()?,
            run: started.run,
            scheduled: started.scheduled,
            version: started.version,
        };
        if let Some(held) = self.progress.find(&activity) {
            if version < held.version {
                let version = held.version;
                return Err(CallError::Refused(ReportError::Stale { version }));
            }
            if MAX_BEAT <= held.beat {
                return Err(CallError::Full);
            }
        }
        let beat = self.progress.tell(activity, version, details.try_copy()?)?;
        self.reports_changed();
        Ok((version, beat))
    }

    /// The reports are others than those that were told.
    fn reports_changed(&mut self) {
        for peer in self.peers.as_mut_slice() {
            peer.same_reports = false;
        }
    }

    /// Whether a report takes the place of what is held.
    fn is_news(&self, report: &Report) -> bool {
        match self.progress.find(&report.activity) {
            None => true,
            Some(held) => {
                held.version < report.version
                    || held.version == report.version && held.beat < report.beat
            }
        }
    }

    /// Whether a report is held.
    fn holds(&self, report: &Report) -> bool {
        match self.progress.find(&report.activity) {
            None => false,
            Some(held) => held.version == report.version && held.beat == report.beat,
        }
    }

    /// Reports are heard of a peer: each joins what is held where it is greater.
    pub(crate) fn hear_reports(
        &mut self,
        from: ClusterNo,
        told: Held,
        heard: &mut Heard,
    ) -> Result<(), OutOfMemory> {
        let mut changed = false;
        let mut held: usize = 0;
        for one in told.reports.as_slice() {
            if self.is_news(&one.report) {
                self.progress.take(&one.report)?;
                changed = true;
            }
            if self.holds(&one.report) {
                held = held.saturating_add(1);
            }
        }
        if changed {
            self.reports_changed();
            heard.changed = true;
        }
        let count = self.progress.list(self.alloc)?.len();
        let is_same = held == count && told.reports.as_slice().len() == count;
        if let Some(peer) = self.peers.get_mut(from.number as usize) {
            heard.changed = heard.changed || peer.same_reports != is_same;
            peer.same_reports = is_same;
        }
        Ok(())
    }

    /// The reports that are held, to be told.
    pub(crate) fn told_reports(&self) -> Result<ToldReports, OutOfMemory> {
        let mut told = Vec::new(self.alloc);
        for report in self.progress.list(self.alloc)? {
            let report = report.try_copy()?;
            told.push(ToldReport { report })?;
        }
        Ok(ToldReports::new(told))
    }
}
