use crate::answer::Answer;
use crate::reply::Code;
use ndc_current::status;
use ndc_domain::ClusterNo;
use ndc_event::{Batch, Name, OutOfMemory};
use ndc_node::Node;
use ndc_script_types::{Act, Header};
use ndc_shard_runs::Runs;
use ndc_state::{State, Steps};
use ndc_world_answers::AnswerText;
use std::alloc::Global;

/// Counts the steps of restoring states.
struct Restoring;

/// Answers a line of a script that reads.
pub(crate) fn read(
    node: &Node,
    header: &Header,
    act: &Act,
    answer: &mut Answer,
) -> Result<(), OutOfMemory> {
    let alloc = answer.alloc();
    match act {
        Act::Domain { domain, .. } => {
            let known = node.records().find(domain);
            answer.tell(ndc_world_answers::domain(alloc, header, known)?)
        }
        Act::MembersOf { domain, .. } => members(node, domain, answer),
        Act::Gaps { .. } => gaps(node, answer),
        Act::History {
            domain,
            workflow,
            ..
        } => tell_runs(node, domain, workflow, Shown::History, answer),
        Act::Branches {
            domain,
            workflow,
            ..
        } => tell_runs(node, domain, workflow, Shown::Branches, answer),
        Act::Current {
            domain,
            workflow,
            ..
        } => tell_runs(node, domain, workflow, Shown::Current, answer),
        Act::StateOf {
            domain,
            workflow,
            ..
        } => tell_runs(node, domain, workflow, Shown::State, answer),
        Act::Dump {
            domain,
            workflow,
            ..
        } => tell_runs(node, domain, workflow, Shown::Dump, answer),
        _ => answer.refuse(Code::Unreadable, b"NotOfANode"),
    }
}

/// What is shown of a workflow.
#[derive(Clone, Copy)]
enum Shown {
    History,
    Branches,
    Current,
    State,
    Dump,
}

/// Answers what is shown of a workflow.
fn tell_runs(
    node: &Node,
    domain: &Name,
    workflow: &Name,
    shown: Shown,
    answer: &mut Answer,
) -> Result<(), OutOfMemory> {
    let alloc = answer.alloc();
    let runs = match node.cell_of(domain, workflow) {
        Some(cell) => cell.runs(domain, workflow),
        None => None,
    };
    let text = match runs {
        Some(runs) if !runs.is_empty() => text_of(alloc, domain, workflow, runs, shown)?,
        _ => ndc_world_answers::no_workflow(alloc)?,
    };
    answer.tell(text)
}

/// What is shown of the runs of a workflow.
fn text_of(
    alloc: Global,
    domain: &Name,
    workflow: &Name,
    runs: &Runs,
    shown: Shown,
) -> Result<AnswerText, OutOfMemory> {
    match shown {
        Shown::History => history(alloc, runs),
        Shown::Branches => branches(alloc, runs),
        Shown::Current => current(alloc, runs),
        Shown::State => state(alloc, runs),
        Shown::Dump => dump(alloc, domain, workflow, runs),
    }
}

/// The events of the current branch of the current run.
fn history(alloc: Global, runs: &Runs) -> Result<AnswerText, OutOfMemory> {
    let Some(tip) = runs.tip() else {
        return ndc_world_answers::no_workflow(alloc);
    };
    match runs.path(alloc, tip.key)? {
        Some(path) => ndc_world_answers::history(alloc, path.as_slice()),
        None => ndc_world_answers::history(alloc, &[]),
    }
}

/// The runs with their branches.
fn branches(alloc: Global, runs: &Runs) -> Result<AnswerText, OutOfMemory> {
    let mut steps: Steps<Restoring> = Steps::new();
    let shown = runs.runs_shown(alloc, &mut steps)?;
    ndc_world_answers::branches(alloc, shown.as_slice())
}

/// The current run, the tip of its current branch and its status.
fn current(alloc: Global, runs: &Runs) -> Result<AnswerText, OutOfMemory> {
    match (runs.tip(), runs.state()) {
        (Some(tip), Some(state)) => current_of(alloc, tip, state),
        _ => ndc_world_answers::no_workflow(alloc),
    }
}

/// The current run, by the tip of its current branch and its state.
fn current_of(alloc: Global, tip: &Batch, state: &State) -> Result<AnswerText, OutOfMemory> {
    let status = status(state.is_running(), true);
    ndc_world_answers::current(alloc, tip.run, tip.key, status, state.close())
}

/// The state of the current branch of the current run.
fn state(alloc: Global, runs: &Runs) -> Result<AnswerText, OutOfMemory> {
    match runs.state() {
        Some(state) => ndc_world_answers::state(alloc, state),
        None => ndc_world_answers::no_workflow(alloc),
    }
}

/// How many batches are learned, and the dump.
fn dump(
    alloc: Global,
    domain: &Name,
    workflow: &Name,
    runs: &Runs,
) -> Result<AnswerText, OutOfMemory> {
    let mut steps: Steps<Restoring> = Steps::new();
    match runs.view(alloc, &mut steps)? {
        Some(view) => ndc_world_answers::dump(alloc, domain, workflow, &view),
        None => ndc_world_answers::no_workflow(alloc),
    }
}

/// The members of a domain, by the node's record of it.
fn members(node: &Node, domain: &Name, answer: &mut Answer) -> Result<(), OutOfMemory> {
    let Some(record) = node.records().find(domain) else {
        return answer.refuse(Code::Refused, b"UnknownDomain");
    };
    answer.begin(b"ok ")?;
    let clusters = node.clusters();
    let mut is_first = true;
    for number in 0..clusters.count() {
        let cluster = ClusterNo { number };
        if record.members.has(cluster) {
            if !is_first {
                answer.push(b",")?;
            }
            is_first = false;
            answer.push(clusters.name(cluster).as_bytes())?;
        }
    }
    answer.end()
}

/// What is put off, in all shards.
fn gaps(node: &Node, answer: &mut Answer) -> Result<(), OutOfMemory> {
    let alloc = answer.alloc();
    let mut all = Vec::new(alloc);
    for shard in 0..node.shards() {
        if let Some(cell) = node.cell(shard) {
            let mut gaps = cell.gaps()?;
            all.append(&mut gaps)?;
        }
    }
    answer.tell(ndc_world_answers::gaps(alloc, all.as_slice())?)
}
