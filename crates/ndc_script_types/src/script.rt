use ndc_command::Command;
use ndc_domain::{ClusterNo, Clusters, Members};
use ndc_event::{Items, Name};
use std::alloc::{AllocError, AllocFailed};
use thiserror::Error;

/// What a script's cells are made of.
#[derive(Debug, Drop)]
pub struct Header {
    /// The clusters, one to eight, in the order of their lines.
    pub clusters: Clusters,
    /// Into how many shards each cluster cuts its workflows, 1 to 64.
    pub shards: u32,
    /// The greatest number of events on a branch that a command may leave, 10 to 204,800.
    pub limit: u64,
}

/// One command of a burst, with the number of its line in the text, from 1.
#[derive(Debug, Drop)]
pub struct BurstJob {
    /// The number of its line in the text, counted from 1.
    pub number: u64,
    /// The domain of the workflow.
    pub domain: Name,
    /// The workflow.
    pub workflow: Name,
    /// The command.
    pub command: Command,
}

/// A list of jobs, in order.
pub type Jobs = Items<BurstJob>;

/// What a line of a script asks for. Shards are below the header's number of shards; places, counts and cuts
/// are at most 1,000,000.
#[derive(Debug, Drop)]
pub enum Act {
    /// A command to a workflow at a cluster.
    Command {
        cluster: ClusterNo,
        domain: Name,
        workflow: Name,
        command: Command,
    },
    /// Commands to workflows at one cluster, which run side by side.
    Burst {
        cluster: ClusterNo,
        jobs: Jobs,
    },
    /// Registers a domain at a cluster, active at the target, with a retention in days, 1 to 1,000.
    Register {
        at: ClusterNo,
        domain: Name,
        target: ClusterNo,
        days: u32,
        members: Members,
    },
    /// Changes a domain's retention in days, 1 to 1,000.
    Retain {
        at: ClusterNo,
        domain: Name,
        days: u32,
    },
    /// Makes a cluster a member of a domain.
    Join {
        at: ClusterNo,
        domain: Name,
        member: ClusterNo,
    },
    /// Makes the target the active cluster of a domain.
    Failover {
        at: ClusterNo,
        domain: Name,
        target: ClusterNo,
    },
    /// Merges one cluster's domain table into another's.
    Domains {
        to: ClusterNo,
        from: ClusterNo,
    },
    /// Prints a domain's record.
    Domain {
        at: ClusterNo,
        domain: Name,
    },
    /// Prints a domain's members.
    MembersOf {
        at: ClusterNo,
        domain: Name,
    },
    /// Takes all that a reader has not read yet of a source's queues into flight.
    Pull {
        reader: ClusterNo,
        source: ClusterNo,
    },
    /// Takes at most so many entries of one queue into flight.
    PullSome {
        reader: ClusterNo,
        source: ClusterNo,
        shard: u32,
        count: u64,
    },
    /// Drops a message in flight.
    Lose {
        reader: ClusterNo,
        source: ClusterNo,
        shard: u32,
        place: usize,
    },
    /// Doubles a message in flight.
    Repeat {
        reader: ClusterNo,
        source: ClusterNo,
        shard: u32,
        place: usize,
    },
    /// Moves a message in flight to another place.
    Move {
        reader: ClusterNo,
        source: ClusterNo,
        shard: u32,
        place: usize,
        to: usize,
    },
    /// Lets a cluster take what is in flight to it.
    Work {
        cluster: ClusterNo,
    },
    /// Lets a reader read a source's queues again from what it has done.
    Rewind {
        reader: ClusterNo,
        source: ClusterNo,
    },
    /// Drops from a source's queues what all readers have done.
    Trim {
        source: ClusterNo,
    },
    /// Prints the levels of one queue.
    LevelsOf {
        reader: ClusterNo,
        source: ClusterNo,
        shard: u32,
    },
    /// Prints what a cluster has put off.
    Gaps {
        cluster: ClusterNo,
    },
    /// Sends a cluster again what it has put off batches for.
    Resend {
        cluster: ClusterNo,
    },
    /// Brings a reader what a source has of domains that the reader joined late.
    Bootstrap {
        reader: ClusterNo,
        source: ClusterNo,
    },
    /// Lets all clusters come to the same state.
    Settle,
    /// Prints the history of the current run's current branch.
    History {
        cluster: ClusterNo,
        domain: Name,
        workflow: Name,
    },
    /// Prints a workflow's runs and branches.
    Branches {
        cluster: ClusterNo,
        domain: Name,
        workflow: Name,
    },
    /// Prints a workflow's current run.
    Current {
        cluster: ClusterNo,
        domain: Name,
        workflow: Name,
    },
    /// Prints the state of the current run's current branch.
    StateOf {
        cluster: ClusterNo,
        domain: Name,
        workflow: Name,
    },
    /// Prints all that a cluster has learned of a workflow.
    Dump {
        cluster: ClusterNo,
        domain: Name,
        workflow: Name,
    },
    /// Compares what two clusters have learned of a workflow.
    Compare {
        one: ClusterNo,
        two: ClusterNo,
        domain: Name,
        workflow: Name,
    },
    /// Begins to hand a domain over to the target.
    Handover {
        at: ClusterNo,
        domain: Name,
        target: ClusterNo,
    },
    /// Completes the handover of a domain.
    Complete {
        at: ClusterNo,
        domain: Name,
    },
    /// Begins a run anew from an event of the current run, 1 to 1,000,000.
    Reset {
        cluster: ClusterNo,
        domain: Name,
        workflow: Name,
        event: u64,
    },
    /// Hands the first bytes of a message in flight to the reader's letters.
    Damage {
        reader: ClusterNo,
        source: ClusterNo,
        shard: u32,
        place: usize,
        cut: usize,
    },
    /// Prints a reader's letters.
    LettersOf {
        reader: ClusterNo,
    },
    /// Drops a reader's letters.
    Purge {
        reader: ClusterNo,
    },
    /// Lets the messages of a reader's letters arrive.
    MergeLetters {
        reader: ClusterNo,
    },
    /// Reports the progress of a started activity.
    Beat {
        cluster: ClusterNo,
        domain: Name,
        workflow: Name,
        id: Name,
        details: Name,
    },
    /// Merges one cluster's reports into another's.
    Sync {
        to: ClusterNo,
        from: ClusterNo,
    },
    /// Prints the report of an activity.
    ProgressOf {
        cluster: ClusterNo,
        domain: Name,
        workflow: Name,
        id: Name,
    },
}

/// A line of a script with its number in the text, from 1.
#[derive(Debug, Drop)]
pub struct Line {
    /// Its number in the text, counted from 1.
    pub number: u64,
    /// What the line asks for.
    pub act: Act,
}

/// A list of lines, in order.
pub type Lines = Items<Line>;

/// A script: what it runs on, and what it asks for, line by line.
#[derive(Debug, Drop)]
pub struct Script {
    /// What it runs on.
    pub header: Header,
    /// What it asks for, in order.
    pub lines: Lines,
}

/// Why a text is not a script.
#[derive(Clone, Copy, Debug, PartialEq, Eq, Error)]
pub enum ScriptCause {
    #[error("the header does not go on so")]
    BadHeader,
    #[error("the increment is 0 or above 10^12")]
    IncrementLimit,
    #[error("there is no cluster line")]
    NoClusters,
    #[error("there are more than eight clusters")]
    TooMany,
    #[error("an earlier cluster has this name")]
    SameName,
    #[error("an earlier cluster has this initial version")]
    SameInitial,
    #[error("the initial version is not below the increment")]
    NotBelowIncrement,
    #[error("the line is none of the script language")]
    BadLine,
    #[error("a cluster is named that is in no header line")]
    UnknownName,
    #[error("the script has more than 100,000 lines")]
    LineLimit,
}

/// Why a text could not be read as a script: the first faulty line with its cause, or want of memory.
#[derive(Clone, Copy, Debug, PartialEq, Eq, Error)]
pub enum ScriptError {
    #[error("line {line}: {cause}")]
    Refused { line: u64, cause: ScriptCause },
    #[error("out of memory")]
    Memory,
}

impl From<AllocError> for ScriptError {
    ghost use Rattle.std.specs.Prelude.{◌≡◌};
    ghost use Rattle.ndc_script_types.specs.declared.script.ScriptError.TheVariants.{Memory};

    ghost from_gives = { λ _ e. e ≡ Memory };

    fn from(_error: AllocError) -> ScriptError {
        ScriptError::Memory
    }
}

impl<T: Drop> From<AllocFailed<T>> for ScriptError {
    ghost use Rattle.std.specs.Prelude.{◌≡◌};
    ghost use Rattle.ndc_script_types.specs.declared.script.ScriptError.TheVariants.{Memory};

    ghost from_gives = { λ _ e. e ≡ Memory };

    fn from(_error: AllocFailed<T>) -> ScriptError {
        ScriptError::Memory
    }
}
