ghost use Rattle.std.specs.Prelude.{◌≡◌, ◌≤◌, ◌+◌, ◌^◌, ℕ, List, [], ◌∷◌, IfOk, IfSome, length};
ghost use Rattle.std.specs.Option.{option_copied};
ghost use Rattle.ndc_model_cells.specs.Writing.{command_entries, entry_below, greatest_task, is_writer, next_key, state_under};
ghost use Rattle.ndc_shard_entries.specs.Writer.{unless_behind, writes_to};
ghost use Rattle.ndc_command.specs.declared.refusal.CommandError.TheVariants.{Memory};
ghost use Rattle.ndc_command.specs.Laws.{begins_run};
ghost use Rattle.ndc_domain.specs.declared.record.DomainRecord.{DomainRecord as RecordValue};
ghost use Rattle.ndc_event.specs.Outcome.{Gives};
ghost use Rattle.ndc_model_sets.specs.Branches.{workflow_tip};

use crate::batch::{batch_below, carried_by, first_batch, key_behind};
use crate::entry::Entry;
use crate::tip::tip_of;
use ndc_command::{Command, CommandError, Refusal, plan};
use ndc_domain::{ClusterNo, Clusters, DomainRecord};
use ndc_event::{BatchKey, EventKind, Name, OutOfMemory, RunId};
use ndc_shard_runs::Runs;
use std::alloc::Global;

/// The version with which a cluster writes to a domain: that of its record. Takes no memory. Refused with
/// [`Refusal::UnknownDomain`] where it has no record, then with [`Refusal::NotActive`] and the version where another cluster
/// writes with it, or none does.
pub fn writes_to(
    clusters: &Clusters,
    me: ClusterNo,
    domain: Option<&DomainRecord>,
) -> Result<u64, Refusal>
    ensures { (limit : ℕ) (table : List RecordValue)
        → result ≡ writes_to (record {
          clusters = clusters.now;
          me = me;
          limit = limit;
          table = table;
        }) (option_copied domain.entry) }
{
    let Some(domain) = domain else {
        return Err(Refusal::UnknownDomain);
    };
    let version = domain.version;
    if !is_writer(me, clusters.writer_of(version)) {
        return Err(Refusal::NotActive { version });
    }
    Ok(version)
}

/// The same version, with which a cluster writes to a workflow of which this is learned. Takes no memory. Refused with
/// [`Refusal::Behind`] and the greatest learned version where that is above it.
pub fn unless_behind(version: u64, runs: &Runs) -> Result<u64, Refusal>
    ensures { result ≡ unless_behind version runs.now }
{
    let greatest = runs.greatest_version();
    if version < greatest {
        return Err(Refusal::Behind { version: greatest });
    }
    Ok(version)
}

/// Whether the writer of a version is this cluster.
fn is_writer(me: ClusterNo, writer: Option<ClusterNo>) -> bool
    ensures { result ≡ is_writer me writer }
{
    match writer {
        None => false,
        Some(writer) => writer.number == me.number,
    }
}

/// The key that is written next with this version.
pub(crate) fn next_key(version: u64, runs: &Runs) -> BatchKey
    requires { greatest_task runs.now ≤ 10 ^ 12 }
    ensures { result ≡ next_key version runs.now }
{
    BatchKey {
        version,
        task: runs.greatest_task() + 1,
    }
}

/// What a command writes with this version to a workflow, of which this is learned: one entry. A start begins a run;
/// any other command writes below the tip of the current branch of the current run, and carries the first batch of a
/// new run where it goes on as one. No run's history gets more than `limit` events. Refused as [`ndc_command::plan`]
/// refuses; [`CommandError::Memory`] comes for want of memory alone.
pub fn command_entry(
    alloc: Global,
    domain: &Name,
    workflow: &Name,
    command: &Command,
    limit: u64,
    version: u64,
    runs: &Runs,
) -> Result<Entry, CommandError>
    requires { greatest_task runs.now ≤ 10 ^ 12 }
    ensures { Gives Memory (λ entry.
        entry ∷ []) result (command_entries domain.now workflow.now command.now limit version
        runs.now) }
{
    let key = next_key(version, runs);
    let next_run = RunId::of(key_behind(key));
    let kinds = plan(alloc, runs.state(), command, version, limit, next_run)?;
    let entry = if begins_run(command) {
        Entry::alone(first_batch(alloc, domain, workflow, key, None, kinds)?)
    } else {
        entry_below(alloc, domain, workflow, key, runs, kinds)?
    };
    Ok(entry)
}

/// Whether the command begins a run.
fn begins_run(command: &Command) -> bool
    ensures { result ≡ begins_run command.now }
{
    match command {
        Command::Start { .. } => true,
        _ => false,
    }
}

/// What kinds below the tip are written as; where there is no tip they begin a run.
fn entry_below(
    alloc: Global,
    domain: &Name,
    workflow: &Name,
    key: BatchKey,
    runs: &Runs,
    kinds: Vec<EventKind>,
) -> Result<Entry, OutOfMemory>
    requires task { key.task ≤ 2 ^ 60 }
    requires ids { IfSome (state_under (workflow_tip runs.now) runs.now) (λ s.
        s.next + length kinds.items ≤ 2 ^ 64) }
    ensures { IfOk result (λ entry.
        entry ≡ entry_below domain.now workflow.now key
        (workflow_tip runs.now) runs.now kinds.items) }
{
    match tip_of(runs) {
        None => {
            let batch = first_batch(alloc, domain, workflow, key, None, kinds)?;
            Ok(Entry::alone(batch))
        }
        Some(tip) => {
            let second = carried_by(alloc, domain, workflow, key, kinds.as_slice())?;
            let batch = batch_below(alloc, domain, workflow, key, &tip, kinds)?;
            Ok(Entry::new(batch, second))
        }
    }
}
