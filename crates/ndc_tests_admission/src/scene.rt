//! A cell of cluster A, and what comes of messages that it is handed.
ghost use Rattle.std.specs.Prelude.{◌≤◌, IfOk};
ghost use Rattle.ndc_domain.specs.Clusters.{count_of};

use crate::texts::{key, signaled};
use ndc_command::{Actions, Command};
use ndc_domain::{ClusterNo, Clusters, DomainTable, Members};
use ndc_event::{BatchKey, Name, OutOfMemory};
use ndc_model_cells::Message;
use ndc_shard::{
    Admission, AdmitError, CellTerms, Home, NotAdmitted, Shard, Terms, TryError, Written,
};
use ndc_state::Steps;
use ndc_text::dump_text;
use std::alloc::{AllocError, Global};
use std::process::Abort;
use std::test::Fail;

/// Marks the counters of steps of these tests.
struct Counted;

/// The first cluster, which writes with the versions 1, 11, 21 and so on. The cell is of it.
const A: ClusterNo = ClusterNo { number: 0 };

/// More messages than any test lets wait.
const ROOM: u64 = 100;

/// The second one, which writes with 2, 12, 22 and so on.
const B: ClusterNo = ClusterNo { number: 1 };

/// A name.
fn name(alloc: Global, text: &str) -> Result<Name, OutOfMemory> {
    Name::new(alloc, text.as_bytes()).map_err(|_| AllocError)
}

/// The clusters, A and B.
fn clusters(alloc: Global) -> Result<Clusters, Fail>
    ensures { IfOk result (λ clusters. 2 ≤ count_of clusters) }
{
    let mut members = Vec::new(alloc);
    members.push((name(alloc, "A")?, 1))?;
    members.push((name(alloc, "B")?, 2))?;
    let clusters = Clusters::build(10, members)?;
    if clusters.count() < 2 {
        return Err(Fail::new("two clusters are not two"));
    }
    Ok(clusters)
}

/// The records of a domain of both, to which A writes with version 1.
fn records(alloc: Global, clusters: &Clusters, domain: &Name) -> Result<DomainTable, Fail>
    requires { 2 ≤ count_of clusters.now }
{
    let mut table = DomainTable::new(alloc);
    let members = Members::of(&[A, B]);
    table.register(clusters, A, domain, A, 7, members)?;
    Ok(table)
}

/// A cell of A with one workflow, its clusters, and its records.
pub(crate) struct Scene {
    alloc: Global,
    clusters: Clusters,
    records: DomainTable,
    domain: Name,
    workflow: Name,
    shard: Shard,
}

impl Drop for Scene {
    fn drop(self) {
        let Scene {
            alloc: _alloc,
            clusters: _clusters,
            records: _records,
            domain: _domain,
            workflow: _workflow,
            shard: _shard,
        } = self;
    }
}

impl Scene {
    /// A cell in which nothing has happened.
    pub(crate) fn empty(alloc: Global) -> Result<Scene, Fail> {
        let clusters = clusters(alloc)?;
        let domain = name(alloc, "alpha")?;
        let records = records(alloc, &clusters, &domain)?;
        let home = Home {
            clusters: &clusters,
            me: A,
            limit: 100,
        };
        let shard = Shard::new(alloc, &home)?;
        Ok(Scene {
            alloc,
            clusters,
            records,
            domain,
            workflow: name(alloc, "w1")?,
            shard,
        })
    }

    /// A cell that has started a workflow (1.1, events 1 and 2), taken the signal `ping` (1.2, event 3) and started its decision
    /// (1.3, event 4).
    pub(crate) fn written(alloc: Global) -> Result<Scene, Fail> {
        let mut scene = Scene::empty(alloc)?;
        let started = scene.ask(&Command::Start {
            workflow_type: name(alloc, "order")?,
        })?;
        let signaled = scene.signal("ping")?;
        let decided = scene.ask(&Command::Decide)?;
        if started.key != key(1, 1) || signaled.key != key(1, 2) || decided.key != key(1, 3) {
            return Err(Fail::new("the cell wrote under other keys"));
        }
        Ok(scene)
    }

    /// The same, to which B's signal `pong` came, which goes after 1.2 too (2.3, event 4).
    pub(crate) fn forked(alloc: Global) -> Result<Scene, Fail> {
        let mut scene = Scene::written(alloc)?;
        if scene.told(pong(alloc)?)?.as_str() != "learned 2.3" {
            return Err(Fail::new("the other cluster's signal is not learned"));
        }
        Ok(scene)
    }

    /// The cell is asked to write, and nobody vouches for what it has.
    fn ask(&mut self, command: &Command) -> Result<Written, TryError> {
        let home = Home {
            clusters: &self.clusters,
            me: A,
            limit: 100,
        };
        let mut steps: Steps<Counted> = Steps::new();
        self.shard.try_command(
            &home,
            &self.records,
            &self.domain,
            &self.workflow,
            command,
            &mut steps,
        )
    }

    /// The cell is asked to write a signal of this name.
    pub(crate) fn signal(&mut self, text: &str) -> Result<Written, Fail> {
        let name_of = name(self.alloc, text)?;
        let input = name(self.alloc, "x")?;
        let written = self.ask(&Command::Signal {
            name: name_of,
            input,
        })?;
        Ok(written)
    }

    /// Why the cell does not write such a signal; none where it does. Where it does not, it shows what it showed before.
    pub(crate) fn unwritten(
        &mut self,
        rt: &impl Abort,
        text: &str,
    ) -> Result<Option<TryError>, Fail> {
        let before = self.shown()?;
        let name_of = name(self.alloc, text)?;
        let input = name(self.alloc, "x")?;
        match self.ask(&Command::Signal {
            name: name_of,
            input,
        }) {
            Ok(_) => Ok(None),
            Err(why) => {
                assert!(rt; self.shown()?.as_slice() == before.as_slice());
                Ok(Some(why))
            }
        }
    }

    /// The domain fails over to B and back, so that A writes with version 11.
    pub(crate) fn fail_over_and_back(&mut self) -> Result<(), Fail> {
        self.records.failover(&self.clusters, &self.domain, B)?;
        self.records.failover(&self.clusters, &self.domain, A)?;
        Ok(())
    }

    /// The cell is handed a message on these terms: whether it asks for what it lost, and how many messages may wait.
    fn hand(
        &mut self,
        recall: bool,
        most_waiting: u64,
        message: Message,
    ) -> Result<Admission, AdmitError> {
        let terms = CellTerms {
            clusters: &self.clusters,
            me: A,
            recall,
            most_waiting,
        };
        let mut steps: Steps<Counted> = Steps::new();
        self.shard.admit(&terms, message, &mut steps)
    }

    /// What comes of a message, with room for what waits.
    pub(crate) fn told(&mut self, message: Message) -> Result<String, Fail> {
        let admission = self.hand(false, ROOM, message)?;
        Ok(text_of(self.alloc, &admission)?)
    }

    /// What comes of one where nothing more may wait.
    pub(crate) fn told_when_full(&mut self, message: Message) -> Result<String, Fail> {
        let most = self.waiting();
        self.told_with_room(most, message)
    }

    /// What comes of one where so many may wait.
    pub(crate) fn told_with_room(&mut self, most: u64, message: Message) -> Result<String, Fail> {
        let admission = self.hand(false, most, message)?;
        Ok(text_of(self.alloc, &admission)?)
    }

    /// What comes of one where the cell asks for what it lost.
    pub(crate) fn told_again(&mut self, message: Message) -> Result<String, Fail> {
        let admission = self.hand(true, ROOM, message)?;
        Ok(text_of(self.alloc, &admission)?)
    }

    /// Why a message is refused where nothing more may wait; none where it is not. The cell shows what it showed before.
    pub(crate) fn refused_when_full(
        &mut self,
        rt: &impl Abort,
        message: Message,
    ) -> Result<Option<NotAdmitted>, Fail> {
        let before = self.shown()?;
        let most = self.waiting();
        let admission = self.hand(false, most, message)?;
        assert!(rt; self.shown()?.as_slice() == before.as_slice());
        Ok(cause_of(&admission))
    }

    /// What the cell shows: the dump of the workflow, where something of it is learned, the messages that wait, each with its
    /// nearest ancestor that has not arrived, and how many workflows have begun.
    pub(crate) fn shown(&self) -> Result<Vec<u8>, Fail> {
        let mut steps: Steps<Counted> = Steps::new();
        let view = self.shard.view(&self.domain, &self.workflow, &mut steps)?;
        let mut text = match view {
            Some(view) => dump_text(self.alloc, &self.domain, &self.workflow, &view)?,
            None => Vec::new(self.alloc),
        };
        let waits = self.waits()?;
        text.extend_from_slice(waits.as_bytes())?;
        let begun = self.shard.workflows()?.len();
        let count = format!(in self.alloc; " {begun}")?;
        text.extend_from_slice(count.as_bytes())?;
        Ok(text)
    }

    /// The messages that wait, each with its nearest ancestor that has not arrived.
    pub(crate) fn waits(&self) -> Result<String, Fail> {
        let mut text = String::new(self.alloc);
        let gaps = self.shard.gaps()?;
        for gap in gaps.as_slice() {
            let (waits, missing) = (gap.key, gap.missing);
            push_key(&mut text, "", waits)?;
            push_key(&mut text, " for ", missing)?;
            text.push_str(";")?;
        }
        Ok(text)
    }

    /// The decision that the cell has started is completed with nothing.
    pub(crate) fn complete(&mut self) -> Result<Written, Fail> {
        let actions = Actions::new(Vec::new(self.alloc));
        let written = self.ask(&Command::Respond { actions })?;
        Ok(written)
    }

    /// A new run repeats the current one up to an event: the keys of what is written, or why nothing is.
    pub(crate) fn reset(&mut self, event: u64) -> Result<Written, TryError> {
        let home = Home {
            clusters: &self.clusters,
            me: A,
            limit: 100,
        };
        let mut steps: Steps<Counted> = Steps::new();
        self.shard.try_reset(
            &home,
            &self.records,
            &self.domain,
            &self.workflow,
            event,
            &mut steps,
        )
    }

    /// Strays are applied again: the keys of what is written, and then why a workflow is passed over.
    pub(crate) fn reapplied(&mut self) -> Result<String, Fail> {
        let home = Home {
            clusters: &self.clusters,
            me: A,
            limit: 100,
        };
        let mut steps: Steps<Counted> = Steps::new();
        let told = self.shard.try_reapply(&home, &self.records, &mut steps)?;
        let mut text = String::new(self.alloc);
        for (_, _, key) in told.written.as_slice() {
            push_key(&mut text, "written ", *key)?;
        }
        for one in told.skipped.as_slice() {
            let cause = one.cause;
            write!(text, "passed over: {cause:?}")?;
        }
        Ok(text)
    }

    /// Whether a message that waits was dropped by the key of one of its batches.
    pub(crate) fn forget(&mut self, key: BatchKey) -> Result<bool, Fail> {
        let dropped = self.shard.forget(&self.domain, &self.workflow, key)?;
        Ok(dropped)
    }

    /// Whether the workflow tells of a batch of A that the cell has not learned.
    pub(crate) fn lacks_own(&self) -> Result<bool, Fail> {
        let terms = Terms {
            clusters: &self.clusters,
            me: A,
            recall: false,
            may_wait: true,
        };
        let lacks = self.shard.lacks_own(&terms, &self.domain, &self.workflow)?;
        Ok(lacks)
    }

    /// Whether any workflow tells of such a batch.
    pub(crate) fn lacks_any_own(&self) -> Result<bool, Fail> {
        let terms = Terms {
            clusters: &self.clusters,
            me: A,
            recall: false,
            may_wait: true,
        };
        let lacks = self.shard.lacks_any_own(&terms)?;
        Ok(lacks)
    }

    /// How many messages wait in the cell.
    pub(crate) fn waiting(&self) -> u64 {
        self.shard.waiting_count()
    }

    /// How many messages wait, and since which batch, workflow by workflow.
    pub(crate) fn counted(&self) -> Result<String, Fail> {
        let mut text = String::new(self.alloc);
        let list = self.shard.waiting()?;
        for one in list.as_slice() {
            let count = one.count;
            write!(text, "{count}")?;
            push_key(&mut text, " since ", one.since.key)?;
        }
        Ok(text)
    }

    /// Whether the batch of this key is learned.
    pub(crate) fn has(&self, key: BatchKey) -> bool {
        self.shard.has_learned(&self.domain, &self.workflow, key)
    }
}

/// B's signal, which goes after 1.2 as 1.3 does.
pub(crate) fn pong(alloc: Global) -> Result<Message, Fail> {
    signaled(alloc, key(2, 3), key(1, 2), 4, "pong", &[(3, 1), (4, 2)])
}

/// Why a message is refused, where it is.
fn cause_of(admission: &Admission) -> Option<NotAdmitted> {
    match admission {
        Admission::Refused { cause } => Some(*cause),
        _ => None,
    }
}

/// Appends words and a key, as VERSION.TASK.
fn push_key(text: &mut String, words: &str, key: BatchKey) -> Result<(), OutOfMemory> {
    let BatchKey { version, task } = key;
    text.push_str(words)?;
    write!(text, "{version}.{task}")
}

/// What comes of a message, as a text: `known`, `put off for KEY`, or `learned KEY ..`, and then `, aside KEY: CAUSE` for each
/// that is set aside.
fn text_of(alloc: Global, admission: &Admission) -> Result<String, OutOfMemory> {
    let mut text = String::new(alloc);
    match admission {
        Admission::Refused { cause } => write!(text, "refused: {cause:?}")?,
        Admission::Known => text.push_str("known")?,
        Admission::PutOff { missing } => push_key(&mut text, "put off for ", *missing)?,
        Admission::Learned { batches, aside } => {
            text.push_str("learned")?;
            for batch in batches.as_slice() {
                push_key(&mut text, " ", batch.key)?;
            }
            for one in aside.as_slice() {
                let cause = one.cause;
                push_key(&mut text, ", aside ", one.message.batch.key)?;
                write!(text, ": {cause:?}")?;
            }
        }
    }
    Ok(text)
}
