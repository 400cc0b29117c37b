ghost use Rattle.std.specs.Prelude.{◌≡◌, ◌<◌, ◌^◌, not, ◌&&◌, max};
ghost use Rattle.ndc_event.specs.Key.{key_lt};
ghost use Rattle.std.specs.Option.{option_copied, option_map};
ghost use Rattle.ndc_shard_runs.specs.Kept.{is_ahead, is_open};
ghost use Rattle.ndc_model_sets.specs.Current.{current_state};
ghost use Rattle.ndc_shard_runs.specs.RunMap.{run_at};

use crate::index::RunIndex;
use crate::kept::{Kept, has_no_signal};
use ndc_event::{Batch, BatchKey, Event, Origin, OutOfMemory, RunId};
use ndc_model_sets::is_key;
use ndc_reapply::Stray;
use ndc_run::{Learned, Run, RunError};
use ndc_state::{State, Steps};
use std::alloc::Global;
use std::marker::Model;

/// All that is learned of one workflow: its runs, with their states. Seen as the list of the learned batches in key
/// order, which is a sound set.
pub struct Runs {
    runs: RunIndex,
    greatest_task: u64,
    strays: Kept,
    /// Whether it is known that each copied signal names an original that is learned.
    named: bool,
}

impl Model for Runs {
    ghost use Rattle.std.specs.Prelude.{List};
    ghost use Rattle.ndc_event.specs.declared.batch.Batch.{Batch};

    ghost Value = { List Batch };

    ghost use Rattle.ndc_shard_runs.specs.Fields.{batches_in, IsRunsInside};

    ghost view = { batches_in };

    ghost invariant = { IsRunsInside };
}

impl Drop for Runs {
    fn drop(self) {
        let Runs {
            runs: _runs,
            greatest_task: _greatest_task,
            strays: _strays,
            named: _named,
        } = self;
    }
}

impl Runs {
    ghost use Rattle.std.specs.Prelude.{◌≡◌, ◌+◌, ◌<◌, ◌≤◌, ◌^◌, [], All, IsOk, length, map, max, not, is_some, true, false, None, IfSome, IfOk, OnOk, OnErr};
    ghost use Rattle.ndc_event.specs.Batch.{fault_of};
    ghost use Rattle.std.specs.Option.{option_copied, option_map};
    ghost use Rattle.ndc_model_cells.specs.Writing.{greatest_task, greatest_version, state_under};
    ghost use Rattle.ndc_shard_runs.specs.Kept.{follows, is_ahead, is_due, is_empty, is_idle, is_open, lies_beside, StaysSettled};
    ghost use Rattle.ndc_event.specs.Outcome.{Gives};
    ghost use Rattle.ndc_model_sets.specs.Writing.{CopiesFitWith};
    ghost use Rattle.ndc_run.specs.Learning.{learned};
    ghost use Rattle.ndc_run.specs.declared.answer.RunError.TheVariants.{Memory};
    ghost use Rattle.ndc_shard_runs.specs.Fitting.{ComesNext, IsCarrierFit, both_learned};
    ghost use Rattle.ndc_shard_runs.specs.Copies.{are_named_copies, event_of};
    ghost use Rattle.ndc_shard_runs.specs.RunMap.{part_of, run_in};
    ghost use Rattle.std.specs.List.{AllByRecursion};
    ghost use Rattle.ndc_model_sets.specs.Branches.{runs, workflow_tip};
    ghost use Rattle.ndc_model_sets.specs.Current.{strays};
    ghost use Rattle.ndc_model_sets.specs.Sets.{arrived, batch_at};
    ghost use Rattle.ndc_model_sets.specs.Sound.{CopiesNamed, IsSound};
    ghost use Rattle.ndc_state.specs.Counted.{counted};
    ghost use Rattle.ndc_state.specs.Replay.{CountsWithin};
    ghost use Rattle.ndc_model_sets.specs.Last.{is_nil, last_batch};
    ghost use Rattle.ndc_model_sets.specs.Reading.{current_key};

    /// Nothing is learned.
    pub fn new(alloc: Global) -> Runs
        ensures { result ≡ [] }
    {
        Runs {
            runs: RunIndex::new(alloc),
            greatest_task: 0,
            strays: Kept::none(alloc),
            named: true,
        }
    }

    /// Learns a batch whose key is new and with which the set is sound. For want of memory all is as it was. A batch
    /// that goes on from the current branch of its run takes a step for each of its events, any other at most 511 more.
    pub fn learn<L>(
        &mut self,
        alloc: Global,
        batch: &Batch,
        steps: &mut Steps<L>,
    ) -> Result<(), OutOfMemory>
        requires sound { IsSound (arrived batch.now self.old) }
        requires fresh { batch_at batch.now.key self.old ≡ None }
        requires ids { All (λ event. event.id ≤ 10 ^ 12) batch.now.events }
        ensures ok { OnOk result (self.new ≡ arrived batch.now self.old) }
        ensures err { OnErr result (self.new ≡ self.old) }
        ensures extend_steps { OnOk result (batch.now.parent ≡ current_key batch.now.run self.old
            → steps.new ≡ counted steps.old (length batch.now.events)) }
        ensures most_steps { CountsWithin steps.old (length batch.now.events + 511) steps.new }
    {
        let follows = self.follows(batch);
        let beside = self.lies_beside(batch);
        let greatest = greater(self.greatest_task, batch.key.task);
        let named = self.stays_named(batch);
        match self.runs.learn(alloc, batch, steps) {
            Ok(()) => {}
            Err(error) => return Err(error),
        }
        self.greatest_task = greatest;
        self.named = named;
        self.strays.pass(batch, beside, follows);
        Ok(())
    }

    /// Learns a batch that comes next, where its run takes it; its carrier fits, and where its run takes it, so do its copies.
    /// Refused with
    /// [`RunError::MissingParent`] where its parent is of another run, with [`RunError::NotWellFormed`] where its first id is
    /// not one past the parent's last, or a batch of its version is not an ancestor, and then with
    /// [`RunError::Invalid`] for the first event that is forbidden on its path, with its first rule. After an error all
    /// is as it was. A batch that goes on from the current branch of its run takes a step for each of its events, any
    /// other at most 511 more; one that is refused before its events are looked at takes none.
    pub fn try_learn<L>(
        &mut self,
        alloc: Global,
        batch: &Batch,
        steps: &mut Steps<L>,
    ) -> Result<Learned, RunError>
        requires next { ComesNext self.old batch.now }
        requires copies { IsOk (learned batch.now.run (part_of batch.now.run self.old) batch.now)
            → CopiesFitWith self.old batch.now }
        requires carrier { IsCarrierFit self.old batch.now }
        requires ids { All (λ event. event.id ≤ 10 ^ 12) batch.now.events }
        ensures answer { Gives Memory (λ done.
            done) result (learned batch.now.run (part_of batch.now.run self.old) batch.now) }
        ensures ok { OnOk result (self.new ≡ arrived batch.now self.old) }
        ensures err { OnErr result (self.new ≡ self.old) }
        ensures extend_steps { OnOk result (batch.now.parent ≡ current_key batch.now.run self.old
            → steps.new ≡ counted steps.old (length batch.now.events)) }
        ensures most_steps { CountsWithin steps.old (length batch.now.events + 511) steps.new }
    {
        let follows = self.follows(batch);
        let beside = self.lies_beside(batch);
        let greatest = greater(self.greatest_task, batch.key.task);
        let named = self.will_be_named(batch);
        match self.runs.judge(batch) {
            Ok(_) => {}
            Err(error) => return Err(RunError::from(error)),
        }
        match self.runs.try_learn(alloc, batch, steps) {
            Ok(learned) => {
                self.greatest_task = greatest;
                self.named = named;
                self.strays.pass(batch, beside, follows);
                Ok(learned)
            }
            Err(error) => Err(error),
        }
    }

    /// Learns two batches, or, for want of memory, neither: all is as it was. Their keys are new, the set is sound with
    /// the first, and with both; the second begins a run of which no batch is there. Where the first goes on from the
    /// current branch of its run, a step is taken for each of the events of both, else at most 511 more.
    pub fn learn_both<L>(
        &mut self,
        alloc: Global,
        batch: &Batch,
        second: &Batch,
        steps: &mut Steps<L>,
    ) -> Result<(), OutOfMemory>
        requires sound { IsSound (arrived batch.now self.old) }
        requires sound_both { IsSound (arrived second.now (arrived batch.now self.old)) }
        requires fresh { batch_at batch.now.key self.old ≡ None }
        requires second_fresh { batch_at second.now.key (arrived batch.now self.old) ≡ None }
        requires first { second.now.parent ≡ None }
        requires begins { part_of second.now.run (arrived batch.now self.old) ≡ [] }
        requires ids { All (λ event. event.id ≤ 10 ^ 12) batch.now.events }
        requires second_ids { All (λ event. event.id ≤ 10 ^ 12) second.now.events }
        ensures ok { OnOk result (self.new ≡ arrived second.now (arrived batch.now self.old)) }
        ensures err { OnErr result (self.new ≡ self.old) }
        ensures extend_steps { OnOk result (batch.now.parent ≡ current_key batch.now.run self.old
            → steps.new ≡ counted (counted steps.old (length second.now.events))
            (length batch.now.events)) }
        ensures most_steps { CountsWithin steps.old
            (length second.now.events + (length batch.now.events + 511)) steps.new }
    {
        let follows = self.follows(batch);
        let beside = self.lies_beside(batch);
        let before = greater(self.greatest_task, second.key.task);
        let greatest = greater(before, batch.key.task);
        let named = self.both_stay_named(batch, second);
        match self.runs.learn_both(alloc, batch, second, steps) {
            Ok(()) => {}
            Err(error) => return Err(error),
        }
        self.greatest_task = greatest;
        self.named = named;
        self.strays.pass(batch, beside, follows);
        let both_follow = is_left(&self.runs, batch, follows, second.key);
        self.strays.pass(second, false, both_follow);
        Ok(())
    }

    /// Learns two batches, of which each comes next once those before it are learned, where their runs take them; or neither.
    /// Their carriers fit, and where their runs take them, so do their copies. The second begins a run of which no batch is there. Refused as by
    /// [`Runs::try_learn`]: what the tree of its run says of the first comes first, then the events of the second, then those
    /// of the first. After an error all is as it was. Where the first goes on from the current branch of its run, a step is
    /// taken for each of the events of both, else at most 511 more.
    pub fn try_learn_both<L>(
        &mut self,
        alloc: Global,
        batch: &Batch,
        second: &Batch,
        steps: &mut Steps<L>,
    ) -> Result<Learned, RunError>
        requires next { ComesNext self.old batch.now }
        requires copies { IsOk (both_learned (part_of batch.now.run self.old) batch.now second.now)
            → CopiesFitWith self.old batch.now }
        requires carrier { IsCarrierFit self.old batch.now }
        requires second_next { ComesNext (arrived batch.now self.old) second.now }
        requires second_copies { IsOk
            (both_learned (part_of batch.now.run self.old) batch.now second.now)
            → CopiesFitWith (arrived batch.now self.old) second.now }
        requires second_carrier { IsCarrierFit (arrived batch.now self.old) second.now }
        requires first { second.now.parent ≡ None }
        requires begins { part_of second.now.run (arrived batch.now self.old) ≡ [] }
        requires ids { All (λ event. event.id ≤ 10 ^ 12) batch.now.events }
        requires second_ids { All (λ event. event.id ≤ 10 ^ 12) second.now.events }
        ensures answer { Gives Memory (λ done.
            done) result (both_learned (part_of batch.now.run self.old) batch.now second.now) }
        ensures ok { OnOk result (self.new ≡ arrived second.now (arrived batch.now self.old)) }
        ensures err { OnErr result (self.new ≡ self.old) }
        ensures extend_steps { OnOk result (batch.now.parent ≡ current_key batch.now.run self.old
            → steps.new ≡ counted (counted steps.old (length second.now.events))
            (length batch.now.events)) }
        ensures most_steps { CountsWithin steps.old
            (length second.now.events + (length batch.now.events + 511)) steps.new }
    {
        let follows = self.follows(batch);
        let beside = self.lies_beside(batch);
        let before = greater(self.greatest_task, second.key.task);
        let greatest = greater(before, batch.key.task);
        let named = self.both_will_be_named(batch, second);
        match self.runs.judge(batch) {
            Ok(_) => {}
            Err(error) => return Err(RunError::from(error)),
        }
        match self.runs.try_learn_both(alloc, batch, second, steps) {
            Ok(learned) => {
                self.greatest_task = greatest;
                self.named = named;
                self.strays.pass(batch, beside, follows);
                let both_follow = is_left(&self.runs, batch, follows, second.key);
                self.strays.pass(second, false, both_follow);
                Ok(learned)
            }
            Err(error) => Err(error),
        }
    }

    /// The learned batch of this key.
    pub fn get(&self, key: BatchKey) -> Option<&Batch>
        ensures { option_copied result ≡ batch_at key self.now }
    {
        self.runs.batch(key)
    }

    /// The event that the origin names; none exactly where no learned batch of its run has it. In time of the logarithm of
    /// the runs and of the run's batches, without memory.
    ///
    /// That an event of a learned batch is the one that its origin finds is `laws::an_origin_names_one_event`.
    pub fn event_of(&self, origin: &Origin) -> Option<&Event>
        ensures { option_copied result ≡ event_of origin.now self.now }
    {
        let run = self.runs.get(origin.run)?;
        run.tree().event(origin.version, origin.event)
    }

    /// Whether the batch of this key is learned.
    pub fn has(&self, key: BatchKey) -> bool
        ensures { result ≡ is_some (batch_at key self.now) }
    {
        self.run_of(key).is_some()
    }

    /// The learned batches, in key order. In time of their number; with several runs, a look-up for each of them.
    pub fn batches(&self, alloc: Global) -> Result<Vec<&Batch>, OutOfMemory>
        ensures sound { IsSound self.now }
        ensures list { IfOk result (λ list. map (λ b. b.now) list.items ≡ self.now) }
    {
        self.runs.batches(alloc)
    }

    /// Whether nothing is learned.
    pub fn is_empty(&self) -> bool
        ensures { result ≡ is_nil self.now }
    {
        self.last_key().is_none()
    }

    /// The last batch of the current branch of the current run. It has the greatest key of all: that this is so is
    /// `ndc_model_sets::branch_laws::current_run_ends_with_the_greatest_batch`.
    pub fn tip(&self) -> Option<&Batch>
        ensures { option_copied result ≡ workflow_tip self.now }
    {
        let key = self.last_key()?;
        self.get(key)
    }

    /// The state of the current branch of the current run.
    pub fn state(&self) -> Option<&State>
        ensures { option_copied result ≡ state_under (workflow_tip self.now) self.now }
    {
        let key = self.last_key()?;
        Some(self.run_of(key)?.state())
    }

    /// The greatest version of the learned batches, 0 where there is none.
    pub fn greatest_version(&self) -> u64
        ensures { result ≡ greatest_version self.now }
    {
        match self.last_key() {
            None => 0,
            Some(key) => key.version,
        }
    }

    /// The greatest task of the learned batches, 0 where there is none.
    pub fn greatest_task(&self) -> u64
        ensures { result ≡ greatest_task self.now }
    {
        self.greatest_task
    }

    /// What is learned is sound. Takes no time.
    pub fn is_sound(&self)
        ensures { IsSound self.now }
    {
        let _runs = &self.runs;
    }

    /// What is learned is sound, and its tasks and the batch's are numbers of 64 bits. Takes no time.
    pub(crate) fn has_small_tasks(&self, batch: &Batch)
        ensures sound { IsSound self.now }
        ensures learned { greatest_task self.now < 2 ^ 64 }
        ensures own { batch.now.key.task < 2 ^ 64 }
    {
        is_small(self.greatest_task);
        is_small(batch.key.task);
    }

    /// Whether it is known that each copied signal names an original that is learned.
    pub(crate) fn is_named(&self) -> bool
        ensures named { result ≡ true → CopiesNamed self.now }
        ensures sound { IsSound self.now }
    {
        self.named
    }

    /// Whether it is known without a look-up that this will be so once the batch is learned too.
    fn stays_named(&self, batch: &Batch) -> bool
        ensures { result ≡ true → CopiesNamed self.now
            × (are_named_copies self.now batch.now ≡ true) }
    {
        self.is_named() && self.has_no_copies(batch)
    }

    /// The same once the batch is learned and then another one.
    fn both_stay_named(&self, batch: &Batch, second: &Batch) -> bool
        ensures { result ≡ true → CopiesNamed self.now
            × (are_named_copies self.now batch.now ≡ true)
            × (are_named_copies self.now second.now ≡ true) }
    {
        self.stays_named(batch) && self.has_no_copies(second)
    }

    /// Whether it will be so once the batch is learned too, where it is known that it is so. A look-up for each copied signal.
    fn will_be_named(&self, batch: &Batch) -> bool
        requires { fault_of batch.now ≡ None }
        ensures { result ≡ true → CopiesNamed self.now
            × (are_named_copies self.now batch.now ≡ true) }
    {
        self.is_named() && self.has_named_copies(batch)
    }

    /// The same once the batch is learned and then another one.
    fn both_will_be_named(&self, batch: &Batch, second: &Batch) -> bool
        requires first { fault_of batch.now ≡ None }
        requires second { fault_of second.now ≡ None }
        ensures { result ≡ true → CopiesNamed self.now
            × (are_named_copies self.now batch.now ≡ true)
            × (are_named_copies self.now second.now ≡ true) }
    {
        self.will_be_named(batch) && self.has_named_copies(second)
    }

    /// Whether there may be strays: not where they are known, and there is none. What is known stays so with each batch
    /// that goes on from the current branch of the current run, or begins a run after a current one that is not open,
    /// or comes before the tip of its run and has a parent and no signal; after any other it is found by
    /// [`Runs::is_due`].
    fn may_have_strays(&self) -> bool
        ensures { result ≡ false → strays self.now ≡ [] }
    {
        self.strays.may_have()
    }

    /// The strays, where they are known.
    pub fn known_strays(&self) -> Option<&[Stray]>
        ensures { IfSome result (λ list. list.now ≡ strays self.now) }
    {
        self.strays.get()
    }

    /// Whether reapplication may be due, by what is known: there may be strays, and the current run is open. `false` is sure,
    /// and `true` tells nothing: strays are looked for when they are asked for, and this call reads no events. `is_due`
    /// answers exactly.
    pub fn may_be_due(&self) -> bool
        ensures { result ≡ false → is_due self.now ≡ false }
    {
        self.may_have_strays() && self.is_open()
    }

    /// Whether reapplication is due: there are strays, and the current run is open. Where it is open, the strays are known
    /// then. In time of all learned events where they were not known. For want of memory they stay unknown.
    pub fn is_due(&mut self, alloc: Global) -> Result<bool, OutOfMemory>
        ensures due { IfOk result (λ due. due ≡ is_due self.old) }
        ensures same { self.new ≡ self.old }
    {
        if !self.is_open() {
            return Ok(false);
        }
        self.has_strays(alloc)
    }

    /// Whether there are strays. Then they are known.
    fn has_strays(&mut self, alloc: Global) -> Result<bool, OutOfMemory>
        ensures has { IfOk result (λ has. has ≡ not (is_empty (strays self.old))) }
        ensures same { self.new ≡ self.old }
    {
        if let Some(list) = self.known_strays() {
            return Ok(!list.is_empty());
        }
        let list = self.strays(alloc)?;
        let has = !list.is_empty();
        self.strays = Kept::known(list);
        Ok(has)
    }

    /// Whether, by what is known, there is no stray and none once this batch is learned. Three look-ups.
    pub fn stays_settled(&self, batch: &Batch) -> bool
        ensures { result ≡ true → StaysSettled batch.now self.now }
    {
        let beside = self.lies_beside(batch);
        let follows = self.follows(batch);
        self.strays.stay_empty(beside, follows)
    }

    /// The runs, ascending.
    pub(crate) fn all_runs(&self) -> &[Run]
        ensures ids { map (λ r. r.run) result.now ≡ runs self.now }
        ensures parts { AllByRecursion (λ r. r ≡ run_in self.now r.run) result.now }
        ensures sound { IsSound self.now }
    {
        // Its range bounds all tasks, so the ids of runs rise as the keys of their first batches do.
        let _greatest = self.greatest_task();
        self.runs.as_slice()
    }

    /// The run of the batch of this key.
    pub(crate) fn run_of(&self, key: BatchKey) -> Option<&Run>
        ensures run { option_copied result
            ≡ option_map (λ b. run_in self.now b.run) (batch_at key self.now) }
        ensures sound { IsSound self.now }
    {
        self.runs.run_of(key)
    }

    /// Whether the batch follows all that is learned: it goes on from the current branch of the current run, or begins a
    /// run after all others, of which the current one is not open.
    fn follows(&self, batch: &Batch) -> bool
        ensures { result ≡ follows self.now batch.now }
    {
        match batch.parent {
            Some(parent) => is_key(parent, self.last_key()),
            None => self.has_no_batch_of(batch.run) && self.is_idle_before(batch.key),
        }
    }

    /// Whether the batch lies beside what is current: it has a parent and no signal, and comes before the tip of its run.
    fn lies_beside(&self, batch: &Batch) -> bool
        ensures { result ≡ lies_beside self.now batch.now }
    {
        batch.parent.is_some() && has_no_signal(batch) && self.is_behind_tip(batch)
    }

    /// Whether the tip of the batch's run comes after the batch.
    fn is_behind_tip(&self, batch: &Batch) -> bool
        ensures { result ≡ is_ahead batch.now.key (current_key batch.now.run self.now) }
    {
        match self.runs.get(batch.run) {
            None => false,
            Some(run) => is_ahead(batch.key, run.tip()),
        }
    }

    /// Whether no batch of the run is learned.
    fn has_no_batch_of(&self, run: RunId) -> bool
        ensures { result ≡ is_nil (part_of run self.now) }
    {
        self.runs.get(run).is_none()
    }

    /// Whether all keys come before this one, and the current run, where there is one, is not open.
    fn is_idle_before(&self, key: BatchKey) -> bool
        ensures { result ≡ is_idle (last_batch self.now) key self.now }
    {
        match self.last_key() {
            None => true,
            Some(last) => last.is_before(key) && !self.is_open(),
        }
    }

    /// Whether there is a current run and it is open.
    fn is_open(&self) -> bool
        ensures { result ≡ is_open (state_under (workflow_tip self.now) self.now) }
    {
        match self.state() {
            None => false,
            Some(state) => state.is_running(),
        }
    }

    /// The greatest key.
    pub(crate) fn last_key(&self) -> Option<BatchKey>
        ensures key { result ≡ option_map (λ b. b.key) (last_batch self.now) }
        ensures sound { IsSound self.now }
    {
        self.runs.last_key()
    }
}

/// Whether the batch, which follows all others or not, does so and comes before the key, and its run is not open.
fn is_left(runs: &RunIndex, batch: &Batch, follows: bool, key: BatchKey) -> bool
    ensures { result ≡ (follows
        && (key_lt batch.now.key key
        && not (is_open (option_map (λ r. current_state r.run r.batches)
        (run_at batch.now.run runs.now))))) }
{
    follows && batch.key.is_before(key) && !is_run_open(runs.get(batch.run))
}

/// Whether there is a run and it is open.
fn is_run_open(run: Option<&Run>) -> bool
    ensures { result ≡ is_open
        (option_map (λ r. current_state r.run r.batches) (option_copied run.entry)) }
{
    match run {
        None => false,
        Some(run) => run.state().is_running(),
    }
}

/// Whether the other key, where there is one, comes after this one.
fn is_ahead(key: BatchKey, other: Option<BatchKey>) -> bool
    ensures { result ≡ is_ahead key other }
{
    match other {
        None => false,
        Some(other) => key.is_before(other),
    }
}

/// A task is a number of 64 bits.
fn is_small(task: u64)
    ensures { task < 2 ^ 64 }
{}

/// The greater of two numbers.
fn greater(one: u64, two: u64) -> u64
    ensures greater { result ≡ max one two }
    ensures small { max one two < 2 ^ 64 }
{
    if one < two { two } else { one }
}
