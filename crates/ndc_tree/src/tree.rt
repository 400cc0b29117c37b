ghost use Rattle.std.specs.Prelude.{◌≡◌, ◌<◌, ◌↔◌, ◌++◌, [], ◌∷◌, map, IfSome, IfOk, OnOk, IsTrue, Some, Ok};
ghost use Rattle.ndc_model_sets.specs.Sets.{Has};
ghost use Rattle.std.specs.Option.{option_copied, option_map};
ghost use Rattle.ndc_tree.specs.Fitting.{goes_on, key_behind};
ghost use Rattle.ndc_model_sets.specs.Reading.{parent_of};
ghost use Rattle.ndc_tree.specs.Inserting.{end_of};

use crate::answer::{Inserted, TreeError};
use crate::batches::Batches;
use crate::tips::Tips;
use ndc_event::{Batch, BatchKey, Event, OutOfMemory, RunId};
use ndc_history::{Item, VersionHistory};
use ndc_model_sets::{first_id, is_key, last_id};
use std::alloc::Global;
use std::marker::Model;

/// A version history is noted where the tree has more versions than this.
const NOTED_FROM: usize = 4;

/// What is noted has room for a multiple of so many items, so that a longer one most often goes where the one before was.
const NOTED_ROOM: usize = 32;

/// The batches of one run. Seen as the run and the list of its batches in key order.
pub struct Tree {
    run: RunId,
    batches: Batches,
    tips: Tips,
    /// The batch whose path's version history is noted: the last one of the version before that of the last batch, where
    /// there are several versions and memory allowed.
    noted_to: Option<BatchKey>,
    /// The items of that history.
    noted: Vec<Item>,
}

impl Model for Tree {
    ghost use Rattle.ndc_tree.specs.Tree.{TreeValue};

    ghost Value = { TreeValue };

    ghost use Rattle.ndc_tree.specs.TreeFields.{tree_of, IsTreeInside};

    ghost view = { tree_of };

    ghost invariant = { IsTreeInside };
}

impl Drop for Tree {
    fn drop(self) {
        let Tree {
            run: _run,
            batches: _batches,
            tips: _tips,
            noted_to: _noted_to,
            noted: _noted,
        } = self;
    }
}

impl Tree {
    ghost use Rattle.std.specs.Prelude.{◌≡◌, ◌<◌, ◌↔◌, ◌≢◌, [], ◌∷◌, ◌++◌, map, None, Some, Ok, IfSome, IfOk, OnOk, OnErr, IsTrue};
    ghost use Rattle.std.specs.Option.{option_copied, option_map};
    ghost use Rattle.ndc_model_sets.specs.Sets.{batch_at, arrived, Has};
    ghost use Rattle.ndc_event.specs.Outcome.{Gives};
    ghost use Rattle.ndc_event.specs.Batch.{fault_of};
    ghost use Rattle.ndc_tree.specs.declared.answer.Inserted.TheVariants.{Known};
    ghost use Rattle.ndc_tree.specs.declared.answer.TreeError.TheVariants.{Memory};
    ghost use Rattle.ndc_tree.specs.Tree.{IsTree, Joins};
    ghost use Rattle.ndc_model_sets.specs.Learned.{has_key};
    ghost use Rattle.ndc_tree.specs.Fitting.{is_below, splits_version, fits};
    ghost use Rattle.ndc_tree.specs.Inserting.{inserted, placed};
    ghost use Rattle.ndc_model_sets.specs.Keys.{is_key_among};
    ghost use Rattle.ndc_tree.specs.Tips.{tip_keys};
    ghost use Rattle.ndc_model_sets.specs.Paths.{path_to};
    ghost use Rattle.ndc_history.specs.History.{rises};
    ghost use Rattle.ndc_tree.specs.Inserting.{end_of};
    ghost use Rattle.ndc_tree.specs.Events.{event_at};
    ghost use Rattle.ndc_tree.specs.Noted.{IsNoted};
    ghost use Rattle.ndc_model_sets.specs.Reading.{current_key, path_at, path_keys, history_at, elder_of, items_of, named};

    /// The tree of a run without a batch.
    pub fn new(alloc: Global, run: RunId) -> Tree
        ensures { result ≡ record { run = run; batches = [] } }
    {
        Tree {
            run,
            batches: Batches::new(alloc),
            tips: Tips::new(alloc),
            noted_to: None,
            noted: Vec::new(alloc),
        }
    }

    /// The run; its batches are a tree.
    pub fn run(&self) -> RunId
        ensures run { result ≡ self.now.run }
        ensures tree { IsTree self.now.run self.now.batches }
    {
        self.run
    }

    /// The batch of this key.
    pub fn get(&self, key: BatchKey) -> Option<&Batch>
        ensures { option_copied result ≡ batch_at key self.now.batches }
    {
        self.batches.get(key)
    }

    /// The event of this version and id in one of the batches; none exactly where no batch has one. In time of the
    /// logarithm of the versions and of the batches, without memory.
    ///
    /// That there is at most one is `laws::an_event_is_found_by_its_version_and_id`.
    pub fn event(&self, version: u64, id: u64) -> Option<&Event>
        ensures { option_copied result ≡ event_at version id self.now.batches }
    {
        self.batches.event(version, id)
    }

    /// The batches, in key order. In time of their number.
    pub fn batches(&self, alloc: Global) -> Result<Vec<&Batch>, OutOfMemory>
        ensures { IfOk result (λ list. map (λ b. b.now) list.items ≡ self.now.batches) }
    {
        self.batches.to_vec(alloc)
    }

    /// Takes the batch in. [`Inserted::Known`] exactly where an equal one is there. Refused with
    /// [`TreeError::MissingParent`] where its parent is not there; then with [`TreeError::NotWellFormed`] where it is
    /// of another run, or its key is there with another batch, or it has no parent and the tree has a batch, or its
    /// first id is not one past the parent's last, or a batch of its version is not an ancestor. After an error the
    /// tree is as it was. In time of the logarithm of its batches, and of the batch's copy.
    pub fn insert(&mut self, batch: &Batch) -> Result<Inserted, TreeError>
        requires { fault_of batch.now ≡ None }
        ensures known { Has self.old.batches batch.now ↔ (result ≡ Ok Known) }
        ensures answer { result ≢ Ok Known
            → Gives Memory (λ done. done) result
            (inserted self.old.run self.old.batches batch.now) }
        ensures grown { result ≢ Ok Known
            → OnOk result (self.new ≡ record self.old {
              batches = arrived batch.now self.old.batches;
            }) }
        ensures same { result ≡ Ok Known → self.new ≡ self.old }
        ensures err { OnErr result (self.new ≡ self.old) }
    {
        let inserted = self.judge(batch)?;
        match inserted {
            Inserted::Known => Ok(inserted),
            _ => {
                self.join(batch)?;
                Ok(inserted)
            }
        }
    }

    /// What [`Tree::insert`] would answer, with memory enough. In time of the logarithm of the batches, and of the
    /// batch where one of its key is there; without memory.
    pub fn judge(&self, batch: &Batch) -> Result<Inserted, TreeError>
        requires { fault_of batch.now ≡ None }
        ensures known { Has self.now.batches batch.now ↔ (result ≡ Ok Known) }
        ensures answer { result ≢ Ok Known
            → result ≡ inserted self.now.run self.now.batches batch.now }
        ensures joins { result ≢ Ok Known
            → OnOk result (Joins self.now.run self.now.batches batch.now) }
    {
        let key = batch.key;
        if is_known(&self.batches, batch) {
            return Ok(Inserted::Known);
        }
        if !self.has(batch.parent) {
            return Err(TreeError::MissingParent { key });
        }
        if !self.fits(batch) {
            return Err(TreeError::NotWellFormed { key });
        }
        Ok(self.placed(key, batch.parent))
    }

    /// Takes in a batch that joins the tree, as [`Tree::judge`] tells where it neither refuses nor knows it. For want
    /// of memory the tree is as it was. In time of the logarithm of its batches, and of the batch's copy; where it goes on
    /// from the current branch with a further version, also of the versions on its path.
    pub fn join(&mut self, batch: &Batch) -> Result<(), OutOfMemory>
        requires { Joins self.old.run self.old.batches batch.now }
        ensures ok { OnOk result
            (self.new ≡ record self.old { batches = arrived batch.now self.old.batches }) }
        ensures err { OnErr result (self.new ≡ self.old) }
    {
        let goes_on = batch.parent == self.current();
        self.take_in(batch)?;
        if goes_on {
            self.note();
        }
        Ok(())
    }

    /// Takes in a batch that joins the tree.
    fn take_in(&mut self, batch: &Batch) -> Result<(), OutOfMemory>
        requires { Joins self.old.run self.old.batches batch.now }
        ensures ok { OnOk result
            (self.new ≡ record self.old { batches = arrived batch.now self.old.batches }) }
        ensures err { OnErr result (self.new ≡ self.old) }
    {
        let copy = batch.try_copy()?;
        self.tips.put(batch.key)?;
        match self.batches.insert(copy) {
            Ok(()) => {
                self.tips.take_parent(batch.parent);
                Ok(())
            }
            Err(error) => {
                self.tips.take(batch.key);
                Err(error)
            }
        }
    }

    /// Notes the version history up to the version of the last batch, where there are several versions, it is not noted,
    /// and memory allows.
    fn note(&mut self)
        ensures { self.new ≡ self.old }
    {
        if let Some((key, items)) = self.items_before_last() {
            self.noted_to = Some(key);
            self.noted = items;
        }
    }

    /// The elder of the last batch, with the items of its path's version history, where there are several versions, they are
    /// not noted, and memory allows.
    fn items_before_last(&self) -> Option<(BatchKey, Vec<Item>)>
        ensures { IfSome result (λ found. IsNoted self.now.batches (Some found.0) found.1.items) }
    {
        let place = self.batches.last_place();
        if place < NOTED_FROM {
            return None;
        }
        let last = self.batches.last()?;
        let elder = self.elder(last, place)?;
        if is_key(elder.key, self.noted_to) {
            return None;
        }
        match self.items_to(*self.noted.allocator(), elder, NOTED_ROOM) {
            Ok(items) => Some((elder.key, items)),
            Err(_) => None,
        }
    }

    /// The keys of the tips, ascending.
    pub fn branches(&self, alloc: Global) -> Result<Vec<BatchKey>, OutOfMemory>
        ensures { IfOk result (λ list. list.items ≡ tip_keys self.now.run self.now.batches) }
    {
        self.tips.to_vec(alloc)
    }

    /// The key of the current branch's last batch; none exactly where there is no batch. Without memory.
    ///
    /// It is the greatest key. That this is the branch of the greatest last version is
    /// `laws::current_branch_ends_with_the_greatest_batch`.
    pub fn current(&self) -> Option<BatchKey>
        ensures { result ≡ current_key self.now.run self.now.batches }
    {
        key_of(self.batches.last())
    }

    /// The batches of the path to the one of this key, from the run's first on; none exactly where it is not there.
    /// A look-up for each batch of the path.
    pub fn path_batches(
        &self,
        alloc: Global,
        key: BatchKey,
    ) -> Result<Option<Vec<&Batch>>, OutOfMemory>
        ensures { IfOk result (λ path.
            option_map (λ list. map (λ b. b.now) list.items) path ≡ path_at key self.now.batches) }
    {
        match self.get(key) {
            None => Ok(None),
            Some(batch) => Ok(Some(self.ancestors(alloc, batch)?)),
        }
    }

    /// The keys of the path to the batch of this key, from the run's first on; none exactly where it is not there. A
    /// look-up for each batch of the path.
    pub fn path(&self, alloc: Global, key: BatchKey) -> Result<Option<Vec<BatchKey>>, OutOfMemory>
        ensures { IfOk result (λ path.
            option_map (λ list. list.items) path ≡ path_keys key self.now.batches) }
    {
        match self.path_batches(alloc, key)? {
            None => Ok(None),
            Some(path) => Ok(Some(keys_of(alloc, path.as_slice())?)),
        }
    }

    /// The version history of the path to the batch of this key; none exactly where it is not there. In time of the
    /// versions on the path; with two look-ups for each of them, unless the batch is of the last version and goes on from
    /// the current branch of before.
    pub fn history_of(
        &self,
        alloc: Global,
        key: BatchKey,
    ) -> Result<Option<VersionHistory>, OutOfMemory>
        ensures { IfOk result (λ history. history ≡ history_at key self.now.batches) }
    {
        match self.get(key) {
            None => Ok(None),
            Some(batch) => {
                let items = self.items_to(alloc, batch, 1)?;
                Ok(Some(VersionHistory::of(alloc, items)?))
            }
        }
    }

    /// The batches of the path to this one, from the run's first on.
    fn ancestors(&self, alloc: Global, batch: &Batch) -> Result<Vec<&Batch>, OutOfMemory>
        requires { Has self.now.batches batch.now }
        ensures { IfOk result (λ list.
            map (λ b. b.now) list.items ≡ path_to batch.now.key self.now.batches) }
    {
        let mut path = Vec::new(alloc);
        let mut next = self.batches.get(batch.key);
        while let Some(one) = next {
            path.push(one)?;
            next = self.named(one.parent);
        }
        path.reverse();
        Ok(path)
    }

    /// The items of the path's version history to this batch, in order: one alone where there is one version, those noted
    /// and one more where those up to its version are noted, in room for a multiple of so many, and else by a walk.
    fn items_to(&self, alloc: Global, batch: &Batch, room: usize) -> Result<Vec<Item>, OutOfMemory>
        requires has { Has self.now.batches batch.now }
        requires room { 0 < room }
        ensures items { IfOk result (λ list.
            list.items ≡ items_of (Some batch.now) self.now.batches) }
        ensures rise { IfOk result (λ list. IsTrue (rises list.items)) }
    {
        match self.noted_before(batch) {
            Some(front) => with_end(alloc, front, end_of(Some(batch)), room),
            None => self.items_by_walk(alloc, batch),
        }
    }

    /// The items that stand before the batch's version on its path, where there is none or they are noted.
    fn noted_before(&self, batch: &Batch) -> Option<&[Item]>
        requires { Has self.now.batches batch.now }
        ensures items { IfSome result (λ front.
            items_of (Some batch.now) self.now.batches ≡ front.now ++ end_of (Some batch.now)
            ∷ []) }
        ensures rise { IfSome result (λ front.
            IsTrue (rises (front.now ++ end_of (Some batch.now) ∷ []))) }
    {
        let place = self
            .batches
            .place_near(batch.key.version, self.batches.last_place());
        let Some(elder) = self.elder(batch, place) else {
            return Some(&[]);
        };
        if !is_key(elder.key, self.noted_to) {
            return None;
        }
        Some(self.noted.as_slice())
    }

    /// The items of the path's version history to this batch, in order: from version to version upwards. The place of
    /// a version's segment is most often that before the last one's.
    fn items_by_walk(&self, alloc: Global, batch: &Batch) -> Result<Vec<Item>, OutOfMemory>
        requires { Has self.now.batches batch.now }
        ensures items { IfOk result (λ list.
            list.items ≡ items_of (Some batch.now) self.now.batches) }
        ensures rise { IfOk result (λ list. IsTrue (rises list.items)) }
    {
        let mut items = Vec::new(alloc);
        let mut next = self.batches.get(batch.key);
        let mut place = self.batches.last_place();
        while let Some(one) = next {
            place = self.batches.place_near(one.key.version, place);
            items.push(end_of(Some(one)))?;
            next = self.elder(one, place);
            place = place.saturating_sub(1);
        }
        items.reverse();
        Ok(items)
    }

    /// The last batch of a smaller version on the path to this one, where there is one: the parent of the first batch
    /// of its version. The segment of its version is looked for at the place first, and the elder's at the one before.
    fn elder(&self, batch: &Batch, place: usize) -> Option<&Batch>
        ensures { option_copied result ≡ elder_of batch.now self.now.batches }
    {
        let start = BatchKey {
            version: batch.key.version,
            task: 0,
        };
        let key = parent_of(self.batches.first_near(start, place));
        self.named_near(key, place.saturating_sub(1))
    }

    /// The batch of the key, where there is one.
    fn named(&self, key: Option<BatchKey>) -> Option<&Batch>
        ensures { option_copied result ≡ named key self.now.batches }
    {
        self.named_near(key, self.batches.last_place())
    }

    /// The batch of the key, where there is one. The segment of its version is looked for at the hinted place first.
    fn named_near(&self, key: Option<BatchKey>, hint: usize) -> Option<&Batch>
        ensures { option_copied result ≡ named key self.now.batches }
    {
        match key {
            None => None,
            Some(key) => self.batches.get_near(key, hint),
        }
    }

    /// Whether the key is that of a branch's last batch. In time of the logarithm of the branches, without memory.
    pub fn is_tip(&self, key: BatchKey) -> bool
        ensures { result ≡ is_key_among key (tip_keys self.now.run self.now.batches) }
    {
        self.tips.has(key)
    }

    /// Where a batch goes that fits the tree.
    fn placed(&self, key: BatchKey, parent: Option<BatchKey>) -> Inserted
        ensures { result ≡ placed self.now.run self.now.batches key parent }
    {
        match parent {
            None => Inserted::Extended { branch: key },
            Some(parent) => {
                if self.is_tip(parent) {
                    Inserted::Extended { branch: key }
                } else {
                    let at = end_of(self.batches.get(parent));
                    Inserted::Forked { branch: key, at }
                }
            }
        }
    }

    /// Whether the batch of this key is there.
    fn has(&self, key: Option<BatchKey>) -> bool
        ensures { result ≡ has_key key self.now.batches }
    {
        match key {
            None => true,
            Some(key) => self.batches.get(key).is_some(),
        }
    }

    /// Whether the batch goes on from its parent, or is the first.
    fn is_below(&self, batch: &Batch) -> bool
        ensures { result ≡ is_below self.now.batches batch.now batch.now.parent }
    {
        match batch.parent {
            None => self.batches.is_empty(),
            Some(parent) => match self.batches.get(parent) {
                None => false,
                Some(before) => goes_on(batch, before),
            },
        }
    }

    /// Whether a batch of the key's version is not an ancestor of one with this key and this parent.
    fn splits_version(&self, key: BatchKey, parent: Option<BatchKey>) -> bool
        requires { IfSome parent (λ before. before.task < key.task) }
        ensures { result ≡ splits_version self.now.batches key.version parent }
    {
        match self.batches.first_from(key_behind(key, parent)) {
            None => false,
            Some(batch) => batch.key.version == key.version,
        }
    }

    /// Whether the batch fits the tree.
    fn fits(&self, batch: &Batch) -> bool
        requires { IfSome batch.now.parent (λ before. before.task < batch.now.key.task) }
        ensures { result ≡ fits self.now.run self.now.batches batch.now }
    {
        batch.run.value == self.run.value
            && self.batches.get(batch.key).is_none()
            && self.is_below(batch)
            && !self.splits_version(batch.key, batch.parent)
    }
}

/// Whether the batch is one of these.
fn is_known(batches: &Batches, batch: &Batch) -> bool
    ensures { IsTrue result ↔ Has batches.now batch.now }
{
    match batches.get(batch.key) {
        None => false,
        Some(other) => other.is_same(batch),
    }
}

/// The item of a batch's last event, where there is a batch.
fn end_of(batch: Option<&Batch>) -> Item
    ensures { result ≡ end_of (option_copied batch.entry) }
{
    match batch {
        None => Item { id: 0, version: 0 },
        Some(batch) => Item {
            id: last_id(batch.events.as_slice()),
            version: batch.key.version,
        },
    }
}

/// Whether the batch's first event comes just after the last one of the other.
fn goes_on(batch: &Batch, before: &Batch) -> bool
    ensures { result ≡ goes_on batch.now (Some before.now) }
{
    let first = first_id(batch.events.as_slice());
    first.checked_sub(1) == Some(last_id(before.events.as_slice()))
}

/// The key of this key's version after the parent's, where this is of the version, or else the least one.
fn key_behind(key: BatchKey, parent: Option<BatchKey>) -> BatchKey
    requires { IfSome parent (λ before. before.task < key.task) }
    ensures { result ≡ key_behind key.version parent }
{
    let version = key.version;
    let task = match parent {
        None => 0,
        Some(parent) => {
            if parent.version == version {
                parent.task + 1
            } else {
                0
            }
        }
    };
    BatchKey { version, task }
}

/// The key of the batch, where there is one.
fn key_of(batch: Option<&Batch>) -> Option<BatchKey>
    ensures { result ≡ option_map (λ b. b.key) (option_copied batch.entry) }
{
    match batch {
        None => None,
        Some(batch) => Some(batch.key),
    }
}

/// The parent's key of the batch, where there is one.
fn parent_of(batch: Option<&Batch>) -> Option<BatchKey>
    ensures { result ≡ parent_of (option_copied batch.entry) }
{
    match batch {
        None => None,
        Some(batch) => batch.parent,
    }
}

/// The keys of the batches.
fn keys_of(alloc: Global, batches: &[&Batch]) -> Result<Vec<BatchKey>, OutOfMemory>
    ensures { IfOk result (λ keys. keys.items ≡ map (λ b. b.now.key) batches.now) }
{
    batches.iter().map(|batch| batch.key).collect(alloc)
}

/// The items, and one more, in room for a multiple of so many.
fn with_end(alloc: Global, front: &[Item], end: Item, room: usize) -> Result<Vec<Item>, OutOfMemory>
    requires { 0 < room }
    ensures { IfOk result (λ list. list.items ≡ front.now ++ end ∷ []) }
{
    let further = room - front.len() % room;
    let mut items = Vec::with_capacity(alloc, front.len().saturating_add(further))?;
    items.extend_from_slice(front)?;
    items.push(end)?;
    Ok(items)
}
