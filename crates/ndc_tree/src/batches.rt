ghost use Rattle.std.specs.Prelude.{◌≡◌, ◌<◌, ◌≤◌, ◌++◌, IfOk, IfErr, OnOk, length, drop, map, slice_get};
ghost use Rattle.std.specs.Option.{option_copied};
ghost use Rattle.ndc_event.specs.Sorted.{Hits, Parts};
ghost use Rattle.ndc_tree.specs.Segments.{AreSegments, against, flat};

use crate::chain::Chain;
use crate::sorted::put;
use ndc_event::{Batch, BatchKey, Event, OutOfMemory};
use std::alloc::Global;
use std::marker::Model;

/// The batches of one version.
#[derive(Drop)]
pub(crate) struct Segment {
    version: u64,
    chain: Chain,
}

/// Batches that are found by key, with a segment for each of their versions. Seen as their list in key order.
#[derive(Drop)]
pub(crate) struct Batches {
    segments: Vec<Segment>,
}

impl Model for Batches {
    ghost use Rattle.std.specs.Prelude.{List};
    ghost use Rattle.ndc_event.specs.declared.batch.Batch.{Batch};

    ghost Value = { List Batch };

    ghost use Rattle.ndc_tree.specs.Segments.{flat, AreSegments};

    ghost view = { λ batches. flat batches.segments.items };

    ghost invariant = { λ batches. AreSegments batches.segments.items };
}

/// Where the segment of the version stands, or where it would go. It is looked for at the hinted place first.
fn place_of(segments: &[Segment], version: u64, hint: usize) -> Result<usize, usize>
    requires { AreSegments segments.now }
    ensures found { IfOk result (Hits (against version) segments.now) }
    ensures in_range { IfOk result (λ place. place < length segments.now) }
    ensures absent { IfErr result (Parts (against version) segments.now) }
    ensures in_gap { IfErr result (λ place. place ≤ length segments.now) }
{
    if hint < segments.len() && segments[hint].version == version {
        return Ok(hint);
    }
    segments.binary_search_by(|segment| segment.version.cmp(&version))
}

/// The first batch of the segment at the place, where there is one.
fn first_at(segments: &[Segment], place: usize) -> Option<&Batch>
    requires { AreSegments segments.now }
    ensures { option_copied result ≡ slice_get (flat (drop place segments.now)) 0 }
{
    if segments.len() <= place {
        return None;
    }
    segments[place].chain.first()
}

/// Adds these batches to the list.
fn add_all<'b>(list: &mut Vec<&'b Batch>, batches: &'b [Batch]) -> Result<(), OutOfMemory>
    ensures { OnOk result (map (λ b. b.now) list.new.items ≡ map (λ b. b.now) list.old.items
        ++ batches.now) }
{
    for batch in batches {
        list.push(batch)?;
    }
    Ok(())
}

impl Batches {
    ghost use Rattle.std.specs.Prelude.{◌≡◌, [], None, map, IfOk, OnOk, OnErr};
    ghost use Rattle.std.specs.Option.{option_copied};
    ghost use Rattle.ndc_model_sets.specs.Sets.{batch_at, arrived};
    ghost use Rattle.ndc_model_sets.specs.Last.{first_from, last_batch, is_nil};
    ghost use Rattle.ndc_tree.specs.Events.{AreVersionsInIdOrder, event_at};

    /// There is no batch.
    pub(crate) fn new(alloc: Global) -> Batches
        ensures { result ≡ [] }
    {
        Batches {
            segments: Vec::new(alloc),
        }
    }

    /// The place of the last segment, 0 where there is none.
    pub(crate) fn last_place(&self) -> usize {
        self.segments.len().saturating_sub(1)
    }

    /// Where the segment of the version stands, or would go. It is looked for at the hinted place first.
    pub(crate) fn place_near(&self, version: u64, hint: usize) -> usize {
        match place_of(self.segments.as_slice(), version, hint) {
            Ok(place) => place,
            Err(place) => place,
        }
    }

    /// The batch of this key.
    pub(crate) fn get(&self, key: BatchKey) -> Option<&Batch>
        ensures { option_copied result ≡ batch_at key self.now }
    {
        self.get_near(key, self.last_place())
    }

    /// The batch of this key, whose segment is looked for at the hinted place first.
    pub(crate) fn get_near(&self, key: BatchKey, hint: usize) -> Option<&Batch>
        ensures { option_copied result ≡ batch_at key self.now }
    {
        match place_of(self.segments.as_slice(), key.version, hint) {
            Ok(place) => self.segments[place].chain.get(key),
            Err(_) => None,
        }
    }

    /// The batches, in key order.
    pub(crate) fn to_vec(&self, alloc: Global) -> Result<Vec<&Batch>, OutOfMemory>
        ensures { IfOk result (λ list. map (λ b. b.now) list.items ≡ self.now) }
    {
        let mut list = Vec::new(alloc);
        for segment in self.segments.as_slice() {
            add_all(&mut list, segment.chain.as_slice())?;
        }
        Ok(list)
    }

    /// Whether there is no batch.
    pub(crate) fn is_empty(&self) -> bool
        ensures { result ≡ is_nil self.now }
    {
        self.segments.as_slice().is_empty()
    }

    /// The first batch whose key is not before this one.
    pub(crate) fn first_from(&self, key: BatchKey) -> Option<&Batch>
        ensures { option_copied result ≡ first_from key self.now }
    {
        self.first_near(key, self.last_place())
    }

    /// The first batch whose key is not before this one. The segment of the key's version is looked for at the hinted
    /// place first.
    pub(crate) fn first_near(&self, key: BatchKey, hint: usize) -> Option<&Batch>
        ensures { option_copied result ≡ first_from key self.now }
    {
        let segments = self.segments.as_slice();
        match place_of(segments, key.version, hint) {
            Ok(place) => match segments[place].chain.first_from(key) {
                Some(batch) => Some(batch),
                None => first_at(segments, place + 1),
            },
            Err(place) => first_at(segments, place),
        }
    }

    /// The event of this version and id in one of the batches.
    pub(crate) fn event(&self, version: u64, id: u64) -> Option<&Event>
        requires { AreVersionsInIdOrder self.now }
        ensures { option_copied result ≡ event_at version id self.now }
    {
        match place_of(self.segments.as_slice(), version, self.last_place()) {
            Ok(place) => self.segments[place].chain.event(id),
            Err(_) => None,
        }
    }

    /// The last batch.
    pub(crate) fn last(&self) -> Option<&Batch>
        ensures { option_copied result ≡ last_batch self.now }
    {
        let segment = self.segments.last()?;
        segment.chain.last()
    }

    /// Puts the batch to its place, where none of its key is there.
    pub(crate) fn insert(&mut self, batch: Batch) -> Result<(), OutOfMemory>
        ensures ok { OnOk result (self.new ≡ arrived batch self.old) }
        ensures err { OnErr result (self.new ≡ self.old) }
    {
        let version = batch.key.version;
        let hint = self.last_place();
        match place_of(self.segments.as_slice(), version, hint) {
            Ok(place) => self.segments[place].chain.insert(batch),
            Err(place) => {
                let chain = Chain::of(*self.segments.allocator(), batch)?;
                put(&mut self.segments, place, Segment { version, chain })
            }
        }
    }
}
