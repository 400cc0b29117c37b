ghost use Rattle.std.specs.Prelude.{◌≡◌, ◌+◌, ◌++◌, codes, map, IfOk, IfErr, OnOk};
ghost use Rattle.std.specs.List.{flat_map};
ghost use Rattle.ndc_domain.specs.Records.{names_cmp};
ghost use Rattle.ndc_index.specs.Kinds.{IsCounted, IsUncounted};
ghost use Rattle.ndc_index.specs.Texts.{count_text};

use crate::indexer::{Indexer, ToldError};
use crate::seen::Seen;
use ndc_event::{Event, Name, OutOfMemory};
use std::alloc::{AllocError, Global};
use std::cmp::Ordering;
use std::marker::Model;

/// A kind's name, and how many events have it.
#[derive(Drop)]
struct KindCount {
    name: Name,
    count: u64,
}

impl Clone for KindCount {
    ghost use Rattle.std.specs.Prelude.{◌≡◌};

    ghost is_clone = { λ entry copy. copy ≡ entry };

    fn clone(&self) -> Result<KindCount, OutOfMemory> {
        Ok(KindCount {
            name: self.name.try_copy()?,
            count: self.count,
        })
    }
}

/// How many events there are of each kind, in order of the kinds' names.
#[derive(Drop)]
struct KindCounts {
    alloc: Global,
    items: Vec<KindCount>,
}

impl Model for KindCounts {
    ghost use Rattle.std.specs.Prelude.{ℕ, List, map};
    ghost use Rattle.ndc_event.specs.declared.name.Name.{Name};

    ghost Value = { List (Name × ℕ) };

    ghost view = { λ counts. map (λ entry. (entry.name, entry.count)) counts.items.items };
}

/// How the name is ordered before the one that is counted.
fn compare(name: &str, entry: &KindCount) -> Ordering
    ensures { result ≡ names_cmp name.now entry.now.name }
{
    name.cmp(entry.name.as_str())
}

/// Where the count of the name stands, or where it would go.
fn place_of(counts: &[KindCount], name: &str) -> Result<usize, usize>
    ensures counted { IfOk result
        (IsCounted (map (λ entry. (entry.name, entry.count)) counts.now) name.now) }
    ensures uncounted { IfErr result
        (IsUncounted (map (λ entry. (entry.name, entry.count)) counts.now) name.now) }
{
    for place in 0..counts.len() {
        match compare(name, &counts[place]) {
            Ordering::Less => return Err(place),
            Ordering::Equal => return Ok(place),
            Ordering::Greater => {}
        }
    }
    Err(counts.len())
}

/// The name of this text; an error where it is not a name.
fn name_of(alloc: Global, text: &str) -> Result<Name, OutOfMemory>
    ensures { IfOk result (λ name. name ≡ text.now) }
{
    Name::new(alloc, text.as_bytes()).map_err(|_| AllocError)
}

/// One more of a name; an error where the count is too great.
fn one_more(entry: &KindCount) -> Result<KindCount, OutOfMemory>
    ensures name { IfOk result (λ more. more.name ≡ entry.now.name) }
    ensures count { IfOk result (λ more. more.count ≡ entry.now.count + 1) }
{
    let count = entry.count.checked_add(1).ok_or(AllocError)?;
    Ok(KindCount {
        name: entry.name.try_copy()?,
        count,
    })
}

/// Appends a count with its name.
fn push_count(entry: &KindCount, into: &mut Vec<u8>) -> Result<(), OutOfMemory>
    ensures { OnOk result (into.new.items
        ≡ into.old.items ++ count_text (entry.now.name, entry.now.count)) }
{
    let mut buffer = itoa::Buffer::new();
    into.extend_from_slice(entry.name.as_bytes())?;
    into.extend_from_slice(b" ".as_slice())?;
    into.extend_from_slice(buffer.format(entry.count).as_bytes())
}

/// Appends counts, each after a space.
fn push_later(entries: &[KindCount], into: &mut Vec<u8>) -> Result<(), OutOfMemory>
    ensures { OnOk result (into.new.items ≡ into.old.items
        ++ flat_map (λ later. codes " " ++ count_text later) (map (λ entry.
        (entry.name, entry.count)) entries.now)) }
{
    for entry in entries {
        into.extend_from_slice(b" ".as_slice())?;
        push_count(entry, into)?;
    }
    Ok(())
}

impl KindCounts {
    ghost use Rattle.std.specs.Prelude.{◌≡◌, [], ◌++◌, map, IfOk, OnErr, OnOk};
    ghost use Rattle.std.specs.List.{fold};
    ghost use Rattle.ndc_event.specs.Kind.{kind_name};
    ghost use Rattle.ndc_index.specs.Texts.{counts_text, with_one_more};

    /// Nothing was counted.
    fn new(alloc: Global) -> KindCounts
        ensures { result ≡ [] }
    {
        KindCounts {
            alloc,
            items: Vec::new(alloc),
        }
    }

    /// The same.
    fn try_copy(&self) -> Result<KindCounts, OutOfMemory>
        ensures { IfOk result (λ copy. copy ≡ self.now) }
    {
        Ok(KindCounts {
            alloc: self.alloc,
            items: self.items.clone()?,
        })
    }

    /// Counts a name once more. Where memory runs out, or the count is too great, all stays as it was.
    fn add(&mut self, name: &str) -> Result<(), OutOfMemory>
        ensures added { OnOk result (self.new ≡ with_one_more self.old name.now) }
        ensures unchanged { OnErr result (self.new ≡ self.old) }
    {
        match place_of(self.items.as_slice(), name) {
            Ok(place) => {
                let entry = one_more(&self.items[place])?;
                self.items[place] = entry;
            }
            Err(place) => {
                let name = name_of(self.alloc, name)?;
                self.items.insert(place, KindCount { name, count: 1 })?;
            }
        }
        Ok(())
    }

    /// Counts the kind of each event.
    fn add_all(&mut self, events: &[Event]) -> Result<(), OutOfMemory>
        ensures { OnOk result (self.new
            ≡ fold with_one_more self.old (map (λ event. kind_name event.kind) events.now)) }
    {
        for event in events {
            self.add(event.kind.name())?;
        }
        Ok(())
    }

    /// Appends the counts with spaces between them, or a dash.
    fn push(&self, into: &mut Vec<u8>) -> Result<(), OutOfMemory>
        ensures { OnOk result (into.new.items ≡ into.old.items ++ counts_text self.now) }
    {
        match self.items.as_slice() {
            [] => into.extend_from_slice(b"-".as_slice()),
            [first, later @ ..] => {
                push_count(first, into)?;
                push_later(later, into)
            }
        }
    }
}

/// The indexer `kinds`: how many events there are of each kind. Seen as the list of what it was told.
#[derive(Drop)]
pub struct KindsIndexer {
    seen: Vec<Seen>,
    counts: KindCounts,
}

impl Model for KindsIndexer {
    ghost use Rattle.std.specs.Prelude.{◌≡◌, List};
    ghost use Rattle.ndc_index.specs.Texts.{events_told, kind_counts};
    ghost use Rattle.ndc_index.specs.declared.seen.Seen.{Seen};

    ghost Value = { List Seen };

    ghost view = { λ indexer. indexer.seen.items };

    ghost invariant = { λ indexer. indexer.counts ≡ kind_counts (events_told indexer.seen.items) };
}

impl KindsIndexer {
    ghost use Rattle.std.specs.Prelude.{◌≡◌, []};

    /// The indexer that was told nothing. Takes no memory.
    pub fn new(alloc: Global) -> KindsIndexer
        ensures { result ≡ [] }
    {
        KindsIndexer {
            seen: Vec::new(alloc),
            counts: KindCounts::new(alloc),
        }
    }
}

impl Indexer for KindsIndexer {
    ghost use Rattle.std.specs.Prelude.{[], codes};
    ghost use Rattle.ndc_index.specs.Texts.{events_told, kinds_text};

    ghost title = { λ _. codes "kinds" };

    ghost list = { λ told. told };

    ghost failing = { λ _. [] };

    ghost text = { λ told. kinds_text (events_told told) };

    fn name(&self) -> &str {
        "kinds"
    }

    fn told(&mut self, seen: &Seen) -> Result<(), ToldError> {
        let mut counts = self.counts.try_copy()?;
        counts.add_all(seen.batch.events.as_slice())?;
        self.seen.push(seen.try_copy()?)?;
        self.counts = counts;
        Ok(())
    }

    fn line(&self, into: &mut Vec<u8>) -> Result<(), OutOfMemory> {
        self.counts.push(into)
    }
}
