ghost use Rattle.std.specs.Prelude.{◌≡◌, [], ◌∷◌, ◌++◌, IsTrue, IfOk, IfErr, OnOk, OnErr};
ghost use Rattle.ndc_event.specs.Sorted.{InOrder};
ghost use Rattle.ndc_state.specs.OriginList.{origin_before, origins_now, AreFound, IsListed, IsUnlisted};
ghost use Rattle.ndc_state.specs.Origins.{is_among, with_origin};

use indexmap::IndexSet;
use ndc_event::{Origin, OutOfMemory};
use std::alloc::Global;
use std::marker::Model;

/// The origins of a run's signals, in order and each once, with what takes them back to how they were at
/// the last mark. While they rise, as on a path they mostly do, a bisection finds an origin among them; once one
/// does not, they are indexed.
#[derive(Drop)]
pub(crate) struct Listed {
    alloc: Global,
    /// The origins while they rise, and none afterwards.
    rising: Vec<Origin>,
    /// The origins, once they do not rise.
    indexed: Option<IndexSet<Origin>>,
    /// How many there were at the mark.
    count: usize,
}

impl Model for Listed {
    ghost use Rattle.std.specs.Prelude.{List};
    ghost use Rattle.ndc_event.specs.declared.key.Origin.{Origin};
    ghost use Rattle.ndc_state.specs.Marked.{Marked};

    ghost Value = { Marked (List Origin) };

    ghost use Rattle.ndc_state.specs.OriginList.{marked_origins, AreMarked};

    ghost view = { λ l. marked_origins l.rising.items l.indexed l.count };

    ghost invariant = { λ l. AreMarked l.rising.items l.indexed l.count };
}

/// Where the origin stands in a list that rises, or would go. The end of the list is looked at first.
fn place_of(origins: &[Origin], origin: Origin) -> Result<usize, usize>
    requires { InOrder origin_before origins.now }
    ensures found { IfOk result (IsListed origins.now origin) }
    ensures absent { IfErr result (IsUnlisted origins.now origin) }
{
    match origins.last() {
        Some(last) if last.cmp(&origin).is_lt() => Err(origins.len()),
        _ => origins.binary_search_by(|other| other.cmp(&origin)),
    }
}

/// Whether the origin stands in a list that rises.
pub fn is_among_rising(origins: &[Origin], origin: Origin) -> bool
    requires { InOrder origin_before origins.now }
    ensures { result ≡ is_among origin origins.now }
{
    place_of(origins, origin).is_ok()
}

/// Whether the origin goes last in a list that rises, so that it still does.
pub fn rises_with(origins: &[Origin], origin: Origin) -> bool
    requires { InOrder origin_before origins.now }
    ensures { IsTrue result → InOrder origin_before (origins.now ++ origin ∷ []) }
{
    match place_of(origins, origin) {
        Ok(_) => false,
        Err(place) => place == origins.len(),
    }
}

/// Puts the origin last into an index, unless it is there.
fn put(index: &mut IndexSet<Origin>, origin: Origin) -> Result<(), OutOfMemory>
    ensures ok { OnOk result (index.new.keys ≡ with_origin origin index.old.keys) }
    ensures err { OnErr result (index.new.keys ≡ index.old.keys) }
{
    index.insert(origin)?;
    Ok(())
}

/// An index of origins that rise.
fn index_of(alloc: Global, origins: &[Origin]) -> Result<IndexSet<Origin>, OutOfMemory>
    requires { InOrder origin_before origins.now }
    ensures { IfOk result (λ index. index.keys ≡ origins.now) }
{
    let mut index = IndexSet::with_capacity(alloc, origins.len())?;
    for origin in origins {
        put(&mut index, *origin)?;
    }
    Ok(index)
}

/// Puts the origin last, unless it is listed. Once the origins do not rise, they are indexed.
fn insert(
    alloc: Global,
    rising: &mut Vec<Origin>,
    indexed: &mut Option<IndexSet<Origin>>,
    origin: Origin,
) -> Result<(), OutOfMemory>
    requires { AreFound rising.old.items indexed.old }
    ensures found { AreFound rising.new.items indexed.new }
    ensures ok { OnOk result (origins_now rising.new.items indexed.new
        ≡ with_origin origin (origins_now rising.old.items indexed.old)) }
    ensures err { OnErr result (origins_now rising.new.items indexed.new
        ≡ origins_now rising.old.items indexed.old) }
{
    if let Some(index) = indexed {
        return put(index, origin);
    }
    let Err(place) = place_of(rising.as_slice(), origin) else {
        return Ok(());
    };
    if place == rising.len() {
        rising.push(origin)?;
        return Ok(());
    }
    let mut index = index_of(alloc, rising.as_slice())?;
    put(&mut index, origin)?;
    *indexed = Some(index);
    *rising = Vec::new(alloc);
    Ok(())
}

impl Listed {
    ghost use Rattle.std.specs.Prelude.{◌≡◌, [], OnOk, OnErr, IfOk, length};
    ghost use Rattle.ndc_state.specs.Origins.{is_among, with_origin};

    /// There is no origin.
    pub(crate) fn new(alloc: Global) -> Listed
        ensures current { result.current ≡ [] }
        ensures marked { result.marked ≡ [] }
    {
        Listed {
            alloc,
            rising: Vec::new(alloc),
            indexed: None,
            count: 0,
        }
    }

    /// The origins, in order.
    pub(crate) fn as_slice(&self) -> &[Origin]
        ensures { result.now ≡ self.now.current }
    {
        match &self.indexed {
            None => self.rising.as_slice(),
            Some(index) => index.as_slice(),
        }
    }

    /// How many there are.
    pub(crate) fn len(&self) -> usize
        ensures { result ≡ length self.now.current }
    {
        self.as_slice().len()
    }

    /// Whether the origin is listed.
    pub(crate) fn contains(&self, origin: Origin) -> bool
        ensures { result ≡ is_among origin self.now.current }
    {
        match &self.indexed {
            None => is_among_rising(self.rising.as_slice(), origin),
            Some(index) => index.contains(&origin),
        }
    }

    /// Puts the origin last, unless it is listed.
    pub(crate) fn insert(&mut self, origin: Origin) -> Result<(), OutOfMemory>
        ensures current { OnOk result (self.new.current ≡ with_origin origin self.old.current) }
        ensures marked { self.new.marked ≡ self.old.marked }
        ensures err { OnErr result (self.new ≡ self.old) }
    {
        insert(self.alloc, &mut self.rising, &mut self.indexed, origin)
    }

    /// Makes the origins listed now the mark.
    pub(crate) fn mark(&mut self)
        ensures current { self.new.current ≡ self.old.current }
        ensures marked { self.new.marked ≡ self.old.current }
    {
        self.count = self.len();
    }

    /// Goes back to the mark.
    pub(crate) fn revert(&mut self)
        ensures current { self.new.current ≡ self.old.marked }
        ensures marked { self.new.marked ≡ self.old.marked }
    {
        match &mut self.indexed {
            None => self.rising.truncate(self.count),
            Some(index) => index.truncate(self.count),
        }
    }

    /// The same origins as they are now.
    pub(crate) fn try_copy(&self) -> Result<Listed, OutOfMemory>
        ensures { IfOk result (λ copy. copy.current ≡ self.now.current) }
    {
        let rising = self.rising.clone()?;
        let indexed = self.indexed.clone()?;
        Ok(Listed {
            alloc: self.alloc,
            rising,
            indexed,
            count: self.len(),
        })
    }
}
