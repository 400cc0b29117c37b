ghost use Rattle.std.specs.Prelude.{◌≡◌, ◌<◌, ℕ, true, false, [], ◌++◌, map, length, slice_index_or, None, Some, Err, IfOk, IfSome, OnOk};
ghost use Rattle.std.specs.List.{flat_map};
ghost use Rattle.std.specs.Option.{option_map};
ghost use Rattle.std.specs.Str.{bytes_eq};
ghost use Rattle.ndc_index.specs.Seats.{after_all, after_told, chosen, chosen_of, own_text, seat_line, seat_of, seated, seated_of, shown, taken_of, taken_out};
ghost use Rattle.ndc_index.specs.declared.choose.ChooseError.TheVariants.{UnknownIndexer};

use crate::indexer::Indexer;
use crate::seat::{Seat, catch_up_all, push_lines, tell_all};
use crate::seen::Seen;
use ndc_event::{Name, OutOfMemory};
use std::alloc::{AllocError, AllocFailed, Global};
use thiserror::Error;

/// Why indexers were not chosen.
#[derive(Clone, Copy, Debug, PartialEq, Eq, Error)]
pub enum ChooseError {
    #[error("no indexer has the name")]
    UnknownIndexer,
    #[error("out of memory")]
    Memory,
}

impl From<AllocError> for ChooseError {
    ghost use Rattle.std.specs.Prelude.{◌≡◌};
    ghost use Rattle.ndc_index.specs.declared.choose.ChooseError.TheVariants.{Memory};

    ghost from_gives = { λ _ e. e ≡ Memory };

    fn from(_error: AllocError) -> ChooseError {
        ChooseError::Memory
    }
}

impl<T: Drop> From<AllocFailed<T>> for ChooseError {
    ghost use Rattle.std.specs.Prelude.{◌≡◌};
    ghost use Rattle.ndc_index.specs.declared.choose.ChooseError.TheVariants.{Memory};

    ghost from_gives = { λ _ e. e ≡ Memory };

    fn from(_failed: AllocFailed<T>) -> ChooseError {
        ChooseError::Memory
    }
}

/// Whether the indexer has the name.
fn has_name(indexer: &Box<dyn Indexer>, name: &Name) -> bool
    ensures { result ≡ bytes_eq (title indexer.now) name.now }
{
    indexer.name().as_bytes() == name.as_bytes()
}

/// The place of the first indexer that has the name.
fn place_of(all: &[Box<dyn Indexer>], name: &Name) -> Option<usize>
    ensures found { IfSome result (λ place. (place < length all.now)
        × ((k : ℕ) → k < place → bytes_eq (slice_index_or (map title all.now) k []) name.now
        ≡ false)
        × (bytes_eq (slice_index_or (map title all.now) place []) name.now ≡ true)) }
    ensures none { result ≡ None → (k : ℕ) → k < length all.now
        → bytes_eq (slice_index_or (map title all.now) k []) name.now ≡ false }
{
    for place in 0..all.len() {
        if has_name(&all[place], name) {
            return Some(place);
        }
    }
    None
}

/// Takes the first indexer of the name out of the list; none, where none has it.
fn take_out(all: &mut Vec<Box<dyn Indexer>>, name: &Name) -> Option<Box<dyn Indexer>>
    ensures { taken_out name.now (map (λ b. shown (title b) (failing b) (list b)) all.old.items)
        ≡ option_map (λ b. taken_of (shown (title b) (failing b) (list b))
        (map (λ b. shown (title b) (failing b) (list b)) all.new.items)) result }
{
    let place = place_of(all.as_slice(), name)?;
    Some(all.remove(place))
}

/// A seat for each name, with the first indexer of its name, which is taken out of the list.
fn seat_all(
    alloc: Global,
    all: &mut Vec<Box<dyn Indexer>>,
    names: &[Name],
) -> Result<Vec<Seat>, ChooseError>
    ensures seated { IfOk result (λ seats.
        seated names.now (map (λ b. shown (title b) (failing b) (list b)) all.old.items)
        ≡ Some (seated_of (map (λ seat.
        seat_of seat.name seat.calls
        (option_map (λ b. shown (title b) (failing b) (list b)) seat.indexer)) seats.items)
        (map (λ b. shown (title b) (failing b) (list b)) all.new.items))) }
    ensures unknown { result ≡ Err UnknownIndexer
        → seated names.now (map (λ b. shown (title b) (failing b) (list b)) all.old.items) ≡ None }
{
    let mut seats = Vec::new(alloc);
    for name in names {
        let Some(indexer) = take_out(all, name) else {
            return Err(ChooseError::UnknownIndexer);
        };
        seats.push(Seat {
            name: name.try_copy()?,
            calls: 0,
            indexer: Some(indexer),
        })?;
    }
    Ok(seats)
}

/// Indexers that were asked for: those that are told as a script runs, and those that are told all of it late, each in
/// the order in which they were asked for.
#[derive(Drop)]
pub struct Indexers {
    /// Those that are told as the script runs.
    pub asked: Vec<Seat>,
    /// Those that are told all of it late.
    pub late: Vec<Seat>,
}

impl Indexers {
    /// Keeps the first indexer of each name, those of `names` and then those of `late`, and drops all others. Refused
    /// with [`ChooseError::UnknownIndexer`] exactly where a name has none, with [`ChooseError::Memory`] where memory
    /// runs out; then all are dropped.
    #[tactic(auto, unfolding(crate::specs::Seats::chosen))]
    pub fn choose(
        alloc: Global,
        all: Vec<Box<dyn Indexer>>,
        names: &[Name],
        late: &[Name],
    ) -> Result<Indexers, ChooseError>
        ensures chosen { IfOk result (λ indexers.
            chosen names.now late.now (map (λ b. shown (title b) (failing b) (list b)) all.items)
            ≡ Some (chosen_of
            (map (λ seat. seat_of seat.name seat.calls
            (option_map (λ b. shown (title b) (failing b) (list b)) seat.indexer))
            indexers.asked.items)
            (map (λ seat. seat_of seat.name seat.calls
            (option_map (λ b. shown (title b) (failing b) (list b)) seat.indexer))
            indexers.late.items))) }
        ensures unknown { result ≡ Err UnknownIndexer
            → chosen names.now late.now (map (λ b. shown (title b) (failing b) (list b)) all.items)
            ≡ None }
    {
        let mut left = all;
        let asked = seat_all(alloc, &mut left, names)?;
        let late = seat_all(alloc, &mut left, late)?;
        Ok(Indexers { asked, late })
    }

    /// Tells each of those that are told as the script runs, and none of the late ones. One whose call fails is dropped
    /// at once, and the number of its calls that went well is kept. Where memory runs out, no more is said of them.
    pub fn told(&mut self, seen: &Seen) -> Result<(), OutOfMemory>
        ensures told { OnOk result
            (map (λ seat. seat_of seat.name seat.calls
            (option_map (λ b. shown (title b) (failing b) (list b)) seat.indexer))
            self.new.asked.items
            ≡ map (after_told seen.now) (map (λ seat.
            seat_of seat.name seat.calls
            (option_map (λ b. shown (title b) (failing b) (list b)) seat.indexer))
            self.old.asked.items)) }
        ensures late { self.new.late ≡ self.old.late }
    {
        tell_all(&mut self.asked, seen)
    }

    /// Tells each of the late ones all of these, up to its first call that fails; that one is then dropped, and the
    /// number of its calls that went well is kept. Where memory runs out, no more is said of them.
    pub fn catch_up(&mut self, seen: &[Seen]) -> Result<(), OutOfMemory>
        ensures told { OnOk result
            (map (λ seat. seat_of seat.name seat.calls
            (option_map (λ b. shown (title b) (failing b) (list b)) seat.indexer))
            self.new.late.items
            ≡ map (after_all seen.now) (map (λ seat.
            seat_of seat.name seat.calls
            (option_map (λ b. shown (title b) (failing b) (list b)) seat.indexer))
            self.old.late.items)) }
        ensures asked { self.new.asked ≡ self.old.asked }
    {
        catch_up_all(&mut self.late, seen)
    }

    /// Appends the line of each, in the order in which they were asked for, the late ones last.
    pub fn lines(&self, into: &mut Vec<u8>) -> Result<(), OutOfMemory>
        ensures { OnOk result (into.new.items ≡ into.old.items
            ++ (flat_map (λ seat. seat_line
            (seat_of seat.name seat.calls
            (option_map (λ b. shown (title b) (failing b) (list b)) seat.indexer))
            (own_text (option_map text seat.indexer))) self.now.asked.items
            ++ flat_map (λ seat. seat_line
            (seat_of seat.name seat.calls
            (option_map (λ b. shown (title b) (failing b) (list b)) seat.indexer))
            (own_text (option_map text seat.indexer))) self.now.late.items)) }
    {
        push_lines(self.asked.as_slice(), into)?;
        push_lines(self.late.as_slice(), into)
    }
}
