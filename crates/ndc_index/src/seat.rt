ghost use Rattle.std.specs.Prelude.{◌≡◌, map, not, true, [], ◌∷◌, ◌++◌, codes, decimal, Ok, IfOk, OnOk};
ghost use Rattle.std.specs.Option.{option_map};
ghost use Rattle.std.specs.List.{flat_map};
ghost use Rattle.ndc_index.specs.Seats.{after_all, after_told, own_text, seat_line, seat_of, shown};
ghost use Rattle.ndc_index.specs.Told.{fails_next, text_of};

use crate::indexer::{Indexer, ToldError};
use crate::seen::Seen;
use ndc_event::{Name, OutOfMemory};
use std::alloc::{AllocError, Global};

/// An indexer that was asked for by its name. It is told until one of its calls fails; then it is dropped, and the
/// number of its calls that went well is kept.
#[derive(Drop)]
pub struct Seat {
    /// The name by which it was asked for.
    pub name: Name,
    /// How many of its calls went well.
    pub calls: u64,
    /// The indexer; none after a call that failed.
    pub indexer: Option<Box<dyn Indexer>>,
}

/// Tells an indexer: whether the call went well.
pub(crate) fn tell(indexer: &mut Box<dyn Indexer>, seen: &Seen) -> Result<bool, OutOfMemory>
    ensures well { IfOk result (λ well.
        well ≡ not (fails_next (failing indexer.old) (list indexer.old))) }
    ensures told { result ≡ Ok true → list indexer.new ≡ list indexer.old ++ seen.now ∷ [] }
    ensures title { title indexer.new ≡ title indexer.old }
    ensures failing { failing indexer.new ≡ failing indexer.old }
{
    match indexer.told(seen) {
        Ok(()) => Ok(true),
        Err(ToldError::Failed) => Ok(false),
        Err(ToldError::Memory) => Err(AllocError),
    }
}

impl Seat {
    /// Tells the indexer, where it is still there. Where memory runs out, no more is said of the seat.
    #[tactic(auto, unfolding(crate::specs::Seats::after_told))]
    pub fn told(&mut self, seen: &Seen) -> Result<(), OutOfMemory>
        ensures { OnOk result (seat_of self.new.name self.new.calls
            (option_map (λ b. shown (title b) (failing b) (list b)) self.new.indexer)
            ≡ after_told seen.now (seat_of self.old.name self.old.calls
            (option_map (λ b. shown (title b) (failing b) (list b)) self.old.indexer))) }
    {
        let Some(indexer) = &mut self.indexer else {
            return Ok(());
        };
        if tell(indexer, seen)? {
            self.calls = self.calls.checked_add(1).ok_or(AllocError)?;
        } else {
            self.indexer = None;
        }
        Ok(())
    }

    /// Tells the indexer of each of these, up to its first call that fails. Where memory runs out, no more is said of
    /// the seat.
    pub fn catch_up(&mut self, seen: &[Seen]) -> Result<(), OutOfMemory>
        ensures { OnOk result (seat_of self.new.name self.new.calls
            (option_map (λ b. shown (title b) (failing b) (list b)) self.new.indexer)
            ≡ after_all seen.now (seat_of self.old.name self.old.calls
            (option_map (λ b. shown (title b) (failing b) (list b)) self.old.indexer))) }
    {
        for one in seen {
            self.told(one)?;
        }
        Ok(())
    }

    /// Appends the line of the seat.
    #[tactic(auto, unfolding(crate::specs::Seats::seat_line))]
    pub fn line(&self, into: &mut Vec<u8>) -> Result<(), OutOfMemory>
        ensures { OnOk result (into.new.items ≡ into.old.items
            ++ seat_line (seat_of self.now.name self.now.calls
            (option_map (λ b. shown (title b) (failing b) (list b)) self.now.indexer)) (own_text
            (option_map text self.now.indexer))) }
    {
        into.extend_from_slice(b"index ".as_slice())?;
        into.extend_from_slice(self.name.as_bytes())?;
        into.extend_from_slice(b" ".as_slice())?;
        match &self.indexer {
            Some(indexer) => push_line(indexer, into)?,
            None => push_failed(self.calls, into)?,
        }
        into.extend_from_slice(b"\n".as_slice())
    }
}

/// Appends what an indexer shows.
fn push_line(indexer: &Box<dyn Indexer>, into: &mut Vec<u8>) -> Result<(), OutOfMemory>
    ensures { OnOk result (into.new.items
        ≡ into.old.items ++ text_of (title indexer.now) (text indexer.now) (list indexer.now)) }
{
    indexer.line(into)
}

/// Appends after how many calls an indexer failed.
fn push_failed(calls: u64, into: &mut Vec<u8>) -> Result<(), OutOfMemory>
    ensures { OnOk result (into.new.items
        ≡ into.old.items ++ (codes "failed after " ++ decimal calls)) }
{
    let mut buffer = itoa::Buffer::new();
    into.extend_from_slice(b"failed after ".as_slice())?;
    into.extend_from_slice(buffer.format(calls).as_bytes())
}

/// Tells the indexer of each seat.
pub(crate) fn tell_all(seats: &mut Vec<Seat>, seen: &Seen) -> Result<(), OutOfMemory>
    ensures { OnOk result (map (λ seat.
        seat_of seat.name seat.calls
        (option_map (λ b. shown (title b) (failing b) (list b)) seat.indexer)) seats.new.items
        ≡ map (after_told seen.now) (map (λ seat.
        seat_of seat.name seat.calls
        (option_map (λ b. shown (title b) (failing b) (list b)) seat.indexer))
        seats.old.items)) }
{
    for seat in seats.iter_mut() {
        seat.told(seen)?;
    }
    Ok(())
}

/// Tells the indexer of each seat all of these, up to its first call that fails.
pub(crate) fn catch_up_all(seats: &mut Vec<Seat>, seen: &[Seen]) -> Result<(), OutOfMemory>
    ensures { OnOk result (map (λ seat.
        seat_of seat.name seat.calls
        (option_map (λ b. shown (title b) (failing b) (list b)) seat.indexer)) seats.new.items
        ≡ map (after_all seen.now) (map (λ seat.
        seat_of seat.name seat.calls
        (option_map (λ b. shown (title b) (failing b) (list b)) seat.indexer))
        seats.old.items)) }
{
    for seat in seats.iter_mut() {
        seat.catch_up(seen)?;
    }
    Ok(())
}

/// Appends the lines of seats.
pub(crate) fn push_lines(seats: &[Seat], into: &mut Vec<u8>) -> Result<(), OutOfMemory>
    ensures { OnOk result (into.new.items ≡ into.old.items
        ++ flat_map (λ seat. seat_line
        (seat_of seat.name seat.calls
        (option_map (λ b. shown (title b) (failing b) (list b)) seat.indexer))
        (own_text (option_map text seat.indexer))) seats.now) }
{
    for seat in seats {
        seat.line(into)?;
    }
    Ok(())
}
