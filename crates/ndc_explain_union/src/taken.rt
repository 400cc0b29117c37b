//! The dumps of an input.
ghost use Rattle.std.specs.Prelude.{◌≡◌, ◌+◌, Ok, IfOk};
ghost use Rattle.ndc_event.specs.Outcome.{Gives};
ghost use Rattle.ndc_dump_causes.specs.declared.error.DumpError.TheVariants as error;
ghost use Rattle.ndc_model_sets.specs.Sets.{Rise};
ghost use Rattle.ndc_model_sets.specs.Sound.{IsSound};
ghost use Rattle.ndc_explain_union.specs.Takings.{at_spot, dump_in, spot_of, taken_in, taken_of};
ghost use Rattle.ndc_explain_union.specs.declared.taken.InputError.TheVariants as input;

use crate::parts::{Part, copied};
use ndc_dump::{Dump, DumpError, KeyCause, LineCause, read_bare_dump, read_dump};
use ndc_event::{Batch, BatchKey, Name, OutOfMemory};
use std::alloc::{AllocError, AllocFailed, Global};
use std::marker::Model;

/// Where a dump stands in an input.
#[derive(Drop)]
pub struct Spot {
    /// Its number among the dumps, from 1.
    pub number: u64,
    /// The cluster whose it is, where one was named.
    pub cluster: Option<Name>,
}

/// Why parts of an input are not dumps.
#[derive(Drop)]
pub enum InputError {
    /// The first faulty line of a dump, from 1, and its cause.
    Line {
        spot: Spot,
        line: u64,
        cause: LineCause,
    },
    /// The first batch of a dump that does not fit the others, and its cause.
    Key {
        spot: Spot,
        key: BatchKey,
        cause: KeyCause,
    },
    /// Memory ran out.
    Memory,
}

impl From<AllocError> for InputError {
    ghost use Rattle.std.specs.Prelude.{◌≡◌};
    ghost use Rattle.ndc_explain_union.specs.declared.taken.InputError.TheVariants.{Memory};

    ghost from_gives = { λ _ e. e ≡ Memory };

    fn from(_error: AllocError) -> InputError {
        InputError::Memory
    }
}

impl<T: Drop> From<AllocFailed<T>> for InputError {
    ghost use Rattle.std.specs.Prelude.{◌≡◌};
    ghost use Rattle.ndc_explain_union.specs.declared.taken.InputError.TheVariants.{Memory};

    ghost from_gives = { λ _ e. e ≡ Memory };

    fn from(_error: AllocFailed<T>) -> InputError {
        InputError::Memory
    }
}

/// A dump as it was taken: where it stands in the input, and what it is. Its batches are in key order.
#[derive(Drop)]
pub struct Taken {
    spot: Spot,
    dump: Dump,
}

impl Model for Taken {
    ghost use Rattle.ndc_model_sets.specs.Sets.{Rise};
    ghost use Rattle.ndc_explain_union.specs.Takings.{Taking};

    ghost Value = { Taking };

    ghost view = { λ taken. record { spot = taken.spot; dump = taken.dump } };

    ghost invariant = { λ taken. Rise taken.dump.view.batches };
}

impl Taken {
    ghost use Rattle.std.specs.Prelude.{◌≡◌};
    ghost use Rattle.ndc_model_sets.specs.Sets.{Rise};

    /// Where it stands in the input.
    pub fn spot(&self) -> &Spot
        ensures { result.now ≡ self.now.spot }
    {
        &self.spot
    }

    /// What it is.
    pub fn dump(&self) -> &Dump
        ensures { result.now ≡ self.now.dump }
    {
        &self.dump
    }

    /// Its batches, in key order.
    pub fn batches(&self) -> &[Batch]
        ensures batches { result.now ≡ self.now.dump.view.batches }
        ensures order { Rise result.now }
    {
        self.dump.view.batches.as_slice()
    }
}

/// The dump that bytes are, with its view or bare.
pub fn dump_in(alloc: Global, bare: bool, bytes: &[u8]) -> Result<Dump, DumpError>
    ensures gives { Gives error.Memory (λ dump. dump) result (dump_in bare bytes.now) }
    ensures sound { IfOk result (λ dump. IsSound dump.view.batches) }
{
    if bare {
        read_bare_dump(alloc, bytes)
    } else {
        read_dump(alloc, bytes)
    }
}

/// The dump at this spot, or its fault there.
fn at_spot(spot: Spot, dump: Result<Dump, DumpError>) -> Result<Taken, InputError>
    requires { IfOk dump (λ dump. IsSound dump.view.batches) }
    ensures { result ≡ at_spot spot dump }
{
    match dump {
        Ok(dump) => Ok(Taken { spot, dump }),
        Err(DumpError::Line { line, cause }) => Err(InputError::Line { spot, line, cause }),
        Err(DumpError::Key { key, cause }) => Err(InputError::Key { spot, key, cause }),
        Err(DumpError::Memory) => Err(InputError::Memory),
    }
}

/// The dump that the part with this number is.
#[tactic(auto, unfolding(crate::specs::Takings::taken_in))]
fn taken_in(alloc: Global, bare: bool, number: u64, part: &Part) -> Result<Taken, InputError>
    ensures { Gives input.Memory (λ taken. taken) result (taken_in bare number part.now) }
{
    let spot = Spot {
        number,
        cluster: copied(&part.cluster)?,
    };
    at_spot(spot, dump_in(alloc, bare, part.text()))
}

/// The dumps that the parts of an input are, with their views or bare, numbered from 1; or the first fault.
pub fn taken_of(alloc: Global, bare: bool, parts: &[Part]) -> Result<Vec<Taken>, InputError>
    ensures { Gives input.Memory (λ taken. taken.items) result (taken_of bare parts.now) }
{
    let mut list = Vec::new(alloc);
    let mut number = 1;
    for part in parts {
        let taken = taken_in(alloc, bare, number, part)?;
        list.push(taken)?;
        number += 1;
    }
    Ok(list)
}
