//! Dumps read from a source.
ghost use Rattle.std.specs.Prelude.{◌≡◌, ◌≤◌, Ok, Some, [], length, IfOk, IfErr, IfSome, OnOk};
ghost use Rattle.ndc_port.specs.Bytes.{ConsumesAtMost};
ghost use Rattle.ndc_model_sets.specs.Sound.{IsSound};
ghost use Rattle.ndc_model_sets.specs.View.{view_of};
ghost use Rattle.ndc_dump.specs.Input.{InputFails, InputLeaves};
ghost use Rattle.ndc_dump.specs.Read.{dump_of};

use crate::dump::Dump;
use crate::read::read_dump;
use ndc_dump_causes::{DumpError, KeyCause, LineCause};
use ndc_event::BatchKey;
use ndc_port::{ReadError, Source, read_all};
use std::alloc::Global;
use thiserror::Error;

/// How many bytes the input of a program may have.
pub const MOST_BYTES: usize = 16_777_216;

/// Why no dump was read from a source.
#[derive(Clone, Copy, Debug, PartialEq, Eq, Error)]
pub enum InputFault {
    /// A read failed.
    #[error("a read failed")]
    Read,
    /// The source had more bytes left than the limit.
    #[error("the input is too long")]
    Limit,
    /// The bytes are not a dump: the first faulty line, from 1, and its cause.
    #[error("line {line}: {cause}")]
    Line { line: u64, cause: LineCause },
    /// The bytes are not a dump: the first batch that does not fit the others, and its cause.
    #[error("batch {}.{}: {cause}", key.version, key.task)]
    Key { key: BatchKey, cause: KeyCause },
    #[error("out of memory")]
    Memory,
}

/// Reads a source to its end, which may have so many bytes left, and gives the dump that they are.
pub fn read_input<S: Source>(
    alloc: Global,
    source: &mut S,
    limit: usize,
) -> Result<Dump, InputFault>
    ensures dump { IfOk result (λ dump. IfSome (S.left source.old)
        (λ bytes. (length bytes ≤ limit) × (dump_of bytes ≡ Ok dump))) }
    ensures view { IfOk result (λ dump. dump.view ≡ view_of dump.view.batches) }
    ensures sound { IfOk result (λ dump. IsSound dump.view.batches) }
    ensures end { OnOk result (IfSome (S.left source.old) (λ _. S.left source.new ≡ Some [])) }
    ensures within { OnOk result (ConsumesAtMost limit (S.left source.old) (S.left source.new)) }
    ensures rest { IfErr result (InputLeaves limit (S.left source.old) (S.left source.new)) }
    ensures fault { IfErr result
        (InputFails limit (S.left source.old) (S.faults source.old) (S.faults source.new)) }
    ensures count { S.faults source.old ≤ S.faults source.new }
{
    let bytes = match read_all(alloc, source, limit) {
        Ok(bytes) => bytes,
        Err(ReadError::Fault) => return Err(InputFault::Read),
        Err(ReadError::TooLong) => return Err(InputFault::Limit),
        Err(ReadError::Memory) => return Err(InputFault::Memory),
    };
    match read_dump(alloc, bytes.as_slice()) {
        Ok(dump) => Ok(dump),
        Err(DumpError::Line { line, cause }) => Err(InputFault::Line { line, cause }),
        Err(DumpError::Key { key, cause }) => Err(InputFault::Key { key, cause }),
        Err(DumpError::Memory) => Err(InputFault::Memory),
    }
}
