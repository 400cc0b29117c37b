//! Sources of bytes, and reading one to its end.
ghost use Rattle.std.specs.Prelude.{◌≡◌, ◌≢◌, ℕ, ◌+◌, ◌<◌, ◌≤◌, ◌↔◌, List, [], length, take, drop, Option, Some, IfSome, IfOk, IsErr, OnOk, OnErr};
ghost use Rattle.ndc_port.specs.Fault.{Rose};
ghost use Rattle.ndc_port.specs.Bytes.{Consumes, ConsumesAtMost};

use crate::fault::Failed;
use std::alloc::{AllocError, AllocFailed, Global};
use std::error::Error;
use std::fmt;

/// The most bytes that `read_all` asks for in one read.
const PIECE: usize = 8192;

/// What bytes come from.
pub trait Source {
    /// The bytes still to come, where the source tells them.
    ghost left: { Self → Option (List ℕ) };

    /// The faults so far. The count never falls.
    ghost faults: { Self → ℕ };

    /// Reads some bytes into the beginning of `into`, and answers how many. For a slice with room it answers
    /// 0 only at the end.
    ///
    /// # Errors
    /// `Failed` where the source counted a fault; what is left then stays.
    fn read(&mut self, into: &mut [u8]) -> Result<usize, Failed>
        ensures fits { IfOk result (λ n. n ≤ length into.new) }
        ensures given { IfOk result (λ n.
            Consumes (left self.old) (left self.new) (take n into.new)) }
        ensures end { IfOk result
            (λ n. 0 < length into.new → IfSome (left self.old) (λ bytes. (n ≡ 0) ↔ (bytes ≡ []))) }

        ensures kept { OnErr result (left self.new ≡ left self.old) }
        ensures cause { OnErr result (Rose (faults self.old) (faults self.new)) }
        ensures count { faults self.old ≤ faults self.new };
}

/// Why a source was not read to its end.
#[derive(Clone, Copy, Debug, PartialEq, Eq)]
pub enum ReadError {
    /// A read failed.
    Fault,
    /// More bytes came than the limit allows.
    TooLong,
    /// There was not memory enough for the bytes.
    Memory,
}

impl fmt::Display for ReadError {
    ghost use Rattle.std.specs.Prelude.{Some};
    ghost use Rattle.ndc_port.specs.Fault.{read_error_text};

    ghost output = { λ e. Some (read_error_text e) };

    fn fmt<W: fmt::Write>(&self, f: &mut fmt::Formatter<W>) -> fmt::Result {
        match self {
            ReadError::Fault => write!(f, "a read failed"),
            ReadError::TooLong => write!(f, "more bytes came than the limit allows"),
            ReadError::Memory => write!(f, "out of memory"),
        }
    }
}

impl Error for ReadError {}

impl From<Failed> for ReadError {
    ghost use Rattle.std.specs.Prelude.{◌≡◌};
    ghost use Rattle.ndc_port.specs.declared.reading.ReadError.TheVariants.{Fault};

    ghost from_gives = { λ _ e. e ≡ Fault };

    fn from(_: Failed) -> Self {
        ReadError::Fault
    }
}

impl From<AllocError> for ReadError {
    ghost use Rattle.std.specs.Prelude.{◌≡◌};
    ghost use Rattle.ndc_port.specs.declared.reading.ReadError.TheVariants.{Memory};

    ghost from_gives = { λ _ e. e ≡ Memory };

    fn from(_: AllocError) -> Self {
        ReadError::Memory
    }
}

impl<T: Drop> From<AllocFailed<T>> for ReadError {
    ghost use Rattle.std.specs.Prelude.{◌≡◌};
    ghost use Rattle.ndc_port.specs.declared.reading.ReadError.TheVariants.{Memory};

    ghost from_gives = { λ _ e. e ≡ Memory };

    fn from(_: AllocFailed<T>) -> Self {
        ReadError::Memory
    }
}

/// All the bytes that a source has left, which may be at most `limit`. A read of 0 bytes is the end. It
/// never takes more than one byte past the limit from the source.
///
/// # Errors
/// - `Fault` where a read failed before more than `limit` bytes came.
/// - `TooLong` where one byte more than `limit` came before a fault.
/// - `Memory` where memory ran out.
///
/// The bytes that were read are lost then.
pub fn read_all<S: Source>(
    alloc: Global,
    source: &mut S,
    limit: usize,
) -> Result<Vec<u8>, ReadError>
    ensures all { IfOk result (λ bytes. IfSome (S.left source.old) (λ left. bytes.items ≡ left)) }
    ensures end { OnOk result (IfSome (S.left source.old) (λ _. S.left source.new ≡ Some [])) }
    ensures within { IfOk result (λ bytes. length bytes.items ≤ limit) }

    // One byte past the limit came, and no more.
    ensures too_long { result ≡ Err ReadError.TooLong → IfSome (S.left source.old)
        (λ left. (limit < length left) × (S.left source.new ≡ Some (drop (limit + 1) left))) }
    ensures above_limit { IfSome (S.left source.old) (λ left. limit < length left → IsErr result) }

    // With every other answer no more than the limit came: before a fault too.
    ensures at_most { result ≢ Err ReadError.TooLong
        → ConsumesAtMost limit (S.left source.old) (S.left source.new) }

    ensures cause { result ≡ Err ReadError.Fault
        → Rose (S.faults source.old) (S.faults source.new) }
    ensures count { S.faults source.old ≤ S.faults source.new }
{
    let mut bytes = Vec::new(alloc);
    let mut piece = [0u8; PIECE];
    loop {
        let room = limit - bytes.len();
        let asked = PIECE.min(room.saturating_add(1));
        let given = source.read(&mut piece[..asked])?;
        if given == 0 {
            return Ok(bytes);
        }
        if given > room {
            return Err(ReadError::TooLong);
        }
        bytes.extend_from_slice(&piece[..given])?;
    }
}
