//! Pieces of bytes that are written one after the other.
ghost use Rattle.std.specs.Prelude.{◌≤◌, map, OnOk, OnErr};
ghost use Rattle.std.specs.List.{concat};
ghost use Rattle.ndc_port.specs.Bytes.{Appends, AppendsFront};
ghost use Rattle.ndc_port.specs.Fault.{Rose};

use ndc_port::{Failed, Sink, write_all};

/// Writes pieces of bytes one after the other. Where writing fails, a prefix of them is written, and the sink's count
/// of faults has risen.
pub fn write_pieces<E: Sink>(err: &mut E, pieces: &[&[u8]]) -> Result<(), Failed>
    ensures whole { OnOk result
        (Appends (E.written err.old) (E.written err.new)
        (concat (map (λ piece. piece.now) pieces.now))) }
    ensures front { OnErr result
        (AppendsFront (E.written err.old) (E.written err.new)
        (concat (map (λ piece. piece.now) pieces.now))) }
    ensures cause { OnErr result (Rose (E.faults err.old) (E.faults err.new)) }
    ensures count { E.faults err.old ≤ E.faults err.new }
{
    for piece in pieces {
        write_all(err, piece)?;
    }
    Ok(())
}
