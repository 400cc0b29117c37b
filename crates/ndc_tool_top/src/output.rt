//! What is written of a text that was made, and how the program ends then.
ghost use Rattle.std.specs.Prelude.{◌≡◌, ◌≢◌, ◌≤◌, ℕ, List, [], ◌∷◌, IfOk, IfSome, IsOkAnd, OnOk, OnErr};
ghost use Rattle.ndc_port.specs.Bytes.{Appends, AppendsFront};
ghost use Rattle.ndc_port.specs.Fault.{Rose};
ghost use Rattle.ndc_dump.specs.Telling.{IsAmong, Tells};
ghost use Rattle.ndc_tool_top.specs.Top.{fault_line, status_line, status_of};

use crate::fault::Fault;
use ndc_event::OutOfMemory;
use ndc_port::{Sink, write_all};

/// Tells of a fault, and answers the status.
pub fn end<E: Sink>(fault: Fault, err: &mut E) -> u8
    ensures status { result ≡ status_of fault }
    ensures told { Tells (E.written err.old) (E.written err.new) (E.faults err.old) (E.faults err.new) (fault_line fault) }
{
    let _told = fault.tell(err);
    fault.status()
}

/// Writes a text in one piece, tells of the fault that comes, and answers the status: 0 where it was written, 5 where
/// writing failed, 8 where there is none, for want of memory.
pub fn write_output<K: Sink, E: Sink>(
    text: Result<Vec<u8>, OutOfMemory>,
    out: &mut K,
    err: &mut E,
) -> u8
    ensures among { IsAmong result (0 ∷ 5 ∷ 8 ∷ []) }
    ensures done { result ≡ 0 → IsOkAnd text (λ text. Appends (K.written out.old) (K.written out.new) text.items) }
    ensures silent { result ≡ 0 → E.written err.new ≡ E.written err.old }
    ensures write { result ≡ 5 → Rose (K.faults out.old) (K.faults out.new) }
    ensures told { IfSome (status_line result) (Tells (E.written err.old) (E.written err.new) (E.faults err.old) (E.faults err.new)) }
    ensures unwritten { result ≡ 8 → K.written out.new ≡ K.written out.old }
    ensures front { (bytes : List ℕ) → IfOk text (λ text. text.items ≡ bytes) → AppendsFront (K.written out.old) (K.written out.new) bytes }
{
    let text = match text {
        Ok(text) => text,
        Err(_) => return end(Fault::Memory, err),
    };
    match write_all(out, text.as_slice()) {
        Ok(()) => 0,
        Err(_) => end(Fault::Write, err),
    }
}
