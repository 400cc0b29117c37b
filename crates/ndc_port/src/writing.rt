//! Sinks of bytes, and writing bytes whole.
ghost use Rattle.std.specs.Prelude.{◌≡◌, ℕ, ◌<◌, ◌≤◌, List, length, take, Option, IfOk, OnOk, OnErr};
ghost use Rattle.ndc_port.specs.Fault.{Rose};
ghost use Rattle.ndc_port.specs.Bytes.{Appends, AppendsFront};

use crate::fault::Failed;

/// What takes bytes.
pub trait Sink {
    /// The bytes written so far, where the sink tells them.
    ghost written: { Self → Option (List ℕ) };

    /// The faults so far. The count never falls.
    ghost faults: { Self → ℕ };

    /// Takes some bytes from the beginning of `from`, and answers how many: at least one, if there is one.
    ///
    /// # Errors
    /// `Failed` where the sink counted a fault; what was written then stays. To take none of a piece that is
    /// not empty is a fault.
    fn write(&mut self, from: &[u8]) -> Result<usize, Failed>
        ensures fits { IfOk result (λ n. n ≤ length from.now) }
        ensures some { IfOk result (λ n. 0 < length from.now → 0 < n) }
        ensures taken { IfOk result
            (λ n. Appends (written self.old) (written self.new) (take n from.now)) }

        ensures kept { OnErr result (written self.new ≡ written self.old) }
        ensures cause { OnErr result (Rose (faults self.old) (faults self.new)) }
        ensures count { faults self.old ≤ faults self.new };
}

/// Writes all the bytes. Each write is offered all that is left of them. Takes no memory.
///
/// # Errors
/// `Failed` where a write failed; a prefix of the bytes was written then, maybe an empty one.
pub fn write_all<K: Sink>(sink: &mut K, bytes: &[u8]) -> Result<(), Failed>
    ensures whole { OnOk result (Appends (K.written sink.old) (K.written sink.new) bytes.now) }
    ensures front { OnErr result
        (AppendsFront (K.written sink.old) (K.written sink.new) bytes.now) }
    ensures cause { OnErr result (Rose (K.faults sink.old) (K.faults sink.new)) }
    ensures count { K.faults sink.old ≤ K.faults sink.new }
{
    let mut rest = bytes;
    while !rest.is_empty() {
        let taken = sink.write(rest)?;
        rest = &rest[taken..];
    }
    Ok(())
}
