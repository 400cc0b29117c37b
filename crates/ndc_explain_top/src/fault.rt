//! The faults that end the program, and the lines that tell of them.
ghost use Rattle.std.specs.Prelude.{◌≡◌, ◌≤◌, ◌++◌, [], OnOk, OnErr};
ghost use Rattle.ndc_port.specs.Bytes.{Appends, AppendsFront};
ghost use Rattle.ndc_port.specs.Fault.{Rose};
ghost use Rattle.ndc_dump.specs.Faults.{dump_batch_line, dump_line};
ghost use Rattle.ndc_explain_top.specs.Top.{spot_head};

use ndc_dump::{KeyCause, LineCause, tell_batch, tell_line, write_pieces};
use ndc_event::BatchKey;
use ndc_explain_union::Spot;
use ndc_port::{Failed, Sink, write_all};
use std::alloc::{AllocError, AllocFailed};

/// What ends the program before its work is done.
#[derive(Drop)]
pub(crate) enum Fault {
    /// The program does not take these words.
    Words,
    /// The input is not a dump, or one of many dumps is not one: where it stands among these; its first faulty line,
    /// from 1, and its cause.
    DumpLine {
        spot: Option<Spot>,
        line: u64,
        cause: LineCause,
    },
    /// The same of the first batch that does not fit the others.
    DumpBatch {
        spot: Option<Spot>,
        key: BatchKey,
        cause: KeyCause,
    },
    /// A document is wanted of an input that has not one workflow, or dumps that make no sound set.
    NotDrawn,
    /// Reading the input failed.
    Read,
    /// Writing the output failed.
    Write,
    /// The input is too long.
    Limit,
    /// Memory ran out.
    Memory,
}

impl From<AllocError> for Fault {
    ghost use Rattle.std.specs.Prelude.{◌≡◌};
    ghost use Rattle.ndc_explain_top.specs.declared.fault.Fault.TheVariants.{Memory};

    ghost from_gives = { λ _ e. e ≡ Memory };

    fn from(_error: AllocError) -> Fault {
        Fault::Memory
    }
}

impl<T: Drop> From<AllocFailed<T>> for Fault {
    ghost use Rattle.std.specs.Prelude.{◌≡◌};
    ghost use Rattle.ndc_explain_top.specs.declared.fault.Fault.TheVariants.{Memory};

    ghost from_gives = { λ _ e. e ≡ Memory };

    fn from(_error: AllocFailed<T>) -> Fault {
        Fault::Memory
    }
}

/// Writes the beginning of the line on a faulty dump: the program, and where the dump stands among many.
fn tell_spot<E: Sink>(err: &mut E, spot: &Option<Spot>) -> Result<(), Failed>
    ensures whole { OnOk result (Appends (E.written err.old) (E.written err.new) (spot_head spot.now)) }
    ensures front { OnErr result (AppendsFront (E.written err.old) (E.written err.new) (spot_head spot.now)) }
    ensures cause { OnErr result (Rose (E.faults err.old) (E.faults err.new)) }
    ensures count { E.faults err.old ≤ E.faults err.new }
{
    let Some(spot) = spot else {
        return write_all(err, b"ndc_explain");
    };
    let mut buffer = itoa::Buffer::new();
    let number = buffer.format(spot.number).as_bytes();
    match &spot.cluster {
        None => write_pieces(err, &[b"ndc_explain: dump ".as_slice(), number]),
        Some(name) => write_pieces(
            err,
            &[
                b"ndc_explain: dump ".as_slice(),
                number,
                b" of ".as_slice(),
                name.as_bytes(),
            ],
        ),
    }
}

/// Writes the line on a faulty line of a dump.
fn tell_dump_line<E: Sink>(
    err: &mut E,
    spot: &Option<Spot>,
    line: u64,
    cause: LineCause,
) -> Result<(), Failed>
    ensures whole { OnOk result (Appends (E.written err.old) (E.written err.new) (spot_head spot.now ++ dump_line [] line cause)) }
    ensures front { OnErr result (AppendsFront (E.written err.old) (E.written err.new) (spot_head spot.now ++ dump_line [] line cause)) }
    ensures cause { OnErr result (Rose (E.faults err.old) (E.faults err.new)) }
    ensures count { E.faults err.old ≤ E.faults err.new }
{
    tell_spot(err, spot)?;
    tell_line(err, b"", line, cause)
}

/// Writes the line on a batch of a dump that does not fit the others.
fn tell_dump_batch<E: Sink>(
    err: &mut E,
    spot: &Option<Spot>,
    key: BatchKey,
    cause: KeyCause,
) -> Result<(), Failed>
    ensures whole { OnOk result (Appends (E.written err.old) (E.written err.new) (spot_head spot.now ++ dump_batch_line [] key cause)) }
    ensures front { OnErr result (AppendsFront (E.written err.old) (E.written err.new) (spot_head spot.now ++ dump_batch_line [] key cause)) }
    ensures cause { OnErr result (Rose (E.faults err.old) (E.faults err.new)) }
    ensures count { E.faults err.old ≤ E.faults err.new }
{
    tell_spot(err, spot)?;
    tell_batch(err, b"", key, cause)
}

impl Fault {
    ghost use Rattle.std.specs.Prelude.{◌≡◌, ◌≤◌, OnOk, OnErr};
    ghost use Rattle.ndc_port.specs.Bytes.{Appends, AppendsFront};
    ghost use Rattle.ndc_port.specs.Fault.{Rose};
    ghost use Rattle.ndc_explain_top.specs.Top.{status_of, fault_line};

    /// The status that the program ends with.
    pub(crate) fn status(&self) -> u8
        ensures { result ≡ status_of self.now }
    {
        match self {
            Fault::Words => 2,
            Fault::DumpLine { .. } | Fault::DumpBatch { .. } | Fault::NotDrawn => 7,
            Fault::Read => 4,
            Fault::Write => 5,
            Fault::Limit => 6,
            Fault::Memory => 8,
        }
    }

    /// Writes the line that tells of the fault, without memory. Where writing fails, a prefix of the line is
    /// written, and the sink's count of faults has risen.
    pub(crate) fn tell<E: Sink>(&self, err: &mut E) -> Result<(), Failed>
        ensures whole { OnOk result (Appends (E.written err.old) (E.written err.new) (fault_line self.now)) }
        ensures front { OnErr result (AppendsFront (E.written err.old) (E.written err.new) (fault_line self.now)) }
        ensures cause { OnErr result (Rose (E.faults err.old) (E.faults err.new)) }
        ensures count { E.faults err.old ≤ E.faults err.new }
    {
        match self {
            Fault::Words => write_all(
                err,
                b"ndc_explain: words: [view|--picture|--picture=text] [--all] [--bare] [--limit BYTES] [--clusters NAME=INITIAL,.. --increment INCREMENT]\n",
            ),
            Fault::DumpLine { spot, line, cause } => tell_dump_line(err, spot, *line, *cause),
            Fault::DumpBatch { spot, key, cause } => tell_dump_batch(err, spot, *key, *cause),
            Fault::NotDrawn => write_all(
                err,
                b"ndc_explain: --picture draws one workflow whose dumps make a sound set\n",
            ),
            Fault::Read => write_all(err, b"ndc_explain: read fault\n"),
            Fault::Write => write_all(err, b"ndc_explain: write fault\n"),
            Fault::Limit => write_all(err, b"ndc_explain: input limit\n"),
            Fault::Memory => write_all(err, b"ndc_explain: out of memory\n"),
        }
    }
}
