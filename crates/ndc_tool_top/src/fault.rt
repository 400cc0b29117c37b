ghost use Rattle.std.specs.Prelude.{◌≡◌, ◌≤◌, OnOk, OnErr};
ghost use Rattle.ndc_port.specs.Bytes.{Appends, AppendsFront};
ghost use Rattle.ndc_port.specs.Fault.{Rose};
ghost use Rattle.ndc_tool_top.specs.Top.{script_cause_name, script_line};

use ndc_dump::{InputFault, KeyCause, LineCause, tell_batch, tell_line, write_pieces};
use ndc_event::BatchKey;
use ndc_port::{Failed, Sink, write_all};
use ndc_script::ScriptCause;

/// What ends the program before its work is done.
#[derive(Clone, Copy, Debug, PartialEq, Eq)]
pub enum Fault {
    /// The program does not take these words, or an indexer that they name is not there.
    Words,
    /// The input is not a script: the first faulty line, from 1, and its cause.
    Script { line: u64, cause: ScriptCause },
    /// The input is not a dump: the first faulty line, from 1, and its cause.
    DumpLine { line: u64, cause: LineCause },
    /// The input is not a dump: the first batch that does not fit the others, and its cause.
    DumpBatch { key: BatchKey, cause: KeyCause },
    /// Reading the input failed.
    Read,
    /// Writing the output failed.
    Write,
    /// The input is too long.
    Limit,
    /// Memory ran out.
    Memory,
}

impl From<InputFault> for Fault {
    ghost use Rattle.std.specs.Prelude.{◌≡◌};
    ghost use Rattle.ndc_tool_top.specs.Top.{of_input};

    ghost from_gives = { λ fault e. e ≡ of_input fault };

    fn from(fault: InputFault) -> Fault {
        match fault {
            InputFault::Read => Fault::Read,
            InputFault::Limit => Fault::Limit,
            InputFault::Line { line, cause } => Fault::DumpLine { line, cause },
            InputFault::Key { key, cause } => Fault::DumpBatch { key, cause },
            InputFault::Memory => Fault::Memory,
        }
    }
}

/// How a cause of a faulty script is printed.
fn script_cause_name(cause: ScriptCause) -> &'static str
    ensures { result.now ≡ script_cause_name cause }
{
    match cause {
        ScriptCause::BadHeader => "BadHeader",
        ScriptCause::IncrementLimit => "IncrementLimit",
        ScriptCause::NoClusters => "NoClusters",
        ScriptCause::TooMany => "TooMany",
        ScriptCause::SameName => "SameName",
        ScriptCause::SameInitial => "SameInitial",
        ScriptCause::NotBelowIncrement => "NotBelowIncrement",
        ScriptCause::BadLine => "BadLine",
        ScriptCause::UnknownName => "UnknownName",
        ScriptCause::LineLimit => "LineLimit",
    }
}

impl Fault {
    ghost use Rattle.std.specs.Prelude.{◌≡◌, ◌≤◌, OnOk, OnErr};
    ghost use Rattle.ndc_port.specs.Bytes.{Appends, AppendsFront};
    ghost use Rattle.ndc_port.specs.Fault.{Rose};
    ghost use Rattle.ndc_tool_top.specs.Top.{status_of, fault_line};

    /// The status that the program ends with.
    pub fn status(self) -> u8
        ensures { result ≡ status_of self }
    {
        match self {
            Fault::Words => 2,
            Fault::Script { .. } => 3,
            Fault::DumpLine { .. } | Fault::DumpBatch { .. } => 7,
            Fault::Read => 4,
            Fault::Write => 5,
            Fault::Limit => 6,
            Fault::Memory => 8,
        }
    }

    /// Writes the line that tells of the fault, without memory. Where writing fails, a prefix of the line is
    /// written, and the sink's count of faults has risen.
    pub fn tell<E: Sink>(self, err: &mut E) -> Result<(), Failed>
        ensures whole { OnOk result (Appends (E.written err.old) (E.written err.new) (fault_line self)) }
        ensures front { OnErr result (AppendsFront (E.written err.old) (E.written err.new) (fault_line self)) }
        ensures cause { OnErr result (Rose (E.faults err.old) (E.faults err.new)) }
        ensures count { E.faults err.old ≤ E.faults err.new }
    {
        match self {
            Fault::Words => write_all(
                err,
                b"ndc: words: run [--workers N] [--index NAMES] [--late NAMES], rebuild, inspect, make N SEED, demo N\n",
            ),
            Fault::Script { line, cause } => tell_script(err, line, cause),
            Fault::DumpLine { line, cause } => tell_line(err, b"ndc", line, cause),
            Fault::DumpBatch { key, cause } => tell_batch(err, b"ndc", key, cause),
            Fault::Read => write_all(err, b"ndc: read fault\n"),
            Fault::Write => write_all(err, b"ndc: write fault\n"),
            Fault::Limit => write_all(err, b"ndc: input limit\n"),
            Fault::Memory => write_all(err, b"ndc: out of memory\n"),
        }
    }
}

/// Writes the line that tells of a faulty line of a script.
fn tell_script<E: Sink>(err: &mut E, line: u64, cause: ScriptCause) -> Result<(), Failed>
    ensures whole { OnOk result (Appends (E.written err.old) (E.written err.new) (script_line line cause)) }
    ensures front { OnErr result (AppendsFront (E.written err.old) (E.written err.new) (script_line line cause)) }
    ensures cause { OnErr result (Rose (E.faults err.old) (E.faults err.new)) }
    ensures count { E.faults err.old ≤ E.faults err.new }
{
    let mut buffer = itoa::Buffer::new();
    let number = buffer.format(line).as_bytes();
    let pieces = [
        b"ndc: script line ".as_slice(),
        number,
        b": ".as_slice(),
        script_cause_name(cause).as_bytes(),
        b"\n".as_slice(),
    ];
    write_pieces(err, &pieces)
}
