ghost use Rattle.std.specs.Prelude.{◌≡◌, ◌≤◌, OnOk, OnErr};
ghost use Rattle.ndc_port.specs.Bytes.{Appends, AppendsFront};
ghost use Rattle.ndc_port.specs.Fault.{Rose};
ghost use Rattle.ndc_probe.specs.Top.{script_cause_name, script_line};

use ndc_dump::write_pieces;
use ndc_port::{Failed, Sink, write_all};
use ndc_script_types::ScriptCause;

/// What ends the program before its work is done.
#[derive(Clone, Copy, Debug, PartialEq, Eq)]
pub enum Fault {
    /// The program takes no words.
    Words,
    /// The input is not a script: the first faulty line, from 1, and its cause.
    Script { line: u64, cause: ScriptCause },
    /// Reading the input failed.
    Read,
    /// Writing the output failed.
    Write,
    /// The input is too long.
    Limit,
    /// Memory ran out.
    Memory,
}

/// How a cause of a faulty script is printed.
fn script_cause_name(cause: ScriptCause) -> &'static str
    ensures { result.now ≡ script_cause_name cause }
{
    match cause {
        ScriptCause::BadHeader => "BadHeader",
        ScriptCause::IncrementLimit => "IncrementLimit",
        ScriptCause::NoClusters => "NoClusters",
        ScriptCause::TooMany => "TooMany",
        ScriptCause::SameName => "SameName",
        ScriptCause::SameInitial => "SameInitial",
        ScriptCause::NotBelowIncrement => "NotBelowIncrement",
        ScriptCause::BadLine => "BadLine",
        ScriptCause::UnknownName => "UnknownName",
        ScriptCause::LineLimit => "LineLimit",
    }
}

impl Fault {
    ghost use Rattle.std.specs.Prelude.{◌≡◌, ◌≤◌, OnOk, OnErr};
    ghost use Rattle.ndc_port.specs.Bytes.{Appends, AppendsFront};
    ghost use Rattle.ndc_port.specs.Fault.{Rose};
    ghost use Rattle.ndc_probe.specs.Top.{status_of, fault_line};

    /// The status that the program ends with.
    pub(crate) fn status(self) -> u8
        ensures { result ≡ status_of self }
    {
        match self {
            Fault::Words => 2,
            Fault::Script { .. } => 3,
            Fault::Read => 4,
            Fault::Write => 5,
            Fault::Limit => 6,
            Fault::Memory => 8,
        }
    }

    /// Writes the line that tells of the fault, without memory. Where writing fails, a prefix of the line is
    /// written, and the sink's count of faults has risen.
    pub(crate) fn tell<E: Sink>(self, err: &mut E) -> Result<(), Failed>
        ensures whole { OnOk result (Appends (E.written err.old) (E.written err.new) (fault_line self)) }
        ensures front { OnErr result (AppendsFront (E.written err.old) (E.written err.new) (fault_line self)) }
        ensures cause { OnErr result (Rose (E.faults err.old) (E.faults err.new)) }
        ensures count { E.faults err.old ≤ E.faults err.new }
    {
        match self {
            Fault::Words => write_all(
                err,
                b"ndc: words: none; the script comes on standard input\n",
            ),
            Fault::Script { line, cause } => tell_script(err, line, cause),
            Fault::Read => write_all(err, b"ndc: read fault\n"),
            Fault::Write => write_all(err, b"ndc: write fault\n"),
            Fault::Limit => write_all(err, b"ndc: input limit\n"),
            Fault::Memory => write_all(err, b"ndc: out of memory\n"),
        }
    }
}

/// Writes the line that tells of a faulty line of a script.
fn tell_script<E: Sink>(err: &mut E, line: u64, cause: ScriptCause) -> Result<(), Failed>
    ensures whole { OnOk result (Appends (E.written err.old) (E.written err.new) (script_line line cause)) }
    ensures front { OnErr result (AppendsFront (E.written err.old) (E.written err.new) (script_line line cause)) }
    ensures cause { OnErr result (Rose (E.faults err.old) (E.faults err.new)) }
    ensures count { E.faults err.old ≤ E.faults err.new }
{
    let mut buffer = itoa::Buffer::new();
    let number = buffer.format(line).as_bytes();
    let pieces = [
        b"ndc: script line ".as_slice(),
        number,
        b": ".as_slice(),
        script_cause_name(cause).as_bytes(),
        b"\n".as_slice(),
    ];
    write_pieces(err, &pieces)
}
