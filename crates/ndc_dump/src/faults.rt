//! The lines that tell of a faulty dump.
ghost use Rattle.std.specs.Prelude.{◌≡◌, ◌≤◌, OnOk, OnErr};
ghost use Rattle.ndc_port.specs.Bytes.{Appends, AppendsFront};
ghost use Rattle.ndc_port.specs.Fault.{Rose};
ghost use Rattle.ndc_dump.specs.Faults.{batch_fault_name, line_cause_name, key_cause_name, dump_line, dump_batch_line};

use crate::pieces::write_pieces;
use ndc_dump_causes::{KeyCause, LineCause};
use ndc_event::{BatchFault, BatchKey};
use ndc_port::{Failed, Sink};

/// How a fault of a batch by itself is printed.
fn batch_fault_name(fault: BatchFault) -> &'static str
    ensures { result.now ≡ batch_fault_name fault }
{
    match fault {
        BatchFault::NoEvents => "NoEvents",
        BatchFault::IdsNotConsecutive => "IdsNotConsecutive",
        BatchFault::MixedVersions => "MixedVersions",
        BatchFault::BadFirst => "BadFirst",
        BatchFault::BadParent => "BadParent",
        BatchFault::BadCarrier => "BadCarrier",
    }
}

/// How a cause of a faulty line is printed.
fn line_cause_name(cause: LineCause) -> &'static str
    ensures { result.now ≡ line_cause_name cause }
{
    match cause {
        LineCause::BadFrame => "BadFrame",
        LineCause::NotJson => "NotJson",
        LineCause::MissingKey => "MissingKey",
        LineCause::ExtraKey => "ExtraKey",
        LineCause::WrongKind => "WrongKind",
        LineCause::Range => "Range",
        LineCause::NotCanonical => "NotCanonical",
        LineCause::Check(fault) => batch_fault_name(fault),
        LineCause::Foreign => "Foreign",
        LineCause::SameKey => "SameKey",
        LineCause::BadOrder => "BadOrder",
        LineCause::BadView => "BadView",
    }
}

/// How a cause of a batch that does not fit the others is printed.
fn key_cause_name(cause: KeyCause) -> &'static str
    ensures { result.now ≡ key_cause_name cause }
{
    match cause {
        KeyCause::MissingParent => "MissingParent",
        KeyCause::NotWellFormed => "NotWellFormed",
        KeyCause::SplitVersion => "SplitVersion",
        KeyCause::OriginTwice => "OriginTwice",
        KeyCause::OriginUnfit => "OriginUnfit",
        KeyCause::BadReplay => "BadReplay",
        KeyCause::CarrierUnfit => "CarrierUnfit",
    }
}

/// Writes the line by which the program of this name tells of a faulty line of a dump.
pub fn tell_line<E: Sink>(
    err: &mut E,
    program: &'static [u8],
    line: u64,
    cause: LineCause,
) -> Result<(), Failed>
    ensures whole { OnOk result
        (Appends (E.written err.old) (E.written err.new) (dump_line program.now line cause)) }
    ensures front { OnErr result
        (AppendsFront (E.written err.old) (E.written err.new) (dump_line program.now line cause)) }
    ensures cause { OnErr result (Rose (E.faults err.old) (E.faults err.new)) }
    ensures count { E.faults err.old ≤ E.faults err.new }
{
    let mut buffer = itoa::Buffer::new();
    let number = buffer.format(line).as_bytes();
    let pieces = [
        program,
        b": dump line ".as_slice(),
        number,
        b": ".as_slice(),
        line_cause_name(cause).as_bytes(),
        b"\n".as_slice(),
    ];
    write_pieces(err, &pieces)
}

/// Writes the line by which the program of this name tells of a batch that does not fit the others of a dump.
pub fn tell_batch<E: Sink>(
    err: &mut E,
    program: &'static [u8],
    key: BatchKey,
    cause: KeyCause,
) -> Result<(), Failed>
    ensures whole { OnOk result
        (Appends (E.written err.old) (E.written err.new) (dump_batch_line program.now key cause)) }
    ensures front { OnErr result
        (AppendsFront (E.written err.old) (E.written err.new)
        (dump_batch_line program.now key cause)) }
    ensures cause { OnErr result (Rose (E.faults err.old) (E.faults err.new)) }
    ensures count { E.faults err.old ≤ E.faults err.new }
{
    let mut versions = itoa::Buffer::new();
    let mut tasks = itoa::Buffer::new();
    let version = versions.format(key.version).as_bytes();
    let task = tasks.format(key.task).as_bytes();
    let pieces = [
        program,
        b": dump batch ".as_slice(),
        version,
        b".".as_slice(),
        task,
        b": ".as_slice(),
        key_cause_name(cause).as_bytes(),
        b"\n".as_slice(),
    ];
    write_pieces(err, &pieces)
}
