//! The program's top call, over any source and sinks: it reads a script, runs it and writes its report with what is asked.
ghost use Rattle.std.specs.Prelude.{◌≡◌, ◌≢◌, ◌<◌, ◌≤◌, Some, [], ◌∷◌, IsOk, IsErr, IsErrAnd, length, IfOk, IfErr, IfSome, OnOk, Ok};
ghost use Rattle.ndc_dump.specs.Input.{most_bytes};
ghost use Rattle.ndc_dump.specs.Telling.{IsAmong, Tells};
ghost use Rattle.ndc_port.specs.Fault.{Rose};
ghost use Rattle.ndc_script_read.specs.Body.{script_of};
ghost use Rattle.ndc_probe.specs.Top.{FrontOfProbe, ProbeFault, Probes, ReadFault, TellsError, TextFault, TextIsProbed, fault_line, status_line, status_of};

use crate::fault::Fault;
use crate::probing::probe_script;
use ndc_dump::MOST_BYTES;
use ndc_port::{Gate, ReadError, Sink, Source, read_all};
use ndc_probe_questions::questions_in;
use ndc_script_read::parse;
use ndc_script_types::ScriptError;
use ndc_world::RunError;
use std::alloc::Global;
use std::thread::Threads;

/// Reads a text.
fn read_text<S: Source>(alloc: Global, source: &mut S) -> Result<Vec<u8>, Fault>
    ensures text { IfOk result (λ text. IfSome (S.left source.old) (λ bytes. (length bytes ≤ most_bytes) × (bytes ≡ text.items))) }
    ensures end { OnOk result (IfSome (S.left source.old) (λ _. S.left source.new ≡ Some [])) }
    ensures fault { IfErr result (ReadFault (S.left source.old) (S.faults source.old) (S.faults source.new)) }
    ensures count { S.faults source.old ≤ S.faults source.new }
{
    match read_all(alloc, source, MOST_BYTES) {
        Ok(bytes) => Ok(bytes),
        Err(ReadError::Fault) => Err(Fault::Read),
        Err(ReadError::TooLong) => Err(Fault::Limit),
        Err(ReadError::Memory) => Err(Fault::Memory),
    }
}

/// Reads the script and the questions of a text, runs it and writes what is told of it.
fn probe_text<R: Threads + Sync, K: Sink, G: Gate>(
    rt: &R,
    alloc: Global,
    gate: &G,
    text: &[u8],
    out: &mut K,
) -> Result<(), Fault>
    ensures done { OnOk result (TextIsProbed text.now (K.written out.old) (K.written out.new)) }
    ensures fault { IfErr result (TextFault text.now (K.written out.old) (K.written out.new) (K.faults out.old) (K.faults out.new)) }
    ensures count { K.faults out.old ≤ K.faults out.new }
{
    let script = match parse(alloc, text) {
        Ok(script) => script,
        Err(ScriptError::Refused { line, cause }) => return Err(Fault::Script { line, cause }),
        Err(ScriptError::Memory) => return Err(Fault::Memory),
    };
    let asked = match questions_in(alloc, text) {
        Ok(asked) => asked,
        Err(_) => return Err(Fault::Memory),
    };
    match probe_script(rt, alloc, gate, 1, &script, asked.as_slice(), out) {
        Ok(()) => Ok(()),
        Err(RunError::Write) => Err(Fault::Write),
        Err(RunError::Memory) => Err(Fault::Memory),
    }
}

/// Reads a script, runs it and writes what is told of it.
fn probe<R: Threads + Sync, S: Source, K: Sink, G: Gate>(
    rt: &R,
    alloc: Global,
    gate: &G,
    source: &mut S,
    out: &mut K,
) -> Result<(), Fault>
    ensures done { OnOk result (Probes (S.left source.old) (S.left source.new) (K.written out.old) (K.written out.new)) }
    ensures fault { IfErr result (ProbeFault
        (record { left = S.left source.old; source_faults = S.faults source.old; written = K.written out.old; out_faults = K.faults out.old })
        (record { left = S.left source.new; source_faults = S.faults source.new; written = K.written out.new; out_faults = K.faults out.new })) }
{
    let text = match read_text(alloc, source) {
        Ok(text) => text,
        Err(fault) => return Err(fault),
    };
    probe_text(rt, alloc, gate, text.as_slice(), out)
}

/// Tells of a fault, and answers the status.
fn end<E: Sink>(fault: Fault, err: &mut E) -> u8
    ensures status { result ≡ status_of fault }
    ensures told { Tells (E.written err.old) (E.written err.new) (E.faults err.old) (E.faults err.new) (fault_line fault) }
{
    let _told = fault.tell(err);
    fault.status()
}

/// Runs the program on its words, which do not hold its name, and answers the status that it ends with. It takes no word,
/// reads a script, and writes its report with the answers to the questions in its comments, and with what is told unasked.
///
/// 0 where the input was read to its end and all was written; 2 only where there is a word; 3 only where the input is no
/// script; 4 only where reading failed; 5 only where writing failed; 6 only where the input has more than 16,777,216 bytes;
/// 8 where memory ran out, which may be at any time. After a fault a line on `err` tells of it; but for words these are the
/// lines of `ndc run`. Whatever the status, `out` has what it had, followed by a prefix of what is told; by nothing
/// where the input is not a script.
pub fn probe_top<R: Threads + Sync, S: Source, K: Sink, E: Sink, G: Gate>(
    rt: &R,
    alloc: Global,
    words: &[String],
    source: &mut S,
    out: &mut K,
    err: &mut E,
    gate: &G,
) -> u8
    ensures words { result ≡ 2 → 0 < length words.now }
    ensures refused { 0 < length words.now → result ≡ 2 }
    ensures refused_source { 0 < length words.now → source.new ≡ source.old }
    ensures refused_out { 0 < length words.now → out.new ≡ out.old }

    // What was done at status 0.
    ensures done { result ≡ 0 → Probes (S.left source.old) (S.left source.new) (K.written out.old) (K.written out.new) }
    ensures silent { result ≡ 0 → E.written err.new ≡ E.written err.old }

    // Why it ended with a fault, and what was told of it.
    ensures script { result ≡ 3 → IfSome (S.left source.old) (λ bytes. (length bytes ≤ most_bytes)
        × IsErrAnd (script_of bytes) (TellsError (E.written err.old) (E.written err.new) (E.faults err.old) (E.faults err.new))) }
    ensures read { result ≡ 4 → Rose (S.faults source.old) (S.faults source.new) }
    ensures write { result ≡ 5 → Rose (K.faults out.old) (K.faults out.new) }
    ensures limit { result ≡ 6 → IfSome (S.left source.old) (λ bytes. most_bytes < length bytes) }
    ensures told { IfSome (status_line result) (Tells (E.written err.old) (E.written err.new) (E.faults err.old) (E.faults err.new)) }

    // What is written: nothing before the output begins or where the input is not a script, and never more than a
    // prefix of it.
    ensures early { IsAmong result (2 ∷ 3 ∷ 4 ∷ 6 ∷ []) → K.written out.new ≡ K.written out.old }
    ensures front { result ≢ 0 → FrontOfProbe (S.left source.old) (K.written out.old) (K.written out.new) }
{
    if !words.is_empty() {
        return end(Fault::Words, err);
    }
    match probe(rt, alloc, gate, source, out) {
        Ok(()) => 0,
        Err(fault) => end(fault, err),
    }
}
