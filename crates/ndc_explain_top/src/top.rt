//! The program's top call, over any source and sinks: it reads dumps and tells them.
ghost use Rattle.std.specs.Prelude.{◌≡◌, ◌≢◌, ◌≤◌, ◌<◌, true, false, Ok, Err, Some, [], ◌∷◌, map, length, IfOk, IfErr, IfSome, IsOk, IsErr, IsErrAnd, OnOk, OnErr};
ghost use Rattle.std.specs.String.{string_bytes};
ghost use Rattle.ndc_port.specs.Bytes.{Appends, AppendsFront};
ghost use Rattle.ndc_port.specs.Fault.{Rose};
ghost use Rattle.ndc_dump.specs.Telling.{IsAmong, Tells};
ghost use Rattle.ndc_explain_top.specs.Asked.{asked_of};
ghost use Rattle.ndc_explain_top.specs.Report.{limit_of, report_of};
ghost use Rattle.ndc_explain_top.specs.Top.{status_of, status_line, told_status, fault_line, Explains, ExplainsFront, ExplainFault, LeavesAfter, LeavesSource, ReadingFails, TellsRefusal};

use crate::asked::{Request, asked_of};
use crate::fault::Fault;
use crate::report::{Report, limit_of, report_of};
use ndc_port::{ReadError, Sink, Source, read_all, write_all};
use ndc_tool_words::WordsError;
use std::alloc::Global;

/// Reads a source to its end, and gives what is told of its bytes.
fn read_report<S: Source>(alloc: Global, request: &Request, source: &mut S) -> Result<Report, Fault>
    ensures report { IfOk result (λ report. IfSome (S.left source.old)
        (λ bytes. (length bytes ≤ limit_of request.now) × (report_of request.now bytes ≡ Ok report))) }
    ensures end { OnOk result (IfSome (S.left source.old) (λ _. S.left source.new ≡ Some [])) }
    ensures fault { IfErr result
        (ReadingFails request.now (S.left source.old) (S.faults source.old) (S.faults source.new)) }
    ensures rest { IfErr result (λ fault. LeavesAfter request.now fault (S.left source.old) (S.left source.new)) }
    ensures count { S.faults source.old ≤ S.faults source.new }
{
    let bytes = match read_all(alloc, source, limit_of(request)) {
        Ok(bytes) => bytes,
        Err(ReadError::Fault) => return Err(Fault::Read),
        Err(ReadError::TooLong) => return Err(Fault::Limit),
        Err(ReadError::Memory) => return Err(Fault::Memory),
    };
    report_of(alloc, request, bytes.as_slice())
}

/// Reads dumps and tells them, and answers whether something is left: to be driven again, waiting, or without a sound set.
fn explain<S: Source, K: Sink>(
    alloc: Global,
    request: &Request,
    source: &mut S,
    out: &mut K,
) -> Result<bool, Fault>
    ensures done { IfOk result (λ leaves. Explains request.now leaves (S.left source.old) (S.left source.new) (K.written out.old) (K.written out.new)) }
    ensures fault { IfErr result (ExplainFault request.now
        (record { left = S.left source.old; source_faults = S.faults source.old; written = K.written out.old; out_faults = K.faults out.old })
        (record { left = S.left source.new; source_faults = S.faults source.new; written = K.written out.new; out_faults = K.faults out.new })) }
    ensures end { OnOk result (IfSome (S.left source.old) (λ _. S.left source.new ≡ Some [])) }
    ensures rest { IfErr result (λ fault. LeavesAfter request.now fault (S.left source.old) (S.left source.new)) }
    ensures source_count { S.faults source.old ≤ S.faults source.new }
    ensures out_count { K.faults out.old ≤ K.faults out.new }
{
    let report = read_report(alloc, request, source)?;
    match write_all(out, report.text()) {
        Ok(()) => Ok(report.leaves),
        Err(_) => Err(Fault::Write),
    }
}

/// The status that says whether something is left.
fn told_status(leaves: bool) -> u8
    ensures { result ≡ told_status leaves }
{
    if leaves { 1 } else { 0 }
}

/// Tells of a fault, and answers the status.
fn end<E: Sink>(fault: Fault, err: &mut E) -> u8
    ensures status { result ≡ status_of fault }
    ensures told { Tells (E.written err.old) (E.written err.new) (E.faults err.old) (E.faults err.new) (fault_line fault) }
{
    let _told = fault.tell(err);
    fault.status()
}

/// Reads dumps, tells them, tells of the fault that comes, and answers the status.
fn explain_input<S: Source, K: Sink, E: Sink>(
    alloc: Global,
    request: &Request,
    source: &mut S,
    out: &mut K,
    err: &mut E,
) -> u8
    ensures among { IsAmong result (0 ∷ 1 ∷ 4 ∷ 5 ∷ 6 ∷ 7 ∷ 8 ∷ []) }
    ensures whole { result ≡ 0 → Explains request.now false (S.left source.old) (S.left source.new) (K.written out.old) (K.written out.new) }
    ensures leaving { result ≡ 1 → Explains request.now true (S.left source.old) (S.left source.new) (K.written out.old) (K.written out.new) }
    ensures silent { IsAmong result (0 ∷ 1 ∷ []) → E.written err.new ≡ E.written err.old }
    ensures refusal { result ≡ 7 → IfSome (S.left source.old) (λ bytes. (length bytes ≤ limit_of request.now)
        × IsErrAnd (report_of request.now bytes) (TellsRefusal (E.written err.old) (E.written err.new) (E.faults err.old) (E.faults err.new))) }
    ensures read { result ≡ 4 → Rose (S.faults source.old) (S.faults source.new) }
    ensures write { result ≡ 5 → Rose (K.faults out.old) (K.faults out.new) }
    ensures limit { result ≡ 6 → IfSome (S.left source.old) (λ bytes. limit_of request.now < length bytes) }
    ensures told { IfSome (status_line result) (Tells (E.written err.old) (E.written err.new) (E.faults err.old) (E.faults err.new)) }
    ensures source { LeavesSource request.now result (S.left source.old) (S.left source.new) }
    ensures above { IfSome (S.left source.old) (λ bytes. limit_of request.now < length bytes → IsAmong result (4 ∷ 6 ∷ 8 ∷ [])) }
    ensures untold { IfSome (S.left source.old) (λ bytes. length bytes ≤ limit_of request.now → IsErr (report_of request.now bytes) → IsAmong result (4 ∷ 7 ∷ 8 ∷ [])) }
    ensures tellable { IfSome (S.left source.old) (λ bytes. length bytes ≤ limit_of request.now → IsOk (report_of request.now bytes) → IsAmong result (0 ∷ 1 ∷ 4 ∷ 5 ∷ 8 ∷ [])) }
    ensures early { IsAmong result (4 ∷ 6 ∷ 7 ∷ []) → K.written out.new ≡ K.written out.old }
    ensures front { IsAmong result (4 ∷ 5 ∷ 6 ∷ 7 ∷ 8 ∷ []) → ExplainsFront request.now (S.left source.old) (K.written out.old) (K.written out.new) }
{
    match explain(alloc, request, source, out) {
        Ok(leaves) => told_status(leaves),
        Err(fault) => end(fault, err),
    }
}

/// Runs the program on its words, which do not hold its name, and answers the status that it ends with: it reads one dump
/// alone, or many, and tells them: by an explanation, or, where the first word is `--picture` or `--picture=text`, by a
/// picture, which is an SVG document or in characters, or, where it is `view`, by the dumps themselves with their views.
/// After that may stand, in this order, `--all`, by which the events of decisions are told too; `--bare`, by which
/// dumps are read without their views; `--limit BYTES`, which says how many bytes the input may have in place of
/// 16,777,216; and `--clusters NAME=INITIAL,.. --increment INCREMENT`, by which the clusters that wrote with the
/// versions are named.
///
/// Many dumps stand one after the other, with a line `cluster NAME` before those of one cluster. They are told by
/// workflow, after a summary: what each dump has and lacks, and the explanation of all their batches together, or why
/// these are not a sound set. A document is drawn of one workflow alone.
///
/// 0 where the input was read to its end, all was written, and nothing is left: nothing to be driven again, no signal that
/// waits, no dumps without a sound set; 1 where something is; 2 only where the words are refused; 4 only where reading
/// failed; 5 only where writing failed; 6 only where the input has more bytes than it may have; 7 only where a dump is none,
/// or a document cannot be drawn; 8 where memory ran out, which may be at any time. The order of the faults is 2, 4, 6, 7, 5.
/// After a fault a line on `err` tells of it. Refused words read and write nothing. Whatever the status, `out` has what it
/// had, followed by a prefix of what is told; by nothing where the input cannot be told.
pub fn explain_top<S: Source, K: Sink, E: Sink>(
    alloc: Global,
    words: &[String],
    source: &mut S,
    out: &mut K,
    err: &mut E,
) -> u8
    ensures words { result ≡ 2 → IsErr (asked_of (map string_bytes words.now)) }
    ensures refused { IsErr (asked_of (map string_bytes words.now)) → IsAmong result (2 ∷ 8 ∷ []) }
    ensures refused_source { IsErr (asked_of (map string_bytes words.now)) → source.new ≡ source.old }
    ensures refused_out { IsErr (asked_of (map string_bytes words.now)) → out.new ≡ out.old }

    // What was done at statuses 0 and 1.
    ensures whole { IfOk (asked_of (map string_bytes words.now)) (λ request. result ≡ 0 → Explains request false (S.left source.old) (S.left source.new) (K.written out.old) (K.written out.new)) }
    ensures leaving { IfOk (asked_of (map string_bytes words.now)) (λ request. result ≡ 1 → Explains request true (S.left source.old) (S.left source.new) (K.written out.old) (K.written out.new)) }
    ensures silent { IsAmong result (0 ∷ 1 ∷ []) → E.written err.new ≡ E.written err.old }

    // Why it ended with a fault, and what was told of it.
    ensures refusal { IfOk (asked_of (map string_bytes words.now)) (λ request. result ≡ 7 → IfSome (S.left source.old) (λ bytes. (length bytes ≤ limit_of request)
        × IsErrAnd (report_of request bytes) (TellsRefusal (E.written err.old) (E.written err.new) (E.faults err.old) (E.faults err.new)))) }
    ensures read { result ≡ 4 → Rose (S.faults source.old) (S.faults source.new) }
    ensures write { result ≡ 5 → Rose (K.faults out.old) (K.faults out.new) }
    ensures limit { IfOk (asked_of (map string_bytes words.now)) (λ request. result ≡ 6 → IfSome (S.left source.old) (λ bytes. limit_of request < length bytes)) }
    ensures told { IfSome (status_line result) (Tells (E.written err.old) (E.written err.new) (E.faults err.old) (E.faults err.new)) }

    // What is left in the source of an input.
    ensures source { IfOk (asked_of (map string_bytes words.now)) (λ request. result ≢ 2 → LeavesSource request result (S.left source.old) (S.left source.new)) }

    // Which statuses can come: whatever the source tells of itself, and by the bytes that were left.
    ensures among { IfOk (asked_of (map string_bytes words.now)) (λ _. IsAmong result (0 ∷ 1 ∷ 4 ∷ 5 ∷ 6 ∷ 7 ∷ 8 ∷ [])) }
    ensures above { IfOk (asked_of (map string_bytes words.now)) (λ request. IfSome (S.left source.old) (λ bytes. limit_of request < length bytes → IsAmong result (4 ∷ 6 ∷ 8 ∷ []))) }
    ensures untold { IfOk (asked_of (map string_bytes words.now)) (λ request. IfSome (S.left source.old) (λ bytes. length bytes ≤ limit_of request → IsErr (report_of request bytes) → IsAmong result (4 ∷ 7 ∷ 8 ∷ []))) }
    ensures tellable { IfOk (asked_of (map string_bytes words.now)) (λ request. IfSome (S.left source.old) (λ bytes. length bytes ≤ limit_of request → IsOk (report_of request bytes) → IsAmong result (0 ∷ 1 ∷ 4 ∷ 5 ∷ 8 ∷ []))) }

    // What is written: nothing before the output begins or where the input is not a dump, and never more than a prefix
    // of it.
    ensures early { IsAmong result (2 ∷ 4 ∷ 6 ∷ 7 ∷ []) → K.written out.new ≡ K.written out.old }
    ensures front { IfOk (asked_of (map string_bytes words.now)) (λ request. IsAmong result (4 ∷ 5 ∷ 6 ∷ 7 ∷ 8 ∷ []) → ExplainsFront request (S.left source.old) (K.written out.old) (K.written out.new)) }
{
    match asked_of(alloc, words) {
        Ok(request) => explain_input(alloc, &request, source, out, err),
        Err(WordsError::Refused) => end(Fault::Words, err),
        Err(WordsError::Memory) => end(Fault::Memory, err),
    }
}
