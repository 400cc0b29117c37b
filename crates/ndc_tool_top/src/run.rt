//! The run of a script.
ghost use Rattle.std.specs.Prelude.{◌≡◌, ◌≢◌, ◌<◌, ◌≤◌, ◌++◌, AllPairs, true, false, Some, [], ◌∷◌, IsOk, IsErr, IsErrAnd, map, length, IfOk, IfErr, IfSome, OnOk, Ok};
ghost use Rattle.ndc_script_types.specs.WellFormed.{IsWellFormed};
ghost use Rattle.ndc_index.specs.Seats.{all_known, shown};
ghost use Rattle.ndc_port.specs.Bytes.{ConsumesAtMost};
ghost use Rattle.ndc_port.specs.Fault.{Rose};
ghost use Rattle.ndc_script_read.specs.Body.{script_of};
ghost use Rattle.ndc_world.specs.Seats.{AreNew};
ghost use Rattle.ndc_dump.specs.Input.{most_bytes};
ghost use Rattle.ndc_dump.specs.Telling.{IsAmong, Streams, Tells};
ghost use Rattle.ndc_tool_top.specs.Running.{FrontOfReport, ReadFault, RunFault, StopsWithin, Succeeds, TellsError};
ghost use Rattle.ndc_tool_top.specs.Top.{LeavesAfter, LeavesSource, TellsSomeLine, status_line, status_of};

use crate::fault::Fault;
use crate::output::end;
use ndc_dump::MOST_BYTES;
use ndc_event::Name;
use ndc_index::{ChooseError, Indexer, Indexers};
use ndc_port::{Gate, ReadError, Sink, Source, read_all};
use ndc_script::{Script, ScriptError, parse};
use ndc_shard::Shard;
use ndc_world::{RunError, run_script};
use std::alloc::Global;
use std::thread::Threads;

/// Reads a script.
fn read_script<S: Source>(alloc: Global, source: &mut S) -> Result<Script, Fault>
    ensures script { IfOk result (λ script. IfSome (S.left source.old) (λ bytes. (length bytes ≤ most_bytes) × (script_of bytes ≡ Ok script))) }
    ensures well_formed { IfOk result IsWellFormed }
    ensures end { OnOk result (IfSome (S.left source.old) (λ _. S.left source.new ≡ Some [])) }
    ensures within { OnOk result (ConsumesAtMost most_bytes (S.left source.old) (S.left source.new)) }
    ensures rest { IfErr result (λ fault. LeavesAfter fault (S.left source.old) (S.left source.new)) }
    ensures fault { IfErr result (ReadFault (S.left source.old) (S.faults source.old) (S.faults source.new)) }
    ensures count { S.faults source.old ≤ S.faults source.new }
{
    let bytes = match read_all(alloc, source, MOST_BYTES) {
        Ok(bytes) => bytes,
        Err(ReadError::Fault) => return Err(Fault::Read),
        Err(ReadError::TooLong) => return Err(Fault::Limit),
        Err(ReadError::Memory) => return Err(Fault::Memory),
    };
    match parse(alloc, bytes.as_slice()) {
        Ok(script) => Ok(script),
        Err(ScriptError::Refused { line, cause }) => Err(Fault::Script { line, cause }),
        Err(ScriptError::Memory) => Err(Fault::Memory),
    }
}

/// Chooses the indexers that are asked for, reads a script, runs it and writes its report.
fn run<R: Threads + Sync, S: Source, K: Sink, G: Gate>(
    rt: &R,
    alloc: Global,
    gate: &G,
    workers: u32,
    index: &[Name],
    late: &[Name],
    source: &mut S,
    out: &mut K,
    indexers: Vec<Box<dyn Indexer>>,
) -> Result<(), Fault>
    requires workers { 0 < workers }
    requires differ { AllPairs (λ one two. one ≢ two) (index.now ++ late.now) }
    requires new { AreNew (map (λ b. shown (title b) (failing b) (list b)) indexers.items) }
    ensures known { OnOk result (all_known (map (λ b. shown (title b) (failing b) (list b)) indexers.items) (index.now ++ late.now) ≡ true) }
    ensures unknown { all_known (map (λ b. shown (title b) (failing b) (list b)) indexers.items) (index.now ++ late.now) ≡ false
        → IfErr result (λ fault. IsAmong (status_of fault) (2 ∷ 8 ∷ [])) × (source.new ≡ source.old) × (out.new ≡ out.old) }
    ensures done { OnOk result (Succeeds (map (λ b. shown (title b) (failing b) (list b)) indexers.items) index.now late.now (S.left source.old) (S.left source.new) (K.written out.old) (K.written out.new)) }
    ensures end { OnOk result (IfSome (S.left source.old) (λ _. S.left source.new ≡ Some [])) }
    ensures rest { IfErr result (λ fault. LeavesAfter fault (S.left source.old) (S.left source.new)) }
    ensures fault { IfErr result (RunFault (map (λ b. shown (title b) (failing b) (list b)) indexers.items) index.now late.now
        (record { left = S.left source.old; source_faults = S.faults source.old; written = K.written out.old; out_faults = K.faults out.old })
        (record { left = S.left source.new; source_faults = S.faults source.new; written = K.written out.new; out_faults = K.faults out.new })) }
    ensures source_count { S.faults source.old ≤ S.faults source.new }
    ensures out_count { K.faults out.old ≤ K.faults out.new }
{
    let chosen = match Indexers::choose(alloc, indexers, index, late) {
        Ok(chosen) => chosen,
        Err(ChooseError::UnknownIndexer) => return Err(Fault::Words),
        Err(ChooseError::Memory) => return Err(Fault::Memory),
    };
    let script = match read_script(alloc, source) {
        Ok(script) => script,
        Err(fault) => return Err(fault),
    };
    match run_script::<R, G, K, Shard>(rt, alloc, gate, workers, &script, chosen, out) {
        Ok(()) => Ok(()),
        Err(RunError::Write) => Err(Fault::Write),
        Err(RunError::Memory) => Err(Fault::Memory),
    }
}

/// Runs a script that is read, tells of the fault that comes, and answers the status.
pub fn run_input<R: Threads + Sync, S: Source, K: Sink, E: Sink, G: Gate>(
    rt: &R,
    alloc: Global,
    gate: &G,
    workers: u32,
    index: &[Name],
    late: &[Name],
    source: &mut S,
    out: &mut K,
    err: &mut E,
    indexers: Vec<Box<dyn Indexer>>,
) -> u8
    requires workers { 0 < workers }
    requires differ { AllPairs (λ one two. one ≢ two) (index.now ++ late.now) }
    requires new { AreNew (map (λ b. shown (title b) (failing b) (list b)) indexers.items) }
    ensures words { result ≡ 2 → all_known (map (λ b. shown (title b) (failing b) (list b)) indexers.items) (index.now ++ late.now) ≡ false }
    ensures unknown { all_known (map (λ b. shown (title b) (failing b) (list b)) indexers.items) (index.now ++ late.now) ≡ false → IsAmong result (2 ∷ 8 ∷ []) }
    ensures unknown_source { all_known (map (λ b. shown (title b) (failing b) (list b)) indexers.items) (index.now ++ late.now) ≡ false → source.new ≡ source.old }
    ensures unknown_out { all_known (map (λ b. shown (title b) (failing b) (list b)) indexers.items) (index.now ++ late.now) ≡ false → out.new ≡ out.old }
    ensures among { IsAmong result (0 ∷ 2 ∷ 3 ∷ 4 ∷ 5 ∷ 6 ∷ 8 ∷ []) }
    ensures done { result ≡ 0 → Succeeds (map (λ b. shown (title b) (failing b) (list b)) indexers.items) index.now late.now (S.left source.old) (S.left source.new) (K.written out.old) (K.written out.new) }
    ensures silent { result ≡ 0 → E.written err.new ≡ E.written err.old }
    ensures script { result ≡ 3 → IfSome (S.left source.old) (λ bytes. (length bytes ≤ most_bytes)
        × IsErrAnd (script_of bytes) (TellsError (E.written err.old) (E.written err.new) (E.faults err.old) (E.faults err.new))) }
    ensures line { result ≡ 3 → TellsSomeLine (E.written err.old) (E.written err.new) (E.faults err.old) (E.faults err.new) }
    ensures rest { LeavesSource result (S.left source.old) (S.left source.new) }
    ensures read { result ≡ 4 → Rose (S.faults source.old) (S.faults source.new) }
    ensures write { result ≡ 5 → Rose (K.faults out.old) (K.faults out.new) }
    ensures limit { result ≡ 6 → IfSome (S.left source.old) (λ bytes. most_bytes < length bytes) }
    ensures told { IfSome (status_line result) (Tells (E.written err.old) (E.written err.new) (E.faults err.old) (E.faults err.new)) }
    ensures above { IfSome (S.left source.old) (λ bytes. most_bytes < length bytes → IsAmong result (2 ∷ 4 ∷ 6 ∷ 8 ∷ [])) }
    ensures unread { IfSome (S.left source.old) (λ bytes. length bytes ≤ most_bytes → IsErr (script_of bytes) → IsAmong result (2 ∷ 3 ∷ 4 ∷ 8 ∷ [])) }
    ensures complete { IfSome (S.left source.old) (λ bytes. length bytes ≤ most_bytes → IsOk (script_of bytes) → IsAmong result (0 ∷ 2 ∷ 4 ∷ 5 ∷ 8 ∷ [])) }
    ensures early { IsAmong result (2 ∷ 3 ∷ 4 ∷ 6 ∷ 7 ∷ []) → K.written out.new ≡ K.written out.old }
    ensures stopped { result ≡ 5 → StopsWithin (map (λ b. shown (title b) (failing b) (list b)) indexers.items) index.now late.now (S.left source.old) (K.written out.old) (K.written out.new) }
    ensures front { result ≢ 0 → FrontOfReport (map (λ b. shown (title b) (failing b) (list b)) indexers.items) index.now late.now (S.left source.old) (K.written out.old) (K.written out.new) }
{
    match run(rt, alloc, gate, workers, index, late, source, out, indexers) {
        Ok(()) => 0,
        Err(fault) => end(fault, err),
    }
}
