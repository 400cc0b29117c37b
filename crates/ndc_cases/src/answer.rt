//! What a call answers, over memory.
ghost use Rattle.std.specs.Prelude.{◌≡◌, [], map, IfOk};
ghost use Rattle.std.specs.List.{AllByRecursion};
ghost use Rattle.ndc_index.specs.Seats.{shown};
ghost use Rattle.ndc_script_types.specs.Print.{script_text};
ghost use Rattle.ndc_script_read.specs.Body.{script_of};

use crate::counting::Counting;
use crate::faulty::Faulty;
use crate::gate::LateGate;
use ndc_event::OutOfMemory;
use ndc_index::{Indexer, KindsIndexer, OpenIndexer, SignalsIndexer};
use ndc_port::{Gate, MemSink, MemSource, OpenGate, PairGate};
use ndc_script::{Script, ScriptError, generate, parse, print};
use ndc_script_words::number_of;
use ndc_text::{TextError, print_batch, read_batch, read_batch_1};
use ndc_tool_top::ndc_top;
use std::alloc::{AllocError, Global};
use std::sync::Arc;
use std::sync::atomic::{AtomicU64, Ordering};
use std::thread::Threads;

/// How many bytes a call may print.
const ROOM: u64 = 1_048_576;

/// What a call answers: its status, what it printed, and what it told on standard error.
#[derive(Drop)]
pub struct Answer {
    pub status: u8,
    pub output: Vec<u8>,
    pub told: Vec<u8>,
}

/// The answer of a call that is refused, with the line that tells why.
fn refused(alloc: Global, status: u8, told: &str) -> Result<Answer, OutOfMemory>
    ensures { IfOk result (λ answer. answer.status ≡ status) }
{
    let mut line = Vec::from_slice(alloc, told.as_bytes())?;
    line.push(b'\n')?;
    Ok(Answer {
        status,
        output: Vec::new(alloc),
        told: line,
    })
}

/// The answer of a call that prints these bytes.
fn printed(alloc: Global, output: Vec<u8>) -> Answer
    ensures { result.output ≡ output }
{
    Answer {
        status: 0,
        output,
        told: Vec::new(alloc),
    }
}

/// What fails of what a call is given: which call of the source and of both sinks and of the indexer `faulty`, counted
/// from 1, none where the number is 0; and how many bytes the call may print.
#[derive(Clone, Copy)]
struct Faults {
    read: u64,
    write: u64,
    tell: u64,
    told: u64,
    room: u64,
}

/// Nothing fails.
const NO_FAULTS: Faults = Faults {
    read: 0,
    write: 0,
    tell: 0,
    told: 0,
    room: ROOM,
};

/// The faults that five numbers name.
fn faults_of(numbers: &[&[u8]]) -> Option<Faults> {
    match numbers {
        [read, write, tell, told, room] => Some(Faults {
            read: number_of(read)?,
            write: number_of(write)?,
            tell: number_of(tell)?,
            told: number_of(told)?,
            room: number_of(room)?,
        }),
        _ => None,
    }
}

/// The list of one call that fails.
fn failing(alloc: Global, call: u64) -> Result<Vec<u64>, OutOfMemory> {
    let mut calls = Vec::new(alloc);
    calls.push(call)?;
    Ok(calls)
}

/// What the program answers on these words, with these indexers, which were told nothing.
fn answer_with<R: Threads + Sync, G: Gate>(
    rt: &R,
    alloc: Global,
    gate: &G,
    faults: Faults,
    indexers: Vec<Box<dyn Indexer>>,
    words: &[&[u8]],
    input: &[u8],
) -> Result<Answer, OutOfMemory>
    requires new { AllByRecursion (λ one. one.list ≡ []) (map (λ b. shown (title b) (failing b) (list b)) indexers.items) }
    ensures { IfOk result (λ answer. answer.status ≡ 0 → answer.told.items ≡ []) }
{
    let mut given = Vec::new(alloc);
    for word in words {
        given.push(String::from_utf8_lossy(alloc, word)?)?;
    }
    let input = Vec::from_slice(alloc, input)?;
    let mut source = MemSource::new(input, failing(alloc, faults.read)?);
    let mut out = MemSink::new(alloc, faults.room as usize, failing(alloc, faults.write)?)?;
    let mut err = MemSink::new(alloc, ROOM as usize, failing(alloc, faults.tell)?)?;
    let status = ndc_top(
        rt,
        alloc,
        given.as_slice(),
        &mut source,
        &mut out,
        &mut err,
        gate,
        indexers,
    );
    Ok(Answer {
        status,
        output: Vec::from_slice(alloc, out.bytes())?,
        told: Vec::from_slice(alloc, err.bytes())?,
    })
}

/// What the program answers on these words, with the three indexers that it ships and one that fails.
fn ndc_answer<R: Threads + Sync, G: Gate>(
    rt: &R,
    alloc: Global,
    gate: &G,
    faults: Faults,
    words: &[&[u8]],
    input: &[u8],
) -> Result<Answer, OutOfMemory>
    ensures { IfOk result (λ answer. answer.status ≡ 0 → answer.told.items ≡ []) }
{
    let mut indexers: Vec<Box<dyn Indexer>> = Vec::new(alloc);
    indexers.push(Box::new(alloc, KindsIndexer::new(alloc))?)?;
    indexers.push(Box::new(alloc, OpenIndexer::new(alloc))?)?;
    indexers.push(Box::new(alloc, SignalsIndexer::new(alloc))?)?;
    indexers.push(Box::new(alloc, Faulty::new(alloc, faults.told))?)?;
    answer_with(rt, alloc, gate, faults, indexers, words, input)
}

/// What the program answers where something fails that it is given: after five numbers.
fn faulty_answer<R: Threads + Sync>(
    rt: &R,
    alloc: Global,
    numbers: &[&[u8]],
    words: &[&[u8]],
    input: &[u8],
) -> Result<Answer, OutOfMemory> {
    match faults_of(numbers) {
        Some(faults) => ndc_answer(rt, alloc, &OpenGate {}, faults, words, input),
        None => refused(alloc, 2, "no such numbers"),
    }
}

/// What the program answers where this call of standard output fails, with one indexer, `open`, whose calls are added to
/// the count.
fn told_answer<R: Threads + Sync>(
    rt: &R,
    alloc: Global,
    calls: &Arc<AtomicU64, Global>,
    write: u64,
    words: &[&[u8]],
    input: &[u8],
) -> Result<Answer, OutOfMemory>
    ensures { IfOk result (λ answer. answer.status ≡ 0 → answer.told.items ≡ []) }
{
    let faults = Faults { write, ..NO_FAULTS };
    let counting = Counting::new(alloc, Arc::try_clone(calls)?);
    let mut indexers: Vec<Box<dyn Indexer>> = Vec::new(alloc);
    indexers.push(Box::new(alloc, counting)?)?;
    answer_with(rt, alloc, &OpenGate {}, faults, indexers, words, input)
}

/// The same, where the indexer was told so many times; else it is refused.
fn counted_answer<R: Threads + Sync>(
    rt: &R,
    alloc: Global,
    numbers: [&[u8]; 2],
    words: &[&[u8]],
    input: &[u8],
) -> Result<Answer, OutOfMemory> {
    let (Some(count), Some(write)) = (number_of(numbers[0]), number_of(numbers[1])) else {
        return refused(alloc, 2, "no such numbers");
    };
    let calls = Arc::new(alloc, AtomicU64::new(0))?;
    let answer = told_answer(rt, alloc, &calls, write, words, input)?;
    if calls.load(Ordering::SeqCst) == count {
        Ok(answer)
    } else {
        refused(alloc, 2, "the indexer was not told so many times")
    }
}

/// The answer where two workers of a round have met; else it is refused.
fn where_met(alloc: Global, met: bool, answer: Answer) -> Result<Answer, OutOfMemory> {
    if met {
        Ok(answer)
    } else {
        refused(alloc, 2, "the workers did not meet")
    }
}

/// What the program answers where the first worker of a round waits for the second; refused where they never met.
fn paired_answer<R: Threads + Sync>(
    rt: &R,
    alloc: Global,
    words: &[&[u8]],
    input: &[u8],
) -> Result<Answer, OutOfMemory> {
    let gate = PairGate::new();
    let answer = ndc_answer(rt, alloc, &gate, NO_FAULTS, words, input)?;
    where_met(alloc, gate.met(), answer)
}

/// What the program answers where the second worker of a round waits for the first; refused where they never met.
fn late_answer<R: Threads + Sync>(
    rt: &R,
    alloc: Global,
    words: &[&[u8]],
    input: &[u8],
) -> Result<Answer, OutOfMemory> {
    let gate = LateGate::new();
    let answer = ndc_answer(rt, alloc, &gate, NO_FAULTS, words, input)?;
    where_met(alloc, gate.met(), answer)
}

/// A script, read and printed again.
fn script_answer(alloc: Global, input: &[u8]) -> Result<Answer, OutOfMemory>
    ensures { IfOk result (λ answer. IfOk (script_of input.now) (λ script. answer.output.items ≡ script_text script)) }
{
    match parse(alloc, input) {
        Ok(script) => Ok(printed(alloc, print(alloc, &script)?)),
        Err(ScriptError::Memory) => Err(AllocError),
        Err(error) => refused(alloc, 3, format!(in alloc; "{error:?}")?.as_str()),
    }
}

/// A generated script, printed.
fn generated_answer(alloc: Global, count: &[u8], seed: &[u8]) -> Result<Answer, OutOfMemory> {
    match (number_of(count), number_of(seed)) {
        (Some(count), Some(seed)) if 1 <= count && count <= 99_000 => {
            let script = generate(alloc, count, seed)?;
            Ok(printed(alloc, print(alloc, &script)?))
        }
        _ => refused(alloc, 2, "no such numbers"),
    }
}

/// A batch, read and printed again; a bare one has no carrier.
fn batch_answer(alloc: Global, bare: bool, input: &[u8]) -> Result<Answer, OutOfMemory>
    ensures { IfOk result (λ answer. answer.status ≡ 0 → answer.output.items ≡ input.now) }
{
    let read = if bare {
        read_batch_1(alloc, input)
    } else {
        read_batch(alloc, input)
    };
    match read {
        Ok(batch) => Ok(printed(alloc, print_batch(alloc, &batch)?)),
        Err(TextError::Memory) => Err(AllocError),
        Err(error) => refused(alloc, 7, format!(in alloc; "{error:?}")?.as_str()),
    }
}

/// What a call answers on this input. Refused with status 2 where there is no such call.
pub fn answer_of<R: Threads + Sync>(
    rt: &R,
    alloc: Global,
    call: &[u8],
    input: &[u8],
) -> Result<Answer, OutOfMemory> {
    let words: Vec<&[u8]> = call
        .split(|byte| *byte == b' ')
        .filter(|word| !word.is_empty())
        .collect(alloc)?;
    match words.as_slice() {
        [program, rest @ ..] if *program == b"ndc".as_slice() => {
            ndc_answer(rt, alloc, &OpenGate {}, NO_FAULTS, rest, input)
        }
        [word, read, write, tell, told, room, _, rest @ ..] if *word == b"faulty".as_slice() => {
            let numbers = [*read, *write, *tell, *told, *room];
            faulty_answer(rt, alloc, &numbers, rest, input)
        }
        [word, count, write, _, rest @ ..] if *word == b"counted".as_slice() => {
            counted_answer(rt, alloc, [*count, *write], rest, input)
        }
        [word, _, rest @ ..] if *word == b"paired".as_slice() => {
            paired_answer(rt, alloc, rest, input)
        }
        [word, _, rest @ ..] if *word == b"late".as_slice() => {
            late_answer(rt, alloc, rest, input)
        }
        [word] if *word == b"script".as_slice() => script_answer(alloc, input),
        [word, count, seed] if *word == b"generated".as_slice() => {
            generated_answer(alloc, count, seed)
        }
        [word] if *word == b"batch".as_slice() => batch_answer(alloc, false, input),
        [word] if *word == b"bare".as_slice() => batch_answer(alloc, true, input),
        _ => refused(alloc, 2, "no such call"),
    }
}
