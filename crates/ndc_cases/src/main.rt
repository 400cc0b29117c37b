//! Runs transcripts: each names a call, its input and what it has to answer. Prints a line for each that
//! answers otherwise, and how many passed and differ.
//!
//! Transcripts are files in `data/`. A line that begins with `# ` and stands between cases is left out, and a
//! case ends at an empty line:
//!
//! - `== NAME`: the case's name.
//! - `$ WORDS`: the call: `ndc` with its words; `faulty READ WRITE TELL TOLD ROOM ndc ..` (the call of the source, of
//!   both sinks and of the indexer `faulty` that fails, 0 for none, and how many bytes may be printed); `counted COUNT
//!   WRITE ndc ..` (the call of standard output that fails, and how many times the one indexer, `open`, is told); `paired
//!   ndc ..` and `late ndc ..` (the first worker of a round waits for the second, or the second for the first); `script`
//!   (a script is read and printed), `generated COUNT SEED` (a script is generated and printed), `batch` and `bare` (a
//!   batch is read and printed, or one without carrier).
//! - `> TEXT`: a line of input; `>- TEXT`: the last one, without its line end; `>x DIGITS`: bytes in hexadecimal;
//!   `>* COUNT TEXT`: a line so many times.
//! - `< TEXT`: a line of output; `<- TEXT`: without its line end.
//! - `! TEXT`: a line of standard error.
//! - `? STATUS`: one digit, left out where it is 0.
#![tactic(auto)]

mod answer;
mod case;
mod counting;
mod faulty;
mod gate;
mod line;
mod verdict;

use crate::answer::answer_of;
use crate::case::{Case, CaseError};
use crate::verdict::{Counts, Verdict, verdict_of};
use std::thread::Threads;
use std::{fs, io};

/// The files of transcripts.
const FILES: [&str; 12] = [
    "examples.cases",
    "words.cases",
    "faults.cases",
    "first.cases",
    "worked.cases",
    "scripts.cases",
    "printed.cases",
    "generated.cases",
    "batches.cases",
    "dumps.cases",
    "damaged.cases",
    "outside.cases",
];

/// Runs a case that is whole and counts what comes of it. What has no name is none.
fn finish<R: Threads + Sync>(
    rt: &HostRuntime,
    threads: &R,
    file: &str,
    case: &Case,
    counts: &mut Counts,
) -> io::Result<()> {
    if case.name().is_empty() {
        return Ok(());
    }
    let answer = answer_of(threads, rt.alloc(), case.words(), case.input())?;
    let verdict = verdict_of(case, &answer);
    counts.count(verdict);
    if verdict == Verdict::Differs {
        let name = String::from_utf8_lossy(rt.alloc(), case.name())?;
        println!(rt; "{file}: {name}: status {}", answer.status)?;
    }
    Ok(())
}

/// Runs the cases of a file.
fn run_file<R: Threads + Sync>(
    rt: &HostRuntime,
    threads: &R,
    file: &str,
    counts: &mut Counts,
) -> io::Result<()> {
    let bytes = fs::read(rt, file)?;
    let mut case = Case::new(rt.alloc());
    for line in bytes.split(|byte| *byte == b'\n') {
        if line.is_empty() {
            finish(rt, threads, file, &case, counts)?;
            case = Case::new(rt.alloc());
        } else {
            case = match case.with_line(rt.alloc(), line) {
                Ok(case) => case,
                Err(CaseError::Form) => {
                    counts.count(Verdict::Differs);
                    let line = String::from_utf8_lossy(rt.alloc(), line)?;
                    println!(rt; "{file}: no line of a transcript: {line}")?;
                    Case::new(rt.alloc())
                }
                Err(CaseError::Memory) => return Err(io::Error::from(io::ErrorKind::OutOfMemory)),
            };
        }
    }
    finish(rt, threads, file, &case, counts)
}

fn main(rt: HostRuntime) -> io::Result<()> {
    let mut counts = Counts::new();
    for file in FILES {
        run_file(&rt, &rt, file, &mut counts)?;
    }
    println!(rt; "{} passed, {} differ", counts.passed, counts.differing)
}
