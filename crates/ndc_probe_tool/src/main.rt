//! `ndc_probe`: runs a script as `ndc run` does, and answers the questions in its comments.
#![tactic(auto)]

use ndc_port::{OpenGate, StdSink, StdSource};
use ndc_probe::probe_top;
use std::process::ExitCode;
use std::thread::Threads;
use std::{env, io};

/// The words after the program's name.
fn words_of(rt: &HostRuntime) -> io::Result<Vec<String>> {
    let mut words = Vec::new(rt.alloc());
    for word in env::args(rt)?.skip(1) {
        words.push(word)?;
    }
    Ok(words)
}

/// Runs the program over the standard streams, and gives the status that it ends with.
fn run<R: Threads + Sync>(rt: &HostRuntime, threads: &R) -> io::Result<u8> {
    let alloc = rt.alloc();
    let words = match words_of(rt) {
        Ok(words) => words,
        Err(error) if error.kind() == io::ErrorKind::OutOfMemory => return Err(error),
        // Words that are not UTF-8 are refused like any.
        Err(_) => {
            let mut words = Vec::new(alloc);
            words.push(String::from_str(alloc, "?")?)?;
            words
        }
    };
    let mut source = StdSource::new(rt.stdin());
    let mut out = StdSink::out(rt.stdout());
    let mut err = StdSink::err(rt.stderr());
    Ok(probe_top(
        threads,
        alloc,
        words.as_slice(),
        &mut source,
        &mut out,
        &mut err,
        &OpenGate {},
    ))
}

fn main(rt: HostRuntime) -> ExitCode {
    match run(&rt, &rt) {
        Ok(status) => ExitCode::from(status),
        // No memory for the words.
        Err(_) => {
            let _told = eprintln!(&rt; "ndc: out of memory");
            ExitCode::from(8)
        }
    }
}
