//! `ndc`, the operator's tool: runs scripts of many clusters and prints what each line answers, shows dumps, and makes
//! scripts.
#![tactic(auto)]

use ndc_index::{Indexer, KindsIndexer, OpenIndexer, SignalsIndexer};
use ndc_port::{OpenGate, StdSink, StdSource};
use ndc_tool_top::ndc_top;
use std::process::ExitCode;
use std::thread::Threads;
use std::{env, io};

/// The words after the program's name.
fn words_of(rt: &HostRuntime) -> io::Result<Vec<String>> {
    let mut words = Vec::new(rt.alloc());
    for word in env::args(rt)?.skip(1) {
        words.push(word)?;
    }
    Ok(words)
}

/// Runs the program with its indexers over the standard streams, and gives the status that it ends with.
fn run<R: Threads + Sync>(rt: &HostRuntime, threads: &R) -> io::Result<u8> {
    let alloc = rt.alloc();
    let words = match words_of(rt) {
        Ok(words) => words,
        Err(error) if error.kind() == io::ErrorKind::OutOfMemory => return Err(error),
        // Words that are not UTF-8 are refused like wrong ones.
        Err(_) => Vec::new(alloc),
    };
    let mut indexers: Vec<Box<dyn Indexer>> = Vec::new(alloc);
    indexers.push(Box::new(alloc, KindsIndexer::new(alloc))?)?;
    indexers.push(Box::new(alloc, OpenIndexer::new(alloc))?)?;
    indexers.push(Box::new(alloc, SignalsIndexer::new(alloc))?)?;
    let mut source = StdSource::new(rt.stdin());
    let mut out = StdSink::out(rt.stdout());
    let mut err = StdSink::err(rt.stderr());
    Ok(ndc_top(
        threads,
        alloc,
        words.as_slice(),
        &mut source,
        &mut out,
        &mut err,
        &OpenGate {},
        indexers,
    ))
}

fn main(rt: HostRuntime) -> ExitCode {
    match run(&rt, &rt) {
        Ok(status) => ExitCode::from(status),
        // No memory for the words or the first few boxes.
        Err(_) => {
            let _told = eprintln!(&rt; "ndc: out of memory");
            ExitCode::from(8)
        }
    }
}
