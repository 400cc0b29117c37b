//! `ndc_explain`: reads a dump and tells which branch of each run leads and why, what of the others is given up, and
//! what became of each signal; or draws it.
#![tactic(auto)]

use ndc_explain_top::explain_top;
use ndc_port::{StdSink, StdSource};
use std::process::ExitCode;
use std::{env, io};

/// The words after the program's name.
fn words_of(rt: &HostRuntime) -> io::Result<Vec<String>> {
    let mut words = Vec::new(rt.alloc());
    for word in env::args(rt)?.skip(1) {
        words.push(word)?;
    }
    Ok(words)
}

/// Runs the program over the standard streams, and gives the status that it ends with.
fn run(rt: &HostRuntime) -> io::Result<u8> {
    let alloc = rt.alloc();
    let words = match words_of(rt) {
        Ok(words) => words,
        Err(error) if error.kind() == io::ErrorKind::OutOfMemory => return Err(error),
        // Words that are not UTF-8 are refused like wrong ones.
        Err(_) => {
            let mut words = Vec::new(alloc);
            words.push(String::from_str(alloc, "?")?)?;
            words
        }
    };
    let mut source = StdSource::new(rt.stdin());
    let mut out = StdSink::out(rt.stdout());
    let mut err = StdSink::err(rt.stderr());
    Ok(explain_top(alloc, words.as_slice(), &mut source, &mut out, &mut err))
}

fn main(rt: HostRuntime) -> ExitCode {
    match run(&rt) {
        Ok(status) => ExitCode::from(status),
        // No memory for the words.
        Err(_) => {
            let _told = eprintln!(&rt; "ndc_explain: out of memory");
            ExitCode::from(8)
        }
    }
}
