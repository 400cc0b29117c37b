//! A data centre as a process: lines in, lines out. The first lines are a script's header and `node NAME`; each further one
//! is answered by lines, the last of which is a dot. Where a file is named, it holds a store of the node, and each line that
//! changes the node is appended to it before it is answered: a node that is begun with the file is as it was.
#![tactic(auto)]

mod driving;
mod input;
mod journal;
mod keeping;

use crate::driving::{Stop, Streams, drive, tell};
use crate::journal::{FileJournal, NoJournal};
use ndc_port::{StdSink, StdSource};
use std::process::ExitCode;
use std::{env, io};

/// The words after the program's name.
fn words_of(rt: &HostRuntime) -> io::Result<Vec<String>> {
    let mut words = Vec::new(rt.alloc());
    for word in env::args(rt)?.skip(1) {
        words.push(word)?;
    }
    Ok(words)
}

/// Drives a node by the standard streams, with a file where one is named, and gives the status that the program ends with.
fn run(rt: &HostRuntime, words: &[String]) -> u8 {
    let mut streams = Streams {
        source: StdSource::new(rt.stdin()),
        out: StdSink::out(rt.stdout()),
        err: StdSink::err(rt.stderr()),
    };
    match words {
        [] => drive(rt.alloc(), &[], &mut NoJournal {}, &mut streams),
        [path] => match FileJournal::open(rt, path.as_str()) {
            Ok((journal, kept)) => {
                let mut journal = journal;
                drive(rt.alloc(), kept.as_slice(), &mut journal, &mut streams)
            }
            Err(error) => tell(&mut streams.err, stop_of(error, Stop::NoFile)),
        },
        _ => tell(&mut streams.err, Stop::Words),
    }
}

/// Why the program ends after such an error: memory ran out, or else this.
fn stop_of(error: io::Error, otherwise: Stop) -> Stop {
    if error.kind() == io::ErrorKind::OutOfMemory {
        Stop::Memory
    } else {
        otherwise
    }
}

fn main(rt: HostRuntime) -> ExitCode {
    let status = match words_of(&rt) {
        Ok(words) => run(&rt, words.as_slice()),
        Err(error) => tell(&mut StdSink::err(rt.stderr()), stop_of(error, Stop::Words)),
    };
    ExitCode::from(status)
}
