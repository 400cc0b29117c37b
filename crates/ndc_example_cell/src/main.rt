//! An engine in small: two cells by hand, without a world. It takes commands, sends messages itself, loses one and has it
//! served, and prints what it finds.
#![tactic(auto)]

mod engine;
mod error;
mod pair;
mod story;
mod telling;

use crate::story::play;
use ndc_port::{StdSink, write_all};
use std::process::ExitCode;

fn main(rt: HostRuntime) -> ExitCode {
    let text = match play(rt.alloc()) {
        Ok(text) => text,
        Err(error) => {
            let _told = eprintln!(&rt; "{}", error.text());
            return ExitCode::from(8);
        }
    };
    let mut out = StdSink::out(rt.stdout());
    match write_all(&mut out, text.as_slice()) {
        Ok(()) => ExitCode::from(0),
        Err(_) => ExitCode::from(4),
    }
}
