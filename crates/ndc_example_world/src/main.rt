//! A world that a program drives: it reads lines as they come and makes some itself, asks the clusters between them, and
//! prints what it finds.
#![tactic(auto)]

mod dumping;
mod error;
mod looking;
mod making;
mod running;
mod stage;
mod story;
mod telling;

use crate::story::play;
use ndc_port::{StdSink, write_all};
use std::process::ExitCode;

fn main(rt: HostRuntime) -> ExitCode {
    let text = match play(&rt, rt.alloc()) {
        Ok(text) => text,
        Err(error) => {
            let _told = eprintln!(&rt; "{}", error.text());
            return ExitCode::from(8);
        }
    };
    let mut out = StdSink::out(rt.stdout());
    match write_all(&mut out, text.as_slice()) {
        Ok(()) => ExitCode::from(0),
        Err(_) => ExitCode::from(4),
    }
}
