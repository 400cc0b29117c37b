//! The standard streams as a source and sinks. They tell no bytes: what the system gives and takes is
//! trusted, and only faults are counted.
ghost use Rattle.std.specs.Prelude.{◌≡◌, ◌<◌, ◌≤◌, length, None, IfOk, MatchResult};
ghost use Rattle.ndc_port.specs.Fault.{one_more};

use crate::fault::Failed;
use crate::reading::Source;
use crate::writing::Sink;
use std::io::{Read, Stderr, Stdin, Stdout, Write};
use std::marker::Model;

/// Standard input, with no buffer of its own. It is seen as the count of its faults, which stays at 2^64 - 1.
#[derive(Drop)]
pub struct StdSource {
    stdin: Stdin,
    faults: u64,
}

impl Model for StdSource {
    ghost use Rattle.std.specs.Prelude.{ℕ};

    ghost Value = { ℕ };

    ghost view = { λ s. s.faults };
}

impl StdSource {
    /// Standard input, with no fault so far. The handle is `rt.stdin()` of the runtime that `main` receives.
    pub fn new(stdin: Stdin) -> StdSource
        ensures { result ≡ 0 }
    {
        StdSource { stdin, faults: 0 }
    }
}

impl Source for StdSource {
    ghost left = { λ _. None };

    ghost faults = { λ count. count };

    /// One read of the system, of at most the slice's length. Every error of the system is a fault.
    fn read(&mut self, into: &mut [u8]) -> Result<usize, Failed>
        ensures counted { MatchResult result (λ _. self.new ≡ self.old) (λ _.
            self.new ≡ one_more self.old) }
        ensures count { self.old ≤ self.new }
        ensures fits { IfOk result (λ n. n ≤ length into.new) }
    {
        match self.stdin.read(into) {
            Ok(given) => Ok(given),
            Err(_) => {
                self.faults = self.faults.saturating_add(1);
                Err(Failed)
            }
        }
    }
}

/// One of the two standard streams that can be written.
#[derive(Drop)]
enum Stream {
    Out(Stdout),
    Err(Stderr),
}

/// Standard output or standard error, with no buffer of its own. It is seen as the count of its faults,
/// which stays at 2^64 - 1.
#[derive(Drop)]
pub struct StdSink {
    stream: Stream,
    faults: u64,
}

impl Model for StdSink {
    ghost use Rattle.std.specs.Prelude.{ℕ};

    ghost Value = { ℕ };

    ghost view = { λ s. s.faults };
}

impl StdSink {
    /// Standard output, with no fault so far. The handle is `rt.stdout()` of the runtime that `main` receives.
    pub fn out(stdout: Stdout) -> StdSink
        ensures { result ≡ 0 }
    {
        StdSink {
            stream: Stream::Out(stdout),
            faults: 0,
        }
    }

    /// Standard error, with no fault so far. The handle is `rt.stderr()` of the runtime that `main` receives.
    pub fn err(stderr: Stderr) -> StdSink
        ensures { result ≡ 0 }
    {
        StdSink {
            stream: Stream::Err(stderr),
            faults: 0,
        }
    }
}

impl Sink for StdSink {
    ghost written = { λ _. None };

    ghost faults = { λ count. count };

    /// One write of the system. Every error of the system is a fault, and so is that it takes nothing of a
    /// piece that is not empty.
    fn write(&mut self, from: &[u8]) -> Result<usize, Failed>
        ensures counted { MatchResult result (λ _. self.new ≡ self.old) (λ _.
            self.new ≡ one_more self.old) }
        ensures count { self.old ≤ self.new }
        ensures fits { IfOk result (λ n. n ≤ length from.now) }
        ensures some { IfOk result (λ n. 0 < length from.now → 0 < n) }
    {
        let taken = match &mut self.stream {
            Stream::Out(stdout) => stdout.write(from),
            Stream::Err(stderr) => stderr.write(from),
        };
        match taken {
            Ok(count) if count > 0 || from.is_empty() => Ok(count),
            _ => {
                self.faults = self.faults.saturating_add(1);
                Err(Failed)
            }
        }
    }
}
