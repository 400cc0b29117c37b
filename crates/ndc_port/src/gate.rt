//! Gates: what each worker of a round enters first.
ghost use Rattle.std.specs.Prelude.{◌≡◌, ◌≢◌, true};

use std::sync::atomic::{AtomicBool, Ordering};

/// How often worker 0 looks whether worker 1 has come, before it gives up.
const TURNS: u32 = 200_000_000;

/// What each worker of a round enters, by its number, before its first job. What it answers goes into no output.
pub trait Gate: Sync {
    /// Lets a worker in, maybe after a while.
    fn enter(&self, worker: u32) -> bool;

    /// Whether it holds nobody, so that workers need not enter it side by side. Unless it says so, it may.
    fn is_open(&self) -> bool {
        false
    }
}

/// A gate that holds nobody.
#[derive(Drop)]
pub struct OpenGate {}

impl Gate for OpenGate {
    fn enter(&self, _worker: u32) -> bool
        ensures { result ≡ true }
    {
        true
    }

    fn is_open(&self) -> bool
        ensures { result ≡ true }
    {
        true
    }
}

/// A gate for tests: it holds worker 0 until worker 1 has entered, for a bounded number of turns.
#[derive(Drop)]
pub struct PairGate {
    other: AtomicBool,
    first: AtomicBool,
    met: AtomicBool,
}

impl PairGate {
    /// A gate that nobody has entered.
    pub fn new() -> PairGate {
        PairGate {
            other: AtomicBool::new(false),
            first: AtomicBool::new(false),
            met: AtomicBool::new(false),
        }
    }

    /// Whether worker 0 has entered, and met worker 1 when it first did.
    pub fn met(&self) -> bool {
        self.met.load(Ordering::SeqCst)
    }

    /// Whether worker 1 comes within the turns.
    fn is_other_there(&self) -> bool {
        for _ in 0..TURNS {
            if self.other.load(Ordering::SeqCst) {
                return true;
            }
        }
        false
    }
}

impl Gate for PairGate {
    /// Worker 0 is answered whether worker 1 has come; all others are answered true at once.
    fn enter(&self, worker: u32) -> bool
        ensures { worker ≢ 0 → result ≡ true }
    {
        if worker == 0 {
            let there = self.is_other_there();
            if !self.first.swap(true, Ordering::SeqCst) {
                self.met.store(there, Ordering::SeqCst);
            }
            return there;
        }
        if worker == 1 {
            self.other.store(true, Ordering::SeqCst);
        }
        true
    }
}
