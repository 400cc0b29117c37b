//! A gate that holds the second worker.
use ndc_port::Gate;
use std::sync::atomic::{AtomicBool, Ordering};

/// How often worker 1 looks whether worker 0 has come, before it gives up.
const TURNS: u32 = 200_000_000;

/// A gate that holds worker 1 until worker 0 has entered, for a bounded number of turns.
#[derive(Drop)]
pub struct LateGate {
    first: AtomicBool,
    second: AtomicBool,
    met: AtomicBool,
}

impl LateGate {
    /// A gate that nobody has entered.
    pub fn new() -> LateGate {
        LateGate {
            first: AtomicBool::new(false),
            second: AtomicBool::new(false),
            met: AtomicBool::new(false),
        }
    }

    /// Whether worker 1 has entered, and met worker 0 when it first did.
    pub fn met(&self) -> bool {
        self.met.load(Ordering::SeqCst)
    }

    /// Whether worker 0 comes within the turns.
    fn is_first_there(&self) -> bool {
        for _ in 0..TURNS {
            if self.first.load(Ordering::SeqCst) {
                return true;
            }
        }
        false
    }
}

impl Gate for LateGate {
    /// Worker 1 is answered whether worker 0 has come; all others are answered true at once.
    fn enter(&self, worker: u32) -> bool {
        if worker == 1 {
            let there = self.is_first_there();
            if !self.second.swap(true, Ordering::SeqCst) {
                self.met.store(there, Ordering::SeqCst);
            }
            return there;
        }
        if worker == 0 {
            self.first.store(true, Ordering::SeqCst);
        }
        true
    }
}
