ghost use Rattle.std.specs.Prelude.{◌≡◌, IfOk, List};
ghost use Rattle.std.specs.String.{string_bytes};

use crate::OutOfMemory;
use std::alloc::Global;
use std::hash::{Hash, Hasher};
use uuid::Uuid;

/// The key of a batch in its workflow: the failover version that it was written with, and its task
/// number. Keys are ordered by version, then task.
#[derive(Clone, Copy, Debug, PartialEq, Eq, PartialOrd, Ord, Hash)]
pub struct BatchKey {
    /// The failover version; 0 to 10^13 in the text of a batch.
    pub version: u64,
    /// The task number; 1 to 10^12 in the text of a batch.
    pub task: u64,
}

impl BatchKey {
    ghost use Rattle.std.specs.Prelude.{◌≡◌, IsTrue, ◌↔◌};
    ghost use Rattle.ndc_event.specs.Key.{key_lt};

    /// Whether this key comes before the other.
    pub fn is_before(self, other: BatchKey) -> bool
        ensures { result ≡ key_lt self other }
    {
        self.version < other.version || self.version == other.version && self.task < other.task
    }
}

/// The id of a run: the version of its first batch times 2^64, plus that batch's task.
#[derive(Clone, Copy, Debug, PartialEq, Eq, PartialOrd, Ord, Hash)]
pub struct RunId {
    /// The id as a number.
    pub value: u128,
}

impl RunId {
    ghost use Rattle.std.specs.Prelude.{◌≡◌, IfOk};
    ghost use Rattle.std.specs.String.{string_bytes};
    ghost use Rattle.ndc_event.specs.Key.{run_of, run_text};

    /// The run whose first batch has this key.
    pub fn of(key: BatchKey) -> RunId
        ensures { result ≡ run_of key }
    {
        RunId {
            value: u128::from(key.version) * (1 << 64) + u128::from(key.task),
        }
    }

    /// The id in hyphenated lower-case form, 36 bytes.
    pub fn text(&self, alloc: Global) -> Result<String, OutOfMemory>
        ensures { IfOk result (λ text. string_bytes text ≡ run_text self.now) }
    {
        let mut buffer = Uuid::encode_buffer();
        let id = Uuid::from_u128(self.value).hyphenated();
        String::from_str(alloc, id.encode_lower(&mut buffer))
    }
}

/// The signal event that a signal comes from: the run, the event id and the version that it was first
/// written with.
#[derive(Clone, Copy, Debug, PartialEq, Eq, PartialOrd, Ord)]
pub struct Origin {
    /// The run in which the signal was first written.
    pub run: RunId,
    /// The id of the event there, counted from 1.
    pub event: u64,
    /// The version of the event there.
    pub version: u64,
}

impl Origin {
    ghost use Rattle.std.specs.Prelude.{◌≡◌};
    ghost use Rattle.ndc_event.specs.Key.{mixed};

    /// One number of all fields, for hashing.
    fn mixed(self) -> u64
        ensures { result ≡ mixed self }
    {
        let task = (self.run.value % (1 << 64)) as u64;
        let ids = self
            .event
            .wrapping_mul(0x9E37_79B9_7F4A_7C15)
            .wrapping_add(task);
        ids.wrapping_add(self.version.wrapping_mul(0xC2B2_AE3D_27D4_EB4F))
    }
}

impl Hash for Origin {
    ghost use Rattle.std.specs.Hash as fed;
    ghost use Rattle.std.specs.Cmp.Rules.{hashing};
    ghost use Rattle.std.proofs.Common.{rules};
    ghost use Rattle.ndc_event.specs.Key.{mixed};

    ghost hash_input = { λ origin. fed.u64 (mixed origin) };

    ghost respects_eq = { Prim.search (hashing, rules) };

    fn hash<H: Hasher>(&self, state: &mut H) {
        self.mixed().hash(state);
    }
}
