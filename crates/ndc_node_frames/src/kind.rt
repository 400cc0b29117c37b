// The kinds of frames, by name.
ghost use Rattle.std.specs.Prelude.{◌≡◌, codes};
ghost use Rattle.ndc_event.specs.Outcome.{Gives};
ghost use Rattle.ndc_node_frames.specs.Frames.{kind_in, kind_word, kind_shape};
ghost use Rattle.ndc_node_shapes.specs.Read.{read_of};
ghost use Rattle.ndc_node_shapes.specs.declared.fault.Fault.TheVariants.{Memory};

use ndc_node_shapes::piece::take_name;
use ndc_node_shapes::{Cause, Fault};
use std::alloc::Global;

/// What a frame is for.
#[derive(Clone, Copy, Debug, PartialEq, Eq)]
pub enum Kind {
    /// A reader asks its source for what is new, and tells how far it is done.
    Poll,
    /// A piece of a source's queue.
    Entries,
    /// Records of domains.
    Records,
    /// A handover, to the cluster that is to be active.
    Handover,
    /// A reader asks for what lies before a batch that is put off.
    Gap,
    /// What a holder serves for a gap.
    Served,
    /// A piece of all of a domain, for a reader that is late in it.
    Bootstrap,
    /// A node asks for all that has versions of its own.
    Recall,
    /// A piece of what is sent for a recall.
    Recalled,
    /// Reports of the progress of activities.
    Progress,
}

impl Kind {
    ghost use Rattle.std.specs.Prelude.{◌≡◌};
    ghost use Rattle.ndc_node_frames.specs.Frames.{kind_word};

    /// The kind's name.
    pub fn name(self) -> &'static str
        ensures { result.now ≡ kind_word self }
    {
        match self {
            Kind::Poll => "poll",
            Kind::Entries => "entries",
            Kind::Records => "records",
            Kind::Handover => "handover",
            Kind::Gap => "gap",
            Kind::Served => "served",
            Kind::Bootstrap => "bootstrap",
            Kind::Recall => "recall",
            Kind::Recalled => "recalled",
            Kind::Progress => "progress",
        }
    }
}

/// The kind of this name.
#[tactic(auto, unfolding(crate::specs::Frames::kind_in))]
fn kind_in(word: &[u8]) -> Option<Kind>
    ensures { result ≡ kind_in word.now }
{
    if word == b"poll".as_slice() {
        Some(Kind::Poll)
    } else if word == b"entries".as_slice() {
        Some(Kind::Entries)
    } else if word == b"records".as_slice() {
        Some(Kind::Records)
    } else if word == b"handover".as_slice() {
        Some(Kind::Handover)
    } else if word == b"gap".as_slice() {
        Some(Kind::Gap)
    } else if word == b"served".as_slice() {
        Some(Kind::Served)
    } else if word == b"bootstrap".as_slice() {
        Some(Kind::Bootstrap)
    } else if word == b"recall".as_slice() {
        Some(Kind::Recall)
    } else if word == b"recalled".as_slice() {
        Some(Kind::Recalled)
    } else if word == b"progress".as_slice() {
        Some(Kind::Progress)
    } else {
        None
    }
}

/// Takes a kind by its name.
#[tactic(auto, using(crate::proofs::KindNames::named))]
pub(crate) fn take_kind(alloc: Global, left: &[u8]) -> Result<(Kind, &[u8]), Fault>
    ensures { Gives Memory (λ taken. (kind_word taken.0, taken.1.now)) result
        (read_of kind_shape left.now) }
{
    let (name, rest) = take_name(alloc, left)?;
    match kind_in(name.as_bytes()) {
        Some(kind) => Ok((kind, rest)),
        None => Err(Fault::At {
            cause: Cause::Range,
            left: left.len(),
        }),
    }
}
