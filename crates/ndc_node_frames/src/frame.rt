use crate::body::{Entries, Poll, Served};
use crate::gap::AskedGap;
use crate::handover::Offer;
use crate::header::Header;
use crate::kind::Kind;
use crate::progress::Held;
use crate::sending::{Bootstrap, Recall, Recalled, Records};
use ndc_event::Name;

/// What a frame says, by its kind.
#[derive(Drop)]
pub enum Body {
    /// A reader asks its source for what is new, and tells how far it is done.
    Poll(Poll),
    /// A piece of a source's queue.
    Entries(Entries),
    /// Records of domains.
    Records(Records),
    /// A handover, to the cluster that is to be active.
    Handover(Offer),
    /// A reader asks for what lies before a batch that is put off.
    Gap(AskedGap),
    /// What a holder serves for a gap.
    Served(Served),
    /// A piece of all of a domain, for a reader that is late in it.
    Bootstrap(Bootstrap),
    /// A node asks for all that has versions of its own.
    Recall(Recall),
    /// A piece of what is sent for a recall.
    Recalled(Recalled),
    /// Reports of the progress of activities.
    Progress(Held),
}

/// What one node sends to another.
#[derive(Drop)]
pub struct Frame {
    /// The cluster that sends it.
    pub from: Name,
    /// The cluster that it is for.
    pub to: Name,
    /// What the nodes of the network have in common.
    pub header: Header,
    /// What it says.
    pub body: Body,
}

impl Body {
    ghost use Rattle.std.specs.Prelude.{◌≡◌};
    ghost use Rattle.ndc_node_frames.specs.Frames.{kind_of};

    /// The kind.
    pub fn kind(&self) -> Kind
        ensures { result ≡ kind_of self.now }
    {
        match self {
            Body::Poll(_) => Kind::Poll,
            Body::Entries(_) => Kind::Entries,
            Body::Records(_) => Kind::Records,
            Body::Handover(_) => Kind::Handover,
            Body::Gap(_) => Kind::Gap,
            Body::Served(_) => Kind::Served,
            Body::Bootstrap(_) => Kind::Bootstrap,
            Body::Recall(_) => Kind::Recall,
            Body::Recalled(_) => Kind::Recalled,
            Body::Progress(_) => Kind::Progress,
        }
    }
}
