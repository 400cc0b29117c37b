//! A node: one data centre of the layer, driven by bytes. It holds one cluster of a world: its cells, its domain records,
//! the queues of what it has written, how far it has read those of others, and what it set aside. What it sends and hears
//! are frames. It needs no network, no clock and no thread, and asks nothing of what it hears.
#![tactic(auto)]

mod admitting;
mod asking;
mod bounds;
mod domains;
mod entries;
mod error;
mod framing;
mod handing;
mod heard;
mod hearing;
mod lane;
mod late;
mod letter;
mod letters;
mod loading;
mod node;
mod past;
mod peer;
mod pieces;
mod polling;
mod recalling;
mod records;
mod reports;
mod seat;
mod serving;
mod status;
mod storing;
mod vouching;
mod writing;

pub use bounds::Bounds;
pub use error::{CallError, FrameError, HandError, NodeError, ReportError};
pub use heard::Heard;
pub use letter::Letter;
pub use loading::{LoadCause, LoadError};
pub use ndc_node_store::BatchPlace;
pub use node::Node;
pub use records::RecordFault;
pub use status::{PeerStatus, ShardStatus};
