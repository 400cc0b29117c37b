use ndc_event::{Name, OutOfMemory};
use ndc_node_frames::Header;
use ndc_node_shapes::piece::{
    push_end, push_first, push_flag, push_next, push_number, take_end, take_first, take_flag,
    take_name, take_next, take_number,
};
use ndc_node_shapes::{Fault, Framed};
use std::alloc::Global;

/// The greatest level, place, epoch or count in a store.
pub(crate) const MAX_LEVEL: u64 = 1_000_000_000_000;

/// The first line of a store: which node it is of.
#[derive(Drop)]
pub struct NodeLine {
    /// Whether another node knows more of what the node has given out than the node itself.
    pub behind: bool,
    /// What the nodes of its network have in common.
    pub header: Header,
    /// The node's name.
    pub name: Name,
    /// The greatest epoch of its queues that a reader has told, 0 to 10^12.
    pub newest: u64,
    /// Whether it asks the others for what it lacks.
    pub recalling: bool,
}

/// The last line of a store: the text is whole.
#[derive(Clone, Copy)]
pub struct WholeLine {
    /// How many lines stand before this one, 0 to 10^12.
    pub lines: u64,
}

impl Framed for NodeLine {
    ghost use Rattle.ndc_node_store.specs.Lines.{node_shape, node_value};

    ghost shape = { node_shape };

    ghost value = { node_value };

    fn push(&self, text: &mut Vec<u8>) -> Result<(), OutOfMemory> {
        push_first(text, "behind")?;
        push_flag(text, self.behind)?;
        push_next(text, "format")?;
        push_number(text, 1)?;
        push_next(text, "header")?;
        self.header.push(text)?;
        push_next(text, "name")?;
        self.name.push(text)?;
        push_next(text, "newest")?;
        push_number(text, self.newest)?;
        push_next(text, "recalling")?;
        push_flag(text, self.recalling)?;
        push_end(text)
    }

    fn take(alloc: Global, left: &[u8]) -> Result<(NodeLine, &[u8]), Fault> {
        let left = take_first(left, "behind")?;
        let (behind, left) = take_flag(left)?;
        let left = take_next(left, "format")?;
        let (_format, left) = take_number(left, 1, 1)?;
        let left = take_next(left, "header")?;
        let (header, left) = Header::take(alloc, left)?;
        let left = take_next(left, "name")?;
        let (name, left) = take_name(alloc, left)?;
        let left = take_next(left, "newest")?;
        let (newest, left) = take_number(left, 0, MAX_LEVEL)?;
        let left = take_next(left, "recalling")?;
        let (recalling, left) = take_flag(left)?;
        let left = take_end(left)?;
        Ok((
            NodeLine {
                behind,
                header,
                name,
                newest,
                recalling,
            },
            left,
        ))
    }
}

impl Framed for WholeLine {
    ghost use Rattle.ndc_node_store.specs.Lines.{whole_shape, whole_value};

    ghost shape = { whole_shape };

    ghost value = { whole_value };

    fn push(&self, text: &mut Vec<u8>) -> Result<(), OutOfMemory> {
        push_first(text, "lines")?;
        push_number(text, self.lines)?;
        push_end(text)
    }

    fn take(_alloc: Global, left: &[u8]) -> Result<(WholeLine, &[u8]), Fault> {
        let left = take_first(left, "lines")?;
        let (lines, left) = take_number(left, 0, MAX_LEVEL)?;
        let left = take_end(left)?;
        Ok((WholeLine { lines }, left))
    }
}
