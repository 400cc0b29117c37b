use ndc_event::{Batch, Items};
use std::alloc::Global;

/// What came of a frame that was heard.
#[derive(Drop)]
pub struct Heard {
    /// The batches that became learned, in order: an index takes them.
    pub learned: Vec<Batch>,
    /// How many messages were put off.
    pub put_off: u64,
    /// How many messages became letters.
    pub letters: u64,
    /// Whether something was not taken because a bound is reached: it is to be asked for again.
    pub is_full: bool,
    /// Whether anything changed that a store has to keep.
    pub changed: bool,
    /// Frames for the sender, each as its text.
    pub answers: Vec<Items<u8>>,
}

impl Heard {
    /// Nothing came of it. Takes no memory.
    pub(crate) fn nothing(alloc: Global) -> Heard {
        Heard {
            learned: Vec::new(alloc),
            put_off: 0,
            letters: 0,
            is_full: false,
            changed: false,
            answers: Vec::new(alloc),
        }
    }
}
