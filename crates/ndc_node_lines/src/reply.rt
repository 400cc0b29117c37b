use std::alloc::Global;

/// What became of a call. The numbers are fixed: callers in other languages compare them.
#[derive(Clone, Copy, Debug, PartialEq, Eq)]
pub enum Code {
    /// It was done.
    Done,
    /// It was refused, and nothing has changed.
    Refused,
    /// What came is no line of a node, or no frame. Nothing has changed.
    Unreadable,
    /// An earlier call ran out of memory: nothing that may change the node is done any more.
    Spent,
    /// Memory ran out. After a call that may change the node, all further ones are answered by [`Code::Spent`].
    Memory,
    /// Another node knows more of what the node has given out than the node itself: it writes nothing until it has that.
    BehindItsPast,
    /// The node was loaded, and not all other nodes have polled since: it writes nothing yet.
    Awaiting,
    /// There is no room for more.
    Full,
    /// The node may have written to the domain with the version of its record before it lost something: it writes there again
    /// once it has failed over to itself.
    NeedsFailover,
}

impl Code {
    /// Its number: 0 for what was done.
    pub fn number(self) -> i32 {
        match self {
            Code::Done => 0,
            Code::Refused => 1,
            Code::Unreadable => 2,
            Code::Spent => 3,
            Code::Memory => 4,
            Code::BehindItsPast => 5,
            Code::Awaiting => 6,
            Code::Full => 7,
            Code::NeedsFailover => 8,
        }
    }
}

/// The answer to a call.
#[derive(Drop)]
pub struct Reply {
    /// What became of it.
    pub code: Code,
    /// Lines, each with its end. Of a refusal they tell the cause. There is none where memory ran out.
    pub text: Vec<u8>,
}

impl Reply {
    /// Memory ran out. Takes none.
    pub(crate) fn memory(alloc: Global) -> Reply {
        Reply {
            code: Code::Memory,
            text: Vec::new(alloc),
        }
    }
}
