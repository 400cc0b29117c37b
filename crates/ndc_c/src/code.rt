ghost use Rattle.std.specs.Prelude.{◌≡◌, pos};

use ndc_node_lines::{LoadError, OpenError};

/// A call was done. The codes from 1 to 8 are those of `ndc_node_lines::Code`.
pub const DONE: i32 = 0;

/// A unit is told to be stored that does not wait to be.
pub const REFUSED: i32 = 1;

/// Memory ran out.
pub const MEMORY: i32 = 4;

/// The handle has no node.
pub const NO_NODE: i32 = -1;

/// The handle has a node already.
pub const HAS_NODE: i32 = -2;

/// The answer before was not fetched.
pub const UNFETCHED: i32 = -3;

/// The buffer is shorter than the answer.
pub const SHORT: i32 = -4;

/// The header is none, or has no such node.
pub const NO_HEADER: i32 = -5;

/// There is no whole store, or the text of the node in it is not read.
pub const NO_STORE: i32 = -6;

/// What was appended to the store has another unit than the next one.
pub const WRONG_UNIT: i32 = -7;

/// Why no node is opened.
pub fn code_of_open(error: OpenError) -> i32
    ensures fails { (result ≡ pos 0) → ⊥ }
{
    match error {
        OpenError::Memory => MEMORY,
        _ => NO_HEADER,
    }
}

/// Why no node is loaded, and the line at which the unit begins that is wrong; 0 where none is.
pub fn code_of_load(error: LoadError) -> (i32, u64)
    ensures fails { (result.0 ≡ pos 0) → ⊥ }
{
    match error {
        LoadError::Memory => (MEMORY, 0),
        LoadError::Open(_) => (NO_HEADER, 0),
        LoadError::Unit { line } => (WRONG_UNIT, line),
        _ => (NO_STORE, 0),
    }
}

/// What a code says, in words.
pub fn words_of(code: i32) -> &'static [u8] {
    match code {
        0 => b"done",
        1 => b"refused, for the cause in the answer",
        2 => b"no line of a node, or no frame",
        3 => b"an earlier call ran out of memory",
        4 => b"out of memory",
        5 => b"another node knows more of what the node has given out than itself",
        6 => b"the node was loaded, and not all others have polled since",
        7 => b"no room for more",
        8 => b"the node has to fail over to itself before it writes to the domain",
        _ => words_of_own(code),
    }
}

/// What a code says that no session gives.
fn words_of_own(code: i32) -> &'static [u8] {
    match code {
        NO_NODE => b"the handle has no node",
        HAS_NODE => b"the handle has a node",
        UNFETCHED => b"the answer before was not fetched",
        SHORT => b"the buffer is too short",
        NO_HEADER => b"no header, or no such node in it",
        NO_STORE => b"no whole store, or what it says of the node is not read",
        WRONG_UNIT => b"a unit is not the next one, or comes to something else",
        _ => b"no code",
    }
}
