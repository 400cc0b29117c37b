use crate::input::{LineError, Lines};
use crate::journal::Journal;
use crate::keeping::Keeper;
use ndc_node::Bounds;
use ndc_node_lines::{Code, LoadError, Loaded, OpenError, Reply, Session};
use ndc_port::{Sink, Source, write_all};
use std::alloc::{AllocError, AllocFailed, Global};

/// What a node takes at most.
const BOUNDS: Bounds = Bounds {
    frame: 1_048_576,
    waiting: 100_000,
    held: 100_000,
    letters: 1_000,
};

/// The statuses that the program ends with.
const OK: u8 = 0;

const WORDS: u8 = 2;

const NO_NODE: u8 = 2;

const NO_STORE: u8 = 3;

const NOT_WRITTEN: u8 = 4;

const NOT_READ: u8 = 5;

const MEMORY: u8 = 8;

/// What the program reads and writes.
#[derive(Drop)]
pub(crate) struct Streams<S: Source + Drop, O: Sink + Drop, E: Sink + Drop> {
    pub(crate) source: S,
    pub(crate) out: O,
    pub(crate) err: E,
}

/// Why the program ends before its lines do.
#[derive(Clone, Copy, Debug, PartialEq, Eq)]
pub(crate) enum Stop {
    Words,
    NoFile,
    NoNode,
    OtherStore,
    BadStore,
    NotWritten,
    NotKept,
    NotRead,
    Memory,
}

impl From<AllocError> for Stop {
    fn from(_error: AllocError) -> Stop {
        Stop::Memory
    }
}

impl<T: Drop> From<AllocFailed<T>> for Stop {
    fn from(_error: AllocFailed<T>) -> Stop {
        Stop::Memory
    }
}

impl From<LineError> for Stop {
    fn from(error: LineError) -> Stop {
        match error {
            LineError::Source => Stop::NotRead,
            LineError::Memory => Stop::Memory,
        }
    }
}

/// The status of a program that ends so, and what it tells.
fn told_of(stop: Stop) -> (u8, &'static str) {
    match stop {
        Stop::Words => (WORDS, "ndc_node: words: [FILE]\n"),
        Stop::NoFile => (NOT_READ, "ndc_node: the file is not opened or read\n"),
        Stop::NoNode => (NO_NODE, "ndc_node: no header with a node\n"),
        Stop::OtherStore => (NO_STORE, "ndc_node: the file is of another node\n"),
        Stop::BadStore => (NO_STORE, "ndc_node: the file is no store with its units\n"),
        Stop::NotWritten => (NOT_WRITTEN, "ndc_node: output failed\n"),
        Stop::NotKept => (NOT_WRITTEN, "ndc_node: the file is not written\n"),
        Stop::NotRead => (NOT_READ, "ndc_node: input failed\n"),
        Stop::Memory => (MEMORY, "ndc_node: out of memory\n"),
    }
}

/// Drives a node by the lines of a source, from what was kept on, and gives the status that the program ends with.
pub(crate) fn drive<J: Journal, S: Source + Drop, O: Sink + Drop, E: Sink + Drop>(
    alloc: Global,
    kept: &[u8],
    journal: &mut J,
    streams: &mut Streams<S, O, E>,
) -> u8 {
    match run(alloc, kept, journal, streams) {
        Ok(()) => OK,
        Err(stop) => tell(&mut streams.err, stop),
    }
}

/// Tells why the program ends, and gives the status that it ends with.
pub(crate) fn tell<E: Sink>(err: &mut E, stop: Stop) -> u8 {
    let (status, words) = told_of(stop);
    match write_all(err, words.as_bytes()) {
        Ok(()) => status,
        Err(_) => status,
    }
}

/// Answers each line.
fn run<J: Journal, S: Source + Drop, O: Sink + Drop, E: Sink + Drop>(
    alloc: Global,
    kept: &[u8],
    journal: &mut J,
    streams: &mut Streams<S, O, E>,
) -> Result<(), Stop> {
    let mut lines = Lines::new(alloc);
    let named = read_named(alloc, &mut lines, &mut streams.source)?;
    let (mut session, mut keeper) = begin(alloc, &named, kept, journal, &mut streams.err)?;
    for _line in 0..u64::MAX {
        let Some(line) = lines.next(&mut streams.source)? else {
            return Ok(());
        };
        let mut text = text_of(session.line(line.as_slice()))?;
        text.extend_from_slice(b".\n")?;
        keeper.keep(&mut session, journal)?;
        if write_all(&mut streams.out, text.as_slice()).is_err() {
            return Err(Stop::NotWritten);
        }
    }
    Ok(())
}

/// The lines of a reply, unless memory ran out.
pub(crate) fn text_of(reply: Reply) -> Result<Vec<u8>, Stop> {
    let Reply { code, text } = reply;
    if code == Code::Memory {
        Err(Stop::Memory)
    } else {
        Ok(text)
    }
}

/// Which node it is, as the first lines say it.
#[derive(Drop)]
struct Named {
    /// The lines of the header, each with its end.
    header: Vec<u8>,
    /// The node's name.
    name: Vec<u8>,
}

/// Reads the header and which node it is.
fn read_named<S: Source>(alloc: Global, lines: &mut Lines, source: &mut S) -> Result<Named, Stop> {
    let mut header = Vec::new(alloc);
    for _line in 0..u64::MAX {
        let Some(line) = lines.next(source)? else {
            return Err(Stop::NoNode);
        };
        if let Some(word) = line.as_slice().strip_prefix(b"node ") {
            let mut name = Vec::new(alloc);
            name.extend_from_slice(word)?;
            return Ok(Named { header, name });
        }
        header.extend_from_slice(line.as_slice())?;
        header.extend_from_slice(b"\n")?;
    }
    Err(Stop::NoNode)
}

/// The node, as it was kept; where nothing was, a new one, of which a store is kept.
fn begin<J: Journal, E: Sink>(
    alloc: Global,
    named: &Named,
    kept: &[u8],
    journal: &mut J,
    err: &mut E,
) -> Result<(Session, Keeper), Stop> {
    let new = new_session(alloc, named)?;
    if kept.is_empty() {
        let mut keeper = Keeper::new();
        keeper.renew(&new, journal)?;
        return Ok((new, keeper));
    }
    let Loaded { session, dropped } = load(alloc, &new, kept)?;
    let mut session = session;
    if dropped > 0 {
        cut(kept.len(), dropped, journal, err)?;
    }
    let mut keeper = Keeper::after(&session, kept.len() as u64)?;
    keeper.keep(&mut session, journal)?;
    Ok((session, keeper))
}

/// The node of a name, in which nothing has happened.
fn new_session(alloc: Global, named: &Named) -> Result<Session, Stop> {
    match Session::open(
        alloc,
        named.header.as_slice(),
        named.name.as_slice(),
        BOUNDS,
    ) {
        Ok(session) => Ok(session),
        Err(OpenError::Memory) => Err(Stop::Memory),
        Err(_) => Err(Stop::NoNode),
    }
}

/// What was kept of a node, where it is the one of this session.
fn load(alloc: Global, new: &Session, kept: &[u8]) -> Result<Loaded, Stop> {
    let loaded = match Session::load(alloc, kept, BOUNDS) {
        Ok(loaded) => loaded,
        Err(LoadError::Memory) => return Err(Stop::Memory),
        Err(_) => return Err(Stop::BadStore),
    };
    if loaded.session.is_of_same_node(new) {
        Ok(loaded)
    } else {
        Err(Stop::OtherStore)
    }
}

/// Drops a unit that was not kept whole, of so many bytes, and tells so.
fn cut<J: Journal, E: Sink>(
    len: usize,
    left: u64,
    journal: &mut J,
    err: &mut E,
) -> Result<(), Stop> {
    let whole = (len as u64).saturating_sub(left);
    if journal.cut(whole).is_err() {
        return Err(Stop::NotKept);
    }
    match write_all(
        err,
        b"ndc_node: a unit that was not kept whole is dropped\n",
    ) {
        Ok(()) => Ok(()),
        Err(_) => Ok(()),
    }
}
