use crate::answer::Answer;
use crate::changing::change;
use crate::error::OpenError;
use crate::network::Network;
use crate::reply::{Code, Reply};
use crate::telling::tell_node;
use crate::units::Units;
use crate::words::{has_line_end, split_word, with_cluster, word_may_change};
use ndc_domain::ClusterNo;
use ndc_event::OutOfMemory;
use ndc_node::{Bounds, Node, NodeError};
use ndc_script_read::read_lines;
use ndc_script_types::{Act, Header, Line, ScriptError};
use std::alloc::{AllocError, Global};

/// A node that is driven by lines.
///
/// Each line that changed the node leaves a unit, to be appended to a store ([`Session::changes`], [`Session::stored`]): a
/// session that is loaded from a store with its units is as this one was. What a reply tells may be sent and shown once the
/// unit of its line is stored.
pub struct Session {
    pub(crate) alloc: Global,
    pub(crate) network: Network,
    /// How many lines were taken.
    pub(crate) number: u64,
    pub(crate) node: Node,
    pub(crate) units: Units,
    /// Whether a line that may change the node ran out of memory.
    pub(crate) is_spent: bool,
}

impl Drop for Session {
    fn drop(self) {
        let Session {
            alloc: _alloc,
            network: _network,
            number: _number,
            node: _node,
            units: _units,
            is_spent: _is_spent,
        } = self;
    }
}

/// A node in which nothing has happened.
fn new_node(
    alloc: Global,
    header: &Header,
    me: ClusterNo,
    bounds: Bounds,
) -> Result<Node, OpenError> {
    let clusters = header.clusters.try_copy()?;
    match Node::new(alloc, clusters, me, header.shards, header.limit, bounds) {
        Ok(node) => Ok(node),
        Err(NodeError::Memory) => Err(OpenError::Memory),
        Err(error) => Err(OpenError::Node(error)),
    }
}

impl Session {
    /// The node of a name in a network with the clusters, shards and limit of a script's header, in which nothing has
    /// happened.
    pub fn open(
        alloc: Global,
        header: &[u8],
        name: &[u8],
        bounds: Bounds,
    ) -> Result<Session, OpenError> {
        let network = Network::read(alloc, header)?;
        let Some(me) = network.header().clusters.find(name) else {
            return Err(OpenError::NoCluster);
        };
        let node = new_node(alloc, network.header(), me, bounds)?;
        Ok(Session {
            alloc,
            network,
            number: 0,
            node,
            units: Units::after(alloc, 0),
            is_spent: false,
        })
    }

    /// The node.
    pub fn node(&self) -> &Node {
        &self.node
    }

    /// Whether another session is of the same node: its cluster has the same name, in a network of the same header's lines.
    pub fn is_of_same_node(&self, other: &Session) -> bool {
        self.network.lines() == other.network.lines() && self.node.name() == other.node.name()
    }

    /// Takes a line: what became of it, and the lines that answer it. They are numbered from 1.
    pub fn line(&mut self, line: &[u8]) -> Reply {
        let (word, rest) = split_word(line);
        self.take(word, rest)
    }

    /// Hears a frame, as the line `hear FRAME` does.
    pub fn hear(&mut self, frame: &[u8]) -> Reply {
        self.take(b"hear", frame)
    }

    /// What the node would say to the node of a name, as the line `ask NAME` tells it.
    pub fn ask(&mut self, name: &[u8]) -> Reply {
        self.take(b"ask", name)
    }

    /// The next unit that is not stored, the same one until it is told to be stored. None where all are.
    pub fn changes(&self) -> Option<&[u8]> {
        self.units.first()
    }

    /// The number of the unit that [`Session::changes`] gives; where all are stored, of the next one to be made.
    pub fn next_unit(&self) -> u64 {
        self.units.next()
    }

    /// All units up to the one of this number are stored: whether it was one that was not. Else nothing changes.
    pub fn stored(&mut self, number: u64) -> bool {
        self.units.let_go(number)
    }

    /// The number of the last unit that was made. Units are numbered from 1.
    pub fn last_unit(&self) -> u64 {
        self.units.last()
    }

    /// Takes a line that is given by its first word and what follows it.
    fn take(&mut self, word: &[u8], rest: &[u8]) -> Reply {
        self.number = self.number.saturating_add(1);
        if !word_may_change(word) {
            return match self.answered(word, rest) {
                Ok(reply) => reply,
                Err(AllocError) => Reply::memory(self.alloc),
            };
        }
        let was_spent = self.is_spent;
        self.is_spent = true;
        match self.changed(was_spent, word, rest) {
            Ok(reply) => {
                self.is_spent = was_spent;
                reply
            }
            Err(AllocError) => Reply::memory(self.alloc),
        }
    }

    /// What became of a line that may change the node. Nothing, where an earlier one ran out of memory.
    fn changed(&mut self, is_spent: bool, word: &[u8], rest: &[u8]) -> Result<Reply, OutOfMemory> {
        if is_spent {
            let mut answer = Answer::new(self.alloc, self.number);
            answer.refuse(Code::Spent, b"Spent")?;
            return Ok(answer.into_reply());
        }
        self.answered(word, rest)
    }

    /// What became of a line; where it changed the node, its unit waits to be stored.
    fn answered(&mut self, word: &[u8], rest: &[u8]) -> Result<Reply, OutOfMemory> {
        let mut answer = Answer::new(self.alloc, self.number);
        self.answer(word, rest, &mut answer)?;
        if answer.has_changed() {
            self.units.push(word, rest)?;
        }
        Ok(answer.into_reply())
    }

    /// Answers a line: one for the node itself, or one of a script.
    fn answer(&mut self, word: &[u8], rest: &[u8], answer: &mut Answer) -> Result<(), OutOfMemory> {
        if has_line_end(word) || has_line_end(rest) {
            return answer.refuse(Code::Unreadable, b"NoLine");
        }
        if tell_node(&mut self.node, self.network.header(), word, rest, answer)? {
            return Ok(());
        }
        match self.act_of(word, rest)? {
            Some(act) => change(&mut self.node, self.network.header(), act, answer),
            None => answer.refuse(Code::Unreadable, b"NoLine"),
        }
    }

    /// What a line of a script asks for. None where it is none.
    fn act_of(&self, word: &[u8], rest: &[u8]) -> Result<Option<Act>, OutOfMemory> {
        let name = self.node.name();
        let text = with_cluster(self.alloc, word, rest, name)?;
        let lines = match read_lines(self.alloc, self.network.header(), 1, text.as_slice()) {
            Ok(lines) => lines,
            Err(ScriptError::Memory) => return Err(AllocError),
            Err(_) => return Ok(None),
        };
        Ok(first_act(lines.into_vec()))
    }
}

/// What the first line asks for.
fn first_act(lines: Vec<Line>) -> Option<Act> {
    let mut lines = lines;
    let Line { number: _, act } = lines.pop()?;
    Some(act)
}
