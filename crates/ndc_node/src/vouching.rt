use crate::node::Node;
use crate::past::Past;

impl Node {
    /// The node was made again as it was once: it writes when all other nodes have polled, since each of them tells where it
    /// knows more of this node than the node itself; or when the caller vouches for it ([`Node::force`]). Takes no memory.
    pub fn loaded(&mut self) {
        self.await_all();
    }

    /// The caller vouches that the node has all that it has given out, whatever others tell: it writes again. Takes no
    /// memory.
    pub fn force(&mut self) {
        self.past = Past::Whole;
        for peer in self.peers.as_mut_slice() {
            peer.is_awaited = false;
        }
    }
}
