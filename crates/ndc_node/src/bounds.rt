/// What a node takes at most. What each bound does when it is reached is said with it.
#[derive(Clone, Copy, Debug, PartialEq, Eq)]
pub struct Bounds {
    /// The greatest frame that the node hears, in bytes. A greater one is refused.
    pub frame: usize,
    /// How many messages may be put off in each shard. A message that would be one more is not taken: it is asked for again.
    pub waiting: u64,
    /// How many entries of each shard of each source may be told and not learned. The first that would be one more, and what
    /// comes after it, is asked for again.
    pub held: usize,
    /// How many letters there may be. A message that would be one more is not taken: it is asked for again.
    pub letters: usize,
}
