use ndc_node_lines::Session;

/// What a handle of C's points to.
#[derive(Drop)]
pub struct Context {
    /// The node.
    pub session: Session,
    /// The last answer.
    pub answer: Vec<u8>,
    /// Whether it was fetched: no further one is made before. One without a byte needs not be.
    pub is_fetched: bool,
}
