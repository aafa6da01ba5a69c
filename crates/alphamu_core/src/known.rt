// What the node before tells of double dummy's results.

/// What is known of double dummy's results in the layouts of a node.
#[derive(Clone, Copy)]
pub enum Known {
    /// Nothing.
    Nothing,
    /// Each layout is made.
    AllMade,
}
