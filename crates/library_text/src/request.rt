//! What can be asked of files in memory.

/// What is asked of files. A file is an `F`: its bytes.
#[derive(Clone, Copy, Debug, Drop)]
pub enum Request<F> {
    /// The report of a root, as the job `solve` writes it.
    Report {
        deal: F,
        layouts: F,
        /// How many cards of declarer's side the search goes through: 1 to 26.
        moves: u32,
        /// The most nodes that the search after one root card may enter: 1 or more.
        nodes: u64,
    },
    /// The card to play at a root.
    Card {
        deal: F,
        layouts: F,
        /// How many cards of declarer's side the search goes through: 1 to 26.
        moves: u32,
        /// The most nodes that the search after one root card may enter: 1 or more.
        nodes: u64,
    },
    /// What plain sampling believes of each card of a root.
    Fusion {
        deal: F,
        layouts: F,
    },
    /// All layouts that the play of a deal allows.
    List {
        deal: F,
    },
    /// Whether each plan of a report wins exactly its vector.
    Check {
        deal: F,
        layouts: F,
        report: F,
    },
}
