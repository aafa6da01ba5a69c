//! What the words can ask for.

/// How to search.
#[derive(Clone, Copy, Debug, PartialEq, Eq)]
pub struct Search {
    /// The most nodes that the search of one node may visit: 1 or more.
    pub nodes: u64,
    /// How many workers share the cards at the root: 1 to 64.
    pub workers: u32,
    /// How many shards the table of fronts has: 1 to 64.
    pub shards: u32,
    /// How many fronts a shard holds: 1 to 65,536, and 262,144 in all shards at most.
    pub room: u32,
    /// Whether the search looks into the table of fronts.
    pub table: bool,
    /// Whether the search cuts what can't matter.
    pub cuts: bool,
}

/// The most entries that all shards of a table have room for.
pub(crate) const MOST_ENTRIES: u64 = 262_144;

/// The most nodes that the tree of a card may have if a log is written of it.
pub(crate) const MOST_LOGGED: u64 = 268_435_456;

/// A job on a deal and its layouts. A file is an `F`: its name, or what was read of it.
#[derive(Debug, Drop, PartialEq, Eq)]
pub enum LayoutsJob<F> {
    /// Every best trade-off, a strategy for each, and the card to play.
    Solve {
        /// How many cards of declarer's side the search goes through: 1 to 26.
        moves: u8,
        /// How to search.
        search: Search,
    },
    /// The card to play.
    Card {
        /// How many cards of declarer's side the search goes through: 1 to 26.
        moves: u8,
        /// How to search.
        search: Search,
    },
    /// The first strategy of the front, played out in one layout.
    Match {
        /// How many cards of declarer's side the search goes through: 1 to 26.
        moves: u8,
        /// How to search.
        search: Search,
        /// The number of the layout: 1 to 256.
        layout: u16,
        /// The number of the card before which another defender comes to Left's seat: 1 to 52.
        switch: Option<u16>,
    },
    /// What plain sampling believes of each card.
    Fusion,
    /// Whether each strategy of a report wins exactly its vector.
    Check {
        /// The file of the report.
        report: F,
    },
    /// A log that proves the front complete.
    Prove {
        /// How many cards of declarer's side the strategies go through: 1 to 26.
        moves: u8,
        /// The most nodes that the tree of a card at the root may have: 1 to 268,435,456.
        nodes: u64,
    },
    /// Whether a log proves that no strategy wins more than a report says.
    Audit {
        /// The file of the report.
        report: F,
        /// The file of the log.
        log: F,
    },
}

/// The names of the files of a deal's games.
#[derive(Clone, Copy, Debug, PartialEq, Eq)]
pub struct GameNames<'a> {
    /// The name of the deal file.
    pub deal: &'a str,
    /// What the names of the files of layouts begin with.
    pub layouts: &'a str,
}

/// What the words ask for. A file is an `F`: its name, or what was read of it. The files of a
/// deal's games are a `G`.
#[derive(Debug, Drop, PartialEq, Eq)]
pub enum Ask<F, G> {
    /// A job on a deal and its layouts.
    OnLayouts {
        /// The deal file.
        deal: F,
        /// The file of layouts.
        layouts: F,
        /// What is to be done with them.
        job: LayoutsJob<F>,
    },
    /// All layouts of a deal.
    List {
        /// The deal file.
        deal: F,
    },
    /// Every game of a deal, each on a file of layouts of its own.
    Boards {
        /// The games and their files of layouts.
        games: G,
        /// How many cards of declarer's side the search goes through: 1 to 26.
        moves: u8,
        /// How to search.
        search: Search,
    },
    /// The problem made from a number, solved.
    Made {
        /// The number, any of 64 bits.
        number: u64,
        /// How to search.
        search: Search,
    },
}

/// What the words ask for, by the names of the files.
pub type NamedAsk<'a> = Ask<&'a str, GameNames<'a>>;
