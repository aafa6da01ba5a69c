//! The numbers of a question.

/// A position, how far to search, and how many nodes a search may enter. A set of cards has bit i
/// set if it has card i in card order, from 0 for the two of spades to 51 for the ace of clubs.
#[repr(C)]
#[derive(Clone, Copy, Debug)]
pub struct Question {
    /// The cards that declarer still holds.
    pub declarer: u64,
    /// The cards that dummy still holds.
    pub dummy: u64,
    /// The cards that the two defenders still hold together.
    pub unseen: u64,
    /// The most nodes that the search after a root card may enter: 1 or more.
    pub nodes: u64,
    /// The cards of the present trick in the order of play, by their places in card order. They are
    /// in no hand.
    pub trick: [u32; 3],
    /// How many cards of `trick` have been played: 0 to 3.
    pub played: u32,
    /// The seat that led to the trick or is to lead: 0 for declarer, and then clockwise.
    pub leader: u32,
    /// The suit that is trumps by its place in card order, or 4 for none.
    pub trump: u32,
    /// The tricks that declarer's side still needs: 0 to 13.
    pub need: u32,
    /// How many cards of declarer's side the search goes through: 1 to 26.
    pub moves: u32,
}
