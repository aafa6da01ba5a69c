//! Answers as C has them.

/// The card to play, by its place in card order, and the weight that it wins.
#[repr(C)]
#[derive(Clone, Copy, Debug)]
pub struct Choice {
    pub card: u32,
    pub weight: u32,
}

/// What a card is worth.
#[repr(C)]
#[derive(Clone, Copy, Debug)]
pub struct Worth {
    /// The first of the heaviest vectors of the front after the card. Layout i is bit i % 64 of
    /// word i / 64.
    pub vector: [u64; 4],
    /// The card by its place in card order.
    pub card: u32,
    /// What that vector weighs.
    pub weight: u32,
    /// What plain sampling believes: the weight of the layouts that are made by double dummy.
    pub double_dummy: u32,
}
