//! A node of a plan in an array.

/// A card that is played, and where in the array the cards are that come next.
#[repr(C)]
#[derive(Clone, Copy, Debug)]
pub struct PlanNode {
    /// The place of the first reply.
    pub first_reply: usize,
    /// How many replies there are, one after another: 0 if the plan stops after the card, 1 if
    /// declarer's side plays next, and otherwise one for each card that a defender may play.
    pub replies: usize,
    /// The card by its place in card order, or 52 for the array's first node, which is for what has
    /// been played already.
    pub card: u32,
}
