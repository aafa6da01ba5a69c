//! The facts of a decision.
ghost use Rattle.std.specs.Prelude.{◌≡◌};
ghost use Rattle.review_text.specs.Texts.{cost_of, cost_up_to, final_word, is_final};

use card_sets::{Card, Compass};

/// The facts of a decision. The card's number in the play and its trick are counted from 1. The
/// layouts are those that the play up to there allows, with what they weigh together.
#[derive(Clone, Copy, Debug, PartialEq, Eq)]
pub struct Reviewed {
    pub number: u16,
    pub trick: u16,
    /// Who played the card.
    pub seat: Compass,
    pub played: Card,
    /// The most weight that the card played can win.
    pub most: u32,
    /// The weight that it is sure to win.
    pub least: u32,
    pub named: Card,
    /// The most weight that the card named can win.
    pub named_most: u32,
    /// The weight that the card named is sure to win.
    pub named_least: u32,
    /// The greatest weight that some legal card is sure to win.
    pub sure: u32,
    pub layouts: u16,
    pub weight: u32,
}

impl Reviewed {
    /// What the card cost at least: by how much some card is sure to win more than the card played
    /// can.
    pub fn cost(&self) -> u32
        ensures { result ≡ cost_of self.now }
    {
        self.sure.saturating_sub(self.most)
    }

    /// What it cost at most: by how much the card named can win more than the card played is sure
    /// to.
    pub fn cost_up_to(&self) -> u32
        ensures { result ≡ cost_up_to self.now }
    {
        self.named_most.saturating_sub(self.least)
    }

    /// Whether the cost is known: both ends are equal.
    pub fn is_final(&self) -> bool
        ensures { result ≡ is_final self.now }
    {
        self.cost() == self.cost_up_to()
    }

    /// The same in a word: `yes` or `no`.
    pub fn final_word(&self) -> &'static [u8]
        ensures { result.now ≡ final_word self.now }
    {
        if self.is_final() { b"yes" } else { b"no" }
    }
}
