//! A node that takes no memory.
ghost use Rattle.std.specs.Prelude.{◌≡◌, true};
ghost use Rattle.card_sets.specs.SetWords.{has_card};
ghost use Rattle.trick_rules.specs.Positions.{to_play};
ghost use Rattle.trick_rules.specs.Play.{is_declarers};
ghost use Rattle.trick_rules.specs.Nodes.{IsNode, stops as stops_at, choices as choices_of, child as child_of};

use arrayvec::ArrayVec;
use card_sets::{Card, CardSet};
use std::marker::Model;
use trick_rules::{Node, Position, play};
use win_vectors::MOST_LAYOUTS;

/// A sound position and 1 to 256 layouts, as a `Node` has them, with Left's hands in the value
/// itself.
#[derive(Drop)]
pub struct InlineNode {
    position: Position,
    lefts: ArrayVec<CardSet, MOST_LAYOUTS>,
}

impl Model for InlineNode {
    ghost use Rattle.trick_rules.specs.Nodes.{NodeValue, IsNode};

    ghost Value = { NodeValue };

    ghost view = { λ node. record { position = node.position; lefts = node.lefts.items } };

    ghost invariant = { λ node. IsNode (record {
      position = node.position;
      lefts = node.lefts.items;
    }) };
}

impl InlineNode {
    /// An equal node.
    pub fn of(node: &Node) -> InlineNode
        ensures { result ≡ node.now }
    {
        let mut lefts = ArrayVec::new();
        for left in node.lefts() {
            lefts.push(*left);
        }
        InlineNode {
            position: node.position().copy(),
            lefts,
        }
    }

    /// Whether declarer or dummy is to play.
    pub fn is_ours(&self) -> bool
        ensures { result ≡ is_declarers (to_play self.now.position) }
    {
        self.position.is_ours()
    }

    /// Whether a plan with this many moves of declarer's side left stops here: no move is left, or
    /// the result is decided.
    pub fn stops(&self, moves: u8) -> bool
        ensures { result ≡ stops_at self.now moves }
    {
        moves == 0 || self.position.decided().is_some()
    }

    /// The cards that are legal for the seat to play in at least one layout.
    pub fn choices(&self) -> CardSet
        ensures value { result ≡ choices_of self.now }
        ensures a_node { IsNode self.now }
    {
        let mut cards = CardSet::empty();
        for left in self.lefts.as_slice() {
            cards = cards.either(self.position.legal_in(*left));
        }
        cards
    }

    /// The node after a card: the layouts in which it is legal, in order.
    pub fn child(&self, card: Card) -> InlineNode
        requires { has_card (choices_of self.now) card ≡ true }
        ensures { result ≡ child_of self.now card }
    {
        let mut lefts = ArrayVec::new();
        for left in self.lefts.as_slice() {
            if self.position.legal_in(*left).has(card) {
                lefts.push(left.without(card));
            }
        }
        InlineNode {
            position: play(&self.position, card),
            lefts,
        }
    }
}
