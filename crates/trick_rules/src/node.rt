//! A position with the layouts that are thought possible.
ghost use Rattle.std.specs.Prelude.{◌≡◌, ◌<◌, ◌≤◌, true, Some, length, slice_get, IfOk, IsTrue, ◌↔◌};
ghost use Rattle.card_sets.specs.SetWords.{has_card};
ghost use Rattle.trick_rules.specs.Positions.{to_play};
ghost use Rattle.trick_rules.specs.Play.{is_declarers};
ghost use Rattle.trick_rules.specs.Nodes.{IsNode, stops as stops_at, choices as choices_of, child as child_of, child_mask};

use crate::position::{Position, play};
use card_sets::{Card, CardSet};
use std::alloc::{AllocError, Global};
use std::marker::Model;
use win_vectors::WinVector;

/// The most moves of declarer's side that a plan is given: its cards of thirteen tricks.
pub const MOST_MOVES: u8 = 26;

/// A sound position and 1 to 256 layouts, each by Left's hand, a part of the unseen cards with
/// Left's number of cards. Right holds the rest.
#[derive(Debug, Drop)]
pub struct Node {
    position: Position,
    lefts: Vec<CardSet>,
}

impl Model for Node {
    ghost use Rattle.trick_rules.specs.Nodes.{NodeValue, IsNode};

    ghost Value = { NodeValue };

    ghost view = { λ node. record { position = node.position; lefts = node.lefts.items } };

    ghost invariant = { λ node. IsNode (record {
      position = node.position;
      lefts = node.lefts.items;
    }) };
}

impl Node {
    /// A node of this position and these layouts, in order.
    pub fn new(alloc: Global, position: Position, lefts: &[CardSet]) -> Result<Node, AllocError>
        requires { IsNode (record { position = position; lefts = lefts.now }) }
        ensures { IfOk result (λ node. node ≡ record { position = position; lefts = lefts.now }) }
    {
        Ok(Node {
            position,
            lefts: Vec::from_slice(alloc, lefts)?,
        })
    }

    /// The position that all at the table see.
    pub fn position(&self) -> &Position
        ensures value { result.now ≡ self.now.position }
        ensures a_node { IsNode self.now }
    {
        &self.position
    }

    /// How many layouts there are: 1 to 256.
    pub fn width(&self) -> u16
        ensures value { result ≡ length self.now.lefts }
        ensures a_node { IsNode self.now }
    {
        self.lefts.len() as u16
    }

    /// Left's hand in the layout at a place, which is counted from 0.
    pub fn left(&self, place: u16) -> CardSet
        requires { place < length self.now.lefts }
        ensures { slice_get self.now.lefts place ≡ Some result }
    {
        self.lefts[usize::from(place)]
    }

    /// Left's hands, one a layout.
    pub fn lefts(&self) -> &[CardSet]
        ensures value { result.now ≡ self.now.lefts }
        ensures a_node { IsNode self.now }
    {
        self.lefts.as_slice()
    }

    /// An equal node.
    pub fn copy(&self, alloc: Global) -> Result<Node, AllocError>
        ensures { IfOk result (λ node. node ≡ self.now) }
    {
        Ok(Node {
            position: self.position.copy(),
            lefts: Vec::from_slice(alloc, self.lefts.as_slice())?,
        })
    }

    /// Whether the two have the same position and the same layouts in the same order.
    pub fn equals(&self, other: &Node) -> bool
        ensures { IsTrue result ↔ (self.now ≡ other.now) }
    {
        self.position.equals(&other.position) && self.lefts.as_slice() == other.lefts.as_slice()
    }

    /// Whether declarer or dummy is to play.
    pub fn is_ours(&self) -> bool
        ensures { result ≡ is_declarers (to_play self.now.position) }
    {
        self.position.is_ours()
    }

    /// Whether a plan with this many moves of declarer's side left stops here: no move is left, or
    /// the result is decided.
    pub fn stops(&self, moves: u8) -> bool
        ensures { result ≡ stops_at self.now moves }
    {
        moves == 0 || self.position.decided().is_some()
    }

    /// The cards that are legal for the seat to play in at least one layout.
    pub fn choices(&self) -> CardSet
        ensures { result ≡ choices_of self.now }
    {
        let mut cards = CardSet::empty();
        for left in &self.lefts {
            cards = cards.either(self.position.legal_in(*left));
        }
        cards
    }

    /// The node after a card, and the layouts that it keeps: in order, those in which the card is
    /// legal.
    ///
    /// The vector is as wide as this node, with a 1 at each layout that is kept.
    pub fn child(&self, alloc: Global, card: Card) -> Result<(Node, WinVector), AllocError>
        requires { has_card (choices_of self.now) card ≡ true }
        ensures node { IfOk result (λ kept. kept.0 ≡ child_of self.now card) }
        ensures mask { IfOk result (λ kept. kept.1 ≡ child_mask self.now card) }
    {
        let mut lefts = Vec::with_capacity(alloc, self.lefts.len())?;
        let mut mask = WinVector::none(self.width());
        for place in 0..self.width() {
            let left = self.left(place);
            if self.position.legal_in(left).has(card) {
                lefts.push(left.without(card))?;
                mask = mask.set(place, true);
            }
        }
        let node = Node {
            position: play(&self.position, card),
            lefts,
        };
        Ok((node, mask))
    }
}
