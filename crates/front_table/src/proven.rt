//! A front that is proved to be the front of its node.
ghost use Rattle.std.specs.Prelude.{◌≡◌};
ghost use Rattle.pareto_fronts.specs.FrontValue.{IsSoundFront};
ghost use Rattle.front_table.specs.Proven.{IsFrontAt, ProvenFrontValue};

use pareto_fronts::Front;
use std::marker::Model;
use trick_rules::Node;

/// A node, a number of moves of declarer's side, and the front that the definitions give for them.
#[derive(Drop)]
pub struct ProvenFront {
    node: Node,
    moves: u8,
    front: Front,
}

impl Model for ProvenFront {
    ghost Value = { ProvenFrontValue };

    ghost view = { λ p. record { node = p.node; moves = p.moves; front = p.front } };

    ghost invariant = { λ proven. IsFrontAt proven.node proven.moves proven.front };
}

impl ProvenFront {
    /// An entry, of a front that is proved.
    pub fn new(node: Node, moves: u8, front: Front) -> ProvenFront
        requires { IsFrontAt node moves front }
        ensures { result ≡ record { node = node; moves = moves; front = front } }
    {
        ProvenFront { node, moves, front }
    }

    pub fn node(&self) -> &Node
        ensures { result.now ≡ self.now.node }
    {
        &self.node
    }

    /// How many cards of declarer's side the front looks ahead.
    pub fn moves(&self) -> u8
        ensures { result ≡ self.now.moves }
    {
        self.moves
    }

    pub fn front(&self) -> &Front
        ensures value { result.now ≡ self.now.front }
        ensures proven { IsFrontAt self.now.node self.now.moves self.now.front }
    {
        &self.front
    }

    /// The node and the moves.
    pub(crate) fn into_key(self) -> (Node, u8)
        ensures node { result.0 ≡ self.node }
        ensures moves { result.1 ≡ self.moves }
        ensures proven { IsFrontAt self.node self.moves self.front }
        ensures front { IsSoundFront self.front }
    {
        let _ = self.front.len();
        (self.node, self.moves)
    }
}
