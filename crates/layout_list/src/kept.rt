//! What is kept of a layout file, and what the play has ruled out.
use std::marker::Model;
use trick_rules::Node;
use win_vectors::Weights;

/// Why a layout is dropped at a defender's card.
#[derive(Clone, Copy, Debug, PartialEq, Eq)]
pub enum Cause {
    /// The seat doesn't hold the card at that moment.
    NotHeld,
    /// The seat holds the card, but must follow suit and can.
    Revoke,
}

/// A layout that the play contradicts: its number in the file, from 1, and the first defender's
/// card that it contradicts, by the card's number in order of play, from 1.
#[derive(Clone, Copy, Debug, PartialEq, Eq)]
pub struct Dropped {
    pub number: u16,
    pub cause: Cause,
    pub play: u16,
}

/// The layouts of a file that the play allows, by number, and those that it doesn't, each in file
/// order.
///
/// The node is the position after the plays with the kept layouts, at least one of them, and each
/// has its weight.
#[derive(Debug, Drop)]
pub struct Kept {
    pub numbers: Vec<u16>,
    pub dropped: Vec<Dropped>,
    pub node: Node,
    pub weights: Weights,
}

impl Model for Kept {
    ghost use Rattle.layout_list.specs.Kept.{KeptValue};

    ghost Value = { KeptValue };

    ghost view = { λ kept. record {
      numbers = kept.numbers.items;
      dropped = kept.dropped.items;
      node = kept.node;
      weights = kept.weights;
    } };
}
