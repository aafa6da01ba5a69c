//! Who says how a plan ends that stops at an open result.
ghost use Rattle.std.specs.Prelude.{◌≡◌};
ghost use Rattle.trick_rules.specs.Positions.{FitsLeft};
ghost use Rattle.trick_rules.specs.Play.{makes as makes_in};

use card_sets::CardSet;
use double_dummy::makes_plain;
use trick_rules::Position;

/// Answers double dummy. What it may remember changes no answer.
pub trait DoubleDummy {
    /// Whether declarer's side takes the need where Left holds these cards, with all cards seen by
    /// all.
    fn makes(&mut self, position: &Position, left: CardSet) -> bool
        requires { FitsLeft position.now left }
        ensures { result ≡ makes_in (record { position = position.now; left = left }) };
}

/// Double dummy by plain minimax: it plays every card, and remembers nothing.
#[derive(Clone, Copy, Debug, PartialEq, Eq)]
pub struct PlainMinimax;

impl DoubleDummy for PlainMinimax {
    fn makes(&mut self, position: &Position, left: CardSet) -> bool {
        makes_plain(position, left)
    }
}
