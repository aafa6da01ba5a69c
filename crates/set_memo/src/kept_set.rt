//! One set of layouts that is kept.
ghost use Rattle.std.specs.Prelude.{◌≡◌, IsTrue, IfSome};
ghost use Rattle.set_memo.specs.Kept.{Follows, IsToldBy};

use crate::verdict::Verdict;
use card_sets::Seat;
use std::hash::{FoldHasher, Hash, Hasher};
use std::marker::Model;
use trick_rules::{Position, Trick, places_on};
use win_vectors::WinVector;

/// A set of layouts at a position, and whether one strategy with some moves wins them all.
#[derive(Drop)]
pub(crate) struct KeptSet {
    position: Position,
    moves: u8,
    set: WinVector,
    won: bool,
}

impl Model for KeptSet {
    ghost use Rattle.set_memo.specs.Kept.{KeptSetValue};

    ghost Value = { KeptSetValue };

    ghost view = { λ kept. record {
      position = kept.position;
      moves = kept.moves;
      set = kept.set;
      won = kept.won;
    } };
}

// Whether the two have the same leader and the same cards.
fn is_same_trick(one: &Trick, other: &Trick) -> bool
    ensures { IsTrue result → one.now ≡ other.now }
{
    one.leader == other.leader && one.cards.as_slice() == other.cards.as_slice()
}

// Whether the two are the same position.
fn is_same(one: &Position, other: &Position) -> bool
    ensures { IsTrue result → one.now ≡ other.now }
{
    let same_cards = one.unseen == other.unseen
        && one.declarer == other.declarer
        && one.dummy == other.dummy;
    same_cards
        && one.need == other.need
        && one.trump == other.trump
        && is_same_trick(&one.trick, &other.trick)
}

impl KeptSet {
    /// What a verdict on a set tells: all of it is won, or its core isn't.
    pub(crate) fn of_verdict(
        position: &Position,
        moves: u8,
        set: WinVector,
        verdict: &Verdict,
    ) -> KeptSet
        ensures { IsToldBy position.now moves set verdict.now result }
    {
        let (told, won) = match verdict {
            Verdict::Won => (set, true),
            Verdict::Core(core) => (*core, false),
        };
        KeptSet {
            position: position.copy(),
            moves,
            set: told,
            won,
        }
    }

    /// Whether it is of this position with this many moves.
    pub(crate) fn is_of(&self, position: &Position, moves: u8) -> bool
        ensures position { IsTrue result → self.now.position ≡ position.now }
        ensures moves { IsTrue result → self.now.moves ≡ moves }
    {
        self.moves == moves && is_same(&self.position, position)
    }

    /// What follows for a set: it is won if all of it is among what is won, and a core is in it if
    /// all of the core is.
    pub(crate) fn verdict_on(&self, set: WinVector) -> Option<Verdict>
        ensures { IfSome result (Follows self.now set) }
    {
        if set.width() != self.set.width() {
            return None;
        }
        if self.won && self.set.dominates(set) {
            return Some(Verdict::Won);
        }
        if !self.won && set.dominates(self.set) {
            return Some(Verdict::Core(self.set));
        }
        None
    }

    /// Whether another tells all that this one tells.
    ///
    /// No clause: it decides only which of the two is kept.
    pub(crate) fn says_no_more_than(&self, other: &KeptSet) -> bool {
        self.won == other.won
            && self.set.width() == other.set.width()
            && self.is_of(&other.position, other.moves)
            && if self.won {
                other.set.dominates(self.set)
            } else {
                self.set.dominates(other.set)
            }
    }
}

/// A number that differs between most positions with their moves.
///
/// No clause: it decides only where a set is kept.
pub(crate) fn digest(position: &Position, moves: u8) -> u64 {
    let mut hasher = FoldHasher::default();
    position.declarer.hash(&mut hasher);
    position.dummy.hash(&mut hasher);
    position.unseen.hash(&mut hasher);
    position.trick.cards.as_slice().hash(&mut hasher);
    hasher.write_u8(places_on(Seat::Declarer, position.trick.leader));
    hasher.write_u8(position.need);
    hasher.write_u8(moves);
    hasher.finish()
}
