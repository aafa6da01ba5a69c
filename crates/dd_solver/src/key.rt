//! A position between two tricks as the memo holds it.
ghost use Rattle.std.specs.Prelude.{◌≡◌, [], IsTrue};
ghost use Rattle.trick_rules.specs.Positions.{IsState};
ghost use Rattle.dd_solver.specs.RelativeRanks.{with_gap_closed};
ghost use Rattle.dd_solver.specs.Keys.{key_state, HasShape, AreSame, AreLikeKeys};
ghost use Rattle.dd_solver.specs.Shapes.{IsShapeOf};

use crate::shape::Shape;
use card_sets::{Card, CardSet, Seat};
use trick_rules::{Position, Trick, Trump};

/// A position between two tricks, and Left's hand.
#[derive(Clone, Copy, Debug)]
pub(crate) struct Key {
    pub(crate) declarer: CardSet,
    pub(crate) dummy: CardSet,
    pub(crate) unseen: CardSet,
    pub(crate) left: CardSet,
    pub(crate) shape: Shape,
    pub(crate) leader: Seat,
    pub(crate) trump: Trump,
    pub(crate) need: u8,
    /// How many tricks are left.
    pub(crate) tricks: u8,
}

// Whether the cards that count are the same in two sets.
fn are_same(counting: CardSet, these: CardSet, those: CardSet) -> bool
    ensures { IsTrue result → AreSame counting these those }
{
    these.both(counting) == those.both(counting)
}

impl Key {
    /// The key of a position between two tricks.
    pub(crate) fn of(position: &Position, left: CardSet, shape: Shape) -> Key
        requires between { position.now.trick.cards ≡ [] }
        requires shape { IsShapeOf shape (record { position = position.now; left = left }) }
        ensures state { key_state result ≡ record { position = position.now; left = left } }
        ensures shape { HasShape result }
    {
        Key {
            declarer: position.declarer,
            dummy: position.dummy,
            unseen: position.unseen,
            left,
            shape,
            leader: position.trick.leader,
            trump: position.trump,
            need: position.need,
            tricks: position.declarer.count(),
        }
    }

    /// The position, without Left's hand.
    pub(crate) fn position(&self) -> Position
        requires { IsState (key_state self.now) }
        ensures { result ≡ (key_state self.now).position }
    {
        Position {
            declarer: self.declarer,
            dummy: self.dummy,
            unseen: self.unseen,
            trick: Trick::led_by(self.leader),
            need: self.need,
            trump: self.trump,
        }
    }

    /// The key of the position in which the cards of the gap's suit below it go up one place.
    pub(crate) fn raised_to(&self, gap: Card) -> Key
        ensures state { key_state result ≡ with_gap_closed gap (key_state self.now) }
        ensures shape { result.shape ≡ self.now.shape }
    {
        Key {
            declarer: self.declarer.raised_to(gap),
            dummy: self.dummy.raised_to(gap),
            unseen: self.unseen.raised_to(gap),
            left: self.left.raised_to(gap),
            ..*self
        }
    }

    // Whether the two have one leader and trumps.
    fn has_table_of(&self, other: &Key) -> bool
        ensures leader { IsTrue result → self.now.leader ≡ other.now.leader }
        ensures trump { IsTrue result → self.now.trump ≡ other.now.trump }
    {
        self.leader == other.leader && self.trump == other.trump
    }

    // Whether two keys' hands have the same of the cards that count.
    fn has_same(&self, counting: CardSet, other: &Key) -> bool
        ensures declarer { IsTrue result
            → AreSame counting self.now.declarer other.now.declarer }
        ensures dummy { IsTrue result → AreSame counting self.now.dummy other.now.dummy }
        ensures unseen { IsTrue result → AreSame counting self.now.unseen other.now.unseen }
        ensures left { IsTrue result → AreSame counting self.now.left other.now.left }
    {
        are_same(counting, self.declarer, other.declarer)
            && are_same(counting, self.dummy, other.dummy)
            && are_same(counting, self.unseen, other.unseen)
            && are_same(counting, self.left, other.left)
    }

    /// Whether the two are alike by the cards that count, except the need.
    pub(crate) fn is_like(&self, counting: CardSet, other: &Key) -> bool
        ensures { IsTrue result → AreLikeKeys counting self.now other.now }
    {
        // Most entries of a row differ in their shape, and most others in a hand.
        self.shape.equals(&other.shape)
            && self.has_same(counting, other)
            && self.has_table_of(other)
    }

    /// A number that differs between most keys that are not alike, and is the same for alike ones.
    pub(crate) fn code(&self) -> u64 {
        let turn = match self.leader {
            Seat::Declarer => 0,
            Seat::Left => 1,
            Seat::Dummy => 2,
            Seat::Right => 3,
        };
        let mixed = (self.shape.lengths ^ turn).wrapping_mul(0xd6e8_feb8_6659_fd93);
        let mixed = (mixed ^ mixed >> 32u32).wrapping_mul(0x9e37_79b9_7f4a_7c15);
        mixed >> 32
    }
}
