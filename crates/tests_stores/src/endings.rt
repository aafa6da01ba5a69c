//! A small ending: declarer holds SK SJ, and dummy leads from S3 S2 with no trumps. Left has SQ S5
//! or SA S5.
ghost use Rattle.std.specs.Prelude.{IsTrue, All};
ghost use Rattle.trick_rules.specs.Positions.{FitsLeft};

use card_sets::{Card, CardSet, Seat};
use std::alloc::{AllocError, Global};
use std::process::Abort;
use trick_rules::{Node, Position, Trump};

/// Declarer's cards: SK SJ.
pub const KING_JACK: [u8; 2] = [9, 11];

/// The defenders' cards where declarer has these: S5 S7 SQ SA.
pub const QUEEN_ACE: [u8; 4] = [3, 5, 10, 12];

/// The hands of Left: SQ S5 and SA S5.
pub const HANDS: [[u8; 2]; 2] = [[3, 10], [3, 12]];

fn set_of(cards: &[u8]) -> CardSet {
    let mut set = CardSet::empty();
    for card in cards {
        if *card < 52 {
            set = set.with(Card::from_number(*card));
        }
    }
    set
}

// Whether Left may hold each of the hands.
fn all_fit(position: &Position, lefts: &[CardSet]) -> bool
    ensures { IsTrue result → All (FitsLeft position.now) lefts.now }
{
    lefts.iter().all(|left| position.fits(*left))
}

/// Dummy leads from S3 S2, and this many of the two tricks are needed. Left has one of the hands.
pub fn root(
    rt: &impl Abort,
    alloc: Global,
    declarer: &[u8],
    unseen: &[u8],
    need: u8,
    hands: &[[u8; 2]],
) -> Result<Node, AllocError> {
    let position = Position::between_tricks(
        set_of(declarer),
        set_of(&[0, 1]),
        set_of(unseen),
        Seat::Dummy,
        need,
        Trump::NoTrump,
    )
    .expect(rt, "the ending is sound");
    let mut lefts = Vec::new(alloc);
    for hand in hands {
        lefts.push(set_of(hand))?;
    }
    assert!(rt; !lefts.is_empty() && lefts.len() <= 64);
    assert!(rt; all_fit(&position, lefts.as_slice()));
    Node::new(alloc, position, lefts.as_slice())
}

/// The root where one trick is needed.
pub fn guess(rt: &impl Abort, alloc: Global) -> Result<Node, AllocError> {
    root(rt, alloc, &KING_JACK, &QUEEN_ACE, 1, &HANDS)
}

/// The node after a card, by its number.
pub fn after(rt: &impl Abort, alloc: Global, node: &Node, number: u8) -> Result<Node, AllocError> {
    assert!(rt; number < 52);
    let card = Card::from_number(number);
    assert!(rt; node.choices().has(card));
    let (child, _) = node.child(alloc, card)?;
    Ok(child)
}
