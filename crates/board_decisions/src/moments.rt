//! Which cards of a play were decisions, and what was known at each.
ghost use Rattle.std.specs.Prelude.{◌≡◌, ◌≤◌, ◌<◌, ◌-◌, ◌^◌, ◌↔◌, true, length, IsTrue, Ok, IfOk};
ghost use Rattle.std.specs.Prelude.{MatchResult};
ghost use Rattle.trick_rules.specs.Play.{is_declarers};
ghost use Rattle.layout_list.specs.Layouts.{IsLayoutFaultOf};
ghost use Rattle.board_decisions.specs.Decisions.{trick_of, kept_before, HasTwoCards};
ghost use Rattle.board_decisions.specs.Decisions.{IsOurs, IsChosen};

use card_sets::{Card, Seat};
use equal_cards::one_of_equals;
use layout_list::{Kept, LayoutFault, layouts};
use pbn_deal::Board;
use std::alloc::Global;
use trick_rules::Node;

/// The trick of the card at a place of the play. The place is counted from 0, the trick from 1.
pub fn trick_of(place: u16) -> u16
    ensures { result ≡ trick_of place }
{
    place / 4 + 1
}

/// Whether a card at a place of the play, by this seat, is declarer's or dummy's in this trick or a
/// later one.
pub fn is_turn(from: u8, place: u16, seat: Seat) -> bool
    ensures { IsTrue result ↔ ((is_declarers seat ≡ true) × (from ≤ trick_of place)) }
{
    matches!(seat, Seat::Declarer | Seat::Dummy) && u16::from(from) <= trick_of(place)
}

/// The layouts of a file, read as for the board just before the card at a place of its play, which
/// is counted from 0: layouts are dropped by what is known at that moment. The faults are those of
/// `layouts`.
pub fn kept_before(
    alloc: Global,
    bytes: &[u8],
    board: &Board,
    place: usize,
) -> Result<Kept, LayoutFault>
    requires place { place ≤ length board.now.plays }
    requires short { length bytes.now < 2 ^ 32 - 1 }
    ensures kept { MatchResult result
        (λ kept. kept_before board.now bytes.now place ≡ Ok kept)
        (IsLayoutFaultOf (kept_before board.now bytes.now place)) }
    ensures as_many { IfOk result (λ kept. length kept.numbers ≡ length kept.node.lefts) }
    ensures weighed { IfOk result (λ kept. length kept.weights ≡ length kept.node.lefts) }
{
    match board.before(alloc, place) {
        Ok(before) => layouts(alloc, bytes, &before),
        Err(_) => Err(LayoutFault::Memory),
    }
}

// Whether two legal cards aren't equal.
fn has_two_cards(node: &Node) -> bool
    ensures { IsTrue result ↔ HasTwoCards node.now }
{
    one_of_equals(node).count() > 1
}

// Whether the play goes on, declarer's side is to play, and a card is legal.
fn is_ours(node: &Node, card: Card) -> bool
    ensures { IsTrue result ↔ IsOurs node.now card }
{
    !node.position().over() && node.is_ours() && node.choices().has(card)
}

/// Whether a card was a decision at the node at which it was played: declarer's side is to play,
/// the card is legal, and there are two legal cards that aren't equal. Equal cards are neighbours
/// in rank among the cards that are still out.
pub fn is_chosen(node: &Node, card: Card) -> bool
    ensures { IsTrue result ↔ IsChosen node.now card }
{
    is_ours(node, card) && has_two_cards(node)
}
