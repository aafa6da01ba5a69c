//! The four hands round the table.
ghost use Rattle.std.specs.Prelude.{◌≡◌, ◌++◌, flat_map, OnOk};
ghost use Rattle.page_text.specs.Tables.{may_hold, must_hold, box_start, role, hand_in, hands_in};
ghost use Rattle.page_text.specs.Tables.{seat_hands, seat_pieces, seats};
ghost use Rattle.page_text.specs.Tables.{trump_word, contract, trick_card, centre, table};

use crate::markup::{
    CENTRE, CENTRE_END, HAND_END, HAND_IN, NEEDED, TABLE_END, TABLE_START, TRUMPS,
};
use crate::picking::push_picker;
use crate::signs::{compass_word, push_card, push_hand, suit_sign};
use card_sets::{Card, CardSet, Compass, Seat};
use html_text::Page;
use std::alloc::AllocError;
use trick_rules::{Node, Position, Trump};

// The cards that a seat holds in some layout.
fn may_hold(node: &Node, seat: Seat) -> CardSet
    ensures { result ≡ may_hold node.now seat }
{
    let mut cards = CardSet::empty();
    for left in node.lefts() {
        cards = cards.either(node.position().hand(seat, *left));
    }
    cards
}

// The cards that it holds in every layout.
fn must_hold(node: &Node, seat: Seat) -> CardSet
    ensures { result ≡ must_hold node.now seat }
{
    let mut cards = CardSet::pack();
    for left in node.lefts() {
        cards = cards.both(node.position().hand(seat, *left));
    }
    cards
}

fn box_start(place: Compass) -> &'static [u8]
    ensures { result.now ≡ box_start place }
{
    match place {
        Compass::N => b"<div class='n'><h3>",
        Compass::E => b"<div class='e'><h3>",
        Compass::S => b"<div class='f'><h3>",
        Compass::W => b"<div class='w'><h3>",
    }
}

fn role(seat: Seat) -> &'static [u8]
    ensures { result.now ≡ role seat }
{
    match seat {
        Seat::Declarer => b", declarer</h3>\n<ul>\n",
        Seat::Dummy => b", dummy</h3>\n<ul>\n",
        Seat::Left | Seat::Right => b"</h3>\n<ul class='any'>\n",
    }
}

#[tactic(auto, unfolding(crate::specs::Tables::hand_in))]
fn push_hand_in(
    page: &mut Page,
    position: &Position,
    seat: Seat,
    sure: CardSet,
    left: CardSet,
) -> Result<(), AllocError>
    ensures { OnOk result (page.new ≡ page.old ++ hand_in position.now seat sure left) }
{
    page.own(HAND_IN)?;
    push_hand(page, position.hand(seat, left), sure)
}

// Adds the hand of a defender in each layout, in bold the cards that he holds in every layout.
fn push_each_hand(page: &mut Page, seat: Seat, node: &Node) -> Result<(), AllocError>
    ensures { OnOk result (page.new ≡ page.old
        ++ flat_map (hand_in node.now.position seat (must_hold node.now seat)) node.now.lefts) }
{
    let sure = must_hold(node, seat);
    for left in node.lefts() {
        push_hand_in(page, node.position(), seat, sure, *left)?;
    }
    Ok(())
}

fn push_hands_in(page: &mut Page, seat: Seat, node: &Node) -> Result<(), AllocError>
    ensures { OnOk result (page.new ≡ page.old ++ hands_in node.now seat) }
{
    match seat {
        Seat::Declarer | Seat::Dummy => Ok(()),
        Seat::Left | Seat::Right => push_each_hand(page, seat, node),
    }
}

#[tactic(auto, unfolding(crate::specs::Tables::seat_hands))]
fn push_seat_hands(page: &mut Page, seat: Seat, node: &Node) -> Result<(), AllocError>
    ensures { OnOk result (page.new ≡ page.old ++ seat_hands seat node.now) }
{
    push_hand(page, may_hold(node, seat), must_hold(node, seat))?;
    push_hands_in(page, seat, node)
}

// Adds a seat with its hand.
#[tactic(auto, unfolding(crate::specs::Tables::seat_pieces))]
fn push_seat(page: &mut Page, place: Compass, seat: Seat, node: &Node) -> Result<(), AllocError>
    ensures { OnOk result (page.new ≡ page.old ++ seat_pieces place seat node.now) }
{
    page.own(box_start(place))?;
    page.own(compass_word(place))?;
    page.own(role(seat))?;
    push_seat_hands(page, seat, node)?;
    page.own(HAND_END)
}

#[tactic(auto, unfolding(crate::specs::Tables::seats))]
fn push_seats(page: &mut Page, declarer: Compass, node: &Node) -> Result<(), AllocError>
    ensures { OnOk result (page.new ≡ page.old ++ seats declarer node.now) }
{
    let left = declarer.next();
    let dummy = left.next();
    push_seat(page, declarer, Seat::Declarer, node)?;
    push_seat(page, left, Seat::Left, node)?;
    push_seat(page, dummy, Seat::Dummy, node)?;
    push_seat(page, dummy.next(), Seat::Right, node)
}

fn trump_word(trump: Trump) -> &'static [u8]
    ensures { result.now ≡ trump_word trump }
{
    match trump {
        Trump::Suit(suit) => suit_sign(suit),
        Trump::NoTrump => b"No",
    }
}

#[tactic(auto, unfolding(crate::specs::Tables::contract))]
fn push_contract(page: &mut Page, position: &Position) -> Result<(), AllocError>
    ensures { OnOk result (page.new ≡ page.old ++ contract position.now) }
{
    page.own(trump_word(position.trump))?;
    page.own(TRUMPS)?;
    page.number(u64::from(position.need))?;
    page.own(b" of ")?;
    page.number(u64::from(position.tricks_left()))
}

// Adds the cards of the present trick.
fn push_trick(page: &mut Page, cards: &[Card]) -> Result<(), AllocError>
    ensures { OnOk result (page.new ≡ page.old ++ flat_map trick_card cards.now) }
{
    for card in cards {
        push_card(page, *card)?;
        page.own(b" ")?;
    }
    Ok(())
}

#[tactic(auto, unfolding(crate::specs::Tables::centre))]
fn push_centre(page: &mut Page, position: &Position) -> Result<(), AllocError>
    ensures { OnOk result (page.new ≡ page.old ++ centre position.now) }
{
    page.own(CENTRE)?;
    push_contract(page, position)?;
    page.own(NEEDED)?;
    push_trick(page, &position.trick.cards)?;
    page.own(CENTRE_END)
}

/// Adds the table: declarer's place and the hands of the four seats, a defender's by all layouts of
/// the node and in each, with a picker of the layout that is shown; the contract, and the present
/// trick.
#[tactic(auto, unfolding(crate::specs::Tables::table))]
pub fn push_table(page: &mut Page, declarer: Compass, node: &Node) -> Result<(), AllocError>
    ensures { OnOk result (page.new ≡ page.old ++ table declarer node.now) }
{
    page.own(TABLE_START)?;
    push_picker(page, node.width())?;
    push_seats(page, declarer, node)?;
    push_centre(page, node.position())?;
    page.own(TABLE_END)
}
