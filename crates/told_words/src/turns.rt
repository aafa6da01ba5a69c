//! Who plays which card, and how, at the nodes at which a step may stand.
ghost use Rattle.std.specs.Prelude.{◌≡◌, ◌++◌, ◌&&◌, map, filter, IfOk, OnOk};
ghost use Rattle.std.specs.List.{list_all};
ghost use Rattle.card_sets.specs.SetWords.{has_card, cards_where};
ghost use Rattle.trick_rules.specs.Positions.{to_play};
ghost use Rattle.trick_rules.specs.Nodes.{choices, child};
ghost use Rattle.told_words.specs.Turns.{after_cards, manner_of, same_manner, same_seat, plays_so};
ghost use Rattle.told_words.specs.Turns.{played_so, leads_next, winner_at};

use card_sets::{Card, CardSet, Seat};
use std::alloc::{AllocError, Global};
use trick_rules::{Node, Position, Trump};

/// How a card is played.
#[derive(Clone, Copy, Debug, PartialEq, Eq)]
pub enum Manner {
    Lead,
    Follow,
    Ruff,
    Throw,
}

/// The nodes after one of the cards.
pub fn after_cards(alloc: Global, cards: CardSet, places: &[Node]) -> Result<Vec<Node>, AllocError>
    ensures { IfOk result (λ after. after.items ≡ after_cards cards places.now) }
{
    let mut after = Vec::new(alloc);
    for place in places {
        push_children(alloc, place, cards, &mut after)?;
    }
    Ok(after)
}

// Adds the children after those of the cards that can be played.
fn push_children(
    alloc: Global,
    place: &Node,
    cards: CardSet,
    after: &mut Vec<Node>,
) -> Result<(), AllocError>
    ensures { OnOk result (after.new.items ≡ after.old.items
        ++ map (child place.now) (filter (has_card (choices place.now)) cards)) }
{
    let mut left = cards.both(place.choices());
    'cards: while let Some(card) = left.pop_first() {
        let (child, _) = place.child(alloc, card)?;
        after.push(child)?;
    }
    Ok(())
}

// How a card is played to the present trick.
fn manner_of(position: &Position, card: Card) -> Manner
    ensures { result ≡ manner_of position.now card }
{
    let Some(led) = position.trick.suit_led() else {
        return Manner::Lead;
    };
    if card.suit() == led {
        return Manner::Follow;
    }
    match position.trump {
        Trump::Suit(trump) => if card.suit() == trump {
            Manner::Ruff
        } else {
            Manner::Throw
        },
        Trump::NoTrump => Manner::Throw,
    }
}

/// Those of the cards that the seat can play in this manner at one of the nodes.
pub fn played_so(places: &[Node], cards: CardSet, seat: Seat, manner: Manner) -> CardSet
    ensures { result ≡ played_so seat manner cards places.now }
{
    let mut so = CardSet::empty();
    for place in places {
        so = so.either(played_here(place, cards, seat, manner));
    }
    so
}

// The same at one node.
fn played_here(place: &Node, cards: CardSet, seat: Seat, manner: Manner) -> CardSet
    ensures { result
        ≡ cards_where (λ card. has_card cards card && plays_so seat manner card place.now) }
{
    let mut here = CardSet::empty();
    if !is_turn(place.position(), seat) {
        return here;
    }
    let mut left = cards.both(place.choices());
    'cards: while let Some(card) = left.pop_first() {
        if is_so(place.position(), card, manner) {
            here = here.with(card);
        }
    }
    here
}

fn is_turn(position: &Position, seat: Seat) -> bool
    ensures { result ≡ same_seat (to_play position.now) seat }
{
    position.to_play() == seat
}

fn is_so(position: &Position, card: Card, manner: Manner) -> bool
    ensures { result ≡ same_manner (manner_of position.now card) manner }
{
    manner_of(position, card) == manner
}

/// Who won the trick, if at each node it is over and the same seat won it.
pub fn winner_at(places: &[Node]) -> Option<Seat>
    ensures { result ≡ winner_at places.now }
{
    let seat = places.first()?.position().trick.leader;
    if all_lead(places, seat) {
        Some(seat)
    } else {
        None
    }
}

// Whether at each node a trick begins with this seat's lead.
fn all_lead(places: &[Node], seat: Seat) -> bool
    ensures { result ≡ list_all (leads_next seat) places.now }
{
    for place in places {
        let trick = &place.position().trick;
        if !trick.cards.is_empty() || trick.leader != seat {
            return false;
        }
    }
    true
}
