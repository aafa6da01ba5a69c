//! The words for what a seat does.
ghost use Rattle.std.specs.Prelude.{◌≡◌, ◌++◌, false, codes, OnOk};
ghost use Rattle.std.specs.List.{list_all};
ghost use Rattle.trick_rules.specs.Play.{decided};
ghost use Rattle.told_words.specs.Phrases.{compass_name, seat_name, cards_text, order_word, verb};
ghost use Rattle.told_words.specs.Phrases.{phrase, next_phrase, has_begun, phrases, turn_text};
ghost use Rattle.told_words.specs.Phrases.{is_result, end_text};

use crate::turns::{Manner, played_so};
use byte_text::Text;
use card_letters::letters_of;
use card_sets::{CardSet, Compass, Seat};
use std::alloc::AllocError;
use trick_rules::Node;

/// A seat and how it plays a card.
#[derive(Clone, Copy, Debug)]
pub struct Turn {
    pub seat: Seat,
    pub manner: Manner,
}

/// The turns in the order of the text.
pub const TURNS: [Turn; 16] = [
    Turn {
        seat: Seat::Declarer,
        manner: Manner::Lead,
    },
    Turn {
        seat: Seat::Declarer,
        manner: Manner::Follow,
    },
    Turn {
        seat: Seat::Declarer,
        manner: Manner::Ruff,
    },
    Turn {
        seat: Seat::Declarer,
        manner: Manner::Throw,
    },
    Turn {
        seat: Seat::Dummy,
        manner: Manner::Lead,
    },
    Turn {
        seat: Seat::Dummy,
        manner: Manner::Follow,
    },
    Turn {
        seat: Seat::Dummy,
        manner: Manner::Ruff,
    },
    Turn {
        seat: Seat::Dummy,
        manner: Manner::Throw,
    },
    Turn {
        seat: Seat::Left,
        manner: Manner::Lead,
    },
    Turn {
        seat: Seat::Left,
        manner: Manner::Follow,
    },
    Turn {
        seat: Seat::Left,
        manner: Manner::Ruff,
    },
    Turn {
        seat: Seat::Left,
        manner: Manner::Throw,
    },
    Turn {
        seat: Seat::Right,
        manner: Manner::Lead,
    },
    Turn {
        seat: Seat::Right,
        manner: Manner::Follow,
    },
    Turn {
        seat: Seat::Right,
        manner: Manner::Ruff,
    },
    Turn {
        seat: Seat::Right,
        manner: Manner::Throw,
    },
];

/// Appends a seat by its place at the table.
pub fn push_seat(out: &mut Text, declarer: Compass, seat: Seat) -> Result<(), AllocError>
    ensures { OnOk result (out.new ≡ out.old ++ seat_name declarer seat) }
{
    out.push(seat_name(declarer, seat))
}

fn seat_name(declarer: Compass, seat: Seat) -> &'static [u8]
    ensures { result.now ≡ seat_name declarer seat }
{
    match seat {
        Seat::Declarer => compass_name(declarer),
        Seat::Left => compass_name(declarer.next()),
        Seat::Dummy => compass_name(declarer.next().next()),
        Seat::Right => compass_name(declarer.next().next().next()),
    }
}

fn compass_name(place: Compass) -> &'static [u8]
    ensures { result.now ≡ compass_name place }
{
    match place {
        Compass::N => b"North",
        Compass::E => b"East",
        Compass::S => b"South",
        Compass::W => b"West",
    }
}

// Appends the cards as `D2, D6 or D9`.
fn push_cards(out: &mut Text, cards: CardSet) -> Result<(), AllocError>
    ensures { OnOk result (out.new ≡ out.old ++ cards_text cards) }
{
    let mut left = cards;
    let Some(first) = left.pop_first() else {
        return Ok(());
    };
    out.push(&letters_of(first))?;
    'cards: while let Some(card) = left.pop_first() {
        if left.is_empty() {
            out.push(b" or ")?;
        } else {
            out.push(b", ")?;
        }
        out.push(&letters_of(card))?;
    }
    Ok(())
}

// The words for a manner: those of an order to declarer, and those of what a defender does.
fn words(manner: Manner) -> (&'static [u8], &'static [u8])
    ensures order { result.0.now ≡ order_word manner }
    ensures verb { result.1.now ≡ verb manner }
{
    match manner {
        Manner::Lead => (b"lead ", b" leads "),
        Manner::Follow => (b"play ", b" plays "),
        Manner::Ruff => (b"ruff with ", b" ruffs with "),
        Manner::Throw => (b"throw ", b" throws "),
    }
}

// Appends an order to declarer, and the hand that the card comes from.
fn push_own(out: &mut Text, manner: Manner, cards: CardSet, from: &[u8]) -> Result<(), AllocError>
    ensures { OnOk result
        (out.new ≡ out.old ++ (order_word manner ++ cards_text cards ++ from.now)) }
{
    let (order, _) = words(manner);
    out.push(order)?;
    push_cards(out, cards)?;
    out.push(from)
}

// Appends what a seat plays.
fn push_phrase(
    out: &mut Text,
    declarer: Compass,
    turn: Turn,
    cards: CardSet,
) -> Result<(), AllocError>
    ensures { OnOk result (out.new ≡ out.old ++ phrase declarer turn.seat turn.manner cards) }
{
    match turn.seat {
        Seat::Declarer => push_own(out, turn.manner, cards, b" from hand"),
        Seat::Dummy => push_own(out, turn.manner, cards, b" from dummy"),
        Seat::Left | Seat::Right => {
            let (_, verb) = words(turn.manner);
            push_seat(out, declarer, turn.seat)?;
            out.push(verb)?;
            push_cards(out, cards)
        }
    }
}

// Appends what a seat plays, if it plays a card.
fn push_next_phrase(
    out: &mut Text,
    declarer: Compass,
    turn: Turn,
    cards: CardSet,
    begun: bool,
) -> Result<(), AllocError>
    ensures { OnOk result (out.new ≡ out.old ++ next_phrase declarer turn cards begun) }
{
    if cards.is_empty() {
        return Ok(());
    }
    if begun {
        out.push(b", or ")?;
    }
    push_phrase(out, declarer, turn, cards)
}

/// Appends who plays one of the cards at these nodes, and how.
pub fn push_turn(
    out: &mut Text,
    declarer: Compass,
    cards: CardSet,
    places: &[Node],
) -> Result<(), AllocError>
    ensures { OnOk result (out.new ≡ out.old ++ turn_text declarer cards places.now) }
{
    push_turns(out, declarer, cards, places, &TURNS)
}

// The same of some turns.
fn push_turns(
    out: &mut Text,
    declarer: Compass,
    cards: CardSet,
    places: &[Node],
    turns: &[Turn],
) -> Result<(), AllocError>
    ensures { OnOk result
        (out.new ≡ out.old ++ phrases declarer cards places.now false turns.now) }
{
    let mut begun = false;
    for turn in turns {
        let own = played_so(places, cards, turn.seat, turn.manner);
        push_next_phrase(out, declarer, *turn, own, begun)?;
        begun = has_begun(own, begun);
    }
    Ok(())
}

// Whether there is a phrase by now.
fn has_begun(cards: CardSet, begun: bool) -> bool
    ensures { result ≡ has_begun cards begun }
{
    begun || !cards.is_empty()
}

/// Appends how a plan stops at these nodes.
pub fn push_end(out: &mut Text, places: &[Node]) -> Result<(), AllocError>
    ensures { OnOk result (out.new ≡ out.old ++ end_text places.now) }
{
    if all_decided(places, true) {
        out.push(b"the contract is made")
    } else if all_decided(places, false) {
        out.push(b"the contract is down")
    } else {
        out.push(b"the plan ends here")
    }
}

// Whether the result is decided at each node, and is this one.
fn all_decided(places: &[Node], made: bool) -> bool
    ensures { result ≡ list_all (λ n. is_result made (decided n.position)) places.now }
{
    for place in places {
        if place.position().decided() != Some(made) {
            return false;
        }
    }
    true
}
