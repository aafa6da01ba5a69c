//! The hands of an ending with their cards of the other suits.
ghost use Rattle.std.specs.Prelude.{◌≡◌, ◌≤◌, ◌<◌, ◌++◌, [], ◌∷◌, not, filter, take, drop, IfOk, OnOk};
ghost use Rattle.card_sets.specs.SetWords.{has_card};
ghost use Rattle.layout_maker.specs.MadeProblem.{set_of};
ghost use Rattle.suit_problem.specs.Endings.{tops, smalls, north_hand, south_hand, side_card, side_cards, west_hand, east_hand, IsEnding};

use crate::ending::Ending;
use card_sets::{Card, CardSet, Rank, Suit};
use std::alloc::{AllocError, Global};

fn tops(suit: Suit, count: u8) -> CardSet
    requires some { 1 ≤ count }
    requires few { count ≤ 13 }
    ensures { result ≡ tops suit count }
{
    CardSet::up_from(Card::new(suit, Rank::new(15 - count)))
}

fn smalls(suit: Suit, count: u8) -> CardSet
    requires { count ≤ 12 }
    ensures { result ≡ smalls suit count }
{
    let higher = CardSet::up_from(Card::new(suit, Rank::new(2 + count)));
    CardSet::pack().of_suit(suit).minus(higher)
}

/// North's hand.
pub(crate) fn north_hand(ending: &Ending) -> CardSet
    requires { IsEnding ending.now }
    ensures { result ≡ north_hand ending.now }
{
    let small = ending.tricks - ending.dummy.count() - ending.entries;
    let suit_and_entries = ending.dummy.either(tops(Suit::Hearts, ending.entries));
    suit_and_entries.either(smalls(Suit::Diamonds, small))
}

/// South's hand.
pub(crate) fn south_hand(ending: &Ending) -> CardSet
    requires { IsEnding ending.now }
    ensures { result ≡ south_hand ending.now }
{
    let small = ending.tricks - ending.south.count() - ending.entries;
    let suit_and_entries = ending.south.either(tops(Suit::Diamonds, ending.entries));
    suit_and_entries.either(smalls(Suit::Hearts, small))
}

fn side_card(place: u8) -> Card
    requires { place < 39 }
    ensures { result ≡ side_card place }
{
    if place >= 26 {
        return Card::new(Suit::Clubs, Rank::new(40 - place));
    }
    let suit = if place % 2 == 0 {
        Suit::Hearts
    } else {
        Suit::Diamonds
    };
    Card::new(suit, Rank::new(14 - place / 2))
}

// Adds the card if it isn't ours.
fn push_unless(cards: &mut Vec<Card>, ours: CardSet, card: Card) -> Result<(), AllocError>
    ensures { OnOk result (cards.new.items
        ≡ cards.old.items ++ filter (λ c. not (has_card ours c)) (card ∷ [])) }
{
    if !ours.has(card) {
        cards.push(card)?;
    }
    Ok(())
}

/// The cards of the other suits that the defenders may hold: hearts and diamonds in turn from the
/// ace down, and then the clubs.
pub(crate) fn side_cards(alloc: Global, ending: &Ending) -> Result<Vec<Card>, AllocError>
    requires { IsEnding ending.now }
    ensures { IfOk result (λ cards. cards.items ≡ side_cards ending.now) }
{
    let ours = north_hand(ending).either(south_hand(ending));
    let mut cards = Vec::new(alloc);
    for place in 0..39 {
        push_unless(&mut cards, ours, side_card(place))?;
    }
    Ok(cards)
}

// The set of these cards.
fn set_of(cards: &[Card]) -> CardSet
    ensures { result ≡ set_of cards.now }
{
    let mut set = CardSet::empty();
    for card in cards {
        set = set.with(*card);
    }
    set
}

// The set of `count` cards, or of all that there are, after the first `skipped`.
fn part(cards: &[Card], skipped: u8, count: u8) -> CardSet
    ensures { result ≡ set_of (take count (drop skipped cards.now)) }
{
    let start = usize::from(skipped).min(cards.len());
    let rest = &cards[start..];
    let end = usize::from(count).min(rest.len());
    set_of(&rest[..end])
}

/// West's hand, if it has these cards of the suit.
pub(crate) fn west_hand(ending: &Ending, sides: &[Card], cards: CardSet) -> CardSet
    requires sides { sides.now ≡ side_cards ending.now }
    ensures { result ≡ west_hand ending.now cards }
{
    let count = ending.tricks.saturating_sub(cards.count());
    cards.either(part(sides, 0, count))
}

/// East's hand, if it has these cards of the suit and West those.
pub(crate) fn east_hand(ending: &Ending, sides: &[Card], west: CardSet, cards: CardSet) -> CardSet
    requires sides { sides.now ≡ side_cards ending.now }
    ensures { result ≡ east_hand ending.now west cards }
{
    let skipped = ending.tricks.saturating_sub(west.count());
    let count = ending.tricks.saturating_sub(cards.count());
    cards.either(part(sides, skipped, count))
}
