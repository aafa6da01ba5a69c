//! A side on lead that needs all the tricks at no trump (DDS: later tricks): it fails if its
//! opponents' stoppers outlast its other suits.
ghost use Rattle.std.specs.Prelude.{◌≡◌, ◌≤◌, ◌<◌, [], true, false, IsTrue, IfSome, ℕ};
ghost use Rattle.card_sets.specs.Cards.{suit_of};
ghost use Rattle.card_sets.specs.SetWords.{has_card, IsSubset};
ghost use Rattle.trick_rules.specs.Positions.{to_play, tricks_left, FitsLeft};
ghost use Rattle.trick_rules.specs.Play.{is_declarers};
ghost use Rattle.trick_rules.specs.declared.trump.Trump.TheVariants.{NoTrump};
ghost use Rattle.equivalent_positions.specs.Alike.{IsClosedUp};
ghost use Rattle.dd_solver.specs.NeedsAll.{longer_of, rounds_in, IsHighestIn, AreHighest, DoOutlast};
ghost use Rattle.dd_solver.specs.Answers.{IsAnswer};

use crate::answer::{Answer, with_up};
use card_sets::{Card, CardSet, Suit};
use sure_tricks::SeenHands;
use trick_rules::{Position, Trump};

// Whether the side on lead needs all the tricks, at no trump.
fn needs_all(position: &Position) -> bool
    ensures no_trump { IsTrue result → position.now.trump ≡ NoTrump }
    ensures ours { IsTrue result → is_declarers (to_play position.now) ≡ true
        → tricks_left position.now ≤ position.now.need }
    ensures theirs { IsTrue result → is_declarers (to_play position.now) ≡ false
        → position.now.need ≤ 1 }
{
    if position.trump != Trump::NoTrump {
        return false;
    }
    if position.is_ours() {
        position.tricks_left() <= position.need
    } else {
        position.need <= 1
    }
}

// The highest card of a suit in the set.
fn highest_in(set: CardSet, suit: Suit) -> Option<Card>
    ensures { IfSome result (λ card. IsHighestIn set suit card) }
{
    set.of_suit(suit).last()
}

// The highest card in play of a suit that the side has, if its opponents hold that card.
fn stopper_in(ours: CardSet, theirs: CardSet, suit: Suit) -> CardSet
    ensures held { IsSubset result theirs }
    ensures ours { AreHighest result ours }
    ensures theirs { AreHighest result theirs }
{
    if ours.of_suit(suit).is_empty() {
        return CardSet::empty();
    }
    match highest_in(ours.either(theirs), suit) {
        Some(card) if theirs.has(card) => CardSet::empty().with(card),
        _ => CardSet::empty(),
    }
}

// Those of all suits.
fn stoppers_of(ours: CardSet, theirs: CardSet) -> CardSet
    ensures held { IsSubset result theirs }
    ensures ours { AreHighest result ours }
    ensures theirs { AreHighest result theirs }
{
    let spades = stopper_in(ours, theirs, Suit::Spades);
    let hearts = stopper_in(ours, theirs, Suit::Hearts);
    let diamonds = stopper_in(ours, theirs, Suit::Diamonds);
    let clubs = stopper_in(ours, theirs, Suit::Clubs);
    spades.either(hearts).either(diamonds.either(clubs))
}

// How often the side can lead or follow to a suit that isn't stopped.
fn longer(hands: &SeenHands, stoppers: CardSet, suit: Suit) -> u8
    ensures value { result ≡ longer_of hands.now.own hands.now.partner stoppers suit }
    ensures few { result ≤ 52 }
{
    if !stoppers.of_suit(suit).is_empty() {
        return 0;
    }
    let own = hands.own.of_suit(suit).count();
    let partner = hands.partner.of_suit(suit).count();
    own.max(partner)
}

// Whether the stoppers are still there when the suits that aren't stopped are used up.
fn do_outlast(hands: &SeenHands, stoppers: CardSet, tricks: u8) -> bool
    ensures { IsTrue result → DoOutlast hands.now stoppers tricks }
{
    let major = longer(hands, stoppers, Suit::Spades) + longer(hands, stoppers, Suit::Hearts);
    let minor = longer(hands, stoppers, Suit::Diamonds) + longer(hands, stoppers, Suit::Clubs);
    let rounds = major + minor;
    if rounds >= tricks {
        return false;
    }
    let next = hands.next.both(stoppers).count();
    let last = hands.last.both(stoppers).count();
    // A hand with two can keep the right one to the end.
    next.max(last) <= 2.max(tricks - rounds)
}

// Of these stoppers, some that outlast the other suits too: fewer cards that count make an
// answer that holds for more positions.
fn fewest(hands: &SeenHands, stoppers: CardSet, tricks: u8) -> CardSet
    requires { DoOutlast hands.now stoppers tricks }
    ensures outlast { DoOutlast hands.now result tricks }
    ensures within { IsSubset result stoppers }
{
    let mut kept = stoppers;
    let mut rest = stoppers;
    while let Some(card) = rest.pop_first() {
        let fewer = kept.without(card);
        if do_outlast(hands, fewer, tricks) {
            kept = fewer;
        }
    }
    kept
}
// The cards with all higher ones of their suits.
fn with_higher(cards: CardSet) -> CardSet
    ensures closed { IsClosedUp result }
    ensures within { IsSubset cards result }
{
    let mut counting = CardSet::empty();
    let mut rest = cards;
    while let Some(card) = rest.pop_first() {
        counting = with_up(counting, card);
    }
    counting
}

/// The answer if the side on lead needs all the tricks at no trump, and stoppers outlast its other
/// suits.
pub(crate) fn needs_all_answer(position: &Position, left: CardSet) -> Option<Answer>
    requires fits { FitsLeft position.now left }
    requires between { position.now.trick.cards ≡ [] }
    ensures { IfSome result
        (λ answer. IsAnswer (record { position = position.now; left = left }) answer) }
{
    if !needs_all(position) {
        return None;
    }
    let hands = SeenHands::of(position, left, position.to_play());
    let ours = hands.own.either(hands.partner);
    let stoppers = stoppers_of(ours, hands.next.either(hands.last));
    let tricks = position.tricks_left();
    if stoppers.is_empty() || !do_outlast(&hands, stoppers, tricks) {
        return None;
    }
    Some(Answer {
        made: !position.is_ours(),
        counting: with_higher(fewest(&hands, stoppers, tricks)),
    })
}
