//! What the sure cards of the side on lead settle.
ghost use Rattle.std.specs.Prelude.{◌≡◌, ◌≢◌, ℕ, ◌+◌, ◌<◌, ◌≤◌, true, false, [], length, IsTrue, IfSome};
ghost use Rattle.card_sets.specs.declared.card.Suit.TheVariants.{Spades, Hearts, Diamonds, Clubs};
ghost use Rattle.card_sets.specs.Cards.{suit_of};
ghost use Rattle.card_sets.specs.SetWords.{has_card, IsCardSet};
ghost use Rattle.trick_rules.specs.Positions.{to_play, tricks_left, FitsLeft};
ghost use Rattle.trick_rules.specs.Play.{is_declarers};
ghost use Rattle.trick_rules.specs.declared.trump.Trump.TheVariants.{NoTrump};
ghost use Rattle.sure_tricks.specs.Sure.{above, sure_of};
ghost use Rattle.equivalent_positions.specs.Alike.{IsClosedUp};
ghost use Rattle.dd_solver.specs.Sure.{AreWinnersIn, AreWinners};
ghost use Rattle.dd_solver.specs.Answers.{IsAnswer};

use crate::answer::{Answer, joined, up_from};
use crate::hands::{all_of, most_of_others};
use card_sets::{CardSet, Suit};
use sure_tricks::{Counts, SeenHands, can_lead_over, own_counts, partners_counts};
use trick_rules::{Position, Trump};

// Whether this many tricks of the side on lead are enough for what it wants.
fn are_enough(position: &Position, sure: u8) -> bool
    ensures ours { IsTrue result → is_declarers (to_play position.now) ≡ true
        → position.now.need ≤ sure }
    ensures theirs { IsTrue result → is_declarers (to_play position.now) ≡ false
        → tricks_left position.now < position.now.need + sure }
{
    if position.is_ours() {
        position.need <= sure
    } else {
        position.tricks_left() < position.need.saturating_add(sure)
    }
}

/// The hand's `many` highest cards of the suit, and every card above them.
pub(crate) fn highest_of(hand: CardSet, suit: Suit, many: u8) -> CardSet
    requires { IsCardSet hand }
    ensures closed { IsClosedUp result }
    ensures within { (card : ℕ) → has_card hand card ≡ true → suit_of card ≡ suit
        → length (above card hand) < many → has_card result card ≡ true }
{
    let mut rest = hand.of_suit(suit);
    while let Some(low) = rest.first() {
        if rest.count() <= many {
            return up_from(low);
        }
        rest = rest.without(low);
    }
    CardSet::empty()
}

// The rank winners of a suit among this many of a hand's highest cards, with all higher ones: once
// no other hand has a card of the suit, the ranks of the rest don't matter.
fn winners_in(hands: &SeenHands, suit: Suit, many: u8) -> CardSet
    requires { IsCardSet hands.now.own }
    ensures closed { IsClosedUp result }
    ensures next { AreWinnersIn suit many hands.now.own hands.now.next result }
    ensures partner { AreWinnersIn suit many hands.now.own hands.now.partner result }
    ensures last { AreWinnersIn suit many hands.now.own hands.now.last result }
{
    if many == 0 {
        return CardSet::empty();
    }
    highest_of(hands.own, suit, many.min(most_of_others(hands, suit)))
}

// The rank winners of each suit, as many of the hand's highest cards as are counted.
pub(crate) fn rank_winners(hands: &SeenHands, counts: &Counts) -> CardSet
    requires { IsCardSet hands.now.own }
    ensures closed { IsClosedUp result }
    ensures next { AreWinners counts.now hands.now.own hands.now.next result }
    ensures partner { AreWinners counts.now hands.now.own hands.now.partner result }
    ensures last { AreWinners counts.now hands.now.own hands.now.last result }
{
    let spades = winners_in(hands, Suit::Spades, counts.spades);
    let hearts = winners_in(hands, Suit::Hearts, counts.hearts);
    let diamonds = winners_in(hands, Suit::Diamonds, counts.diamonds);
    let clubs = winners_in(hands, Suit::Clubs, counts.clubs);
    joined(joined(spades, hearts), joined(diamonds, clubs))
}

// How many of these tricks the side on lead can do without.
fn spare_of(position: &Position, sure: u8) -> u8
    ensures within { result ≤ sure }
    ensures ours { is_declarers (to_play position.now) ≡ true → position.now.need ≤ sure
        → position.now.need + result ≤ sure }
    ensures theirs { is_declarers (to_play position.now) ≡ false
        → tricks_left position.now < position.now.need + sure
        → tricks_left position.now + result < position.now.need + sure }
{
    let most = position.tricks_left();
    if position.is_ours() {
        return if position.need <= sure {
            sure - position.need
        } else {
            0
        };
    }
    if most < position.need {
        return sure;
    }
    let needed = most - position.need;
    if needed < sure { sure - needed - 1 } else { 0 }
}

// The sure cards without this many of them, those of the spades first.
pub(crate) fn without(counts: &Counts, spare: u8) -> Counts
    requires { spare ≤ counts.now.spades + counts.now.hearts + counts.now.diamonds
        + counts.now.clubs }
    ensures spades { result.spades ≤ counts.now.spades }
    ensures hearts { result.hearts ≤ counts.now.hearts }
    ensures diamonds { result.diamonds ≤ counts.now.diamonds }
    ensures clubs { result.clubs ≤ counts.now.clubs }
    ensures total { result.spades + result.hearts + result.diamonds + result.clubs + spare
        ≡ counts.now.spades + counts.now.hearts + counts.now.diamonds + counts.now.clubs }
{
    let spades = spare.min(counts.spades);
    let hearts = (spare - spades).min(counts.hearts);
    let diamonds = (spare - spades - hearts).min(counts.diamonds);
    let clubs = spare - spades - hearts - diamonds;
    Counts {
        spades: counts.spades - spades,
        hearts: counts.hearts - hearts,
        diamonds: counts.diamonds - diamonds,
        clubs: counts.clubs - clubs,
    }
}

// Of the sure cards of the hand on lead as many as are needed where all are enough, at no trump:
// fewer cards that count make an answer that holds for more positions.
fn needed_of(position: &Position, own: &Counts) -> Counts
    requires { own.now.spades + own.now.hearts + own.now.diamonds + own.now.clubs ≤ 52 }
    ensures spades { result.spades ≤ own.now.spades }
    ensures hearts { result.hearts ≤ own.now.hearts }
    ensures diamonds { result.diamonds ≤ own.now.diamonds }
    ensures clubs { result.clubs ≤ own.now.clubs }
    ensures all { position.now.trump ≢ NoTrump → result ≡ own.now }
    ensures ours { is_declarers (to_play position.now) ≡ true
        → position.now.need ≤ own.now.spades + own.now.hearts + own.now.diamonds + own.now.clubs
        → position.now.need ≤ result.spades + result.hearts + result.diamonds + result.clubs }
    ensures theirs { is_declarers (to_play position.now) ≡ false
        → tricks_left position.now < position.now.need
        + (own.now.spades + own.now.hearts + own.now.diamonds + own.now.clubs)
        → tricks_left position.now < position.now.need
        + (result.spades + result.hearts + result.diamonds + result.clubs) }
{
    match position.trump {
        Trump::NoTrump => without(own, spare_of(position, own.total())),
        Trump::Suit(_) => *own,
    }
}

// The cards in play of the suits of which a hand has the best card.
fn suits_headed(hand: CardSet, playing: CardSet) -> CardSet {
    let mut headed = CardSet::empty();
    for suit in Suit::ALL {
        let here = playing.of_suit(suit);
        match here.last() {
            Some(best) if hand.has(best) => headed = headed.either(here),
            _ => {}
        }
    }
    headed
}

// Whether the hand on lead may have enough sure cards: with trumps, it has no more than it has
// cards of the suits of which it has the best card. At no trump, counting is as fast as this look.
fn may_be_enough(position: &Position, left: CardSet) -> bool {
    if position.trump == Trump::NoTrump {
        return true;
    }
    let hands = SeenHands::of(position, left, position.to_play());
    let headed = suits_headed(hands.own, all_of(&hands));
    are_enough(position, hands.own.both(headed).count())
}

// Whether the hand on lead has a card of a suit of which its partner has the best card. If not, it
// can't lead over to a sure card.
fn may_lead_over(position: &Position, left: CardSet) -> bool {
    let hands = SeenHands::of(position, left, position.to_play());
    !hands
        .own
        .is_disjoint(suits_headed(hands.partner, all_of(&hands)))
}

// The answer if the sure cards of both hands of the side on lead settle it at no trump.
fn joint_answer(position: &Position, left: CardSet, own: &Counts) -> Option<Answer>
    requires fits { FitsLeft position.now left }
    requires between { position.now.trick.cards ≡ [] }
    requires no_trump { position.now.trump ≡ NoTrump }
    requires spades { own.now.spades
        ≡ sure_of (record { position = position.now; left = left }) Spades }
    requires hearts { own.now.hearts
        ≡ sure_of (record { position = position.now; left = left }) Hearts }
    requires diamonds { own.now.diamonds
        ≡ sure_of (record { position = position.now; left = left }) Diamonds }
    requires clubs { own.now.clubs
        ≡ sure_of (record { position = position.now; left = left }) Clubs }
    requires few { own.now.spades + own.now.hearts + own.now.diamonds + own.now.clubs ≤ 52 }
    ensures { IfSome result
        (λ answer. IsAnswer (record { position = position.now; left = left }) answer) }
{
    if !may_lead_over(position, left) {
        return None;
    }
    let partners = partners_counts(position, left);
    let both = position.tricks_left().min(own.total() + partners.total());
    if !can_lead_over(position, left, &partners) || !are_enough(position, both) {
        return None;
    }
    let seat = position.to_play();
    let ours = rank_winners(&SeenHands::of(position, left, seat), own);
    let theirs = rank_winners(
        &SeenHands::of(position, left, seat.next().next()),
        &partners,
    );
    Some(Answer {
        made: position.is_ours(),
        counting: joined(ours, theirs),
    })
}

/// The answer if the sure cards of the side on lead settle it.
pub(crate) fn sure_answer(position: &Position, left: CardSet) -> Option<Answer>
    requires fits { FitsLeft position.now left }
    requires between { position.now.trick.cards ≡ [] }
    ensures { IfSome result
        (λ answer. IsAnswer (record { position = position.now; left = left }) answer) }
{
    if !may_be_enough(position, left) {
        return None;
    }
    let own = own_counts(position, left);
    if are_enough(position, own.total()) {
        let needed = needed_of(position, &own);
        let hands = SeenHands::of(position, left, position.to_play());
        return Some(Answer {
            made: position.is_ours(),
            counting: rank_winners(&hands, &needed),
        });
    }
    match position.trump {
        Trump::NoTrump => joint_answer(position, left, &own),
        Trump::Suit(_) => None,
    }
}
