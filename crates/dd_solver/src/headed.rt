//! The suit led is headed (DDS: quick tricks of the second hand). It is asked before the second
//! hand plays.
ghost use Rattle.std.specs.Prelude.{◌≡◌, ◌≤◌, ℕ, ◌+◌, ◌-◌, ◌||◌, [], ◌∷◌, false, length, if◌then◌else◌, IfSome};
ghost use Rattle.card_sets.specs.declared.card.Suit.TheVariants.{Spades, Hearts, Diamonds, Clubs};
ghost use Rattle.card_sets.specs.declared.seat.Seat.{Seat};
ghost use Rattle.card_sets.specs.Cards.{suit_of};
ghost use Rattle.card_sets.specs.SetWords.{IsCardSet};
ghost use Rattle.trick_rules.specs.Positions.{State, seat_after, to_play, tricks_left, FitsLeft};
ghost use Rattle.trick_rules.specs.Play.{is_declarers};
ghost use Rattle.sure_tricks.specs.Sure.{AreSafe};
ghost use Rattle.dd_solver.specs.Headed.{AreHandsOf, HeadsTrick, IsFollowed, is_beyond_ruffs as nobody_ruffs, further_in, others_of};
ghost use Rattle.dd_solver.specs.Answers.{IsAnswer};

use crate::answer::{Answer, joined, up_from};
use crate::sure::{rank_winners, without};
use card_sets::{Card, CardSet, Suit};
use sure_tricks::{Counts, SeenHands};
use trick_rules::{Position, Trump};

/// The hand of a seat that still has to play to the card led, and the three others.
#[derive(Clone, Copy)]
struct FourHands {
    own: CardSet,
    partner: CardSet,
    leader: CardSet,
    /// The leader's partner.
    third: CardSet,
}

// Whether nobody can ruff a card of this suit.
fn is_beyond_ruffs(trump: Trump, suit: Suit) -> bool
    ensures { result ≡ nobody_ruffs trump suit }
{
    match trump {
        Trump::NoTrump => true,
        Trump::Suit(trumps) => trumps == suit,
    }
}

// Whether a hand can ruff a suit.
fn can_ruff(hand: CardSet, trump: Trump, suit: Suit) -> bool
    ensures { (card : ℕ) → suit_of card ≡ suit → result ≡ false
        → AreSafe trump (card ∷ []) hand }
{
    match trump {
        Trump::NoTrump => false,
        Trump::Suit(trumps) => {
            if trumps == suit {
                return false;
            }
            hand.of_suit(suit).is_empty() && !hand.of_suit(trumps).is_empty()
        }
    }
}

// If nobody can ruff the suit, how many cards of a hand are higher than each of the others'.
fn further_of(own: CardSet, others: CardSet, trump: Trump, suit: Suit) -> u8
    ensures { result ≡ further_in trump own others suit }
{
    let cards = own.of_suit(suit);
    if cards.is_empty() || !is_beyond_ruffs(trump, suit) {
        return 0;
    }
    cards.after_each(others.of_suit(suit)).count()
}

// The same of each suit.
fn further(own: CardSet, others: CardSet, trump: Trump) -> Counts
    requires { IsCardSet own }
    ensures spades { result.spades ≡ further_in trump own others Spades }
    ensures hearts { result.hearts ≡ further_in trump own others Hearts }
    ensures diamonds { result.diamonds ≡ further_in trump own others Diamonds }
    ensures clubs { result.clubs ≡ further_in trump own others Clubs }
    ensures few { result.spades + result.hearts + result.diamonds + result.clubs ≤ 52 }
{
    Counts {
        spades: further_of(own, others, trump, Suit::Spades),
        hearts: further_of(own, others, trump, Suit::Hearts),
        diamonds: further_of(own, others, trump, Suit::Diamonds),
        clubs: further_of(own, others, trump, Suit::Clubs),
    }
}

// How many tricks the side to play wants, to settle the result.
fn wanted(position: &Position) -> u8
    ensures { result ≡ (if is_declarers (to_play position.now) then position.now.need
        else tricks_left position.now + 1 - position.now.need) }
{
    if position.is_ours() {
        position.need
    } else {
        (position.tricks_left() + 1).saturating_sub(position.need)
    }
}

impl FourHands {
    // As the second hand sees it.
    fn of(position: &Position, left: CardSet) -> FourHands
        ensures { AreHandsOf (record { position = position.now; left = left })
            (to_play position.now) result }
    {
        let seat = position.to_play();
        let leader = position.trick.leader;
        FourHands {
            own: position.hand(seat, left),
            partner: position.hand(seat.next().next(), left),
            leader: position.hand(leader, left),
            third: position.hand(leader.next().next(), left),
        }
    }

    // As its partner sees it.
    fn of_partner(&self) -> FourHands
        ensures { (s : State) (x : Seat) → AreHandsOf s x self.now
            → AreHandsOf s (seat_after 2 x) result }
    {
        FourHands {
            own: self.partner,
            partner: self.own,
            leader: self.leader,
            third: self.third,
        }
    }

    // The hand's highest card of the suit led, if it takes the trick whatever is played.
    fn heading_card(&self, led: Card, trump: Trump) -> Option<Card>
        requires partner { IsCardSet self.now.partner }
        requires third { IsCardSet self.now.third }
        ensures { IfSome result (HeadsTrick trump led self.now) }
    {
        let suit = led.suit();
        let own = self.own.of_suit(suit);
        own.after(led)?;
        if can_ruff(self.third, trump, suit) || can_ruff(self.partner, trump, suit) {
            return None;
        }
        let to_come = self.partner.either(self.third).with(led);
        own.after_each(to_come.of_suit(suit)).last()
    }

    // The cards of the three others.
    fn others(&self) -> CardSet
        ensures { result ≡ others_of self.now }
    {
        self.partner.either(self.leader).either(self.third)
    }

    // The cards that count if, after this card, `rest` further cards of the hand take a trick each.
    fn counting(&self, card: Card, rest: u8, trump: Trump) -> Option<CardSet>
        ensures { IfSome result (IsFollowed trump self.now card rest) }
    {
        if rest == 0 {
            return Some(up_from(card));
        }
        let own = self.own.without(card);
        let all = further(own, self.others(), trump);
        if all.total() < rest {
            return None;
        }
        let seen = SeenHands {
            own,
            next: self.third,
            partner: self.partner,
            last: self.leader,
        };
        let winners = rank_winners(&seen, &without(&all, all.total() - rest));
        Some(joined(up_from(card), winners))
    }

    // The answer if the hand heads the suit led, and its side then has enough.
    fn answer(&self, position: &Position, left: CardSet, led: Card) -> Option<Answer>
        requires fits { FitsLeft position.now left }
        requires one { position.now.trick.cards ≡ led ∷ [] }
        requires partner { IsCardSet self.now.partner }
        requires third { IsCardSet self.now.third }
        ensures { (x : Seat)
            → AreHandsOf (record { position = position.now; left = left }) x self.now
            → is_declarers x ≡ is_declarers (to_play position.now)
            → IfSome result
            (λ answer. IsAnswer (record { position = position.now; left = left }) answer) }
    {
        let card = self.heading_card(led, position.trump)?;
        let rest = wanted(position).saturating_sub(1);
        let counting = self.counting(card, rest, position.trump)?;
        Some(Answer {
            made: position.is_ours(),
            counting,
        })
    }
}

/// The answer if the second or the fourth hand heads the suit led, and its side then has enough.
pub(crate) fn headed_answer(position: &Position, left: CardSet) -> Option<Answer>
    requires fits { FitsLeft position.now left }
    requires one { length position.now.trick.cards ≡ 1 }
    ensures { IfSome result
        (λ answer. IsAnswer (record { position = position.now; left = left }) answer) }
{
    let led = *position.trick.cards.first()?;
    let hands = FourHands::of(position, left);
    match hands.answer(position, left, led) {
        Some(answer) => Some(answer),
        None => hands.of_partner().answer(position, left, led),
    }
}
