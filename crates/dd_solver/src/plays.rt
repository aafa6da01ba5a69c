//! Move ordering within a trick: the cards that most often win it are tried first, and in third
//! seat the lowest that forces out the fourth hand's highest. The second hand plays low if its
//! partner wins the trick, and covers only with touching cards. The order changes no answer.

use card_sets::{CardSet, Seat, Suit};
use trick_rules::{Position, Trump};

// Those of some cards of a suit that a hand with more cards of it than one beats by its highest
// card alone.
fn forcing_of(cards: CardSet, following: CardSet) -> CardSet {
    let Some(highest) = following.last() else {
        return CardSet::empty();
    };
    let lower = following.without(highest);
    if lower.is_empty() {
        return CardSet::empty();
    }
    let beaten = cards.minus(cards.after_each(following));
    beaten.after_each(lower)
}

/// A trick that has a card, as the seat to play sees it.
#[derive(Drop)]
struct Table {
    led: Suit,
    trump: Trump,
    /// The suit of the best card so far, and that card.
    best_suit: Suit,
    best: CardSet,
    is_partners: bool,
    /// The hand of the opponent who plays next, unless the trick is full by then.
    next: CardSet,
    /// Partner's hand if this is the second hand and follows suit: partner plays last.
    partner: CardSet,
    /// The hand to play, in the same case.
    own: CardSet,
    is_third: bool,
}

// The cards of a trick.
fn cards_of(position: &Position) -> CardSet {
    let mut cards = CardSet::empty();
    for card in position.trick.cards.as_slice() {
        cards = cards.with(*card);
    }
    cards
}

// The suit in which the best card of a trick is.
fn best_suit_of(played: CardSet, led: Suit, trump: Trump) -> Suit {
    match trump {
        Trump::Suit(suit) if !played.of_suit(suit).is_empty() => suit,
        _ => led,
    }
}

// A seat's hand, or no cards.
fn hand_if(counts: bool, position: &Position, left: CardSet, seat: Seat) -> CardSet {
    if counts {
        position.hand(seat, left)
    } else {
        CardSet::empty()
    }
}

impl Table {
    // Nothing if no card is played yet.
    fn of(position: &Position, left: CardSet, led: Suit, follows: bool) -> Option<Table> {
        let played = cards_of(position);
        let best_suit = best_suit_of(played, led, position.trump);
        let best = played.of_suit(best_suit).last()?;
        let cards = position.trick.cards.as_slice();
        let is_partners = match cards {
            [partners, _] | [_, partners, _] => *partners == best,
            _ => false,
        };
        let own = position.to_play();
        let seat = own.next();
        let is_second = cards.len() == 1 && follows;
        Some(Table {
            led,
            trump: position.trump,
            best_suit,
            best: CardSet::empty().with(best),
            is_partners,
            next: hand_if(cards.len() < 3, position, left, seat),
            partner: hand_if(is_second, position, left, seat.next()),
            own: hand_if(is_second, position, left, own),
            is_third: cards.len() == 2,
        })
    }

    // The cards that beat the best one so far.
    fn beating(&self, cards: CardSet) -> CardSet {
        let higher = cards.of_suit(self.best_suit).after_each(self.best);
        match self.trump {
            Trump::Suit(trump) if trump != self.best_suit => higher.either(cards.of_suit(trump)),
            _ => higher,
        }
    }

    // Those of some cards that the next opponent can't beat.
    fn safe(&self, cards: CardSet) -> CardSet {
        let following = self.next.of_suit(self.led);
        if !following.is_empty() {
            let led = cards.of_suit(self.led);
            return cards.minus(led).either(led.after_each(following));
        }
        let Trump::Suit(trump) = self.trump else {
            return cards;
        };
        let trumps = self.next.of_suit(trump);
        if trumps.is_empty() {
            cards
        } else {
            cards.of_suit(trump).after_each(trumps)
        }
    }

    // Those of some cards that only the fourth hand's highest beats, unless partner's card is such
    // a one already. All of them if the fourth hand can't follow suit.
    fn forcing(&self, cards: CardSet) -> CardSet {
        let following = self.next.of_suit(self.led);
        if following.is_empty() {
            return cards;
        }
        if self.is_partners && !forcing_of(self.best, following).is_empty() {
            return CardSet::empty();
        }
        forcing_of(cards.of_suit(self.led), following)
    }

    // Those of some cards that are worth playing though the next hand may beat them. A second hand
    // that follows suit covers only with the higher of two touching cards, unless the next can't.
    fn covering(&self, cards: CardSet) -> CardSet {
        if self.own.is_empty() || self.next.of_suit(self.led).is_empty() {
            return cards;
        }
        let Some(lower) = cards.one_below().both(self.own).first() else {
            return CardSet::empty();
        };
        match self.own.after(lower) {
            Some(card) => CardSet::empty().with(card),
            None => CardSet::empty(),
        }
    }

    // Whether partner wins the trick, by the best card so far or as the last to play.
    fn is_partners_trick(&self) -> bool {
        if self.is_partners {
            return !self.safe(self.best).is_empty();
        }
        let following = self.partner.of_suit(self.led);
        !following.is_empty() && !self.safe(self.beating(following)).is_empty()
    }

    // The cards to try first: none if partner wins the trick.
    fn likely(&self, cards: CardSet) -> CardSet {
        if self.is_partners_trick() {
            return CardSet::empty();
        }
        let beating = self.beating(cards);
        let safe = self.safe(beating);
        if !safe.is_empty() {
            safe
        } else if self.is_third {
            self.forcing(beating)
        } else {
            self.covering(beating)
        }
    }
}

// Of the suits of some cards the one in which a hand has most, as the hand has it.
fn longest_suit(hand: CardSet, cards: CardSet) -> CardSet {
    let mut longest = CardSet::empty();
    let mut most = 0;
    for suit in Suit::ALL {
        if !cards.of_suit(suit).is_empty() {
            let here = hand.of_suit(suit);
            let many = here.count();
            if most < many {
                longest = here;
                most = many;
            }
        }
    }
    longest
}

// The cards that aren't trumps.
fn side_cards(trump: Trump, cards: CardSet) -> CardSet {
    match trump {
        Trump::NoTrump => cards,
        Trump::Suit(suit) => cards.minus(cards.of_suit(suit)),
    }
}

/// The cards that are likely to win the trick.
pub(crate) fn likely_plays(
    position: &Position,
    left: CardSet,
    led: Suit,
    cards: CardSet,
) -> CardSet {
    match Table::of(position, left, led, !cards.of_suit(led).is_empty()) {
        Some(table) => table.likely(cards),
        None => CardSet::empty(),
    }
}

/// The longest suit of the seat to play that isn't trumps.
pub(crate) fn longest_side_suit(position: &Position, left: CardSet, cards: CardSet) -> CardSet {
    let hand = position.hand(position.to_play(), left);
    longest_suit(hand, side_cards(position.trump, cards))
}
