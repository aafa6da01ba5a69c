//! Move ordering of leads: the honours of a suit, and who has them.

use crate::hands::has_two;
use card_sets::{CardSet, Suit};
use sure_tricks::SeenHands;

/// The highest cards of a suit that are in play, each as a set: empty if there are fewer.
#[derive(Drop)]
pub(crate) struct Honours {
    pub(crate) best: CardSet,
    pub(crate) second: CardSet,
    pub(crate) third: CardSet,
}

impl Honours {
    pub(crate) fn of(cards: CardSet) -> Honours {
        let best = highest_of(cards);
        let rest = cards.minus(best);
        let second = highest_of(rest);
        Honours {
            best,
            second,
            third: highest_of(rest.minus(second)),
        }
    }
}

// The highest card of a suit.
fn highest_of(cards: CardSet) -> CardSet {
    match cards.last() {
        Some(card) => CardSet::empty().with(card),
        None => cards,
    }
}

/// Whether a hand has a card of these.
pub(crate) fn holds(hand: CardSet, cards: CardSet) -> bool {
    !hand.is_disjoint(cards)
}

/// What a lead does to the best cards of a suit.
#[derive(Clone, Copy)]
pub(crate) enum Finesse {
    /// The last hand has one of the best two, and can keep it.
    Fails,
    /// It goes through the best card to partner's second best, which partner can keep.
    Works,
    /// There is none.
    Neither,
}

impl Finesse {
    pub(crate) fn of(hands: &SeenHands, honours: &Honours, suit: Suit) -> Finesse {
        let last = hands.last.of_suit(suit);
        let partner = hands.partner.of_suit(suit);
        if holds(last, honours.best) || holds(last, honours.second) {
            if has_two(last) {
                return Finesse::Fails;
            }
        } else if holds(hands.next, honours.best)
            && holds(partner, honours.second)
            && has_two(partner)
        {
            return Finesse::Works;
        }
        Finesse::Neither
    }
}

/// Where the second and third best cards of a suit are.
#[derive(Clone, Copy)]
pub(crate) enum Lower {
    /// Partner has both.
    Partners,
    /// The two hands of the side have one each, and partner has another card too.
    Split,
    Elsewhere,
}

impl Lower {
    pub(crate) fn of(hands: &SeenHands, honours: &Honours, suit: Suit) -> Lower {
        let second = holds(hands.partner, honours.second);
        let third = holds(hands.partner, honours.third);
        if second && third {
            return Lower::Partners;
        }
        let split = second && holds(hands.own, honours.third)
            || third && holds(hands.own, honours.second);
        if split && has_two(hands.partner.of_suit(suit)) {
            Lower::Split
        } else {
            Lower::Elsewhere
        }
    }
}
