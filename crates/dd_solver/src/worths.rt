//! Move ordering of leads: what a lead is worth if it wins the trick, and if it doesn't.
ghost use Rattle.std.specs.Prelude.{◌≤◌};

use crate::honours::{Honours, Lower, holds};
use card_sets::Suit;
use sure_tricks::SeenHands;
use trick_rules::Trump;

/// What leads of a suit are worth.
#[derive(Clone, Copy)]
pub(crate) struct Worths {
    /// A card that wins the trick.
    wins: u8,
    /// One that doesn't.
    loses: u8,
    /// What an honour adds that doesn't win.
    honour: u8,
    /// What the lead adds that was best at such a turn before, if it wins and if it doesn't.
    best_wins: u8,
    best_loses: u8,
}

// With no trumps, a card that loses is worth more if the opponents have the best card, and more if
// the side has the next two, most of all if partner has them.
fn no_trump_worths(hands: &SeenHands, honours: &Honours, suit: Suit) -> Worths {
    let lower = match Lower::of(hands, honours, suit) {
        Lower::Partners => 30,
        Lower::Split => 20,
        Lower::Elsewhere => 0,
    };
    Worths {
        wins: 57,
        loses: if holds(hands.own, honours.best) {
            lower
        } else {
            lower + 17
        },
        honour: 36,
        best_wins: 100,
        best_loses: 40,
    }
}

// With trumps, a suit is worth most if partner has the best card, and next if the hand on lead has
// it, above all with partner's second best.
fn suit_worths(hands: &SeenHands, honours: &Honours, suit: Suit) -> Worths {
    let lower = match Lower::of(hands, honours, suit) {
        Lower::Partners => 8,
        Lower::Split => 25,
        Lower::Elsewhere => 0,
    };
    let (wins, loses) = if holds(hands.partner, honours.best) {
        (41, 30)
    } else if !holds(hands.own, honours.best) {
        (30, 0)
    } else if holds(hands.partner, honours.second) {
        (36, 28)
    } else {
        (31, 6)
    };
    Worths {
        wins,
        loses: loses + lower,
        honour: 22,
        best_wins: 48,
        best_loses: 18,
    }
}

impl Worths {
    pub(crate) fn of(hands: &SeenHands, honours: &Honours, trump: Trump, suit: Suit) -> Worths {
        match trump {
            Trump::NoTrump => no_trump_worths(hands, honours, suit),
            Trump::Suit(_) => suit_worths(hands, honours, suit),
        }
    }

    /// What a card is worth.
    pub(crate) fn of_card(&self, wins: bool, is_honour: bool, was_best: bool) -> u16
        ensures { result ≤ 765 }
    {
        let worth = if wins {
            u16::from(self.wins)
        } else if is_honour {
            u16::from(self.loses) + u16::from(self.honour)
        } else {
            u16::from(self.loses)
        };
        if !was_best {
            worth
        } else if wins {
            worth + u16::from(self.best_wins)
        } else {
            worth + u16::from(self.best_loses)
        }
    }
}
