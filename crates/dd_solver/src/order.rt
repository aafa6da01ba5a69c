//! Move ordering: which cards are tried first. The order changes no answer.
ghost use Rattle.std.specs.Prelude.{◌≡◌, true, [], MatchOption};
ghost use Rattle.card_sets.specs.SetWords.{has_card, IsSubset};

use crate::hands::has_two;
use crate::leads::LeadWeights;
use crate::plays::{likely_plays, longest_side_suit};
use card_sets::{Card, CardSet, Seat};
use trick_rules::{Position, Trump};

/// How many turns to lead are told apart.
pub(crate) const TURNS: usize = 784;

/// A number of a turn to lead, by the seat, the tricks left and the need, from 0: `None` to a trick
/// that has a card.
pub(crate) fn turn_of(position: &Position) -> Option<usize> {
    if !position.trick.cards.is_empty() {
        return None;
    }
    let seat = match position.trick.leader {
        Seat::Declarer => 0,
        Seat::Left => 1,
        Seat::Dummy => 2,
        Seat::Right => 3,
    };
    let hand = usize::from(position.declarer.count()) * 4 + seat;
    Some(hand * 14 + usize::from(position.need))
}

// Those of some cards that are in another set, or all if there are none.
fn narrowed(cards: CardSet, part: CardSet) -> CardSet
    ensures within { IsSubset result cards }
    ensures some { result ≡ [] → cards ≡ [] }
{
    let both = cards.both(part);
    if both.is_empty() { cards } else { both }
}

/// Which of some cards go before the others.
#[derive(Clone, Copy)]
pub(crate) enum Order {
    /// The best lead of another position. Nothing is said of the others yet.
    Begun(Card),
    /// The heaviest lead.
    Leads(LeadWeights),
    /// Those in this set. Nothing is said of the others yet.
    Likely(CardSet),
    /// Those in the first set, and of these, or of all if none is, those in the second.
    Plays(CardSet, CardSet),
}

impl Order {
    // The order of all these cards.
    fn of(position: &Position, left: CardSet, cards: CardSet, best_leads: CardSet) -> Order {
        if !has_two(cards) {
            return Order::Plays(cards, cards);
        }
        match position.trick.suit_led() {
            None => Order::Leads(LeadWeights::of(position, left, cards, best_leads)),
            Some(led) => {
                let likely = likely_plays(position, left, led, cards);
                // Cards that follow suit are all of one suit.
                if !cards.of_suit(led).is_empty() {
                    Order::Plays(likely, cards)
                } else if !likely.is_empty() {
                    Order::Likely(likely)
                } else {
                    Order::Plays(cards, longest_side_suit(position, left, cards))
                }
            }
        }
    }

    /// An order for some cards. With trumps the best lead of this turn weighs more. At no trump it
    /// goes first if it is among them, and the others are weighed only once it has failed.
    pub(crate) fn begun(
        position: &Position,
        left: CardSet,
        cards: CardSet,
        best_lead: Option<Card>,
    ) -> Order {
        match best_lead {
            Some(card) if position.trump == Trump::NoTrump && cards.has(card) => {
                Order::Begun(card)
            }
            Some(card) => Order::of(position, left, cards, CardSet::empty().with(card)),
            None => Order::of(position, left, cards, CardSet::empty()),
        }
    }

    /// Orders the cards that are left, if only the first is known.
    pub(crate) fn complete(&mut self, position: &Position, left: CardSet, cards: CardSet) {
        match self {
            Order::Begun(_) => *self = Order::of(position, left, cards, CardSet::empty()),
            Order::Likely(likely) if cards.is_disjoint(*likely) => {
                *self = Order::Plays(cards, longest_side_suit(position, left, cards));
            }
            _ => {}
        }
    }

    /// The one of these cards that goes first: `None` exactly if there are none.
    pub(crate) fn first_of(&self, cards: CardSet) -> Option<Card>
        ensures { MatchOption result (cards ≡ []) (λ card. has_card cards card ≡ true) }
    {
        match self {
            Order::Begun(card) if cards.has(*card) => Some(*card),
            Order::Begun(_) => cards.first(),
            Order::Likely(likely) => narrowed(cards, *likely).first(),
            Order::Leads(weights) => weights.heaviest_of(cards),
            Order::Plays(first, second) => narrowed(narrowed(cards, *first), *second).first(),
        }
    }
}
