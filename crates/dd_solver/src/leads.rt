//! Move ordering of leads: each lead has a weight, and the heaviest is tried first. The order
//! changes no answer.
ghost use Rattle.std.specs.Prelude.{◌≡◌, ◌≤◌, true, [], MatchOption};
ghost use Rattle.card_sets.specs.SetWords.{has_card};

use crate::hands::{all_of, has_two};
use crate::honours::{Finesse, Honours, holds};
use crate::worths::Worths;
use card_sets::{Card, CardSet, Suit};
use sure_tricks::SeenHands;
use trick_rules::{Position, Trump};

/// What no two hands' choices weigh more than.
const MOST_CHOICES: u16 = 7_650;

/// The most that the places of the cards take from a lead's weight.
const MOST_LOST: u16 = 21;

// How many cards a hand that has none of a suit may play to it.
fn discards_of(hand: CardSet, suit: Suit) -> u16
    ensures { result ≤ 255 }
{
    if hand.of_suit(suit).is_empty() {
        u16::from(hand.count())
    } else {
        0
    }
}

// How wide the opponents' choice of cards is in a suit: the cards that they may play to it, each
// seven or, with trumps, ten.
fn choices(hands: &SeenHands, trump: Trump, suit: Suit) -> u16
    ensures { result ≤ 7650 }
{
    let following = u16::from(hands.next.either(hands.last).of_suit(suit).count());
    let discards = discards_of(hands.next, suit) + discards_of(hands.last, suit);
    match trump {
        Trump::NoTrump => 7 * (following + discards),
        Trump::Suit(_) => 10 * (following + discards),
    }
}

// Whether a hand can ruff a suit.
fn can_ruff(hand: CardSet, trump: Trump, suit: Suit) -> bool {
    match trump {
        Trump::NoTrump => false,
        Trump::Suit(trumps) => {
            trumps != suit && hand.of_suit(suit).is_empty() && !hand.of_suit(trumps).is_empty()
        }
    }
}

/// Who can ruff a suit.
#[derive(Clone, Copy)]
struct Ruffs {
    opponents: bool,
    partner: bool,
}

impl Ruffs {
    fn of(hands: &SeenHands, trump: Trump, suit: Suit) -> Ruffs {
        Ruffs {
            opponents: can_ruff(hands.next, trump, suit) || can_ruff(hands.last, trump, suit),
            partner: can_ruff(hands.partner, trump, suit),
        }
    }
}

// The leads of a suit that win the trick for the side on lead. If partner has the best card or can
// ruff, each lead may win, unless an opponent ruffs or the hand on lead has the best card.
fn winners_of(hands: &SeenHands, ruffs: Ruffs, best: CardSet) -> CardSet {
    if ruffs.opponents {
        CardSet::empty()
    } else if holds(hands.own, best) {
        best
    } else if ruffs.partner || holds(hands.partner, best) {
        hands.own
    } else {
        CardSet::empty()
    }
}

// The card that is worth more than others of its suit though it may not win: of two touching
// honours below the best card the higher, and with trumps the best card itself.
fn honour_of(hands: &SeenHands, honours: &Honours, trump: Trump) -> CardSet {
    if trump != Trump::NoTrump && holds(hands.own, honours.best) {
        honours.best
    } else if holds(hands.own, honours.second) && holds(hands.own, honours.third) {
        honours.second
    } else {
        CardSet::empty()
    }
}

/// The leads of a suit, and what their weights have in common.
#[derive(Drop)]
struct SuitLeads {
    /// What wins the trick for the side on lead, if it is led.
    winners: CardSet,
    /// The honour that is worth more, though it may not win.
    honour: CardSet,
    worths: Worths,
    /// What the opponents' choices leave, and what the places of the cards add.
    ease: u16,
    ghost ease_fits: { ease ≤ 7750 },
}

// What the places of a suit's cards add at no trump: less if partner can't follow suit or the last
// hand has high cards, and more if the lead goes through the best card to partner's second best.
fn no_trump_weight(hands: &SeenHands, honours: &Honours, suit: Suit) -> u16
    ensures { result ≤ 50 }
{
    let weight = if hands.partner.of_suit(suit).is_empty() {
        MOST_LOST - 9
    } else {
        MOST_LOST
    };
    match Finesse::of(hands, honours, suit) {
        Finesse::Fails => weight - 12,
        Finesse::Works => weight + 29,
        Finesse::Neither => weight,
    }
}

// Whether a lead of this suit is a singleton, from a hand with trumps, to partner's best card.
fn is_singleton_to_best(hands: &SeenHands, honours: &Honours, trumps: Suit, suit: Suit) -> bool {
    let partner = hands.partner.of_suit(suit);
    holds(partner, honours.best)
        && has_two(partner)
        && trumps != suit
        && !has_two(hands.own.of_suit(suit))
        && !hands.own.of_suit(trumps).is_empty()
}

// What they add with trumps: the same of high cards, less if an opponent can ruff, more if partner
// can, and more for a singleton to partner's best card. If the opponents have no trumps, there are
// none to draw.
fn suit_weight(hands: &SeenHands, honours: &Honours, ruffs: Ruffs, trumps: Suit, suit: Suit) -> u16
    ensures { result ≤ 88 }
{
    if trumps == suit && hands.next.either(hands.last).of_suit(trumps).is_empty() {
        return 0;
    }
    let mut weight = match Finesse::of(hands, honours, suit) {
        Finesse::Fails => 25,
        Finesse::Works => 52,
        Finesse::Neither => 37,
    };
    if ruffs.opponents {
        weight -= 17;
    }
    if ruffs.partner && !hands.last.of_suit(suit).is_empty() {
        weight += 17;
    }
    if is_singleton_to_best(hands, honours, trumps, suit) {
        weight += 19;
    }
    weight
}

impl SuitLeads {
    fn of(hands: &SeenHands, trump: Trump, suit: Suit) -> SuitLeads {
        let honours = Honours::of(all_of(hands).of_suit(suit));
        let ruffs = Ruffs::of(hands, trump, suit);
        let places = match trump {
            Trump::NoTrump => no_trump_weight(hands, &honours, suit),
            Trump::Suit(trumps) => suit_weight(hands, &honours, ruffs, trumps, suit),
        };
        SuitLeads {
            winners: winners_of(hands, ruffs, honours.best),
            honour: honour_of(hands, &honours, trump),
            worths: Worths::of(hands, &honours, trump, suit),
            ease: MOST_CHOICES - choices(hands, trump, suit) + places,
        }
    }

    // What a lead weighs: more if it was best at such a turn before. Of like cards the lowest goes
    // first.
    fn weight(&self, card: Card, best_leads: CardSet) -> u16 {
        let wins = self.winners.has(card);
        let worth = self
            .worths
            .of_card(wins, self.honour.has(card), best_leads.has(card));
        self.ease + worth + u16::from(14 - card.rank().number())
    }

    // Weighs some leads of the suit.
    fn weigh(&self, weights: &mut LeadWeights, leads: CardSet, best_leads: CardSet) {
        for card in leads {
            weights.add(card, self.weight(card, best_leads));
        }
    }
}

/// The weights of the leads of a turn.
#[derive(Clone, Copy)]
pub(crate) struct LeadWeights {
    leads: CardSet,
    /// The weight of each lead, in card order, and how many are there.
    weights: [u16; 13],
    many: usize,
    /// The first of the leads that weigh most, and what it weighs.
    heaviest: Card,
    most: u16,
}

impl LeadWeights {
    // Adds the weight of the next lead.
    fn add(&mut self, card: Card, weight: u16) {
        if self.many < 13 {
            self.weights[self.many] = weight;
            self.many += 1;
        }
        if self.most < weight {
            self.heaviest = card;
            self.most = weight;
        }
    }

    /// Weighs some leads. Those that were best at such a turn before weigh more.
    pub(crate) fn of(
        position: &Position,
        left: CardSet,
        leads: CardSet,
        best_leads: CardSet,
    ) -> LeadWeights {
        let hands = SeenHands::of(position, left, position.to_play());
        let mut weights = LeadWeights {
            leads,
            weights: [0; 13],
            many: 0,
            heaviest: Card::default(),
            most: 0,
        };
        for suit in Suit::ALL {
            let here = leads.of_suit(suit);
            if !here.is_empty() {
                let weighed = SuitLeads::of(&hands, position.trump, suit);
                weighed.weigh(&mut weights, here, best_leads);
            }
        }
        weights
    }

    /// The one of these cards that weighs most, of like ones the first in card order.
    pub(crate) fn heaviest_of(&self, cards: CardSet) -> Option<Card>
        ensures { MatchOption result (cards ≡ []) (λ card. has_card cards card ≡ true) }
    {
        if cards.has(self.heaviest) {
            return Some(self.heaviest);
        }
        let mut rest = cards;
        let mut best = rest.pop_first()?;
        let mut most = 0;
        let mut leads = self.leads;
        for weight in self.weights.as_slice() {
            let Some(card) = leads.pop_first() else {
                break;
            };
            if most < *weight && cards.has(card) {
                best = card;
                most = *weight;
            }
        }
        Some(best)
    }
}
