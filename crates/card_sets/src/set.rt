//! A set of cards in one machine word: bit i is the card at place i in card order.
ghost use Rattle.std.specs.Prelude.{◌≡◌, ℕ, ◌+◌, ◌^◌, ◌<◌, ◌≤◌, ◌↔◌, ◌==◌, ◌&&◌, ◌||◌, Bool, not, true, false, nat_lt, IsTrue, List, [], ◌∷◌, filter, length, MatchOption};
ghost use Rattle.std.specs.List.{list_all};
ghost use Rattle.std.specs.Iterator.{YieldsFirst, item_count};
ghost use Rattle.bit_lists.specs.Bits.{places};
ghost use Rattle.card_sets.specs.Cards.{suit_of, same_suit};
ghost use Rattle.card_sets.specs.SetWords.{has_card, cards_where, IsCardSet, IsSubset, Apart, first_card, next_card, IsLast};
ghost use Rattle.card_sets.specs.Raised.{with_raised};

use crate::card::{Card, Suit};
use std::hash::{Hash, Hasher};
use std::marker::Model;

/// A set of cards, seen as the list of its cards in card order.
#[derive(Clone, Copy, Debug)]
pub struct CardSet {
    bits: u64,
}

impl Model for CardSet {
    ghost use Rattle.std.specs.Prelude.{List, ℕ, ◌<◌, ◌^◌};
    ghost use Rattle.std.proofs.Common.{ap};
    ghost use Rattle.bit_lists.specs.Bits.{places, number_at};
    ghost use Rattle.bit_lists.proofs.Places.{number_at-places};

    ghost Value = { List ℕ };

    ghost view = { λ cards. places 52 cards.bits };

    ghost invariant = { λ cards. cards.bits < 2 ^ 52 };

    ghost inverse = { λ cards. record { bits = number_at cards } };

    ghost inverse_ok = { λ cards fits. ap
        (λ n. record { bits = n }) (number_at-places 52 cards.bits fits) };
}

/// The ones of the thirteen spades.
const SPADES: u64 = 0x1fff;

/// The ones of all cards except the last of the first three suits: after each of these another suit
/// begins.
const NOT_LAST: u64 = 0xf_ffbf_fdff_efff;

/// The ones of all 52 cards.
const PACK: u64 = 0xf_ffff_ffff_ffff;

// The word with a one at the card's place.
fn bit_of(card: Card) -> u64
    ensures value { result ≡ 2 ^ card }
    ensures below { card < 52 }
{
    1u64 << card.number()
}

// The word with a one at each card of the suit.
fn suit_bits(suit: Suit) -> u64
    ensures value { places 52 result ≡ cards_where (λ card. same_suit (suit_of card) suit) }
    ensures fits { result < 2 ^ 52 }
{
    let before = match suit {
        Suit::Spades => 0u32,
        Suit::Hearts => 13,
        Suit::Diamonds => 26,
        Suit::Clubs => 39,
    };
    SPADES << before
}

// The card at the lowest one of the word.
fn lowest(bits: u64) -> Option<Card>
    requires { bits < 2 ^ 52 }
    ensures { result ≡ first_card (places 52 bits) }
{
    if bits == 0 {
        None
    } else {
        Some(Card::from_number(bits.trailing_zeros() as u8))
    }
}

impl Default for CardSet {
    ghost is_default = { λ cards. cards ≡ [] };

    fn default() -> CardSet {
        CardSet::empty()
    }
}

impl PartialEq for CardSet {
    ghost use Rattle.std.specs.Cmp as laws_of;
    ghost use Rattle.std.specs.Cmp.Lexicographic.{pointwise, nat_list_eq_equiv};
    ghost use Rattle.std.specs.Prelude.{nat_eq};

    ghost eq = { pointwise nat_eq };

    ghost laws = { laws_of.partial_equiv_from_equiv nat_list_eq_equiv };

    fn eq(&self, other: &CardSet) -> bool {
        self.bits == other.bits
    }
}

impl Eq for CardSet {
    ghost use Rattle.std.specs.Cmp.Lexicographic.{nat_list_eq_equiv};

    ghost laws = { nat_list_eq_equiv };
}

impl Hash for CardSet {
    ghost use Rattle.std.specs.Hash as fed;
    ghost use Rattle.std.proofs.Common.{ap};
    ghost use Rattle.std.proofs.lemmas.Slice.Eq.{bytes_eq-Decides};
    ghost use Rattle.bit_lists.specs.Bits.{number_at};

    ghost hash_input = { λ cards. fed.u64 (number_at cards) };

    ghost respects_eq = { λ these those same. ap
        (λ cards. fed.u64 (number_at cards)) ((bytes_eq-Decides these those).0 same) };

    fn hash<H: Hasher>(&self, state: &mut H) {
        state.write_u64(self.bits);
    }
}

impl CardSet {
    /// The set with no card.
    pub fn empty() -> CardSet
        ensures value { result ≡ [] }
        ensures a_set { IsCardSet result }
    {
        CardSet { bits: 0 }
    }

    /// The whole pack of 52 cards.
    pub fn pack() -> CardSet
        ensures value { result ≡ cards_where (λ _. true) }
        ensures a_set { IsCardSet result }
    {
        CardSet { bits: PACK }
    }

    /// The card and all higher ones of its suit.
    pub fn up_from(card: Card) -> CardSet
        ensures value { result ≡ cards_where
            (λ c. same_suit (suit_of c) (suit_of card) && not (nat_lt c card)) }
        ensures a_set { IsCardSet result }
    {
        CardSet {
            bits: suit_bits(card.suit()) & (u64::MAX << card.number()),
        }
    }

    /// Whether the card is in the set.
    pub fn has(self, card: Card) -> bool
        ensures value { result ≡ has_card self card }
        ensures a_set { IsCardSet self }
    {
        self.bits >> card.number() & 1 == 1
    }

    /// The set with the card put in. It may be there already.
    pub fn with(self, card: Card) -> CardSet
        ensures value { result ≡ cards_where (λ c. has_card self c || (c == card)) }
        ensures a_set { IsCardSet result }
    {
        CardSet {
            bits: self.bits | bit_of(card),
        }
    }

    /// The set with the card taken out. It need not be there.
    pub fn without(self, card: Card) -> CardSet
        ensures value { result ≡ filter (λ c. not (c == card)) self }
        ensures a_set { IsCardSet result }
    {
        CardSet {
            bits: self.bits & !bit_of(card),
        }
    }

    /// The cards of one suit.
    pub fn of_suit(self, suit: Suit) -> CardSet
        ensures value { result ≡ filter (λ c. same_suit (suit_of c) suit) self }
        ensures a_set { IsCardSet result }
    {
        CardSet {
            bits: self.bits & suit_bits(suit),
        }
    }

    /// The number of cards.
    pub fn count(self) -> u8
        ensures value { result ≡ length self }
        ensures a_set { IsCardSet self }
    {
        self.bits.count_ones() as u8
    }

    /// Whether the set has no card.
    pub fn is_empty(self) -> bool
        ensures value { IsTrue result ↔ (self ≡ []) }
        ensures a_set { IsCardSet self }
    {
        self.bits == 0
    }

    /// The first card in card order: `None` exactly when the set is empty.
    pub fn first(self) -> Option<Card>
        ensures value { result ≡ first_card self }
        ensures a_set { IsCardSet self }
    {
        lowest(self.bits)
    }

    /// The first card of the set that comes after this card in card order: `None` exactly when
    /// there is none.
    pub fn after(self, card: Card) -> Option<Card>
        ensures value { result ≡ next_card self card }
        ensures a_set { IsCardSet self }
    {
        lowest(self.bits & (u64::MAX << (card.number() + 1)))
    }

    /// The last card in card order: `None` exactly when the set is empty.
    pub fn last(self) -> Option<Card>
        ensures value { MatchOption result (self ≡ []) (λ card. IsLast card self) }
        ensures a_set { IsCardSet self }
    {
        if self.bits == 0 {
            None
        } else {
            Some(Card::from_number(self.bits.ilog2() as u8))
        }
    }

    /// The cards of this set that come after each card of the other.
    pub fn after_each(self, other: CardSet) -> CardSet
        ensures value { result ≡ filter (λ c. list_all (λ d. nat_lt d c) other) self }
        ensures a_set { IsCardSet result }
    {
        let Some(last) = other.last() else {
            return self;
        };
        CardSet {
            bits: self.bits & (u64::MAX << (last.number() + 1)),
        }
    }

    /// The cards just below a card of this set, in its suit.
    pub fn one_below(self) -> CardSet
        ensures value { result
            ≡ cards_where (λ c. has_card self (c + 1) && same_suit (suit_of c) (suit_of (c + 1))) }
        ensures a_set { IsCardSet result }
    {
        CardSet {
            bits: self.bits >> 1u32 & NOT_LAST,
        }
    }

    /// The cards of this set that are not in the other.
    pub fn minus(self, other: CardSet) -> CardSet
        ensures value { result ≡ filter (λ c. not (has_card other c)) self }
        ensures a_set { IsCardSet result }
    {
        CardSet {
            bits: self.bits & !other.bits,
        }
    }

    /// The cards that are in both sets.
    pub fn both(self, other: CardSet) -> CardSet
        ensures value { result ≡ filter (has_card other) self }
        ensures a_set { IsCardSet result }
    {
        CardSet {
            bits: self.bits & other.bits,
        }
    }

    /// The cards that are in one of the two sets or in both.
    pub fn either(self, other: CardSet) -> CardSet
        ensures value { result ≡ cards_where (λ c. has_card self c || has_card other c) }
        ensures a_set { IsCardSet result }
    {
        CardSet {
            bits: self.bits | other.bits,
        }
    }

    /// Whether each card of this set is in the other.
    pub fn is_subset(self, other: CardSet) -> bool
        ensures value { IsTrue result ↔ IsSubset self other }
        ensures a_set { IsCardSet self }
    {
        self.bits & !other.bits == 0
    }

    /// Whether no card is in both sets.
    pub fn is_disjoint(self, other: CardSet) -> bool
        ensures value { IsTrue result ↔ Apart self other }
        ensures a_set { IsCardSet self }
    {
        self.bits & other.bits == 0
    }

    /// The cards, with those of a place's suit below it each one place higher.
    pub fn raised_to(self, place: Card) -> CardSet
        ensures value { result ≡ with_raised place self }
        ensures a_set { IsCardSet result }
    {
        let below = self.bits & suit_bits(place.suit()) & (bit_of(place) - 1);
        CardSet {
            bits: self.bits & !below | below << 1u32,
        }
    }

    /// Takes out the first card in card order: `None` exactly when the set was empty.
    pub fn pop_first(&mut self) -> Option<Card>
        ensures value { MatchOption result ((self.old ≡ []) × (self.new ≡ []))
            (λ card. self.old ≡ card ∷ self.new) }
        ensures a_set { IsCardSet self.old }
    {
        let card = self.first()?;
        *self = self.without(card);
        Some(card)
    }
}

/// The cards of a set, one after another in card order.
#[derive(Debug, Drop)]
pub struct Cards {
    rest: CardSet,
}

impl Model for Cards {
    ghost use Rattle.std.specs.Prelude.{List, ℕ};

    ghost Value = { List ℕ };

    ghost view = { λ cards. cards.rest };
}

impl Iterator for Cards {
    type Item = Card;

    ghost next_gives = { YieldsFirst (λ cards. cards) };

    ghost remaining = { item_count (λ cards. cards) };

    fn next(&mut self) -> Option<Card> {
        self.rest.pop_first()
    }
}

impl IntoIterator for CardSet {
    type Item = Card;

    type IntoIter = Cards;

    ghost into_iter_gives = { λ these cards. cards ≡ these };

    fn into_iter(self) -> Cards {
        Cards { rest: self }
    }
}
