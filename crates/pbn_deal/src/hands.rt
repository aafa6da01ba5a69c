//! The hands of a value in the Deal form, one after another.
ghost use Rattle.std.specs.Prelude.{◌≡◌, [], true, false, map, flat_map, count_by, MatchResult};
ghost use Rattle.std.specs.List.{before_first, after_first, list_all};
ghost use Rattle.card_sets.specs.SetWords.{IsCardSet};
ghost use Rattle.pbn_deal.specs.Hands.{
  is_hidden,
  is_full_stop,
  has_four_suits,
  has_rank_letters,
  suit_cards,
  hand_cards,
  hand_read,
};
ghost use Rattle.pbn_deal.specs.Deal.{has_repeat};
ghost use Rattle.pbn_deal.specs.Dealing.{repeats, Adds, hands_of};
ghost use Rattle.pbn_deal.specs.declared.deal.DealFault.TheVariants.{Repeated};

use crate::deal::DealFault;
use card_letters::read_rank;
use card_sets::{Card, CardSet, Suit};

fn is_hidden(hand: &[u8]) -> bool
    ensures { result ≡ is_hidden hand.now }
{
    matches!(hand, [b'-'])
}

fn count_full_stops(hand: &[u8]) -> usize
    ensures { result ≡ count_by is_full_stop hand.now }
{
    hand.iter().filter(|byte| **byte == b'.').count()
}

// Whether a hand is a dash or four suits.
fn has_four_suits(hand: &[u8]) -> bool
    ensures { result ≡ has_four_suits hand.now }
{
    is_hidden(hand) || count_full_stops(hand) == 3
}

// Whether a hand is a dash or has no byte but full stops and rank letters.
fn has_rank_letters(hand: &[u8]) -> bool
    ensures { result ≡ has_rank_letters hand.now }
{
    is_hidden(hand)
        || hand
            .iter()
            .all(|byte| *byte == b'.' || read_rank(*byte).is_some())
}

// What stands before the first full stop and what stands after it.
fn first_suit(hand: &[u8]) -> (&[u8], &[u8])
    ensures letters { result.0.now ≡ before_first is_full_stop hand.now }
    ensures others { result.1.now ≡ after_first is_full_stop hand.now }
{
    match hand.iter().position(|byte| *byte == b'.') {
        Some(at) => (&hand[..at], &hand[at + 1..]),
        None => (hand, &[]),
    }
}

// Reads hands into sets, and sees to it that no card comes twice.
#[derive(Debug, Drop)]
struct Dealer {
    seen: CardSet,
}

impl Dealer {
    // A dealer that has seen no card.
    fn new() -> Self
        ensures { result.seen ≡ [] }
    {
        Dealer {
            seen: CardSet::empty(),
        }
    }

    // Adds the cards that the letters of a suit name to a hand.
    fn add_suit(&mut self, suit: Suit, letters: &[u8], hand: CardSet) -> Result<CardSet, DealFault>
        requires { IsCardSet hand }
        ensures { MatchResult result
            (λ full. IsCardSet full
            × (repeats self.old.seen (suit_cards suit letters.now) ≡ false)
            × Adds self.old.seen self.new.seen (suit_cards suit letters.now)
            × Adds hand full (suit_cards suit letters.now))
            (λ fault. (fault ≡ Repeated)
            × (repeats self.old.seen (suit_cards suit letters.now) ≡ true)) }
    {
        let mut full = hand;
        for letter in letters {
            if let Some(rank) = read_rank(*letter) {
                let card = Card::new(suit, rank);
                if self.seen.has(card) {
                    return Err(DealFault::Repeated);
                }
                self.seen = self.seen.with(card);
                full = full.with(card);
            }
        }
        Ok(full)
    }

    // The hand that a word shows; `Repeated` if a card of it was seen before or is in it twice.
    fn hand(&mut self, word: &[u8]) -> Result<Option<CardSet>, DealFault>
        ensures { MatchResult result
            (λ hand. (hand ≡ hand_read word.now)
            × (repeats self.old.seen (hand_cards word.now) ≡ false)
            × Adds self.old.seen self.new.seen (hand_cards word.now))
            (λ fault. (fault ≡ Repeated) × (repeats self.old.seen (hand_cards word.now) ≡ true)) }
    {
        if is_hidden(word) {
            return Ok(None);
        }
        let mut hand = CardSet::empty();
        let mut rest = word;
        for suit in Suit::ALL {
            let (letters, others) = first_suit(rest);
            hand = self.add_suit(suit, letters, hand)?;
            rest = others;
        }
        Ok(Some(hand))
    }
}

/// Four hands as they are written, clockwise from the seat in front of them.
#[derive(Clone, Copy, Debug)]
pub struct FourHands<'a> {
    pub first: &'a [u8],
    pub second: &'a [u8],
    pub third: &'a [u8],
    pub fourth: &'a [u8],
}

impl FourHands<'_> {
    /// Whether each is a dash or four suits.
    pub fn have_four_suits(&self) -> bool
        ensures { result ≡ list_all has_four_suits (hands_of self.now) }
    {
        has_four_suits(self.first)
            && has_four_suits(self.second)
            && has_four_suits(self.third)
            && has_four_suits(self.fourth)
    }

    /// Whether each is a dash or has no byte but full stops and rank letters.
    pub fn have_rank_letters(&self) -> bool
        ensures { result ≡ list_all has_rank_letters (hands_of self.now) }
    {
        has_rank_letters(self.first)
            && has_rank_letters(self.second)
            && has_rank_letters(self.third)
            && has_rank_letters(self.fourth)
    }

    /// The hands as sets; `Repeated` if a card is in them twice.
    pub fn deal(&self) -> Result<[Option<CardSet>; 4], DealFault>
        ensures { MatchResult result
            (λ hands. (hands ≡ map hand_read (hands_of self.now))
            × (has_repeat (flat_map hand_cards (hands_of self.now)) ≡ false))
            (λ fault. (fault ≡ Repeated)
            × (has_repeat (flat_map hand_cards (hands_of self.now)) ≡ true)) }
    {
        let mut dealer = Dealer::new();
        let first = dealer.hand(self.first)?;
        let second = dealer.hand(self.second)?;
        let third = dealer.hand(self.third)?;
        let fourth = dealer.hand(self.fourth)?;
        Ok([first, second, third, fourth])
    }
}
