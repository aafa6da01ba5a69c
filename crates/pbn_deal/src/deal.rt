//! A value in the Deal form, and the first thing that is wrong with one.
ghost use Rattle.std.specs.Prelude.{◌≡◌, ◌==◌, false, map, length, option_map, MatchOption, IfOk};
ghost use Rattle.byte_text.specs.Blanks.{words};
ghost use Rattle.pbn_deal.specs.Dealing.{hands_of};
ghost use Rattle.pbn_deal.specs.Deal.{seat_ahead, from_north, are_one_size, shown_sizes, deal_read, hand_at, IsSoundDeal};

use crate::hands::FourHands;
use byte_text::{first_word, skip_blanks};
use card_letters::read_compass;
use card_sets::{CardSet, Compass};
use thiserror::Error;

/// The hands that a value in the Deal form shows.
#[derive(Clone, Copy, Debug)]
pub struct DealValue {
    /// The hands of North, East, South and West; `None` for a hand that isn't shown.
    pub hands: [Option<CardSet>; 4],
}

impl DealValue {
    /// The hand of a seat; `None` if it isn't shown.
    pub fn hand(&self, seat: Compass) -> Option<CardSet>
        ensures { result ≡ hand_at self.now seat }
    {
        match seat {
            Compass::N => self.hands[0],
            Compass::E => self.hands[1],
            Compass::S => self.hands[2],
            Compass::W => self.hands[3],
        }
    }
}

/// What is wrong with a value in the Deal form: the first fault in this order.
#[derive(Clone, Copy, Debug, PartialEq, Eq, Error)]
pub enum DealFault {
    /// The value doesn't begin with a seat letter and a colon.
    #[error("no seat letter with a colon after it stands at the front")]
    Seat,
    /// The number of hands isn't four.
    #[error("the number of hands is not four")]
    HandCount,
    /// Some hand isn't `-` and hasn't exactly three full stops.
    #[error("a hand has not four suits")]
    SuitCount,
    /// Some byte of a suit isn't a rank.
    #[error("a suit has a byte that is no rank")]
    RankLetter,
    /// A card stands twice in the value.
    #[error("a card stands twice")]
    Repeated,
    /// The shown hands haven't all one size of 1 to 13, or no hand is shown.
    #[error("the shown hands have not one size of 1 to 13")]
    Sizes,
}

// The seat whose letter and colon a value begins with, and what follows the colon.
fn seat_ahead(text: &[u8]) -> Option<(Compass, &[u8])>
    ensures { option_map (λ found. (found.0, found.1.now)) result ≡ seat_ahead text.now }
{
    match text {
        [letter, b':', rest @ ..] => Some((read_compass(*letter)?, rest)),
        _ => None,
    }
}

// The words of a text, if there are four.
fn four_words(text: &[u8]) -> Option<FourHands<'_>>
    ensures { MatchOption result ((length (words text.now) == 4) ≡ false)
        (λ found. words text.now ≡ hands_of found) }
{
    let (first, text) = first_word(text)?;
    let (second, text) = first_word(text)?;
    let (third, text) = first_word(text)?;
    let (fourth, text) = first_word(text)?;
    match first_word(text) {
        None => Some(FourHands {
            first,
            second,
            third,
            fourth,
        }),
        Some(_) => None,
    }
}

// Hands clockwise from a seat, in the order North, East, South, West.
fn from_north(first: Compass, hands: [Option<CardSet>; 4]) -> [Option<CardSet>; 4]
    ensures { result ≡ from_north first hands }
{
    let [a, b, c, d] = hands;
    match first {
        Compass::N => [a, b, c, d],
        Compass::E => [d, a, b, c],
        Compass::S => [c, d, a, b],
        Compass::W => [b, c, d, a],
    }
}

// Whether some hand is shown and all shown hands have one size of 1 to 13.
fn is_one_size(hands: &[Option<CardSet>; 4]) -> bool
    ensures { result ≡ are_one_size (shown_sizes hands.now) }
{
    let mut size = None;
    for hand in hands {
        if let Some(cards) = hand {
            let count = cards.count();
            match size {
                None if 1 <= count && count <= 13 => size = Some(count),
                Some(first) if first == count => {}
                _ => return false,
            }
        }
    }
    size.is_some()
}

// The hands of a value, or its first fault.
#[tactic(auto, unfolding(crate::specs::Deal::deal_read, crate::specs::Deal::hands_read))]
fn hands_of_value(value: &[u8]) -> Result<DealValue, DealFault>
    ensures { result ≡ deal_read value.now }
{
    let Some((first, rest)) = seat_ahead(skip_blanks(value)) else {
        return Err(DealFault::Seat);
    };
    let Some(words) = four_words(rest) else {
        return Err(DealFault::HandCount);
    };
    if !words.have_four_suits() {
        return Err(DealFault::SuitCount);
    }
    if !words.have_rank_letters() {
        return Err(DealFault::RankLetter);
    }
    let hands = words.deal()?;
    if !is_one_size(&hands) {
        return Err(DealFault::Sizes);
    }
    Ok(DealValue {
        hands: from_north(first, hands),
    })
}

/// The hands of a value in the Deal form: a seat letter, a colon, and four hands clockwise from
/// that seat with blanks between them.
///
/// A hand is `-` if it isn't shown, or its suits in the order spades, hearts, diamonds, clubs, with
/// full stops between them. Letters are read in both cases, ranks in any order, and blanks at both
/// ends don't count. If the value has several faults, the first in the order of `DealFault` is
/// given. It takes no memory.
pub fn read_deal(value: &[u8]) -> Result<DealValue, DealFault>
    ensures value { result ≡ deal_read value.now }
    ensures sound { IfOk result IsSoundDeal }
{
    hands_of_value(value)
}
