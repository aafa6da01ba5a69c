//! Suits, cards and places at the table.
ghost use Rattle.std.specs.Prelude.{◌≡◌, ◌++◌, ◌-◌, flat_map, OnOk};
ghost use Rattle.std.specs.List.{range_with_len};
ghost use Rattle.card_sets.specs.Cards.{card_of};
ghost use Rattle.page_text.specs.Signs.{suit_sign, card_pieces, rank_mark, ranks, suit_pieces};
ghost use Rattle.page_text.specs.Signs.{hand_pieces, compass_word};

use card_letters::rank_letter;
use card_sets::{Card, CardSet, Compass, Rank, Suit};
use html_text::Page;
use std::alloc::AllocError;

/// The sign of a suit, in the suit's colour.
pub fn suit_sign(suit: Suit) -> &'static [u8]
    ensures { result.now ≡ suit_sign suit }
{
    match suit {
        Suit::Spades => b"<span class='s'>&#9824;</span>",
        Suit::Hearts => b"<span class='h'>&#9829;</span>",
        Suit::Diamonds => b"<span class='d'>&#9830;</span>",
        Suit::Clubs => b"<span class='c'>&#9827;</span>",
    }
}

/// Adds a card.
#[tactic(auto, unfolding(crate::specs::Signs::card_pieces))]
pub fn push_card(page: &mut Page, card: Card) -> Result<(), AllocError>
    ensures { OnOk result (page.new ≡ page.old ++ card_pieces card) }
{
    page.own(suit_sign(card.suit()))?;
    page.told(&[rank_letter(card.rank())])
}

// Adds the rank of a card, if it may be held, in bold if it is sure.
#[tactic(auto, unfolding(crate::specs::Signs::rank_mark))]
fn push_rank(page: &mut Page, may: CardSet, sure: CardSet, card: Card) -> Result<(), AllocError>
    ensures { OnOk result (page.new ≡ page.old ++ rank_mark may sure card) }
{
    if sure.has(card) {
        page.own(b" <b>")?;
        page.told(&[rank_letter(card.rank())])?;
        page.own(b"</b>")
    } else if may.has(card) {
        page.own(b" ")?;
        page.told(&[rank_letter(card.rank())])
    } else {
        Ok(())
    }
}

// Adds the ranks of a suit, from the ace down.
fn push_ranks(page: &mut Page, may: CardSet, sure: CardSet, suit: Suit) -> Result<(), AllocError>
    ensures { OnOk result (page.new ≡ page.old ++ ranks may sure suit) }
{
    for place in 0..13 {
        let rank = Rank::new(14 - place);
        push_rank(page, may, sure, Card::new(suit, rank))?;
    }
    Ok(())
}

#[tactic(auto, unfolding(crate::specs::Signs::suit_pieces))]
fn push_suit(page: &mut Page, may: CardSet, sure: CardSet, suit: Suit) -> Result<(), AllocError>
    ensures { OnOk result (page.new ≡ page.old ++ suit_pieces may sure suit) }
{
    page.own(b"<li>")?;
    page.own(suit_sign(suit))?;
    push_ranks(page, may, sure, suit)?;
    page.own(b"</li>\n")
}

/// Adds a hand: the cards that may be in it, in bold those that are sure.
#[tactic(auto, unfolding(crate::specs::Signs::hand_pieces))]
pub fn push_hand(page: &mut Page, may: CardSet, sure: CardSet) -> Result<(), AllocError>
    ensures { OnOk result (page.new ≡ page.old ++ hand_pieces may sure) }
{
    push_suit(page, may, sure, Suit::Spades)?;
    push_suit(page, may, sure, Suit::Hearts)?;
    push_suit(page, may, sure, Suit::Diamonds)?;
    push_suit(page, may, sure, Suit::Clubs)
}

/// The name of a place at the table.
pub fn compass_word(place: Compass) -> &'static [u8]
    ensures { result.now ≡ compass_word place }
{
    match place {
        Compass::N => b"North",
        Compass::E => b"East",
        Compass::S => b"South",
        Compass::W => b"West",
    }
}
