//! Hands as they are written in the Deal form.
ghost use Rattle.std.specs.Prelude.{◌≡◌, [], ◌∷◌, ◌++◌, Ok, IfOk, OnOk};
ghost use Rattle.pbn_deal.specs.declared.deal.DealValue.{DealValue};
ghost use Rattle.pbn_deal.specs.Deal.{deal_read, IsSoundDeal};
ghost use Rattle.pbn_deal.specs.Writing.{suit_text, hand_text, shown_text, hands_text, deal_text};

use byte_text::Text;
use card_letters::{compass_letter, rank_letter};
use card_sets::{Card, CardSet, Compass, Rank, Suit};
use std::alloc::{AllocError, Global};

// Adds the letters of a hand's ranks in a suit, from the ace down.
fn push_suit(text: &mut Text, hand: CardSet, suit: Suit) -> Result<(), AllocError>
    ensures { OnOk result (text.new ≡ text.old ++ suit_text hand suit) }
{
    for place in 0..13 {
        let rank = Rank::new(14 - place);
        if hand.has(Card::new(suit, rank)) {
            text.push(&[rank_letter(rank)])?;
        }
    }
    Ok(())
}

// Adds a hand in the Deal form.
fn push_hand(text: &mut Text, hand: CardSet) -> Result<(), AllocError>
    ensures { OnOk result (text.new ≡ text.old ++ hand_text hand) }
{
    push_suit(text, hand, Suit::Spades)?;
    text.push(b".")?;
    push_suit(text, hand, Suit::Hearts)?;
    text.push(b".")?;
    push_suit(text, hand, Suit::Diamonds)?;
    text.push(b".")?;
    push_suit(text, hand, Suit::Clubs)?;
    Ok(())
}

// Adds a hand in the Deal form, or a dash for one that isn't shown.
fn push_shown(text: &mut Text, hand: Option<CardSet>) -> Result<(), AllocError>
    ensures { OnOk result (text.new ≡ text.old ++ shown_text hand) }
{
    match hand {
        Some(cards) => push_hand(text, cards),
        None => text.push(b"-"),
    }
}

/// A hand in the Deal form: its spades, hearts, diamonds and clubs with full stops between them,
/// ranks from the ace down.
pub fn hand_text(alloc: Global, hand: CardSet) -> Result<Text, AllocError>
    ensures { IfOk result (λ text. text ≡ hand_text hand) }
{
    let mut text = Text::new(alloc);
    push_hand(&mut text, hand)?;
    Ok(text)
}

// Adds four hands in the Deal form, with one space between them.
fn push_hands(
    text: &mut Text,
    north: Option<CardSet>,
    east: Option<CardSet>,
    south: Option<CardSet>,
    west: Option<CardSet>,
) -> Result<(), AllocError>
    ensures { OnOk result (text.new ≡ text.old ++ hands_text (north ∷ east ∷ south ∷ west ∷ [])) }
{
    push_shown(text, north)?;
    text.push(b" ")?;
    push_shown(text, east)?;
    text.push(b" ")?;
    push_shown(text, south)?;
    text.push(b" ")?;
    push_shown(text, west)?;
    Ok(())
}

/// The hands of North, East, South and West in the Deal form, from North, with one space between
/// hands; a hand that isn't shown is a dash.
pub fn deal_text(alloc: Global, hands: [Option<CardSet>; 4]) -> Result<Text, AllocError>
    ensures { IfOk result (λ text. text ≡ deal_text hands) }
{
    let [north, east, south, west] = hands;
    let mut text = Text::new(alloc);
    text.push(&[compass_letter(Compass::N), b':'])?;
    push_hands(&mut text, north, east, south, west)?;
    Ok(text)
}

/// What is written in the Deal form is read back as the same hands.
pub fn deal_text_reads_back()
    ensures { (deal : DealValue) → IsSoundDeal deal → deal_read (deal_text deal.hands) ≡ Ok deal }
{}
