//! The play of a game: a line for each trick.
ghost use Rattle.std.specs.Prelude.{◌≡◌, ◌++◌, ◌∷◌, [], OnOk, length};
ghost use Rattle.card_letters.specs.Letters.{letters_of as letters_of_card};
ghost use Rattle.pbn_games.specs.PlayRows.{by_columns as columns_of, winner_from as winner_of_cards, row_text, rows_text, one_if_ours, tricks_won as count_won};

use byte_text::Text;
use card_letters::letters_of;
use card_sets::{Card, Seat};
use pbn_deal::turned;
use std::alloc::AllocError;
use trick_rules::{Trick, Trump, places_on, winner};

// The cards of a trick by columns, which belong to the seats clockwise from the one that leads
// first.
fn by_columns(first: Seat, leader: Seat, trick: [Card; 4]) -> [Card; 4]
    ensures { result ≡ columns_of first leader trick }
{
    turned(trick, places_on(leader, first))
}

// Appends a card and what comes after it.
fn push_card(text: &mut Text, card: Card, after: &[u8]) -> Result<(), AllocError>
    ensures { OnOk result (text.new ≡ text.old ++ (letters_of_card card ++ after.now)) }
{
    text.push(&letters_of(card))?;
    text.push(after)
}

// Appends four cards as a line.
fn push_cards(text: &mut Text, a: Card, b: Card, c: Card, d: Card) -> Result<(), AllocError>
    ensures { OnOk result (text.new ≡ text.old ++ row_text (a ∷ b ∷ c ∷ d ∷ [])) }
{
    push_card(text, a, b" ")?;
    push_card(text, b, b" ")?;
    push_card(text, c, b" ")?;
    push_card(text, d, b"\n")?;
    Ok(())
}

// Appends a row.
fn push_row(text: &mut Text, row: [Card; 4]) -> Result<(), AllocError>
    ensures { OnOk result (text.new ≡ text.old ++ row_text row) }
{
    let [a, b, c, d] = row;
    push_cards(text, a, b, c, d)
}

// Four cards, of which there are no more.
fn four_of(cards: &[Card]) -> [Card; 4]
    requires { length cards.now ≡ 4 }
    ensures { result ≡ cards.now }
{
    [cards[0], cards[1], cards[2], cards[3]]
}

// Who wins these four cards.
fn winner_from(trump: Trump, leader: Seat, cards: [Card; 4]) -> Seat
    ensures { result ≡ winner_of_cards trump leader cards }
{
    let [a, b, c, d] = cards;
    let mut trick = Trick::led_by(leader);
    trick.cards.push(a);
    trick.cards.push(b);
    trick.cards.push(c);
    trick.cards.push(d);
    winner(&trick, trump)
}

/// Appends a line for each trick of a play, whose first trick this seat leads.
pub fn push_rows(
    text: &mut Text,
    trump: Trump,
    first: Seat,
    cards: &[Card],
) -> Result<(), AllocError>
    ensures { OnOk result (text.new ≡ text.old ++ rows_text trump first first cards.now) }
{
    let mut leader = first;
    let mut rest = cards;
    while rest.len() >= 4 {
        let (front, later) = rest.split_at(4);
        let trick = four_of(front);
        push_row(text, by_columns(first, leader, trick))?;
        leader = winner_from(trump, leader, trick);
        rest = later;
    }
    Ok(())
}

// 1 for a seat of declarer's side, and otherwise 0.
fn one_if_declarers(seat: Seat) -> u64
    ensures { result ≡ one_if_ours seat }
{
    match seat {
        Seat::Declarer | Seat::Dummy => 1,
        Seat::Left | Seat::Right => 0,
    }
}

/// How many tricks of a play declarer's side wins, if this seat leads to the first.
pub fn tricks_won(trump: Trump, first: Seat, cards: &[Card]) -> u64
    ensures { result ≡ count_won trump first cards.now }
{
    let mut leader = first;
    let mut rest = cards;
    let mut won = 0;
    while rest.len() >= 4 {
        let (front, later) = rest.split_at(4);
        leader = winner_from(trump, leader, four_of(front));
        rest = later;
        won += one_if_declarers(leader);
    }
    won
}
