//! A strategy played out in a layout, as a game.
ghost use Rattle.std.specs.Prelude.{◌≡◌, ◌++◌, ◌∷◌, [], IfOk, OnOk, map};
ghost use Rattle.byte_text.specs.Lines.{line_of};
ghost use Rattle.pbn_deal.specs.Tags.{tag_named};
ghost use Rattle.pbn_games.specs.GameText.{tag_line, played_by as cards_played_by, dealt_hand as dealt_to, deal_value, event_value, result_line, front_text, deal_text, play_text, game_text as whole_text};

use crate::rows::{push_rows, tricks_won};
use crate::tags::{push_copied, push_number_tag, push_tag};
use byte_text::Text;
use card_letters::compass_letter;
use card_sets::{Card, CardSet, Seat};
use pbn_deal::{Board, Played, hand_text};
use pbn_text::Game;
use std::alloc::{AllocError, Global};
use trick_rules::CardLine;

/// What a game shows: a strategy, by its place in the report, in the layout of a number.
#[derive(Clone, Copy)]
pub struct Shown {
    /// The number of the game, from 1.
    pub board: u64,
    /// The place of the strategy among those of the report, from 1.
    pub line: u64,
    /// How many strategies the report has.
    pub lines: u64,
    pub layout: u16,
    /// Whether the strategy wins the layout.
    pub made: bool,
    /// Left's hand before the first card, and Right's.
    pub left: CardSet,
    pub right: CardSet,
}

// The cards that a seat has played.
fn played_by(plays: &[Played], seat: Seat) -> CardSet
    ensures { result ≡ cards_played_by plays.now seat }
{
    let mut cards = CardSet::empty();
    for play in plays {
        if play.seat == seat {
            cards = cards.with(play.card);
        }
    }
    cards
}

/// A hand, and the cards that its seat has played before.
pub fn dealt_hand(plays: &[Played], seat: Seat, hand: CardSet) -> CardSet
    ensures { result ≡ dealt_to plays.now seat hand }
{
    hand.either(played_by(plays, seat))
}

/// The cards of a play, and then those of a line.
pub fn all_cards(alloc: Global, plays: &[Played], line: &CardLine) -> Result<Vec<Card>, AllocError>
    ensures { IfOk result (λ all. all.items ≡ map (λ play. play.card) plays.now ++ line.now) }
{
    let mut all = played_cards(alloc, plays)?;
    for place in 0..line.len() {
        all.push(line.get(place))?;
    }
    Ok(all)
}

fn played_cards(alloc: Global, plays: &[Played]) -> Result<Vec<Card>, AllocError>
    ensures { IfOk result (λ cards. cards.items ≡ map (λ play. play.card) plays.now) }
{
    let mut cards = Vec::new(alloc);
    for play in plays {
        cards.push(play.card)?;
    }
    Ok(cards)
}

// Which strategy is shown in which layout, and whether it is made.
fn event_value(alloc: Global, shown: &Shown) -> Result<Text, AllocError>
    ensures { IfOk result (λ value. value ≡ event_value shown.now) }
{
    let mut value = Text::new(alloc);
    value.push(b"Line ")?;
    value.push_number(alloc, shown.line)?;
    value.push(b" of ")?;
    value.push_number(alloc, shown.lines)?;
    value.push(b", layout ")?;
    value.push_number(alloc, u64::from(shown.layout))?;
    if shown.made {
        value.push(b": made")?;
    } else {
        value.push(b": down")?;
    }
    Ok(value)
}

// The four hands, clockwise from declarer.
#[tactic(auto, unfolding(pbn_deal::specs::Writing::hands_text))]
fn deal_value(alloc: Global, board: &Board, shown: &Shown) -> Result<Text, AllocError>
    ensures { IfOk result (λ value. value ≡ deal_value board.now shown.now) }
{
    let mut value = Text::new(alloc);
    value.push(&[compass_letter(board.declarer()), b':'])?;
    value.push(hand_text(alloc, board.declarer_hand())?.bytes())?;
    value.push(b" ")?;
    value.push(hand_text(alloc, shown.left)?.bytes())?;
    value.push(b" ")?;
    value.push(hand_text(alloc, board.dummy_hand())?.bytes())?;
    value.push(b" ")?;
    value.push(hand_text(alloc, shown.right)?.bytes())?;
    Ok(value)
}

// Appends the tricks of declarer's side, if no card is missing from the deal.
fn push_result(
    text: &mut Text,
    alloc: Global,
    board: &Board,
    cards: &[Card],
) -> Result<(), AllocError>
    ensures { OnOk result (text.new ≡ text.old ++ result_line board.now cards.now) }
{
    if board.declarer_hand().count() == 13 {
        let won = tricks_won(board.trump(), board.leader(), cards);
        push_number_tag(text, alloc, b"Result", won)
    } else {
        Ok(())
    }
}

#[tactic(auto, unfolding(crate::specs::GameText::front_text))]
fn push_front(text: &mut Text, alloc: Global, game: &Game, shown: &Shown) -> Result<(), AllocError>
    ensures { OnOk result (text.new ≡ text.old ++ front_text game.now shown.now) }
{
    push_tag(text, b"Event", event_value(alloc, shown)?.bytes())?;
    push_number_tag(text, alloc, b"Board", shown.board)?;
    push_copied(text, b"Dealer", game)?;
    push_copied(text, b"Vulnerable", game)
}

#[tactic(auto, unfolding(crate::specs::GameText::deal_text))]
fn push_deal(
    text: &mut Text,
    alloc: Global,
    game: &Game,
    board: &Board,
    shown: &Shown,
    cards: &[Card],
) -> Result<(), AllocError>
    ensures { OnOk result (text.new ≡ text.old ++ deal_text game.now board.now shown.now cards.now) }
{
    push_tag(text, b"Deal", deal_value(alloc, board, shown)?.bytes())?;
    push_tag(text, b"Declarer", &[compass_letter(board.declarer())])?;
    push_copied(text, b"Contract", game)?;
    push_result(text, alloc, board, cards)
}

#[tactic(auto, unfolding(crate::specs::GameText::play_text))]
fn push_play(
    text: &mut Text,
    alloc: Global,
    board: &Board,
    cards: &[Card],
) -> Result<(), AllocError>
    ensures { OnOk result (text.new ≡ text.old ++ play_text board.now cards.now) }
{
    let first = [compass_letter(board.compass(board.leader()))];
    push_number_tag(text, alloc, b"EndNeed", u64::from(board.need()))?;
    push_tag(text, b"EndLead", &first)?;
    push_tag(text, b"Play", &first)?;
    push_rows(text, board.trump(), board.leader(), cards)?;
    text.push(b"*\n")
}

/// The game of these cards, with the tags that it takes from another.
pub fn game_text(
    alloc: Global,
    game: &Game,
    board: &Board,
    shown: &Shown,
    cards: &[Card],
) -> Result<Text, AllocError>
    ensures { IfOk result (λ text. text ≡ whole_text game.now board.now shown.now cards.now) }
{
    let mut text = Text::new(alloc);
    push_front(&mut text, alloc, game, shown)?;
    push_deal(&mut text, alloc, game, board, shown, cards)?;
    push_play(&mut text, alloc, board, cards)?;
    text.push(b"\n")?;
    Ok(text)
}
