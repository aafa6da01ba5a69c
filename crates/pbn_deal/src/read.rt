//! A game as a board.
ghost use Rattle.std.specs.Prelude.{◌≡◌, ◌≤◌, ◌&&◌, not, Ok, length, is_some, MatchResult};
ghost use Rattle.std.specs.List.{list_any};
ghost use Rattle.card_sets.specs.SetWords.{has_card, cards_where};
ghost use Rattle.pbn_deal.specs.Boards.{IsDealt};
ghost use Rattle.pbn_deal.specs.Deal.{hand_at, IsSoundDeal};
ghost use Rattle.pbn_deal.specs.Sections.{IsRefusalOf};
ghost use Rattle.pbn_deal.specs.Tags.{seat_named};
ghost use Rattle.pbn_deal.specs.BoardRead.{line_named, unseen_in, is_place, dealt_in, is_led_wrongly, section_played, entries_played, plays_in, board_read};

use crate::board::{Board, DealtHands, Played, compass_of};
use crate::course::Course;
use crate::deal::DealValue;
use crate::fault::{BoardFault, BoardRefusal};
use crate::row::play_rows;
use crate::section::{Entry, read_section};
use crate::tags::{
    Contract, find_tag, inherited_line, read_contract_tag, read_deal_tag, read_declarer_tag,
    read_ending, read_seat,
};
use card_sets::{CardSet, Compass, Seat};
use pbn_text::{Game, Tag};
use std::alloc::Global;
use trick_rules::Trick;

// The line of the first tag of a name.
fn line_named(game: &Game, name: &[u8]) -> u32
    ensures { result ≡ line_named name.now game.now }
{
    match find_tag(game, name) {
        Some(tag) => tag.line,
        None => 0,
    }
}

// What is left of the pack without two hands.
fn pack_without(own: CardSet, dummy: CardSet) -> CardSet
    ensures { result ≡ cards_where (λ card. not (has_card own card) && not (has_card dummy card)) }
{
    CardSet::pack().minus(own).minus(dummy)
}

// The cards that the two defenders hold together, if the deal tells them.
fn unseen_cards(
    deal: &DealValue,
    declarer: Compass,
    own: CardSet,
    dummy: CardSet,
) -> Option<CardSet>
    ensures { result ≡ unseen_in deal.now declarer own dummy }
{
    if own.count() == 13 {
        return Some(pack_without(own, dummy));
    }
    let left = deal.hand(compass_of(declarer, Seat::Left))?;
    let right = deal.hand(compass_of(declarer, Seat::Right))?;
    Some(left.either(right))
}

// The board before the first card.
#[tactic(auto, unfolding(crate::specs::BoardRead::dealt_in))]
fn deal_board(
    alloc: Global,
    game: &Game,
    deal: &DealValue,
    contract: Contract,
    declarer: Compass,
) -> Result<Board, BoardRefusal>
    requires sound { IsSoundDeal deal.now }
    requires level { contract.level ≤ 7 }
    ensures { result ≡ dealt_in game.now deal.now contract declarer }
{
    let line = line_named(game, b"Deal");
    let hidden = BoardRefusal::Fault {
        line,
        kind: BoardFault::HandHidden,
    };
    let own = deal.hand(declarer).ok_or(hidden)?;
    let dummy = deal.hand(compass_of(declarer, Seat::Dummy)).ok_or(hidden)?;
    let ending = read_ending(
        line,
        declarer,
        contract,
        own.count(),
        find_tag(game, b"EndNeed"),
        find_tag(game, b"EndLead"),
    )?;
    let hands = DealtHands {
        declarer: own,
        dummy,
        unseen: unseen_cards(deal, declarer, own, dummy),
    };
    Ok(Board::new(alloc, declarer, contract.trump, ending, hands))
}

// Whether a value is the letter of this place.
fn is_place(place: Compass, value: &[u8]) -> bool
    ensures { result ≡ is_place place (seat_named value.now) }
{
    match read_seat(value) {
        Some(other) => other == place,
        None => false,
    }
}

// Whether an entry is a card.
fn has_card(entries: &[Entry]) -> bool
    ensures { result ≡ list_any (λ e. is_some e.card) entries.now }
{
    entries.iter().any(|entry| entry.card.is_some())
}

// Whether a section has a card and its tag doesn't name the seat that leads first.
fn is_led_wrongly(board: &Board, tag: &Tag, entries: &[Entry]) -> bool
    ensures { result ≡ is_led_wrongly board.now tag.now entries.now }
{
    has_card(entries)
        && !is_place(
            compass_of(board.declarer(), board.leader()),
            tag.value.bytes(),
        )
}

// The play of a board by the rows of these entries.
fn play_section(
    alloc: Global,
    board: &Board,
    entries: &[Entry],
) -> Result<Vec<Played>, BoardRefusal>
    ensures { MatchResult result
        (λ plays. section_played board.now entries.now ≡ Ok plays.items)
        (IsRefusalOf (section_played board.now entries.now)) }
{
    let mut course = Course {
        declarer: board.declarer_hand(),
        dummy: board.dummy_hand(),
        trick: Trick::led_by(board.leader()),
    };
    let tricks = board.declarer_hand().count();
    play_rows(
        alloc,
        board.trump(),
        board.leader(),
        tricks,
        &mut course,
        entries,
    )
}

// The play that the entries of the Play section tell, if its tag names the seat that leads first.
fn play_entries(
    alloc: Global,
    board: &Board,
    tag: &Tag,
    entries: &[Entry],
) -> Result<Vec<Played>, BoardRefusal>
    ensures { MatchResult result
        (λ plays. entries_played board.now tag.now entries.now ≡ Ok plays.items)
        (IsRefusalOf (entries_played board.now tag.now entries.now)) }
{
    if is_led_wrongly(board, tag, entries) {
        return Err(BoardRefusal::Fault {
            line: tag.line,
            kind: BoardFault::PlayLeader,
        });
    }
    play_section(alloc, board, entries)
}

// The play that the Play section tells.
#[tactic(auto, unfolding(crate::specs::BoardRead::plays_in))]
fn read_plays(alloc: Global, game: &Game, board: &Board) -> Result<Vec<Played>, BoardRefusal>
    ensures { MatchResult result
        (λ plays. plays_in game.now board.now ≡ Ok plays.items)
        (IsRefusalOf (plays_in game.now board.now)) }
{
    let Some(tag) = find_tag(game, b"Play") else {
        return Ok(Vec::new(alloc));
    };
    let entries = read_section(alloc, &tag.tokens)?;
    play_entries(alloc, board, tag, &entries)
}

/// The board of a game that has at least one tag, or the first fault in this order, with its line:
/// a value inherited by `#`; the Deal, Contract and Declarer tags; hands that aren't shown; the
/// tags of an ending; and the Play section, its tokens first, then the seat that leads, and then
/// its rows in order.
#[tactic(auto, unfolding(crate::specs::BoardRead::board_read))]
pub fn read_board(alloc: Global, game: &Game) -> Result<Board, BoardRefusal>
    requires { 1 ≤ length game.now.tags }
    ensures { MatchResult result
        (λ board. board_read game.now ≡ Ok board) (IsRefusalOf (board_read game.now)) }
{
    if let Some(line) = inherited_line(game) {
        return Err(BoardRefusal::Fault {
            line,
            kind: BoardFault::Inherited,
        });
    }
    let deal = read_deal_tag(game)?;
    let contract = read_contract_tag(game)?;
    let declarer = read_declarer_tag(game)?;
    let board = deal_board(alloc, game, &deal, contract, declarer)?;
    let plays = read_plays(alloc, game, &board)?;
    Ok(board.with_plays(plays))
}
