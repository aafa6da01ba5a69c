//! The rows of a Play section as the play of a board.
ghost use Rattle.std.specs.Prelude.{◌≡◌, ◌≢◌, ◌<◌, [], ◌∷◌, Ok, length, MatchResult, IfOk, option_copied, slice_index_or, find, is_some};
ghost use Rattle.pbn_deal.specs.Boards.{course_after};
ghost use Rattle.pbn_deal.specs.Sections.{IsRefusalOf};
ghost use Rattle.pbn_deal.specs.Rows.{
  rows_of,
  first_entry,
  in_turn,
  gap_line,
  hand_fault,
  card_fault,
  row_played,
  rows_played,
};

use crate::board::Played;
use crate::course::Course;
use crate::fault::{BoardFault, BoardRefusal};
use crate::rotation::turned;
use crate::section::Entry;
use card_sets::{Card, CardSet, Seat};
use std::alloc::Global;
use trick_rules::{Trick, Trump, places_on};

// The entry at a place, or one with no card at this line.
fn entry_at(entries: &[Entry], place: usize, line: u32) -> Entry
    ensures { result ≡ slice_index_or entries.now place (record { card = None; line = line }) }
{
    if place < entries.len() {
        entries[place]
    } else {
        Entry { card: None, line }
    }
}

// The first row of entries, filled up if it has fewer than four, and the entries after it.
#[tactic(auto, using(crate::proofs::RowSteps::rows_of_split))]
fn split_row(entries: &[Entry]) -> ([Entry; 4], &[Entry])
    requires { 0 < length entries.now }
    ensures row { rows_of entries.now ≡ result.0 ∷ rows_of result.1.now }
    ensures shorter { length result.1.now < length entries.now }
{
    let line = entries[0].line;
    let row = [
        entry_at(entries, 0, line),
        entry_at(entries, 1, line),
        entry_at(entries, 2, line),
        entry_at(entries, 3, line),
    ];
    (row, &entries[entries.len().min(4)..])
}

// A row from the trick's leader on. Its first column is that of the seat that leads first.
fn in_turn(first: Seat, leader: Seat, row: [Entry; 4]) -> [Entry; 4]
    ensures { result ≡ in_turn first leader row }
{
    turned(row, places_on(first, leader))
}

// The first entry that is a card.
fn first_card(entries: &[Entry]) -> Option<&Entry>
    ensures { option_copied result ≡ find (λ e. is_some e.card) entries.now }
{
    entries.iter().find(|entry| entry.card.is_some())
}

// The line of what stands after the row's first entry with no card: a later card of the row, or
// else the next entry.
fn gap_line(row: &[Entry], next: Option<&Entry>) -> Option<u32>
    ensures { result ≡ gap_line row.now (option_copied next.entry) }
{
    for (place, entry) in row.iter().enumerate() {
        if entry.card.is_none() {
            let after = first_card(&row[place + 1..]).or(next)?;
            return Some(after.line);
        }
    }
    None
}

// What is wrong with a card of declarer's side.
fn hand_fault(trick: &Trick, hand: CardSet, card: Card) -> Option<BoardFault>
    ensures { result ≡ hand_fault trick.now.cards hand card }
{
    if !hand.has(card) {
        Some(BoardFault::PlayNotHeld)
    } else if !trick.legal(hand).has(card) {
        Some(BoardFault::PlayRevoke)
    } else {
        None
    }
}

// What is wrong with a card of a seat, with this many tricks left.
fn card_fault(tricks: u8, course: &Course, seat: Seat, card: Card) -> Option<BoardFault>
    ensures { result ≡ card_fault tricks course.now seat card }
{
    match seat {
        Seat::Declarer => hand_fault(&course.trick, course.declarer, card),
        Seat::Dummy => hand_fault(&course.trick, course.dummy, card),
        Seat::Left | Seat::Right if tricks == 0 => Some(BoardFault::PlayNotHeld),
        Seat::Left | Seat::Right => None,
    }
}

// Plays the cards of a row, which stands from the leader on, up to the first entry with none.
fn play_row(
    alloc: Global,
    trump: Trump,
    tricks: u8,
    course: &mut Course,
    row: &[Entry],
) -> Result<Vec<Played>, BoardRefusal>
    requires { length course.old.trick.cards < 4 }
    ensures plays { MatchResult result
        (λ plays. row_played trump tricks course.old row.now ≡ Ok plays.items)
        (IsRefusalOf (row_played trump tricks course.old row.now)) }
    ensures after { IfOk result (λ plays. course.new ≡ course_after trump course.old plays.items) }
    ensures short { length course.new.trick.cards < 4 }
{
    let mut plays = Vec::new(alloc);
    for entry in row {
        let Some(card) = entry.card else {
            return Ok(plays);
        };
        let seat = course.trick.to_play();
        if let Some(kind) = card_fault(tricks, course, seat, card) {
            return Err(BoardRefusal::Fault {
                line: entry.line,
                kind,
            });
        }
        plays
            .push(Played { seat, card })
            .map_err(|_| BoardRefusal::Memory)?;
        course.play(trump, card);
    }
    Ok(plays)
}

/// The play that the entries of a section give row by row, or the first fault. The course is the
/// one before the first card, the seat is that of the first leader, and `tricks` tricks are to be
/// played.
pub fn play_rows(
    alloc: Global,
    trump: Trump,
    first: Seat,
    tricks: u8,
    course: &mut Course,
    entries: &[Entry],
) -> Result<Vec<Played>, BoardRefusal>
    requires { length course.old.trick.cards < 4 }
    ensures { MatchResult result
        (λ plays. rows_played trump first tricks course.old (rows_of entries.now) ≡ Ok plays.items)
        (IsRefusalOf (rows_played trump first tricks course.old (rows_of entries.now))) }
{
    let mut plays = Vec::new(alloc);
    let mut tricks_left = tricks;
    let mut rest = entries;
    while !rest.is_empty() {
        let (row, others) = split_row(rest);
        let row = in_turn(first, course.trick.leader, row);
        if let Some(line) = gap_line(&row, others.first()) {
            return Err(BoardRefusal::Fault {
                line,
                kind: BoardFault::PlayGap,
            });
        }
        let more = play_row(alloc, trump, tricks_left, course, &row)?;
        plays
            .extend_from_slice(&more)
            .map_err(|_| BoardRefusal::Memory)?;
        tricks_left = tricks_left.saturating_sub(1);
        rest = others;
    }
    Ok(plays)
}
