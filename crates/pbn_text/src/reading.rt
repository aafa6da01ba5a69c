//! A file of PBN text as its games.
ghost use Rattle.std.specs.Prelude.{All, IfOk, ◌≡◌, ◌<◌, ◌-◌, ◌^◌, ◌≤◌, length, option_map};
ghost use Rattle.std.specs.List.{position_or_len};
ghost use Rattle.pbn_text.specs.declared.fault.Syntax.TheVariants.{NotText};
ghost use Rattle.pbn_text.specs.Grammar.{is_no_text, no_text_fault, without_mark, text_read, games_read};
ghost use Rattle.pbn_text.specs.Reading.{GivesGames};

use crate::collector::Collector;
use crate::fault::{Syntax, TextFault};
use crate::game::Game;
use crate::reader::Reader;
use byte_text::line_number;
use std::alloc::Global;

// How many bytes come before the first that no text may have.
fn text_len(bytes: &[u8]) -> usize
    ensures len { result ≡ position_or_len is_no_text bytes.now }
    ensures inside { result ≤ length bytes.now }
{
    bytes
        .iter()
        .position(|byte| matches!(*byte, 0..=8 | 12 | 14..=31))
        .unwrap_or(bytes.len())
}

// The line of the first byte that no text may have.
#[tactic(auto, unfolding(crate::specs::Grammar::no_text_fault))]
fn no_text_line(bytes: &[u8]) -> Option<u32>
    requires { length bytes.now < 2 ^ 32 - 1 }
    ensures { option_map (λ line. (line, NotText)) result ≡ no_text_fault bytes.now }
{
    let len = text_len(bytes);
    if len < bytes.len() {
        Some(line_number(bytes, len))
    } else {
        None
    }
}

// A text without the UTF-8 byte order mark at its front.
fn without_mark(bytes: &[u8]) -> &[u8]
    ensures { result.now ≡ without_mark bytes.now }
{
    match bytes {
        [0xef, 0xbb, 0xbf, rest @ ..] => rest,
        _ => bytes,
    }
}

/// The games of a file of PBN text, in the order of the file.
///
/// A UTF-8 byte order mark at the front, lines that begin with `%` and comments are passed over,
/// and a line of blanks alone ends a game. A game may have the same tag name twice: both tag pairs
/// are given. A file at fault is refused with its first fault in reading order and the line at
/// which that fault begins; `NotText` comes before all others.
#[tactic(auto, unfolding(crate::specs::Grammar::games_read))]
pub fn games(alloc: Global, bytes: &[u8]) -> Result<Vec<Game>, TextFault>
    requires { length bytes.now < 2 ^ 32 - 1 }
    ensures read { GivesGames result (games_read bytes.now) }
    ensures tagged { IfOk result (λ games. All (λ game. 1 ≤ length game.tags) games.items) }
{
    if let Some(line) = no_text_line(bytes) {
        return Err(TextFault::Syntax {
            line,
            kind: Syntax::NotText,
        });
    }
    read_text(alloc, without_mark(bytes))
}

// The games of a text that has only bytes that a text may have.
fn read_text(alloc: Global, text: &[u8]) -> Result<Vec<Game>, TextFault>
    requires { length text.now < 2 ^ 32 - 1 }
    ensures read { GivesGames result (text_read text.now) }
    ensures tagged { IfOk result (λ games. All (λ game. 1 ≤ length game.tags) games.items) }
{
    let mut reader = Reader::new(text);
    let mut collector = Collector::new(alloc);
    while !reader.rest.is_empty() {
        let item = reader.next(alloc)?;
        collector.add(alloc, item)?;
    }
    collector.into_games(alloc)
}
