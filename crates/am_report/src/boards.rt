//! The text of the answers for the games of a file.
ghost use Rattle.std.specs.Prelude.{◌≡◌, ◌++◌, ◌<◌, ◌^◌, IfOk, OnOk};
ghost use Rattle.am_report.specs.Boards.{outcome_text, game_text, games_from, boards_text};

use crate::lines::{push_line, push_number_line};
use byte_text::Text;
use std::alloc::{AllocError, Global};

/// What came of a game.
#[derive(Debug, Drop)]
pub enum GameText {
    /// Its report, whole.
    Solved(Text),
    /// The reason why it has no report, without the line's end.
    Refused(Text),
}

// Appends the report of a game, or a line with the reason why it has none.
fn push_outcome(text: &mut Text, game: &GameText) -> Result<(), AllocError>
    ensures { OnOk result (text.new ≡ text.old ++ outcome_text game.now) }
{
    match game {
        GameText::Solved(report) => text.push(report.bytes()),
        GameText::Refused(said) => push_line(text, b"refused ", said.bytes()),
    }
}

// Appends a line with a game's number, and what came of the game.
#[tactic(auto, unfolding(crate::specs::Boards::game_text))]
fn push_game(text: &mut Text, alloc: Global, number: u64, game: &GameText) -> Result<(), AllocError>
    ensures { OnOk result (text.new ≡ text.old ++ game_text number game.now) }
{
    push_number_line(text, alloc, b"game ", number)?;
    push_outcome(text, game)
}

// Appends each game in order, from number 1.
fn push_games(text: &mut Text, alloc: Global, games: &[GameText]) -> Result<(), AllocError>
    ensures { OnOk result (text.new ≡ text.old ++ games_from 1 games.now) }
{
    for (place, game) in games.iter().enumerate() {
        push_game(text, alloc, place as u64 + 1, game)?;
    }
    Ok(())
}

/// The answers for the games of a file, in order: a line that says what it is; for each game a line
/// with its number, counted from 1, and under it the report or the line `refused` with the reason;
/// and a line that ends it.
#[tactic(auto, unfolding(crate::specs::Boards::boards_text))]
pub fn boards_text(alloc: Global, games: &[GameText]) -> Result<Text, AllocError>
    ensures { IfOk result (λ text. text ≡ boards_text games.now) }
{
    let mut text = Text::new(alloc);
    text.push(b"alphamu boards 1\n")?;
    push_games(&mut text, alloc, games)?;
    text.push(b"end boards\n")?;
    Ok(text)
}
