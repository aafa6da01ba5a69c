//! The lines of a review of many games.
ghost use Rattle.std.specs.Prelude.{◌≡◌, ◌++◌, IfOk, OnOk, flat_map};
ghost use Rattle.std.specs.List.{enumerate_from};
ghost use Rattle.review_text.specs.Games.{told_in, outcome_text, game_text, total_line, reviews_text};

use crate::reviewed::Reviewed;
use crate::text::{head_of, push_decisions, push_last};
use byte_text::Text;
use std::alloc::{AllocError, Global};
use text_forms::push_number;

/// What came of a game.
#[derive(Debug, Drop)]
pub enum GameReview {
    /// What was told of each decision of its board, in the order of play.
    Told(Vec<Reviewed>),
    /// The reason why it was refused, without the line's end.
    Refused(Text),
}

impl GameReview {
    /// What was told of each decision; nothing of a refused game.
    pub fn told(&self) -> &[Reviewed]
        ensures { result.now ≡ told_in self.now }
    {
        match self {
            GameReview::Told(told) => told,
            GameReview::Refused(_) => &[],
        }
    }
}

/// What was told of the decisions of all games, in their order.
pub fn all_told(alloc: Global, games: &[GameReview]) -> Result<Vec<Reviewed>, AllocError>
    ensures { IfOk result (λ told. told.items ≡ flat_map told_in games.now) }
{
    let mut told = Vec::new(alloc);
    for game in games {
        told.extend_from_slice(game.told())?;
    }
    Ok(told)
}

// Appends what was told of a game, or a line with the reason why it was refused.
fn push_outcome(text: &mut Text, alloc: Global, game: &GameReview) -> Result<(), AllocError>
    ensures { OnOk result (text.new ≡ text.old ++ outcome_text game.now) }
{
    match game {
        GameReview::Told(told) => push_decisions(text, alloc, told),
        GameReview::Refused(said) => {
            text.push(b"refused ")?;
            text.push(said.bytes())?;
            text.push(b"\n")
        }
    }
}

// Appends a line with a game's number, and what came of the game.
#[tactic(auto, unfolding(crate::specs::Games::game_text))]
fn push_game(
    text: &mut Text,
    alloc: Global,
    number: u64,
    game: &GameReview,
) -> Result<(), AllocError>
    ensures { OnOk result (text.new ≡ text.old ++ game_text (number, game.now)) }
{
    push_number(text, alloc, b"game ", number)?;
    text.push(b"\n")?;
    push_outcome(text, alloc, game)
}

// Appends each game in order, from number 1.
fn push_games(text: &mut Text, alloc: Global, games: &[GameReview]) -> Result<(), AllocError>
    ensures { OnOk result
        (text.new ≡ text.old ++ flat_map game_text (enumerate_from 1 games.now)) }
{
    for (place, game) in games.iter().enumerate() {
        push_game(text, alloc, place as u64 + 1, game)?;
    }
    Ok(())
}

// Appends how many games there are, and the sums over their decisions.
#[tactic(auto, unfolding(crate::specs::Games::total_line))]
fn push_total(text: &mut Text, alloc: Global, games: &[GameReview]) -> Result<(), AllocError>
    ensures { OnOk result (text.new ≡ text.old ++ total_line games.now) }
{
    let told = all_told(alloc, games)?;
    push_number(text, alloc, b"games ", games.len() as u64)?;
    text.push(b" ")?;
    push_last(text, alloc, &told)
}

/// The reviews of the games of a file, in order. After what the text is and the greatest number of
/// moves, each game has a line with its number, counted from 1, and under it a line for each
/// decision with a last line, as in the text of one board, or the line `refused` with the reason.
/// The last line has the number of games, and the sums over all their decisions.
///
/// Errors: an allocation fails.
#[tactic(auto, unfolding(crate::specs::Games::reviews_text))]
pub fn reviews_text(alloc: Global, moves: u8, games: &[GameReview]) -> Result<Text, AllocError>
    ensures { IfOk result (λ text. text ≡ reviews_text moves games.now) }
{
    let mut text = head_of(alloc, b"alphamu reviews 1", moves)?;
    push_games(&mut text, alloc, games)?;
    push_total(&mut text, alloc, games)?;
    Ok(text)
}
