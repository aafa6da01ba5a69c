//! What comes of one game.
ghost use Rattle.std.specs.Prelude.{◌≡◌, ◌≤◌, ◌<◌, ◌-◌, ◌^◌, Ok, IfOk, IfErr, length};
ghost use Rattle.job_words.specs.Asks.{IsMoves, IsSearchWithinLimits};
ghost use Rattle.pbn_deal.specs.Boards.{BoardValue};
ghost use Rattle.job_review.specs.Reviews.{IsReview};
ghost use Rattle.job_reviews.specs.Reviews.{game_board, IsGameRefusal, IsGameReview};

use am_answer::Status;
use am_line::said;
use byte_text::Text;
use job_review::{Asked, review_of};
use pbn_deal::read_board;
use pbn_text::Game;
use review_text::{GameReview, Reviewed};
use std::alloc::{AllocError, Global};

// The review of a game, or why it has none.
fn reviewed(
    alloc: Global,
    game: &Game,
    layouts: &Text,
    asked: &Asked,
) -> Result<Vec<Reviewed>, Status>
    requires tagged { 1 ≤ length game.now.tags }
    requires short { length layouts.now < 2 ^ 32 - 1 }
    requires moves { IsMoves asked.now.moves }
    requires limits { IsSearchWithinLimits asked.now.search }
    ensures reviewed { IfOk result (λ told. (board : BoardValue) × (game_board game.now ≡ Ok board)
        × IsReview board layouts.now asked.now.moves asked.now.from told.items) }
    ensures refused { IfErr result (IsGameRefusal asked.now (game.now, layouts.now)) }
{
    let board = read_board(alloc, game)?;
    review_of(alloc, &board, layouts, asked)
}

/// What comes of a game with its layout file: its review, or the line that refuses it. It fails
/// only if an allocation fails.
pub(crate) fn game_review(
    alloc: Global,
    game: &Game,
    layouts: &Text,
    asked: &Asked,
) -> Result<GameReview, AllocError>
    requires tagged { 1 ≤ length game.now.tags }
    requires short { length layouts.now < 2 ^ 32 - 1 }
    requires moves { IsMoves asked.now.moves }
    requires limits { IsSearchWithinLimits asked.now.search }
    ensures { IfOk result (IsGameReview asked.now (game.now, layouts.now)) }
{
    match reviewed(alloc, game, layouts, asked) {
        Ok(told) => Ok(GameReview::Told(told)),
        Err(Status::Memory) => Err(AllocError),
        Err(status) => Ok(GameReview::Refused(said(alloc, &status)?)),
    }
}
