//! What came of each game: its report, or why it has none.
ghost use Rattle.std.specs.Prelude.{All, IfOk};
ghost use Rattle.std.specs.List.{AllZip};
ghost use Rattle.am_answer.specs.Answers.{IsRoot};
ghost use Rattle.am_answer.specs.Reports.{IsGameText};
ghost use Rattle.job_boards.specs.Outcomes.{AreAnswersOf, HasAnswer};

use am_answer::{Root, Status};
use am_line::said;
use am_report::GameText;
use root_answers::{WrittenAnswer, report_text};
use std::alloc::{AllocError, Global};

// What came of a game. If it has a root, its answer is at this place.
fn outcome(
    alloc: Global,
    game: &Result<Root, Status>,
    moves: u8,
    answers: &[WrittenAnswer],
    place: usize,
) -> Result<GameText, AllocError>
    requires is_root { IfOk game.now IsRoot }
    requires answer { IfOk game.now (HasAnswer moves answers.now place) }
    ensures { IfOk result (IsGameText moves game.now) }
{
    match game {
        Ok(root) => {
            let answer = &answers[place];
            let text = report_text(alloc, root, moves, answer)?;
            Ok(GameText::Solved(text))
        }
        Err(status) => Ok(GameText::Refused(said(alloc, status)?)),
    }
}

/// What came of each game, in order: the report of its root for `moves` moves, or why it has none.
/// The answers are those of the games that have a root, in order.
pub(crate) fn outcomes(
    alloc: Global,
    games: &[Result<Root, Status>],
    moves: u8,
    answers: &[WrittenAnswer],
) -> Result<Vec<GameText>, AllocError>
    requires roots { All (λ found. IfOk found IsRoot) games.now }
    requires answers { AreAnswersOf moves games.now answers.now }
    ensures { IfOk result (λ texts. AllZip (IsGameText moves) games.now texts.items) }
{
    let mut texts = Vec::new(alloc);
    let mut place = 0;
    for game in games {
        let text = outcome(alloc, game, moves, answers, place)?;
        texts.push(text)?;
        if game.is_ok() {
            place += 1;
        }
    }
    Ok(texts)
}
