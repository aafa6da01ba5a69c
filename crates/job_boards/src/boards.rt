//! All games of a deal file, solved as one batch.
ghost use Rattle.std.specs.Prelude.{◌≡◌, ◌+◌, ◌≤◌, ◌<◌, ℕ, All, Ok, IfOk, IfErr, IsErrOf, length};
ghost use Rattle.job_words.specs.Asks.{IsMoves, IsSearchWithinLimits};
ghost use Rattle.am_answer.specs.Answers.{IsRoot, game_roots};
ghost use Rattle.am_answer.specs.Tasks.{Boards};
ghost use Rattle.am_answer.specs.Endings.{AllGamesFit, IsGameSpentBy, IsPlain};
ghost use Rattle.am_answer.specs.Files.{AreGameFiles};
ghost use Rattle.am_answer.specs.Games.{most_games};
ghost use Rattle.am_answer.specs.Stages.{IsTaskRefusal, IsTextFor};
ghost use Rattle.job_boards.specs.Outcomes.{AreAnswersOf};

use crate::outcomes::outcomes;
use crate::problems::problems_of;
use am_answer::{GameFiles, Root, Status};
use am_inputs::read_roots;
use am_outside::Gate;
use am_report::boards_text;
use board_batch::run_boards;
use byte_text::Text;
use job_words::Search;
use root_answers::{WrittenAnswer, options_of, table_of};
use std::alloc::Global;
use std::thread::Threads;

// The answer of each game that has a root, in order.
fn answers_of<R: Threads + Sync, G: Gate>(
    rt: &R,
    alloc: Global,
    games: &[Result<Root, Status>],
    moves: u8,
    search: &Search,
    gate: &G,
) -> Result<Vec<WrittenAnswer>, Status>
    requires roots { All (λ found. IfOk found IsRoot) games.now }
    requires few { length games.now ≤ most_games }
    requires moves { IsMoves moves }
    requires limits { IsSearchWithinLimits search.now }
    ensures answers { IfOk result (λ answers. AreAnswersOf moves games.now answers.items) }
    ensures fits { IfOk result (λ _. IsPlain search.now
        → AllGamesFit games.now moves search.now.nodes) }
    ensures refused { IfErr result (IsTaskRefusal (Ok (Boards games.now moves search.now))) }
{
    let problems = problems_of(alloc, games)?;
    let options = options_of(search);
    let (table, mut pass) = table_of(alloc, search)?;
    Ok(run_boards(
        rt, alloc, &problems, moves, &options, &table, &mut pass, gate,
    )?)
}

/// The reports of all games of a deal file, in order, each on its own layout file, for `moves`
/// moves of declarer's side. A game whose board, layouts or turn are refused has a line that says
/// so in its place.
///
/// Refused with `GameSpent` at a game's root card whose tree has more nodes than a search may
/// enter, in a plain search the first such card of the first such game; or with `Memory`. The
/// workers, who share the games, and the gate change nothing of the text.
pub fn solve_boards<R: Threads + Sync, G: Gate>(
    rt: &R,
    alloc: Global,
    files: &GameFiles,
    moves: u8,
    search: &Search,
    gate: &G,
) -> Result<Text, Status>
    requires files { AreGameFiles files.now }
    requires moves { IsMoves moves }
    requires limits { IsSearchWithinLimits search.now }
    ensures text { IfOk result
        (IsTextFor (Ok (Boards (game_roots files.now) moves search.now))) }
    ensures refused { IfErr result
        (IsTaskRefusal (Ok (Boards (game_roots files.now) moves search.now))) }
{
    let games = read_roots(alloc, files)?;
    let answers = answers_of(rt, alloc, &games, moves, search, gate)?;
    let texts = outcomes(alloc, &games, moves, &answers)?;
    Ok(boards_text(alloc, &texts)?)
}
