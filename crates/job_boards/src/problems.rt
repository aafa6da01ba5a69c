//! The games that have a root, as problems of one batch.
ghost use Rattle.std.specs.Prelude.{◌≤◌, IfOk, length};
ghost use Rattle.am_answer.specs.Games.{most_games};
ghost use Rattle.job_boards.specs.Accepted.{AreProblems};

use am_answer::{Root, Status};
use board_batch::Problem;
use std::alloc::{AllocError, Global};

/// A problem for each game that has a root, in order, under the number of its game.
pub(crate) fn problems_of<'a>(
    alloc: Global,
    games: &'a [Result<Root, Status>],
) -> Result<Vec<Problem<'a>>, AllocError>
    requires { length games.now ≤ most_games }
    ensures { IfOk result (λ problems. AreProblems games.entry.now problems.items) }
{
    let mut problems = Vec::new(alloc);
    let mut number: u16 = 0;
    for game in games {
        number += 1;
        match game {
            Ok(root) => problems.push(Problem {
                number,
                node: &root.kept.node,
                weights: &root.kept.weights,
            })?,
            Err(_) => {}
        }
    }
    Ok(problems)
}
