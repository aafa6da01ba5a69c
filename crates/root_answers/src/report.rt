//! The report of a root.
ghost use Rattle.std.specs.Prelude.{IfOk};
ghost use Rattle.am_answer.specs.Reports.{IsSolveText};
ghost use Rattle.root_answers.specs.Written.{IsWrittenAnswer};

use crate::written::WrittenAnswer;
use am_answer::Root;
use am_report::{solve_end, solve_start};
use byte_text::Text;
use std::alloc::{AllocError, Global};

/// The report of a root by its answer: the head, the answer's lines, the card to play with the best
/// weight, and the end.
pub fn report_text(
    alloc: Global,
    root: &Root,
    moves: u8,
    answer: &WrittenAnswer,
) -> Result<Text, AllocError>
    requires { IsWrittenAnswer root.now.kept.node root.now.kept.weights moves answer.now }
    ensures { IfOk result (IsSolveText root.now moves) }
{
    let mut text = solve_start(alloc, &root.board, &root.kept, moves, answer.vectors)?;
    text.push(answer.lines.bytes())?;
    let end = solve_end(alloc, &root.kept.weights, answer.card, answer.weight)?;
    text.push(end.bytes())?;
    Ok(text)
}
