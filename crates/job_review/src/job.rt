//! Every decision of a played board, as a text.
ghost use Rattle.std.specs.Prelude.{◌<◌, ◌-◌, ◌^◌, IfOk, IfErr, length};
ghost use Rattle.job_words.specs.Asks.{IsMoves, IsSearchWithinLimits};
ghost use Rattle.job_review.specs.Reviews.{IsReviewText, IsReviewRefusal};

use crate::review::{Asked, review_of};
use am_answer::Status;
use byte_text::Text;
use pbn_deal::Board;
use review_forms::review_in;
use std::alloc::Global;
use text_forms::Form;

/// The text of the review of a board, in a form: each decision with its facts, and how much they
/// cost together.
///
/// Errors: those of `review_of`.
pub fn tell_review(
    alloc: Global,
    board: &Board,
    layouts: &Text,
    asked: &Asked,
    form: Form,
) -> Result<Text, Status>
    requires short { length layouts.now < 2 ^ 32 - 1 }
    requires moves { IsMoves asked.now.moves }
    requires limits { IsSearchWithinLimits asked.now.search }
    ensures text { IfOk result
        (IsReviewText board.now layouts.now asked.now.moves asked.now.from form) }
    ensures refused { IfErr result (IsReviewRefusal board.now layouts.now asked.now.moves
        asked.now.from asked.now.search.nodes) }
{
    let told = review_of(alloc, board, layouts, asked)?;
    Ok(review_in(alloc, form, asked.moves, &told)?)
}
