//! The facts of every decision of a played board.
ghost use Rattle.std.specs.Prelude.{◌<◌, ◌-◌, ◌^◌, IfOk, IfErr, length};
ghost use Rattle.job_words.specs.Asks.{IsMoves, IsSearchWithinLimits};
ghost use Rattle.job_review.specs.Reviews.{IsReview, IsReviewRefusal};

use crate::told::told_of;
use am_answer::Status;
use board_decisions::decisions;
use byte_text::Text;
use job_words::Search;
use pbn_deal::Board;
use review_text::Reviewed;
use root_answers::{options_of, table_of};
use root_workers::Question;
use std::alloc::Global;

/// What a review is asked for.
#[derive(Clone, Copy, Debug, PartialEq, Eq)]
pub struct Asked {
    /// The most moves of declarer's side that are planned at a decision: 1 to 26.
    pub moves: u8,
    /// The trick to begin with, counted from 1.
    pub from: u8,
    /// How to search.
    pub search: Search,
}

/// The facts of each decision of declarer's side in the play of a board, from a trick on, in the
/// order of play: above all what the card cost, which is by how much the card that is named there
/// wins more, by the weights of the layouts that the play up to there allows. There is at least one
/// decision.
///
/// Errors: the layout file is refused just before the first card of declarer's side, or no layout
/// is left at a later one; `Spent` at a root card whose tree has more nodes than a search may
/// enter; `NoTurn` if there is no decision; `Memory`. One worker does all the work.
pub fn review_of(
    alloc: Global,
    board: &Board,
    layouts: &Text,
    asked: &Asked,
) -> Result<Vec<Reviewed>, Status>
    requires short { length layouts.now < 2 ^ 32 - 1 }
    requires moves { IsMoves asked.now.moves }
    requires limits { IsSearchWithinLimits asked.now.search }
    ensures told { IfOk result (λ told.
        IsReview board.now layouts.now asked.now.moves asked.now.from told.items) }
    ensures refused { IfErr result (IsReviewRefusal board.now layouts.now asked.now.moves
        asked.now.from asked.now.search.nodes) }
{
    let found = decisions(alloc, layouts.bytes(), board, asked.from)?;
    if found.is_empty() {
        return Err(Status::NoTurn);
    }
    let options = options_of(&asked.search);
    let (table, mut pass) = table_of(alloc, &asked.search)?;
    let mut told = Vec::new(alloc);
    for decision in &found {
        let question = Question {
            alloc,
            node: &decision.kept.node,
            moves: asked.moves,
            weights: &decision.kept.weights,
            options: &options,
            table: &table,
        };
        let next = told_of(&question, &mut pass, board, decision)?;
        told.push(next)?;
    }
    Ok(told)
}
