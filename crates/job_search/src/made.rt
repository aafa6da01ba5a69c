//! The summary of a problem that was made from a number.
ghost use Rattle.std.specs.Prelude.{◌≡◌, true, Ok, IfOk, IfErr};
ghost use Rattle.job_words.specs.Asks.{IsSearchWithinLimits};
ghost use Rattle.am_answer.specs.Answers.{has_choice};
ghost use Rattle.am_answer.specs.Tasks as tasks;
ghost use Rattle.am_answer.specs.Reports.{made_moves};
ghost use Rattle.am_answer.specs.Stages.{IsTaskRefusal, IsTextFor};

use crate::counted::counted_front;
use am_answer::{Root, Status};
use am_report::{MadeSummary, made_text};
use byte_text::Text;
use job_words::Search;
use root_answers::{options_of, table_of};
use root_workers::{Question, RootCrew};
use std::alloc::Global;
use win_vectors::Weights;

/// The root of the problem that was made from a number, for `moves` moves of declarer's side.
#[derive(Clone, Copy)]
pub struct Made<'a> {
    pub number: u64,
    pub root: &'a Root,
    pub moves: u8,
}

/// The summary of a problem at its root, under its number: how many layouts, how long the front,
/// the best count and the card to play. Refused as `solve` is.
pub fn summarize<C: RootCrew>(
    crew: &C,
    alloc: Global,
    job: &Made<'_>,
    search: &Search,
) -> Result<Text, Status>
    requires ready { C.ready crew.now }
    requires turn { has_choice job.now.root.now.kept.node ≡ true }
    requires moves { job.now.moves ≡ made_moves }
    requires limits { IsSearchWithinLimits search.now }
    ensures text { IfOk result
        (IsTextFor (Ok (tasks.Made job.now.number job.now.root.now search.now))) }
    ensures refused { IfErr result
        (IsTaskRefusal (Ok (tasks.Made job.now.number job.now.root.now search.now))) }
{
    let root = job.root;
    let node = &root.kept.node;
    let width = node.width();
    let weights = Weights::equal(width);
    let options = options_of(search);
    let (table, mut pass) = table_of(alloc, search)?;
    let question = Question {
        alloc,
        node,
        moves: job.moves,
        weights: &weights,
        options: &options,
        table: &table,
    };
    let found = counted_front(crew, &question, &mut pass)?;
    let summary = MadeSummary {
        number: job.number,
        layouts: width,
        front: found.front.len() as u64,
        best: found.count,
        card: found.card,
    };
    Ok(made_text(alloc, &summary)?)
}
