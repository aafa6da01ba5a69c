//! A problem solved by one worker.
ghost use Rattle.shared_table.specs.Passes.{IsPassOf};
ghost use Rattle.root_workers.specs.Rounds.{HasSeenMore};
ghost use Rattle.board_batch.specs.Problems.{IsProblem};
ghost use Rattle.board_batch.specs.Batches.{IsBatch, IsOutcome};

use crate::batch::{Batch, Problem};
use crate::batch_work::Outcome;
use am_outside::Gate;
use card_sets::Card;
use root_answers::written_root;
use root_workers::{Alone, Question};
use shared_table::Pass;

// A gate that hears the number of the batch's worker.
#[derive(Drop)]
struct At<'a, G: Gate> {
    gate: &'a G,
    worker: u32,
}

impl<G: Gate> Gate for At<'_, G> {
    fn enter(&self, _worker: u32, card: Card) {
        self.gate.enter(self.worker, card);
    }

    fn leave(&self, _worker: u32, card: Card) {
        self.gate.leave(self.worker, card);
    }
}

/// What the search of a problem ends with, by the caller alone.
pub fn solved<G: Gate>(
    batch: &Batch,
    gate: &G,
    worker: u32,
    pass: &mut Pass,
    problem: &Problem,
) -> Outcome
    requires batch { IsBatch batch.now }
    requires pass { IsPassOf batch.now.table.now pass.old }
    requires problem { IsProblem problem.now }
    ensures outcome { IsOutcome batch.now problem.now result }
    ensures pass { IsPassOf batch.now.table.now pass.new }
    ensures grown { HasSeenMore pass.old pass.new }
{
    let at = At { gate, worker };
    let question = Question {
        alloc: batch.alloc,
        node: problem.node,
        moves: batch.moves,
        weights: problem.weights,
        options: &batch.options,
        table: batch.table,
    };
    written_root(&Alone { gate: &at }, &question, pass)
}
