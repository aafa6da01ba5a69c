//! The problems of a batch as jobs for workers.
ghost use Rattle.std.specs.Prelude.{◌≡◌, Some, slice_get};
ghost use Rattle.shared_table.specs.Passes.{IsPassOf};
ghost use Rattle.root_workers.specs.Rounds.{HasSeenMore};
ghost use Rattle.worker_pool.specs.Findings.{AreRight};
ghost use Rattle.board_batch.specs.Batches.{IsBatch, Solves, IsOutcome, IsOutcomeAt};

use crate::batch::{Batch, Problem};
use root_answers::WrittenAnswer;
use shared_table::{Pass, SharedTable};
use std::alloc::AllocError;
use strategy_tree::RootFault;
use worker_pool::{Finding, Work, take_finding};

/// What the search of a problem ends with.
pub type Outcome = Result<WrittenAnswer, RootFault>;

/// The problems of a batch as jobs, as many as there are places, and how the worker of a number
/// solves one of them over its pass.
///
/// `solve` is a closure of the function that knows the gate and the threads: a method of a trait
/// may hand neither of them on to a function that is generic over it.
#[derive(Drop)]
pub struct BatchWork<'a, F> {
    pub batch: &'a Batch<'a>,
    pub places: u32,
    pub solve: F,
}

impl<F: Fn(u32, &Problem, &mut Pass) -> Outcome + Sync + Drop> Work for BatchWork<'_, F> {
    ghost use Rattle.std.specs.Prelude.{⊤};

    type Worker = u32;

    type Notes = ();

    type Found = Outcome;

    ghost shared = { λ it. it.batch.now.table.now };

    ghost sound = { λ it. IsBatch it.batch.now
        × Solves it.batch.now (F.pre it.solve) (F.post it.solve) };

    ghost noted = { λ _ _. ⊤ };

    ghost right = { λ it place outcome. IsOutcomeAt it.batch.now place outcome };

    fn table(&self) -> &SharedTable {
        self.batch.table
    }

    fn places(&self) -> u32 {
        self.places
    }

    fn start(&self) {}

    fn work_at(
        &self,
        worker: &mut u32,
        _notes: &mut (),
        pass: &mut Pass,
        place: u32,
    ) -> Result<Option<Outcome>, AllocError> {
        let Some(problem) = self.batch.problems.get(place as usize) else {
            return Ok(None);
        };
        let outcome = (self.solve)(*worker, problem, pass);
        if matches!(&outcome, Err(RootFault::Memory)) {
            return Err(AllocError);
        }
        Ok(Some(outcome))
    }
}

impl<F: Fn(u32, &Problem, &mut Pass) -> Outcome + Sync + Drop> BatchWork<'_, F> {
    /// What a worker found of the problem at a place, or else what solving it now gives, as
    /// worker 0.
    pub fn outcome_at(
        &self,
        pass: &mut Pass,
        findings: &mut Vec<Finding<Outcome>>,
        place: u32,
        problem: &Problem,
    ) -> Outcome
        requires batch { IsBatch self.now.batch.now }
        requires solves { Solves self.now.batch.now (F.pre self.now.solve) (F.post self.now.solve) }
        requires pass { IsPassOf self.now.batch.now.table.now pass.old }
        requires right { AreRight (IsOutcomeAt self.now.batch.now) findings.old.items }
        requires problem { slice_get self.now.batch.now.problems.now place ≡ Some problem.now }
        ensures outcome { IsOutcome self.now.batch.now problem.now result }
        ensures right { AreRight (IsOutcomeAt self.now.batch.now) findings.new.items }
        ensures pass { IsPassOf self.now.batch.now.table.now pass.new }
        ensures grown { HasSeenMore pass.old pass.new }
    {
        match take_finding(self, findings, place) {
            Some(outcome) => outcome,
            None => (self.solve)(0, problem, pass),
        }
    }
}
