//! The answers of many problems, in order.
ghost use Rattle.std.specs.Prelude.{◌≡◌, ◌≤◌, ℕ, All, Some, IfOk, IsErrOf, length};
ghost use Rattle.std.specs.Prelude.{slice_get};
ghost use Rattle.trick_rules.specs.Nodes.{most_moves};
ghost use Rattle.shared_table.specs.Passes.{IsPassOf};
ghost use Rattle.root_workers.specs.Plain.{IsPlain, HasWorkers};
ghost use Rattle.root_workers.specs.Rounds.{HasSeenMore};
ghost use Rattle.board_batch.specs.Problems.{IsProblem, AreAnswers, AllProblemsFit};
ghost use Rattle.board_batch.specs.Problems.{IsSpentIn, IsFirstSpentIn};
ghost use Rattle.board_batch.specs.Batches.{IsBatch, IsSolved, IsSpentOf, Solves};
ghost use Rattle.board_batch.specs.Batches.{IsOutcome, IsOutcomeAt};
ghost use Rattle.worker_pool.specs.Findings.{AreRight};

use crate::batch::{Batch, Problem};
use crate::batch_work::{BatchWork, Outcome};
use crate::fault::BatchFault;
use crate::solving::solved;
use am_outside::Gate;
use root_answers::WrittenAnswer;
use root_workers::Options;
use shared_table::{Pass, SharedTable};
use std::alloc::{AllocError, Global};
use std::thread::Threads;
use strategy_tree::RootFault;
use worker_pool::{Finding, work_side_by_side};

// The numbers of this many workers, but of at least one.
fn numbers_of(alloc: Global, workers: u32) -> Result<Vec<u32>, AllocError>
    ensures { IfOk result (λ numbers. 1 ≤ length numbers.items) }
{
    let mut numbers = vec![in alloc; 0]?;
    for number in 1..workers {
        numbers.push(number)?;
    }
    Ok(numbers)
}

// The fault of the problem of a number.
fn fault_of(number: u16, fault: RootFault) -> BatchFault
    ensures spent { (other card : ℕ) → result ≡ BatchFault.Spent other card
        → (other ≡ number) × (fault ≡ RootFault.Spent card) }
{
    match fault {
        RootFault::Spent(card) => BatchFault::Spent(number, card),
        RootFault::Memory => BatchFault::Memory,
    }
}

impl<F: Fn(u32, &Problem, &mut Pass) -> Outcome + Sync + Drop> BatchWork<'_, F> {
    // The answer of the problem at a place.
    fn answer_at(
        &self,
        pass: &mut Pass,
        findings: &mut Vec<Finding<Outcome>>,
        place: u32,
        problem: &Problem,
    ) -> Result<WrittenAnswer, BatchFault>
        requires batch { IsBatch self.now.batch.now }
        requires solves { Solves self.now.batch.now (F.pre self.now.solve) (F.post self.now.solve) }
        requires pass { IsPassOf self.now.batch.now.table.now pass.old }
        requires right { AreRight (IsOutcomeAt self.now.batch.now) findings.old.items }
        requires problem { slice_get self.now.batch.now.problems.now place ≡ Some problem.now }
        ensures answer { IfOk result (IsSolved self.now.batch.now problem.now) }
        ensures spent { (number card : ℕ) → IsErrOf result (BatchFault.Spent number card)
            → (number ≡ problem.now.number) × IsSpentOf self.now.batch.now problem.now card }
        ensures right { AreRight (IsOutcomeAt self.now.batch.now) findings.new.items }
        ensures pass { IsPassOf self.now.batch.now.table.now pass.new }
        ensures grown { HasSeenMore pass.old pass.new }
    {
        match self.outcome_at(pass, findings, place, problem) {
            Ok(answer) => Ok(answer),
            Err(fault) => Err(fault_of(problem.number, fault)),
        }
    }

    // The answers of all problems in order, or the first problem that has none.
    fn in_order(
        &self,
        pass: &mut Pass,
        mut findings: Vec<Finding<Outcome>>,
    ) -> Result<Vec<WrittenAnswer>, BatchFault>
        requires batch { IsBatch self.now.batch.now }
        requires solves { Solves self.now.batch.now (F.pre self.now.solve) (F.post self.now.solve) }
        requires few { length self.now.batch.now.problems.now ≤ 64 }
        requires pass { IsPassOf self.now.batch.now.table.now pass.old }
        requires right { AreRight (IsOutcomeAt self.now.batch.now) findings.items }
        ensures answers { IfOk result (λ answers. AreAnswers self.now.batch.now.problems.now
            self.now.batch.now.moves answers.items) }
        ensures fits { IsPlain self.now.batch.now.options → IfOk result (λ _.
            AllProblemsFit self.now.batch.now.problems.now self.now.batch.now.moves
            self.now.batch.now.options.nodes) }
        ensures spent { (number card : ℕ) → IsErrOf result (BatchFault.Spent number card)
            → IsSpentIn self.now.batch.now.problems.now self.now.batch.now.moves
            self.now.batch.now.options.nodes number card }
        ensures first_spent { IsPlain self.now.batch.now.options → (number card : ℕ)
            → IsErrOf result (BatchFault.Spent number card)
            → IsFirstSpentIn self.now.batch.now.problems.now self.now.batch.now.moves
            self.now.batch.now.options.nodes number card }
        ensures pass { IsPassOf self.now.batch.now.table.now pass.new }
        ensures grown { HasSeenMore pass.old pass.new }
    {
        let mut answers = Vec::new(self.batch.alloc);
        for problem in self.batch.problems {
            let place = answers.len() as u32;
            let answer = self.answer_at(pass, &mut findings, place, problem)?;
            answers.push(answer)?;
        }
        Ok(answers)
    }
}

/// The answer of each of at most 64 problems, in order, with 1 to 26 moves of declarer's side: what
/// `written_root` says of it. The workers, the gate, the table and the cuts change none of them.
///
/// As many workers as the options ask for, but no more than there are problems, draw the problems,
/// and each solves what it drew alone. They look into one table, if the options say so, and the
/// gate hears the number of the worker that solves a problem. A problem that no worker had memory
/// for is solved by the caller, as worker 0. The workers are joined, so it may wait.
///
/// `Spent` names a problem by its number and a root card of it whose tree has more nodes than a
/// search may enter; with neither table nor cuts the first such problem and its first such card. If
/// there is one, no answer comes then.
pub fn run_boards<R: Threads + Sync, G: Gate>(
    rt: &R,
    alloc: Global,
    problems: &[Problem],
    moves: u8,
    options: &Options,
    table: &SharedTable,
    pass: &mut Pass,
    gate: &G,
) -> Result<Vec<WrittenAnswer>, BatchFault>
    requires problems { All IsProblem problems.now }
    requires few { length problems.now ≤ 64 }
    requires some_moves { 1 ≤ moves }
    requires few_moves { moves ≤ most_moves }
    requires workers { HasWorkers options.now }
    requires pass { IsPassOf table.now pass.old }
    ensures answers { IfOk result (λ answers. AreAnswers problems.now moves answers.items) }
    ensures fits { IsPlain options.now → IfOk result (λ _.
        AllProblemsFit problems.now moves options.now.nodes) }
    ensures spent { (number card : ℕ) → IsErrOf result (BatchFault.Spent number card)
        → IsSpentIn problems.now moves options.now.nodes number card }
    ensures first_spent { IsPlain options.now → (number card : ℕ)
        → IsErrOf result (BatchFault.Spent number card)
        → IsFirstSpentIn problems.now moves options.now.nodes number card }
    ensures pass { IsPassOf table.now pass.new }
    ensures grown { HasSeenMore pass.old pass.new }
{
    let batch = Batch {
        alloc,
        problems,
        moves,
        options: Options {
            workers: 1,
            ..*options
        },
        table,
    };
    let batch = &batch;
    let solve = |worker: u32, problem: &Problem, pass: &mut Pass| -> Outcome
        requires { IsProblem problem.now × IsPassOf batch.now.table.now pass.old
            × IsBatch batch.now }
        ensures { IsOutcome batch.entry.now problem.now result
            × IsPassOf batch.entry.now.table.now pass.new × HasSeenMore pass.old pass.new }
    { solved(batch, gate, worker, pass, problem) };
    let work = BatchWork {
        batch,
        places: problems.len() as u32,
        solve,
    };
    let mut numbers = numbers_of(alloc, options.workers.min(work.places))?;
    let findings = work_side_by_side(rt, alloc, &work, numbers.as_mut_slice(), pass)?;
    work.in_order(pass, findings)
}
