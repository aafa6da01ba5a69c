//! Rounds with a move more each.
ghost use Rattle.std.specs.Prelude.{◌≡◌, ◌≢◌, ◌≤◌, ◌-◌, ⊤, true, IfOk, IfSome, length};
ghost use Rattle.front_table.specs.Proven.{IsFrontAt};
ghost use Rattle.alphamu_core.specs.Costs.{IsWithin};
ghost use Rattle.shared_table.specs.Passes.{IsPassOf};
ghost use Rattle.root_workers.specs.Questions.{IsQuestion, IsAnswer, NamesSpent};
ghost use Rattle.root_workers.specs.Rounds.{HasSeenMore};

use crate::best_card::run_round;
use crate::crew::RootCrew;
use crate::question::Question;
use crate::rounds::{Round, RoundFront};
use crate::workers::RootWorker;
use alphamu_core::Entered;
use cut_rules::{CutRules, Stop};
use pareto_fronts::Front;
use shared_table::Pass;
use strategy_tree::RootFault;

/// The rounds at a question, by a crew. With cuts the last one stops as `stop` says.
#[derive(Drop)]
pub struct Rounds<'a, C: RootCrew> {
    pub crew: &'a C,
    pub question: &'a Question<'a>,
    pub stop: Stop,
}

// What the rounds so far leave to the next one: the front, and the most nodes that one of their
// searches entered.
#[derive(Drop)]
struct Before {
    front: Front,
    most: Option<Entered>,
}

impl<C: RootCrew> Rounds<'_, C> {
    // The rounds before the last one: with no moves it is double dummy, and each round has a move
    // more.
    fn deepened(&self, pass: &mut Pass, workers: &mut [RootWorker]) -> Result<Before, RootFault>
        requires ready { C.ready self.now.crew.now }
        requires question { IsQuestion self.now.question.now }
        requires pass { IsPassOf self.now.question.now.table.now pass.old }
        requires some { 1 ≤ length workers.old }
        ensures front { IfOk result (λ before.
            IsFrontAt self.now.question.now.node.now (self.now.question.now.moves - 1)
            before.front) }
        ensures within { IfOk result (λ before.
            IfSome before.most (IsWithin self.now.question.now.options.now.nodes)) }
        ensures spent { NamesSpent self.now.question.now result }
        ensures pass { IsPassOf self.now.question.now.table.now pass.new }
        ensures grown { HasSeenMore pass.old pass.new }
    {
        let question = self.question;
        let alloc = question.alloc;
        let mut front = self.first(pass, workers)?;
        let mut most = None;
        let moves = question.moves - 1;
        for fewer in 0..moves {
            let round = Round {
                alloc,
                node: question.node,
                weights: question.weights,
                moves: fewer + 1,
                nodes: question.options.nodes,
                rules: CutRules::all(Stop::SameFront),
                previous: &front,
                table: question.table,
                uses_table: question.options.table,
            };
            let next = run_round(self.crew, &round, workers, pass)?;
            most = Some(next.most.larger(most));
            front = next.front;
        }
        Ok(Before { front, most })
    }

    // The last round with cuts, after those with fewer moves.
    fn by_cuts(&self, pass: &mut Pass, workers: &mut [RootWorker]) -> Result<RoundFront, RootFault>
        requires ready { C.ready self.now.crew.now }
        requires question { IsQuestion self.now.question.now }
        requires pass { IsPassOf self.now.question.now.table.now pass.old }
        requires some { 1 ≤ length workers.old }
        requires cuts { self.now.question.now.options.now.cuts ≡ true }
        requires stop { self.now.stop ≢ Stop.Never }
        ensures answer { IsAnswer self.now.question.now (self.now.stop ≢ Stop.SameWeight) result }
        ensures pass { IsPassOf self.now.question.now.table.now pass.new }
        ensures grown { HasSeenMore pass.old pass.new }
    {
        let question = self.question;
        let before = self.deepened(pass, workers)?;
        let round = Round {
            alloc: question.alloc,
            node: question.node,
            weights: question.weights,
            moves: question.moves,
            nodes: question.options.nodes,
            rules: CutRules::all(self.stop),
            previous: &before.front,
            table: question.table,
            uses_table: question.options.table,
        };
        let mut last = run_round(self.crew, &round, workers, pass)?;
        last.most = last.most.larger(before.most);
        Ok(last)
    }

    // The only round without cuts.
    fn at_once(&self, pass: &mut Pass, workers: &mut [RootWorker]) -> Result<RoundFront, RootFault>
        requires ready { C.ready self.now.crew.now }
        requires question { IsQuestion self.now.question.now }
        requires pass { IsPassOf self.now.question.now.table.now pass.old }
        requires some { 1 ≤ length workers.old }
        ensures answer { IsAnswer self.now.question.now ⊤ result }
        ensures pass { IsPassOf self.now.question.now.table.now pass.new }
        ensures grown { HasSeenMore pass.old pass.new }
    {
        let question = self.question;
        let previous = Front::new(question.alloc, question.node.width());
        let round = Round {
            alloc: question.alloc,
            node: question.node,
            weights: question.weights,
            moves: question.moves,
            nodes: question.options.nodes,
            rules: CutRules::none(),
            previous: &previous,
            table: question.table,
            uses_table: question.options.table,
        };
        run_round(self.crew, &round, workers, pass)
    }

    /// All rounds, with cuts or the only one without, by these workers.
    pub fn last(&self, pass: &mut Pass, workers: &mut [RootWorker]) -> Result<RoundFront, RootFault>
        requires ready { C.ready self.now.crew.now }
        requires question { IsQuestion self.now.question.now }
        requires pass { IsPassOf self.now.question.now.table.now pass.old }
        requires some { 1 ≤ length workers.old }
        requires stop { self.now.stop ≢ Stop.Never }
        ensures answer { IsAnswer self.now.question.now (self.now.stop ≢ Stop.SameWeight) result }
        ensures pass { IsPassOf self.now.question.now.table.now pass.new }
        ensures grown { HasSeenMore pass.old pass.new }
    {
        if self.question.options.cuts {
            self.by_cuts(pass, workers)
        } else {
            self.at_once(pass, workers)
        }
    }
}
