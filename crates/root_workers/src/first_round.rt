//! The round with no moves: double dummy at the root.
ghost use Rattle.std.specs.Prelude.{◌≤◌, ℕ, IfOk, IsErrOf, length};
ghost use Rattle.front_table.specs.Proven.{IsFrontAt};
ghost use Rattle.shared_table.specs.Passes.{IsPassOf};
ghost use Rattle.root_workers.specs.Questions.{IsQuestion};
ghost use Rattle.root_workers.specs.Rounds.{IsRound, HasSeenMore};

use crate::crew::RootCrew;
use crate::deepening::Rounds;
use crate::question::Question;
use crate::rounds::{Help, Round, Task};
use crate::searches::double_dummy;
use crate::workers::{RootWorker, wants_help};
use cut_rules::CutRules;
use front_table::NoStore;
use pareto_fronts::Front;
use shared_table::Pass;
use strategy_tree::RootFault;

// All workers ask double dummy about the layouts of a round's node. They report nothing, but their memo
// knows the answers then.
fn ask_about<C: RootCrew>(crew: &C, round: &Round, pass: &mut Pass, workers: &mut [RootWorker])
    requires ready { C.ready crew.now }
    requires round { IsRound round.now }
    requires pass { IsPassOf round.now.table.now pass.old }
    requires some { 1 ≤ length workers.old }
    ensures pass { IsPassOf round.now.table.now pass.new }
    ensures grown { HasSeenMore pass.old pass.new }
{
    let task = Task {
        round,
        help: Help::Layouts,
    };
    let _reports = crew.searched(&task, workers, pass);
}

// The caller asks double dummy about one layout of the root after another, until the help of the
// other workers pays. Whether it does.
fn asks_until_help_pays(question: &Question, workers: &mut [RootWorker]) -> bool
    requires some { 1 ≤ length workers.old }
{
    let node = question.node;
    for place in 0..node.width() {
        workers[0].solver.makes(node.position(), node.left(place));
        if wants_help(question.alloc, workers) {
            return true;
        }
    }
    false
}

impl<C: RootCrew> Rounds<'_, C> {
    // The workers ask double dummy about the layouts of the root, as far as that pays.
    fn ask_ahead(&self, pass: &mut Pass, workers: &mut [RootWorker])
        requires ready { C.ready self.now.crew.now }
        requires question { IsQuestion self.now.question.now }
        requires pass { IsPassOf self.now.question.now.table.now pass.old }
        requires some { 1 ≤ length workers.old }
        ensures pass { IsPassOf self.now.question.now.table.now pass.new }
        ensures grown { HasSeenMore pass.old pass.new }
    {
        let question = self.question;
        if workers.len() < 2 || !asks_until_help_pays(question, workers) {
            return;
        }
        let previous = Front::new(question.alloc, question.node.width());
        let round = Round {
            alloc: question.alloc,
            node: question.node,
            weights: question.weights,
            moves: question.moves,
            nodes: question.options.nodes,
            rules: CutRules::none(),
            previous: &previous,
            table: question.table,
            uses_table: false,
        };
        ask_about(self.crew, &round, pass, workers);
    }

    /// The front of the root with no moves: double dummy's result in each layout.
    pub fn first(&self, pass: &mut Pass, workers: &mut [RootWorker]) -> Result<Front, RootFault>
        requires ready { C.ready self.now.crew.now }
        requires question { IsQuestion self.now.question.now }
        requires pass { IsPassOf self.now.question.now.table.now pass.old }
        requires some { 1 ≤ length workers.old }
        ensures front { IfOk result (IsFrontAt self.now.question.now.node.now 0) }
        ensures never_spent { (card : ℕ) → IsErrOf result (RootFault.Spent card) → ⊥ }
        ensures pass { IsPassOf self.now.question.now.table.now pass.new }
        ensures grown { HasSeenMore pass.old pass.new }
    {
        self.ask_ahead(pass, workers);
        double_dummy(
            self.question.alloc,
            &mut NoStore,
            &mut workers[0].solver,
            self.question.node,
        )
    }
}
