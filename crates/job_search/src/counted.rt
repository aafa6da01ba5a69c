//! What is found at a root if all layouts count alike: the best weight is then a count.
ghost use Rattle.std.specs.Prelude.{◌≡◌, ◌≤◌, true, false, IfOk, length, replicate};
ghost use Rattle.trick_rules.specs.Nodes.{most_moves};
ghost use Rattle.strategy_games.specs.Choosing.{IsBestCount, IsNamedCard};
ghost use Rattle.strategy_tree.specs.Bridge.{bridge};
ghost use Rattle.front_table.specs.Proven.{IsFrontAt};
ghost use Rattle.root_workers.specs.Plain.{HasWorkers};
ghost use Rattle.root_workers.specs.Questions.{NamesSpent, NamesFirstSpent, FitsIfPlain};
ghost use Rattle.shared_table.specs.Passes.{IsPassOf};

use card_sets::Card;
use pareto_fronts::Front;
use root_workers::{Question, RootCrew};
use shared_table::Pass;
use strategy_tree::RootFault;

/// The front of a root, the card to play, and how many layouts it wins.
#[derive(Drop)]
pub struct CountedFront {
    pub front: Front,
    pub card: Card,
    pub count: u16,
}

// A weight that is no more than there may be layouts.
fn count_of(weight: u32) -> u16
    requires { weight ≤ 256 }
    ensures { result ≡ weight }
{
    weight as u16
}

/// What a search finds with weights of 1, with a count for the weight.
pub fn counted_front<C: RootCrew>(
    crew: &C,
    question: &Question,
    pass: &mut Pass,
) -> Result<CountedFront, RootFault>
    requires alike { question.now.weights.now ≡ replicate (length question.now.node.now.lefts) 1 }
    requires ready { C.ready crew.now }
    requires ours { bridge.is_ours question.now.node.now ≡ true }
    requires goes_on { bridge.is_over question.now.node.now ≡ false }
    requires some_moves { 1 ≤ question.now.moves }
    requires few_moves { question.now.moves ≤ most_moves }
    requires workers { HasWorkers question.now.options.now }
    requires pass { IsPassOf question.now.table.now pass.old }
    ensures front { IfOk result (λ root.
        IsFrontAt question.now.node.now question.now.moves root.front) }
    ensures card { IfOk result (λ root.
        IsNamedCard bridge question.now.node.now question.now.moves root.card) }
    ensures count { IfOk result (λ root.
        IsBestCount bridge question.now.node.now question.now.moves root.count) }
    ensures fits { FitsIfPlain question.now result }
    ensures spent { NamesSpent question.now result }
    ensures first_spent { NamesFirstSpent question.now result }
    ensures pass { IsPassOf question.now.table.now pass.new }
{
    prove!(question.node.width() > 0);
    let found = question.front(crew, pass)?;
    Ok(CountedFront {
        front: found.front,
        card: found.card,
        count: count_of(found.weight),
    })
}
