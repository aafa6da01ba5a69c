//! What each card is worth.
ghost use Rattle.std.specs.Prelude.{◌≡◌, ◌-◌, true, IfOk, IfErr};
ghost use Rattle.card_sets.specs.SetWords.{has_card};
ghost use Rattle.trick_rules.specs.Nodes.{choices, child};
ghost use Rattle.front_table.specs.Proven.{IsFrontAt};
ghost use Rattle.fusion_base.specs.Sampling.{made_after};
ghost use Rattle.bit_answers.specs.Answers.{AreWorths, IsWorth};
ghost use Rattle.bit_answers.specs.Ready.{IsReady, IsSearchFault};

use crate::searches::{front_after, new_table};
use crate::structs::Worth;
use bit_questions::Asked;
use dd_solver::Solver;
use fusion_base::{CardVector, per_card_alone};
use pareto_fronts::Front;
use std::alloc::Global;
use strategy_tree::RootFault;
use vector_words::{first_best, words_of};

// What a card is worth by the front after it.
fn worth_of(asked: &Asked, believed: &CardVector, front: &Front) -> Worth
    requires ready { IsReady asked.now }
    requires card { has_card (choices asked.now.node) believed.now.card ≡ true }
    requires believed { believed.now.vector ≡ made_after asked.now.node believed.now.card }
    requires front { IsFrontAt (child asked.now.node believed.now.card) (asked.now.moves - 1)
        front.now }
    ensures { IsWorth asked.now.node asked.now.weights asked.now.moves believed.now.card result }
{
    let _width = asked.node.width();
    let weights = &asked.weights;
    let best = first_best(front, weights);
    Worth {
        vector: words_of(best),
        card: u32::from(believed.card.number()),
        weight: weights.total(best),
        double_dummy: weights.total(believed.vector),
    }
}

/// Each legal card with what it is worth, in card order.
pub fn worths(alloc: Global, asked: &Asked) -> Result<Vec<Worth>, RootFault>
    requires { IsReady asked.now }
    ensures worths { IfOk result (λ all. AreWorths asked.now.node asked.now.weights asked.now.moves
        all.items) }
    ensures refused { IfErr result (IsSearchFault asked.now) }
{
    let believed = per_card_alone(alloc, &asked.node)?;
    let (table, mut pass) = new_table(alloc)?;
    let mut solver = Solver::new(alloc);
    let mut all = Vec::new(alloc);
    for entry in &believed {
        let front = front_after(alloc, &table, &mut pass, &mut solver, asked, entry.card)?;
        all.push(worth_of(asked, entry, &front))?;
    }
    Ok(all)
}
