//! What is assured if one move is left at declarer's turn.
ghost use Rattle.std.specs.Prelude.{◌≡◌, true, false, IfOk};
ghost use Rattle.trick_rules.specs.Positions.{to_play};
ghost use Rattle.trick_rules.specs.Play.{is_declarers};
ghost use Rattle.assured_fronts.specs.AssuredAt.{IsAssuredAt, AllMade, claims as claims_at};

use crate::ends::{claims, open_stop, results, settled};
use dd_solver::Solver;
use pareto_fronts::Front;
use std::alloc::{AllocError, Global};
use trick_rules::Node;

// The front where declarer's side claims: double dummy's results.
fn claimed(alloc: Global, solver: &mut Solver, node: &Node) -> Result<Front, AllocError>
    requires { claims_at node.now ≡ true }
    ensures { IfOk result (IsAssuredAt node.now 0) }
{
    let made = results(solver, node, false);
    settled(alloc, node, 0, made)
}

/// What is assured with the last move at declarer's turn, if double dummy makes each layout. A
/// layout that is played for after a card can be played for before it; so only a card after which
/// declarer's side claims can add to what is assured with no move.
pub fn last_move(alloc: Global, solver: &mut Solver, node: &Node) -> Result<Front, AllocError>
    requires goes_on { claims_at node.now ≡ false }
    requires ours { is_declarers (to_play node.now.position) ≡ true }
    requires made { AllMade node.now }
    ensures { IfOk result (IsAssuredAt node.now 1) }
{
    let _width = node.width();
    let made = results(solver, node, true);
    let mut front = open_stop(alloc, node, made)?;
    let mut cards = node.choices();
    while let Some(card) = cards.pop_first() {
        let (child, _) = node.child(alloc, card)?;
        if !claims(&child) {
            continue;
        }
        let won = claimed(alloc, solver, &child)?;
        front.union(&won)?;
    }
    Ok(front)
}
