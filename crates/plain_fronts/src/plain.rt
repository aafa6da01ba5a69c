//! The front of a node from the fronts of its children.
ghost use Rattle.std.specs.Prelude.{◌≡◌, true, false, IfOk};
ghost use Rattle.trick_rules.specs.Nodes.{stops};
ghost use Rattle.front_table.specs.Proven.{IsFrontAt};

use crate::steps::{front_of_no_card, moves_after, with_child};
use double_dummy::plain_results;
use pareto_fronts::Front;
use std::alloc::{AllocError, Global};
use trick_rules::Node;

/// The front of a node with `moves` moves of declarer's side, in printing order. It goes through
/// the whole tree.
#[cycle(front)]
pub fn plain_front(alloc: Global, node: &Node, moves: u8) -> Result<Front, AllocError>
    ensures { IfOk result (IsFrontAt node.now moves) }
{
    if node.stops(moves) {
        front_at_stop(alloc, node, moves)
    } else {
        front_over_cards(alloc, node, moves)
    }
}

// Where strategies stop: double dummy's results.
fn front_at_stop(alloc: Global, node: &Node, moves: u8) -> Result<Front, AllocError>
    requires { stops node.now moves ≡ true }
    ensures { IfOk result (IsFrontAt node.now moves) }
{
    let mut front = Front::new(alloc, node.width());
    front.insert(plain_results(node))?;
    Ok(front)
}

// The front from those of the children, with a move less at declarer's side.
#[cycle(front)]
fn front_over_cards(alloc: Global, node: &Node, moves: u8) -> Result<Front, AllocError>
    requires { stops node.now moves ≡ false }
    ensures { IfOk result (IsFrontAt node.now moves) }
{
    let left = moves_after(node, moves);
    let mut front = front_of_no_card(alloc, node)?;
    let mut cards = node.choices();
    'cards: while let Some(card) = cards.pop_first() {
        let (child, mask) = node.child(alloc, card)?;
        let won = plain_front(alloc, &child, left)?;
        front = with_child(alloc, node, front, &won, mask)?;
    }
    Ok(front)
}
