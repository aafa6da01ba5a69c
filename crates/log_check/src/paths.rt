//! The node that a path leads to.
ghost use Rattle.std.specs.Prelude.{◌≡◌, ◌+◌, ◌++◌, ◌∷◌, [], ℕ, IfOk, MatchOption};
ghost use Rattle.log_check.specs.Steps.{CanFollow, IsFollowed};

use card_sets::Card;
use std::alloc::{AllocError, Global};
use trick_rules::{CardLine, Node};

/// The node that the cards lead to from a node with `moves` moves of declarer's side, and the moves
/// that are left there. `None` if a card is no choice or no move is left for it.
pub fn followed(
    alloc: Global,
    root: &Node,
    moves: u8,
    path: &CardLine,
) -> Result<Option<(Node, u8)>, AllocError>
    ensures { IfOk result (λ found. MatchOption found (¬ CanFollow root.now moves path.now)
        (λ end. IsFollowed root.now moves path.now end.0 end.1)) }
{
    let mut node = root.copy(alloc)?;
    let mut left = moves;
    for place in 0..path.len() {
        let Some((child, rest)) = after_card(alloc, &node, left, path.get(place))? else {
            return Ok(None);
        };
        node = child;
        left = rest;
    }
    Ok(Some((node, left)))
}

// The same of one card.
fn after_card(
    alloc: Global,
    node: &Node,
    moves: u8,
    card: Card,
) -> Result<Option<(Node, u8)>, AllocError>
    ensures { IfOk result (λ found. MatchOption found (¬ CanFollow node.now moves (card ∷ []))
        (λ end. IsFollowed node.now moves (card ∷ []) end.0 end.1)) }
{
    let cost = if node.is_ours() { 1 } else { 0 };
    if moves < cost || !node.choices().has(card) {
        return Ok(None);
    }
    let (child, _) = node.child(alloc, card)?;
    Ok(Some((child, moves - cost)))
}
