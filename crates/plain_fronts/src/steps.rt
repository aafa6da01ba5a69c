//! The steps of a front over a node's cards, one card after another.
ghost use Rattle.std.specs.Prelude.{◌≡◌, ◌-◌, true, false, [], ◌∷◌, ◌++◌, length, replicate, IfOk};
ghost use Rattle.win_vectors.specs.Vectors.{ones_of};
ghost use Rattle.win_vectors.specs.Fronts.{IsReduced, meets, spreads};
ghost use Rattle.trick_rules.specs.Positions.{to_play};
ghost use Rattle.trick_rules.specs.Play.{is_declarers};
ghost use Rattle.trick_rules.specs.Nodes.{IsNode, stops};

use front_join::joined_front;
use pareto_fronts::Front;
use std::alloc::{AllocError, Global};
use trick_rules::Node;
use win_vectors::WinVector;

/// The moves of declarer's side that are left after a card.
pub fn moves_after(node: &Node, moves: u8) -> u8
    requires { stops node.now moves ≡ false }
    ensures ours { is_declarers (to_play node.now.position) ≡ true → result ≡ moves - 1 }
    ensures theirs { is_declarers (to_play node.now.position) ≡ false → result ≡ moves }
{
    if node.is_ours() { moves - 1 } else { moves }
}

/// The front over no card: declarer's side wins nothing, and a defender leaves every layout.
pub fn front_of_no_card(alloc: Global, node: &Node) -> Result<Front, AllocError>
    ensures a_node { IsNode node.now }
    ensures width { IfOk result (λ front. front.width ≡ length node.now.lefts) }
    ensures ours { is_declarers (to_play node.now.position) ≡ true
        → IfOk result (λ front. front.vectors ≡ []) }
    ensures theirs { is_declarers (to_play node.now.position) ≡ false → IfOk result (λ front.
        IsReduced (replicate (length node.now.lefts) true ∷ []) front.vectors) }
{
    let mut front = Front::new(alloc, node.width());
    if !node.is_ours() {
        front.insert(WinVector::all(node.width()))?;
    }
    Ok(front)
}

/// The front over one card more, whose child has this front and keeps these layouts: at declarer's
/// side the best vectors of both, and at a defender the best meets of one vector of each.
pub fn with_child(
    alloc: Global,
    node: &Node,
    mut front: Front,
    child: &Front,
    mask: WinVector,
) -> Result<Front, AllocError>
    requires mask_width { length mask ≡ front.width }
    requires child_width { child.now.width ≡ ones_of mask }
    requires ours { is_declarers (to_play node.now.position) ≡ true → ones_of mask ≡ front.width }
    ensures width { IfOk result (λ f. f.width ≡ front.width) }
    ensures ours { is_declarers (to_play node.now.position) ≡ true → IfOk result (λ f.
        IsReduced (front.vectors ++ child.now.vectors) f.vectors) }
    ensures theirs { is_declarers (to_play node.now.position) ≡ false → IfOk result (λ f.
        IsReduced (meets front.vectors (spreads mask child.now.vectors)) f.vectors) }
{
    if node.is_ours() {
        front.union(child)?;
        Ok(front)
    } else {
        joined_front(alloc, &front, child, mask)
    }
}
