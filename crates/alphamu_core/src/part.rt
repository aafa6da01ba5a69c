// A node without some of its layouts, and fronts over the layouts that are kept.
ghost use Rattle.std.specs.Prelude.{◌≡◌, ◌≤◌, false, map, length, IfOk};
ghost use Rattle.win_vectors.specs.Vectors.{ones_of, restrict_of};
ghost use Rattle.win_vectors.specs.Fronts.{IsReduced, HaveWidth};
ghost use Rattle.trick_rules.specs.Nodes.{IsNode};
ghost use Rattle.strategy_games.specs.Plans.{stops};
ghost use Rattle.strategy_tree.specs.Bridge.{bridge};
ghost use Rattle.alphamu_core.specs.Findings.{IsExactOfWidth};
ghost use Rattle.alphamu_core.specs.Limits.{IsMade};
ghost use Rattle.alphamu_core.specs.CutDown.{IsCutDown, IsFilled};
ghost use Rattle.alphamu_core.specs.Parts.{part_of as part_at, filled_of};

use crate::answers::Found;
use pareto_fronts::Front;
use std::alloc::{AllocError, Global};
use trick_rules::Node;
use win_vectors::WinVector;

/// What a search goes on with where only some layouts are made.
#[derive(Drop)]
pub struct Part {
    /// The node with the layouts that are made.
    pub node: Node,
    /// Alpha in those layouts.
    pub alpha: Front,
    /// The upper bound in those layouts.
    pub upper: Option<Front>,
}

/// Leaves out the layouts that double dummy loses.
pub fn cut_down(
    alloc: Global,
    node: &Node,
    moves: u8,
    alpha: &Front,
    made: WinVector,
    upper: Front,
) -> Result<Part, AllocError>
    requires width { alpha.now.width ≡ length node.now.lefts }
    requires goes_on { stops bridge node.now moves ≡ false }
    requires made { IsMade node.now moves made upper }
    ensures { IfOk result (IsCutDown node.now moves alpha.now.vectors made) }
{
    let part = part_of(alloc, node, made)?;
    let alpha = restricted(alloc, alpha, made)?;
    let upper = restricted(alloc, &upper, made)?;
    Ok(Part {
        node: part,
        alpha,
        upper: Some(upper),
    })
}

/// The answer for the whole node, by that for the layouts that are made.
pub fn fill(alloc: Global, found: Found, made: WinVector) -> Result<Found, AllocError>
    requires { IsExactOfWidth (ones_of made) found }
    ensures { IfOk result (IsFilled made found) }
{
    match found {
        Found::Exact(front) => Ok(Found::Exact(filled(alloc, &front, made)?)),
        Found::Below => Ok(Found::Below),
    }
}

/// The node with the layouts at which the vector has 1, in order.
pub fn part_of(alloc: Global, node: &Node, kept: WinVector) -> Result<Node, AllocError>
    requires width { length kept ≡ length node.now.lefts }
    requires some { 1 ≤ ones_of kept }
    ensures part { IfOk result (λ part. part ≡ part_at node.now kept) }
    ensures a_node { IsNode node.now }
{
    let layouts = node.width();
    let mut lefts = Vec::with_capacity(alloc, usize::from(kept.count()))?;
    for place in 0..layouts {
        if kept.get(place) {
            lefts.push(node.left(place))?;
        }
    }
    Node::new(alloc, node.position().copy(), lefts.as_slice())
}

// The best of the vectors' parts at the layouts that are kept.
fn restricted(alloc: Global, front: &Front, kept: WinVector) -> Result<Front, AllocError>
    requires width { front.now.width ≡ length kept }
    requires some { 1 ≤ ones_of kept }
    ensures width { IfOk result (λ part. part.width ≡ ones_of kept) }
    ensures parts { IfOk result (λ part.
        IsReduced (map (λ v. restrict_of v kept) front.now.vectors) part.vectors) }
    ensures wide { HaveWidth front.now.width front.now.vectors }
{
    let count = front.len();
    let mut part = Front::new(alloc, kept.count());
    for place in 0..count {
        part.insert(front.get(place).restrict(kept))?;
    }
    Ok(part)
}

/// The best of the vectors over all layouts, with 0 at those that are left out.
pub fn filled(alloc: Global, part: &Front, kept: WinVector) -> Result<Front, AllocError>
    requires { part.now.width ≡ ones_of kept }
    ensures width { IfOk result (λ whole. whole.width ≡ length kept) }
    ensures filled { IfOk result (λ whole.
        IsReduced (map (λ v. filled_of v kept) part.now.vectors) whole.vectors) }
{
    let count = part.len();
    let mut whole = Front::new(alloc, kept.width());
    for place in 0..count {
        whole.insert(part.get(place).spread(kept).meet(kept))?;
    }
    Ok(whole)
}
