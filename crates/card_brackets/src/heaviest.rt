//! The greatest weight of what is assured at a defender's turn, by what is assured after each of
//! its cards.
ghost use Rattle.std.specs.Prelude.{◌≡◌, ◌≢◌, ◌<◌, ◌≤◌, ℕ, Some, None, [], Contains, length, IfOk, OnOk};
ghost use Rattle.win_vectors.specs.Vectors.{ones_of, meet_of, spread_of};
ghost use Rattle.win_vectors.specs.Fronts.{Vector, HaveWidth};
ghost use Rattle.win_vectors.specs.Weights.{weight_of};
ghost use Rattle.strategy_tree.specs.Bridge.{bridge};
ghost use Rattle.assured_games.specs.Assured.{IsAssured, IsLeastBy};
ghost use Rattle.sure_nodes.specs.SureNodes.{is_sure_node};
ghost use Rattle.assured_fronts.specs.AfterReplies.{Waits, AreAfterReplies};
ghost use Rattle.card_brackets.specs.Heaviest.{TakesHeavier, AreHeavyMeets, AreHeavyAssured};

use assured_fronts::AfterReply;
use cut_rules::greatest_weight;
use front_join::joined_front;
use pareto_fronts::Front;
use std::alloc::{AllocError, Global};
use trick_rules::Node;
use vector_words::first_best;
use win_vectors::{Weights, WinVector};

// Leaves the best of the vectors of a front and of those meets of a vector with each of a list that
// are heavier than the floor.
fn take_heavier(
    best: &mut Front,
    list: &[WinVector],
    vector: WinVector,
    weights: &Weights,
    floor: u32,
) -> Result<(), AllocError>
    requires width { length vector ≡ best.old.width }
    requires widths { HaveWidth best.old.width list.now }
    requires weights { length weights.now ≡ best.old.width }
    ensures heavier { OnOk result (TakesHeavier weights.now floor list.now vector
        best.old.vectors best.new.vectors) }
    ensures width { best.new.width ≡ best.old.width }
{
    for mine in list.iter() {
        let met = mine.meet(vector);
        if weights.total(met) <= floor {
            continue;
        }
        best.insert(met)?;
    }
    Ok(())
}

// The best of the meets of one vector of a front and one of what is assured after a card that are
// heavier than the floor.
fn heavy_meets(
    alloc: Global,
    front: &Front,
    after: &AfterReply,
    weights: &Weights,
    floor: u32,
) -> Result<Front, AllocError>
    requires mask { length after.now.mask ≡ front.now.width }
    requires child { after.now.front.width ≡ ones_of after.now.mask }
    requires weights { length weights.now ≡ front.now.width }
    ensures heavy { IfOk result (λ kept. AreHeavyMeets weights.now floor front.now.vectors
        after.now.mask after.now.front.vectors kept.vectors) }
    ensures width { IfOk result (λ kept. kept.width ≡ front.now.width) }
{
    let mut best = Front::new(alloc, weights.width());
    for vector in after.front.as_slice().iter() {
        let spread = vector.spread(after.mask);
        take_heavier(&mut best, front.as_slice(), spread, weights, floor)?;
    }
    Ok(best)
}

// The heaviest meet of a vector and one of what is assured after a card.
fn best_meet(
    alloc: Global,
    vector: WinVector,
    after: &AfterReply,
    weights: &Weights,
) -> Result<WinVector, AllocError>
    requires vector { length vector ≡ length weights.now }
    requires mask { length after.now.mask ≡ length weights.now }
    requires child { after.now.front.width ≡ ones_of after.now.mask }
    requires filled { after.now.front.vectors ≢ [] }
    ensures met { IfOk result (λ found. (w : Vector) × Contains after.now.front.vectors w
        × (meet_of vector (spread_of w after.now.mask) ≡ found)) }
    ensures width { IfOk result (λ found. length found ≡ length weights.now) }
{
    let mut single = Front::new(alloc, weights.width());
    single.insert(vector)?;
    let joined = joined_front(alloc, &single, &after.front, after.mask)?;
    Ok(first_best(&joined, weights))
}

// An assured vector: with each card the heaviest part of the vector until then.
fn quick_vector(
    alloc: Global,
    node: &Node,
    moves: u8,
    replies: &[AfterReply],
    weights: &Weights,
) -> Result<WinVector, AllocError>
    requires waits { Waits node.now moves }
    requires replies { AreAfterReplies node.now moves replies.now }
    requires weights { length weights.now ≡ length node.now.lefts }
    ensures assured { IfOk result (IsAssured bridge is_sure_node node.now moves) }
    ensures width { IfOk result (λ found. length found ≡ length weights.now) }
{
    let _width = node.width();
    let mut quick = WinVector::all(weights.width());
    for after in replies.iter() {
        quick = best_meet(alloc, quick, after, weights)?;
    }
    Ok(quick)
}

// Assured vectors that dominate each one that is heavier than the floor.
fn heavy_assured(
    alloc: Global,
    node: &Node,
    moves: u8,
    replies: &[AfterReply],
    weights: &Weights,
    floor: u32,
) -> Result<Front, AllocError>
    requires waits { Waits node.now moves }
    requires replies { AreAfterReplies node.now moves replies.now }
    requires weights { length weights.now ≡ length node.now.lefts }
    ensures heavy { IfOk result (λ kept.
        AreHeavyAssured node.now moves weights.now floor kept.vectors) }
    ensures width { IfOk result (λ kept. kept.width ≡ length weights.now) }
{
    let _width = node.width();
    let mut kept = Front::new(alloc, weights.width());
    kept.insert(WinVector::all(weights.width()))?;
    for after in replies.iter() {
        kept = heavy_meets(alloc, &kept, after, weights, floor)?;
    }
    Ok(kept)
}

// The greatest of the weights above the floor, or the floor.
fn at_least(floor: u32, greatest: Option<u32>) -> u32
    ensures more { (w : ℕ) → greatest ≡ Some w → floor < w → result ≡ w }
    ensures less { (w : ℕ) → greatest ≡ Some w → w ≤ floor → result ≡ floor }
    ensures none { greatest ≡ None → result ≡ floor }
{
    match greatest {
        Some(weight) if floor < weight => weight,
        _ => floor,
    }
}

/// The greatest weight that is assured at a defender's turn, by what is assured after each of its
/// cards. Only the vectors that are heavier than one that is found quickly are put together.
pub fn heaviest(
    alloc: Global,
    node: &Node,
    moves: u8,
    weights: &Weights,
    replies: &[AfterReply],
) -> Result<u32, AllocError>
    requires waits { Waits node.now moves }
    requires replies { AreAfterReplies node.now moves replies.now }
    requires weights { length weights.now ≡ length node.now.lefts }
    ensures { IfOk result
        (IsLeastBy bridge is_sure_node (weight_of weights.now) node.now moves) }
{
    let quick = quick_vector(alloc, node, moves, replies, weights)?;
    let floor = weights.total(quick);
    let kept = heavy_assured(alloc, node, moves, replies, weights, floor)?;
    Ok(at_least(floor, greatest_weight(&kept, weights)))
}
