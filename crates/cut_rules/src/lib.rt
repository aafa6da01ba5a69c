//! The cuts that a search may make, and where a loop over root cards may stop.
//! It builds on `pareto_fronts`, and on the laws of strategies.
//! If a cut says yes, no strategy wins a vector that alpha doesn't dominate already. If a stop says
//! yes, the cards left out change nothing.
#![tactic(auto)]

ghost use Rattle.std.specs.Prelude.{◌≡◌, ◌↔◌, ◌⊎◌, ◌≤◌, ℕ, suc, List, Some, None};
ghost use Rattle.std.specs.Prelude.{IsTrue, length};
ghost use Rattle.win_vectors.specs.Fronts.{Vector, CoversAll, IsFrontOf};
ghost use Rattle.win_vectors.specs.Weights.{weight_of};
ghost use Rattle.trick_rules.specs.Nodes.{NodeValue};
ghost use Rattle.strategy_games.specs.Plans.{IsFront};
ghost use Rattle.strategy_games.specs.Joins.{WinsByCard};
ghost use Rattle.strategy_games.specs.Choosing.{IsBestWeight};
ghost use Rattle.strategy_tree.specs.Bridge.{bridge};
ghost use Rattle.cut_rules.specs.Stops.{AreOurCards, IsGreatestWeight, IsGreatestOf};

use pareto_fronts::Front;
use win_vectors::Weights;

/// At what point a loop over root cards may stop early.
#[derive(Clone, Copy, Debug, PartialEq, Eq)]
pub enum Stop {
    /// It goes over each card.
    Never,
    /// The cards so far win what all cards win with a move less: the front can't grow.
    SameFront,
    /// One card wins as much weight as any wins with a move less: the best weight can't rise.
    SameWeight,
}

/// Which cuts a search makes. No rule changes an answer.
#[derive(Clone, Copy, Debug, PartialEq, Eq)]
pub struct CutRules {
    /// A defender's node is left once alpha covers the replies joined so far.
    pub early: bool,
    /// A search with fewer moves goes first.
    pub deepen: bool,
    /// A node is left where alpha covers its front with fewer moves.
    pub bound: bool,
    /// At what point a loop over root cards stops.
    pub stop: Stop,
}

impl CutRules {
    ghost use Rattle.cut_rules.specs.Rules.{no_cuts, all_cuts};

    /// No cut: each card is searched to its end.
    pub fn none() -> CutRules
        ensures { result ≡ no_cuts }
    {
        CutRules {
            early: false,
            deepen: false,
            bound: false,
            stop: Stop::Never,
        }
    }

    /// Each cut, and this stop.
    pub fn all(stop: Stop) -> CutRules
        ensures { result ≡ all_cuts stop }
    {
        CutRules {
            early: true,
            deepen: true,
            bound: true,
            stop,
        }
    }
}

/// Whether alpha covers each vector of an upper bound, so that what lies below the bound adds
/// nothing to alpha.
pub fn cut(upper: &Front, alpha: &Front) -> bool
    requires { alpha.now.width ≡ upper.now.width }
    ensures { IsTrue result ↔ CoversAll alpha.now.vectors upper.now.vectors }
{
    upper.covered_by(alpha)
}

/// Whether the union of the fronts of some cards covers each vector of the front with a move less:
/// then it is the whole front, and the other cards add nothing.
pub fn same_front_stop(union: &Front, less: &Front) -> bool
    requires { union.now.width ≡ less.now.width }
    ensures covers { IsTrue result ↔ CoversAll union.now.vectors less.now.vectors }
    ensures enough { IsTrue result → (n : NodeValue) (moves : ℕ) (cards : List ℕ)
        → AreOurCards n cards
        → IsFrontOf (WinsByCard bridge n moves cards) union.now.vectors
        → IsFront bridge n moves less.now.vectors
        → IsFront bridge n (suc moves) union.now.vectors }
{
    cut(less, union)
}

// The greater of a weight and of the greatest so far.
fn greater(greatest: Option<u32>, weight: u32) -> u32
    ensures none { greatest ≡ None → result ≡ weight }
    ensures some { (most : ℕ) → greatest ≡ Some most → (result ≡ most) ⊎ (result ≡ weight) }
    ensures most { (most : ℕ) → greatest ≡ Some most → most ≤ result }
    ensures weight { weight ≤ result }
{
    match greatest {
        Some(most) if weight <= most => most,
        _ => weight,
    }
}

/// The greatest weight of a front's vectors. `None` exactly when it has none.
pub fn greatest_weight(front: &Front, weights: &Weights) -> Option<u32>
    requires { length weights.now ≡ front.now.width }
    ensures { IsGreatestOf weights.now front.now.vectors result }
{
    let mut greatest = None;
    for place in 0..front.len() {
        greatest = Some(greater(greatest, weights.total(front.get(place))));
    }
    greatest
}

/// Whether this is the greatest weight of the vectors of the front with a move less. If a vector of
/// some card has it, it is then the best weight, and the other cards don't raise it.
pub fn same_weight_stop(best: u32, less: &Front, weights: &Weights) -> bool
    requires { length weights.now ≡ less.now.width }
    ensures greatest { IsTrue result ↔ IsGreatestWeight weights.now less.now.vectors best }
    ensures enough { IsTrue result → (n : NodeValue) (moves : ℕ) (cards : List ℕ)
        → AreOurCards n cards
        → IsFront bridge n moves less.now.vectors
        → (vector : Vector) → WinsByCard bridge n moves cards vector
        → weight_of weights.now vector ≡ best
        → IsBestWeight bridge weights.now n (suc moves) best }
{
    match greatest_weight(less, weights) {
        Some(greatest) => greatest == best,
        None => false,
    }
}
