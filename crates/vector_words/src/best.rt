//! The vector that a front recommends.
ghost use Rattle.std.specs.Prelude.{◌≡◌, ◌≢◌, [], length};
ghost use Rattle.vector_words.specs.Best.{IsFirstBest};

use pareto_fronts::Front;
use win_vectors::{Weights, WinVector};

/// The first of the heaviest vectors of a front.
pub fn first_best(front: &Front, weights: &Weights) -> WinVector
    requires filled { front.now.vectors ≢ [] }
    requires wide { front.now.width ≡ length weights.now }
    ensures best { IsFirstBest weights.now front.now.vectors result }
    ensures wide { length result ≡ length weights.now }
{
    let count = front.len();
    let mut best = front.get(0);
    let mut most = weights.total(best);
    for place in 0..count {
        let vector = front.get(place);
        let weight = weights.total(vector);
        if weight > most {
            best = vector;
            most = weight;
        }
    }
    best
}
