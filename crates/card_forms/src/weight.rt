//! What all layouts weigh.
ghost use Rattle.std.specs.Prelude.{◌≡◌, sum};

use win_vectors::{Weights, WinVector};

/// What all layouts weigh together.
pub fn weight_of_all(weights: &Weights) -> u32
    ensures { result ≡ sum weights.now }
{
    weights.total(WinVector::all(weights.width()))
}
