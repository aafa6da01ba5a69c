//! Different places of a list drawn by chance, the same for the same seed. It builds on `rand`, whose
//! generator makes the choice. Its contract promises how many places there are,
//! that they differ, that each is one of the list, and their order; that each is as likely as
//! another is only tested.
#![tactic(auto)]

ghost use Rattle.std.specs.Prelude.{◌≡◌, ◌≤◌, ◌<◌, IfOk, AllPairs};
ghost use Rattle.drawn_places.specs.Places.{ArePlaces, is_among};

use rand::seq::index::sample;
use rand_chacha::ChaCha8Rng;
use rand_core::SeedableRng;
use std::alloc::{AllocError, Global};

/// `amount` different places of a list with `length` items, counted from 0 and in order.
///
/// The seed decides which: the same seed gives the same places on every machine.
pub fn draw_places(
    alloc: Global,
    seed: u64,
    length: usize,
    amount: usize,
) -> Result<Vec<usize>, AllocError>
    requires { amount ≤ length }
    ensures { IfOk result (λ places. ArePlaces length amount places.items) }
{
    let mut generator = ChaCha8Rng::seed_from_u64(seed);
    let mut places = sample(alloc, &mut generator, length, amount)?.into_vec();
    places.sort()?;
    Ok(places)
}

/// Whether a place is one of these, which are in order.
pub fn is_among(places: &[usize], place: usize) -> bool
    requires { AllPairs (λ place later. place < later) places.now }
    ensures { result ≡ is_among places.now place }
{
    places.binary_search(&place).is_ok()
}
