//! Which root card leads, and whether the cards so far are enough.
ghost use Rattle.std.specs.Prelude.{◌≡◌, ◌↔◌, ◌≤◌, ◌++◌, ℕ, IfOk, IsTrue, false, length};
ghost use Rattle.win_vectors.specs.Fronts.{CoversAll, IsReduced};
ghost use Rattle.cut_rules.specs.Stops.{IsGreatestWeight};
ghost use Rattle.root_workers.specs.Leaders.{leader};

use crate::rounds::RoundFront;
use alphamu_core::{Entered, Found};
use card_sets::Card;
use cut_rules::{Stop, greatest_weight, same_front_stop, same_weight_stop};
use pareto_fronts::Front;
use std::alloc::AllocError;
use win_vectors::Weights;

// The greatest weight of a front's vectors.
fn best_of(front: &Front, weights: &Weights) -> u32
    requires width { length weights.now ≡ front.now.width }
    requires filled { 1 ≤ length front.now.vectors }
    ensures { IsGreatestWeight weights.now front.now.vectors result }
{
    match greatest_weight(front, weights) {
        Some(weight) => weight,
        None => unreachable!(),
    }
}

// The card that leads, with one card more.
fn leader(best: Option<(Card, u32)>, card: Card, weight: u32) -> (Card, u32)
    ensures { result ≡ leader best card weight }
{
    match best {
        Some(best) if weight <= best.1 => best,
        _ => (card, weight),
    }
}

/// Adds what is won after a card, and says which card leads then.
pub fn with_card(
    front: &mut Front,
    weights: &Weights,
    best: Option<(Card, u32)>,
    card: Card,
    won: &Front,
) -> Result<(Card, u32), AllocError>
    requires weights { length weights.now ≡ won.now.width }
    requires width { won.now.width ≡ front.old.width }
    requires filled { 1 ≤ length won.now.vectors }
    ensures union { IfOk result (λ _.
        IsReduced (front.old.vectors ++ won.now.vectors) front.new.vectors) }
    ensures width { front.new.width ≡ front.old.width }
    ensures leads { IfOk result (λ lead. (weight : ℕ)
        × IsGreatestWeight weights.now won.now.vectors weight
        × (lead ≡ leader best card weight)) }
{
    front.union(won)?;
    Ok(leader(best, card, best_of(won, weights)))
}

/// Whether the cards so far are enough, by the front with a move less.
pub fn is_enough(stop: Stop, front: &Front, best: u32, previous: &Front, weights: &Weights) -> bool
    requires front { front.now.width ≡ previous.now.width }
    requires weights { length weights.now ≡ previous.now.width }
    ensures never { stop ≡ Stop.Never → result ≡ false }
    ensures front { stop ≡ Stop.SameFront
        → IsTrue result ↔ CoversAll front.now.vectors previous.now.vectors }
    ensures weight { stop ≡ Stop.SameWeight
        → IsTrue result ↔ IsGreatestWeight weights.now previous.now.vectors best }
{
    match stop {
        Stop::Never => false,
        Stop::SameFront => same_front_stop(front, previous),
        Stop::SameWeight => same_weight_stop(best, previous, weights),
    }
}

/// What a round found.
pub fn found(front: Front, best: (Card, u32), founds: Vec<Found>, most: Entered) -> RoundFront
    ensures front { result.front ≡ front }
    ensures card { result.card ≡ best.0 }
    ensures weight { result.weight ≡ best.1 }
    ensures founds { result.founds ≡ founds }
    ensures most { result.most ≡ most }
{
    RoundFront {
        front,
        card: best.0,
        weight: best.1,
        founds,
        most,
    }
}
