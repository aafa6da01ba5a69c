//! The two workloads, over vectors of 64 layouts.

use front_join::Joiner;
use pareto_fronts::Front;
use std::alloc::{AllocError, Global};
use win_vectors::WinVector;

/// How many layouts the vectors have.
const LAYOUTS: u16 = 64;

/// What a workload comes to: the sum of the fronts' lengths over all rounds, and the first vector
/// of the last front.
#[derive(Drop)]
pub struct Outcome {
    pub total: u64,
    pub first: String,
}

/// In each round: puts vectors none of which dominates another into an empty front, then for each
/// of them one that it dominates, then for each one that dominates it. No clause pins the outcome:
/// the script compares it with that of the same work in C++.
pub fn inserts(alloc: Global, size: u64, rounds: u64) -> Result<Outcome, AllocError> {
    let base = split_vectors(alloc, size)?;
    let mut below = Vec::new(alloc);
    let mut above = Vec::new(alloc);
    for vector in base.iter() {
        below.push(with_pair(*vector, false))?;
        above.push(with_pair(*vector, true))?;
    }
    let mut front = Front::new(alloc, LAYOUTS);
    let mut total = 0u64;
    for _ in 0..rounds {
        front.clear();
        insert_all(&mut front, &base)?;
        insert_all(&mut front, &below)?;
        insert_all(&mut front, &above)?;
        total = total.wrapping_add(front.len() as u64);
    }
    outcome_of(alloc, total, &front)
}

/// In each round: joins a child with all layouts and one with every other layout.
/// No clause pins the outcome: the script compares it with the one of the same work in C++.
pub fn joins(alloc: Global, size: u64, rounds: u64) -> Result<Outcome, AllocError> {
    let vectors = split_vectors(alloc, size)?;
    let mut whole = Front::new(alloc, LAYOUTS);
    insert_all(&mut whole, &vectors)?;
    let halves = halves_of(alloc, &vectors)?;
    let mut half = Front::new(alloc, 32);
    insert_all(&mut half, &halves)?;
    let mut mask = WinVector::none(LAYOUTS);
    for place in 0..32u16 {
        mask = with_bit(mask, 2 * place, true);
    }
    let mut total = 0u64;
    for _ in 0..rounds {
        let joiner = joined(alloc, &whole, &half, mask)?;
        total = total.wrapping_add(joiner.optimistic().len() as u64);
    }
    outcome_of(
        alloc,
        total,
        joined(alloc, &whole, &half, mask)?.optimistic(),
    )
}

fn joined(
    alloc: Global,
    whole: &Front,
    half: &Front,
    mask: WinVector,
) -> Result<Joiner, AllocError> {
    let mut joiner = Joiner::new(alloc, LAYOUTS);
    add_child(&mut joiner, whole, WinVector::all(LAYOUTS))?;
    add_child(&mut joiner, half, mask)?;
    Ok(joiner)
}

fn insert_all(front: &mut Front, vectors: &[WinVector]) -> Result<(), AllocError> {
    for vector in vectors.iter() {
        if vector.width() == front.width() {
            front.insert(*vector)?;
        }
    }
    Ok(())
}

fn add_child(joiner: &mut Joiner, child: &Front, mask: WinVector) -> Result<(), AllocError> {
    if !child.is_empty()
        && mask.width() == joiner.optimistic().width()
        && child.width() == mask.count()
    {
        joiner.add(child, &mask)?;
    }
    Ok(())
}

// Vectors with a 1 in each pair of layouts, so that none of them dominates another.
fn split_vectors(alloc: Global, size: u64) -> Result<Vec<WinVector>, AllocError> {
    let mut vectors = Vec::new(alloc);
    let mut state = 1u64;
    for _ in 0..size {
        state = state.wrapping_add(0x9E37_79B9_7F4A_7C15);
        vectors.push(split_vector(scrambled(state)))?;
    }
    Ok(vectors)
}

// The vector that has 1 at the second layout of a pair if the number has a 1, and otherwise at the
// first.
fn split_vector(number: u64) -> WinVector {
    let mut vector = WinVector::none(LAYOUTS);
    for place in 0..32u16 {
        let second = (number >> place) & 1 == 1;
        vector = with_bit(vector, 2 * place, !second);
        vector = with_bit(vector, 2 * place + 1, second);
    }
    vector
}

// The first layouts of the pairs, alone.
fn halves_of(alloc: Global, vectors: &[WinVector]) -> Result<Vec<WinVector>, AllocError> {
    let mut halves = Vec::new(alloc);
    for vector in vectors.iter() {
        let mut half = WinVector::none(32);
        for place in 0..32u16 {
            half = with_bit(half, place, bit_at(*vector, 2 * place));
        }
        halves.push(half)?;
    }
    Ok(halves)
}

// The vector with this bit at both layouts of the first pair.
fn with_pair(vector: WinVector, bit: bool) -> WinVector {
    with_bit(with_bit(vector, 0, bit), 1, bit)
}

fn with_bit(vector: WinVector, place: u16, bit: bool) -> WinVector {
    if place < vector.width() {
        vector.set(place, bit)
    } else {
        vector
    }
}

fn bit_at(vector: WinVector, place: u16) -> bool {
    place < vector.width() && vector.get(place)
}

// The mix of SplitMix64.
fn scrambled(state: u64) -> u64 {
    let first = (state ^ (state >> 30)).wrapping_mul(0xBF58_476D_1CE4_E5B9);
    let second = (first ^ (first >> 27)).wrapping_mul(0x94D0_49BB_1331_11EB);
    second ^ (second >> 31)
}

fn outcome_of(alloc: Global, total: u64, front: &Front) -> Result<Outcome, AllocError> {
    let mut first = String::new(alloc);
    if !front.is_empty() {
        let vector = front.get(0);
        for place in 0..vector.width() {
            first.push(if bit_at(vector, place) { '1' } else { '0' })?;
        }
    }
    Ok(Outcome { total, first })
}
