//! A vector in words of 64 layouts.
ghost use Rattle.std.specs.Prelude.{◌≡◌, ◌≤◌, false, flat_map, get_or, IfOk, if◌then◌else◌};
ghost use Rattle.bit_lists.specs.Words.{word_from, words_of};

use pareto_fronts::Front;
use std::alloc::{AllocError, Global};
use win_vectors::WinVector;

// 1 if a layout is made, and 0 past the last one.
fn bit_at(vector: WinVector, place: u16) -> u64
    ensures { result ≡ (if get_or vector place false then 1 else 0) }
{
    if place >= vector.width() {
        return 0;
    }
    let made = vector.get(place);
    if made { 1 } else { 0 }
}

// The word of the 64 layouts from a place on.
fn word_from(vector: WinVector, start: u16) -> u64
    requires { start ≤ 192 }
    ensures { result ≡ word_from vector start }
{
    let mut word = 0;
    for step in 0..64u16 {
        let bit = bit_at(vector, start + (63 - step));
        word = word * 2 + bit;
    }
    word
}

/// The four words of a vector: layout i is bit i % 64 of word i / 64.
pub fn words_of(vector: WinVector) -> [u64; 4]
    ensures { result ≡ words_of 4 vector }
{
    [
        word_from(vector, 0),
        word_from(vector, 64),
        word_from(vector, 128),
        word_from(vector, 192),
    ]
}

/// The words of a front's vectors, one vector after another.
pub fn front_words(alloc: Global, front: &Front) -> Result<Vec<u64>, AllocError>
    ensures { IfOk result (λ words. words.items ≡ flat_map (words_of 4) front.now.vectors) }
{
    let mut words = Vec::new(alloc);
    for vector in front.as_slice() {
        words.extend_from_slice(&words_of(*vector))?;
    }
    Ok(words)
}
