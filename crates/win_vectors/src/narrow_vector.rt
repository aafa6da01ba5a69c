//! A list of at most 64 bits in one machine word: half the room of a win vector and less.

ghost use Rattle.std.specs.Prelude.{◌≡◌, ◌≤◌, length};
ghost use Rattle.win_vectors.specs.Vectors.{most_narrow};

use crate::win_vector::WinVector;
use crate::words::{WORD_PLACES, WORDS};
use std::marker::Model;

/// The most layouts of a narrow vector.
pub const MOST_NARROW: usize = 64;

const _: () = prove!(MOST_NARROW == WORD_PLACES as usize);

/// A win vector of at most 64 layouts in 16 bytes, for lists that are kept for long: 1 to 64 bits.
#[derive(Clone, Copy, Debug)]
pub struct NarrowVector {
    word: u64,
    width: u16,
}

impl Model for NarrowVector {
    ghost use Rattle.std.specs.Prelude.{List, Bool, [], ◌∷◌, length, get_or, ◌≤◌};
    ghost use Rattle.std.proofs.Common.{ap};
    ghost use Rattle.bit_lists.specs.Words.{bits_of, words_of};
    ghost use Rattle.bit_lists.proofs.Words.{AreWordsOf, length-bits_of, words_of-bits_of};
    ghost use Rattle.win_vectors.specs.Vectors.{most_narrow};
    ghost use Rattle.win_vectors.specs.Words.{AreVectorWords};

    ghost Value = { List Bool };

    ghost view = { λ a. bits_of a.width (a.word ∷ 0 ∷ 0 ∷ 0 ∷ []) };

    ghost invariant = { λ a. AreVectorWords a.width (a.word ∷ 0 ∷ 0 ∷ 0 ∷ [])
        × (a.width ≤ most_narrow) };

    ghost inverse = { λ v. record { width = length v; word = get_or (words_of 4 v) 0 0 } };

    ghost inverse_ok = { λ a h i. record {
      width = length-bits_of a.width (a.word ∷ 0 ∷ 0 ∷ 0 ∷ []) i;
      word = get_or (words_of-bits_of 4 a.width (a.word ∷ 0 ∷ 0 ∷ 0 ∷ [])
          (record { long = h.0.four; fit = h.0.fit; past = h.0.past }) i) 0 0;
    } };
}

impl NarrowVector {
    /// The same bits in one word.
    pub fn of(vector: WinVector) -> NarrowVector
        requires { length vector ≤ most_narrow }
        ensures { result ≡ vector }
    {
        NarrowVector {
            word: vector.words[0],
            width: vector.width,
        }
    }

    /// The same bits as a win vector.
    pub fn widen(self) -> WinVector
        ensures value { result ≡ self }
        ensures narrow { length self ≤ most_narrow }
    {
        let mut words = [0; WORDS];
        words[0] = self.word;
        WinVector {
            words,
            width: self.width,
        }
    }
}
