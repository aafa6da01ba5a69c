//! A list of bits in four machine words.

ghost use Rattle.std.specs.Prelude.{◌≡◌, ◌↔◌, ◌≤◌, ◌<◌, IsTrue, true, false, length, replicate, slice_get, slice_set};
ghost use Rattle.std.proofs.Common.{rules};
ghost use Rattle.std.proofs.Math.Bool.{beq};
ghost use Rattle.std.specs.Cmp.Lexicographic.{pointwise};
ghost use Rattle.std.specs.Cmp.Rules.{comparing};
ghost use Rattle.win_vectors.specs.Fronts.{Dominates};
ghost use Rattle.win_vectors.specs.Vectors.{dominates as is_above, either_of, meet_of, most_layouts, ones_of, restrict_of, spread_of, vector_order};

use crate::words::{
    WORD_PLACES, WORDS, bits_from, first_difference, ones_below, places_in, put_bits,
    restricted_word, spread_word, word_order, words_in_use,
};
use std::cmp::Ordering;
use std::marker::Model;
use std::simd::prelude::*;

/// The most layouts of a vector.
pub const MOST_LAYOUTS: usize = 256;

const _: () = prove!(MOST_LAYOUTS == WORDS * WORD_PLACES as usize);

/// One bit for each layout of a list, 1 if the layout is made: 1 to 256 bits.
///
/// The first layout has the lowest bit of the first word.
#[derive(Clone, Copy, Debug)]
pub struct WinVector {
    pub(crate) words: [u64; WORDS],
    pub(crate) width: u16,
}

impl Model for WinVector {
    ghost use Rattle.std.specs.Prelude.{List, Bool, length};
    ghost use Rattle.bit_lists.specs.Words.{bits_of, words_of};
    ghost use Rattle.bit_lists.proofs.Words.{AreWordsOf, length-bits_of, words_of-bits_of};
    ghost use Rattle.win_vectors.specs.Words.{AreVectorWords};

    ghost Value = { List Bool };

    ghost view = { λ a. bits_of a.width a.words };

    ghost invariant = { λ a. AreVectorWords a.width a.words };

    ghost inverse = { λ v. record { width = length v; words = words_of 4 v } };

    ghost inverse_ok = { λ a h i. record {
      width = length-bits_of a.width a.words i;
      words = words_of-bits_of 4 a.width a.words
          (record { long = h.four; fit = h.fit; past = h.past }) i;
    } };
}

/// One layout that isn't made: what a collection puts into places that it doesn't use.
impl Default for WinVector {
    ghost use Rattle.std.specs.Prelude.{◌≡◌, false, [], ◌∷◌};

    ghost is_default = { λ v. v ≡ false ∷ [] };

    fn default() -> WinVector {
        WinVector::none(1)
    }
}

impl PartialEq for WinVector {
    ghost eq = { pointwise beq };

    ghost laws = { Prim.search (comparing, rules) };

    fn eq(&self, other: &WinVector) -> bool {
        self.equals(*other)
    }
}

impl Eq for WinVector {
    ghost laws = { Prim.search (comparing, rules) };
}

impl WinVector {
    /// Each layout is made.
    pub fn all(width: u16) -> WinVector
        requires low { 1 ≤ width }
        requires high { width ≤ most_layouts }
        ensures { result ≡ replicate width true }
    {
        WinVector {
            width,
            words: [
                ones_below(width, 0),
                ones_below(width, 64),
                ones_below(width, 128),
                ones_below(width, 192),
            ],
        }
    }

    /// No layout is made.
    pub fn none(width: u16) -> WinVector
        requires low { 1 ≤ width }
        requires high { width ≤ most_layouts }
        ensures { result ≡ replicate width false }
    {
        WinVector {
            width,
            words: [0; WORDS],
        }
    }

    /// The vector with this bit at a layout, which is counted from 0.
    pub fn set(self, place: u16, bit: bool) -> WinVector
        requires { place < length self }
        ensures { result ≡ slice_set self place bit }
    {
        let word = usize::from(place / WORD_PLACES);
        let one = 1u64 << (place % WORD_PLACES);
        let mut words = self.words;
        words[word] = if bit {
            words[word] | one
        } else {
            words[word] & !one
        };
        WinVector {
            width: self.width,
            words,
        }
    }

    /// Whether a layout, which is counted from 0, is made.
    pub fn get(self, place: u16) -> bool
        requires { place < length self }
        ensures { slice_get self place ≡ Some result }
    {
        let word = self.words[usize::from(place / WORD_PLACES)];
        (word >> (place % WORD_PLACES)) & 1 == 1
    }

    /// How many layouts there are.
    pub fn width(self) -> u16
        ensures value { result ≡ length self }
        ensures low { 1 ≤ result }
        ensures high { result ≤ most_layouts }
    {
        self.width
    }

    /// How many layouts are made.
    pub fn count(self) -> u16
        ensures { result ≡ ones_of self }
    {
        let [first, second, third, fourth] = self.words;
        if self.width <= WORD_PLACES {
            return first.count_ones() as u16;
        }
        let ones = first.count_ones()
            + second.count_ones()
            + third.count_ones()
            + fourth.count_ones();
        ones as u16
    }

    /// 1 where both have 1.
    pub fn meet(self, other: WinVector) -> WinVector
        requires { length self ≡ length other }
        ensures { result ≡ meet_of self other }
    {
        let ones = u64x4::from_array(self.words) & u64x4::from_array(other.words);
        WinVector {
            width: self.width,
            words: ones.to_array(),
        }
    }

    /// 1 where either has 1.
    pub fn either(self, other: WinVector) -> WinVector
        requires { length self ≡ length other }
        ensures { result ≡ either_of self other }
    {
        let ones = u64x4::from_array(self.words) | u64x4::from_array(other.words);
        WinVector {
            width: self.width,
            words: ones.to_array(),
        }
    }

    /// Whether this vector has 1 wherever the other has.
    pub fn dominates(self, other: WinVector) -> bool
        requires { length self ≡ length other }
        ensures value { result ≡ is_above self other }
        ensures meaning { IsTrue result ↔ Dominates self other }
    {
        if other.width <= WORD_PLACES {
            return other.words[0] & !self.words[0] == 0;
        }
        let lacking = u64x4::from_array(other.words) & !u64x4::from_array(self.words);
        lacking.reduce_or() == 0
    }

    /// Whether the two have the same bits.
    pub fn equals(self, other: WinVector) -> bool
        ensures { IsTrue result ↔ (self ≡ other) }
    {
        self.width == other.width && self.words == other.words
    }

    /// The printing order: more ones first, and among equal counts the vector with a 1 at the first
    /// layout at which the two differ. `Less` says that this vector comes first.
    pub fn order(self, other: WinVector) -> Ordering
        requires { length self ≡ length other }
        ensures { result ≡ vector_order self other }
    {
        if other.width <= WORD_PLACES {
            return word_order(self.words[0], other.words[0]);
        }
        self.wide_order(other)
    }

    /// The bits at the ones of the mask, in order.
    #[tactic(auto, using(crate::proofs::Masks::room_for_a_word, crate::proofs::Masks::ones_of_a_word))]
    pub fn restrict(self, mask: WinVector) -> WinVector
        requires same_width { length self ≡ length mask }
        requires not_empty { 1 ≤ ones_of mask }
        ensures { result ≡ restrict_of self mask }
    {
        if mask.is_all() {
            return self;
        }
        let mut words = [0u64; WORDS];
        let mut width = 0u16;
        for word in 0..words_in_use(self.width) {
            let places = places_in(self.width, word);
            let bits = restricted_word(self.words[word], mask.words[word], places);
            put_bits(&mut words, width, bits);
            width += mask.words[word].count_ones() as u16;
        }
        WinVector { width, words }
    }

    /// The bits put at the ones of the mask, in order, and 1 at its zeros.
    #[tactic(auto, using(crate::proofs::Masks::room_for_a_word, crate::proofs::Masks::ones_of_a_word))]
    pub fn spread(self, mask: WinVector) -> WinVector
        requires { length self ≡ ones_of mask }
        ensures { result ≡ spread_of self mask }
    {
        if self.width == mask.width {
            return self;
        }
        let mut words = [0u64; WORDS];
        let mut from = 0u16;
        for word in 0..words_in_use(mask.width) {
            let places = places_in(mask.width, word);
            words[word] = spread_word(bits_from(&self.words, from), mask.words[word], places);
            from += mask.words[word].count_ones() as u16;
        }
        WinVector {
            width: mask.width,
            words,
        }
    }

    // The printing order at any width.
    fn wide_order(self, other: WinVector) -> Ordering
        requires { length self ≡ length other }
        ensures { result ≡ vector_order self other }
    {
        let (ours, theirs) = (self.count(), other.count());
        if ours != theirs {
            return theirs.cmp(&ours);
        }
        let Some(place) = first_difference(&self.words, &other.words) else {
            return Ordering::Equal;
        };
        if self.get(place) {
            Ordering::Less
        } else {
            Ordering::Greater
        }
    }

    // Whether each layout is made.
    fn is_all(self) -> bool
        ensures { IsTrue result ↔ (self ≡ replicate (length self) true) }
    {
        self.count() == self.width
    }
}
