//! Four words of 64 places each, the lowest bit of the first word first.

ghost use Rattle.std.specs.Prelude.{◌≡◌, ◌≢◌, ◌≤◌, ◌<◌, ◌-◌, ◌+◌, ◌*◌, ◌/◌, ℕ, false, if◌then◌else◌, nat_lt, IsNone, IfSome};
ghost use Rattle.bit_lists.specs.Bits.{bools};
ghost use Rattle.bit_lists.specs.Words.{bit_of};
ghost use Rattle.win_vectors.specs.Vectors.{most_layouts, vector_order};
ghost use Rattle.win_vectors.specs.Words.{IsFirstOtherBit, IsLowestDifference, IsOnesBelow, IsRestrictedWord, IsSpreadWord, IsWordFrom, PutsBits};

use std::cmp::Ordering;

/// The places of a word.
pub const WORD_PLACES: u16 = 64;

/// The words of a vector.
pub const WORDS: usize = 4;

/// The word of the places from `start` on, with a 1 at each that is below the width.
pub fn ones_below(width: u16, start: u16) -> u64
    requires { start ≤ 192 }
    ensures { IsOnesBelow width start result }
{
    if start + WORD_PLACES <= width {
        u64::MAX
    } else if width <= start {
        0
    } else {
        (1u64 << (width - start)) - 1
    }
}

/// How many words have a place below the width.
pub fn words_in_use(width: u16) -> usize
    requires { width ≤ most_layouts }
    ensures { result ≡ (width + 63) / 64 }
{
    usize::from((width + WORD_PLACES - 1) / WORD_PLACES)
}

/// How many places of a word are below the width.
pub fn places_in(width: u16, word: usize) -> u16
    requires { 64 * word < width }
    ensures { result ≡ (if nat_lt (64 * word + 64) width then 64 else width - 64 * word) }
{
    let left = width - WORD_PLACES * word as u16;
    if WORD_PLACES < left {
        WORD_PLACES
    } else {
        left
    }
}

/// The lowest place at which two words differ.
pub fn lowest_difference(ours: u64, theirs: u64) -> u16
    requires { ours ≢ theirs }
    ensures { IsLowestDifference ours theirs result }
{
    (ours ^ theirs).trailing_zeros() as u16
}

/// The order of vectors of 64 bits: more ones first, and among equal counts the one with a 1 at the
/// first difference.
pub fn word_order(ours: u64, theirs: u64) -> Ordering
    ensures { result ≡ vector_order (bools 64 ours) (bools 64 theirs) }
{
    let (our_ones, their_ones) = (ours.count_ones(), theirs.count_ones());
    if our_ones != their_ones {
        return their_ones.cmp(&our_ones);
    }
    if ours == theirs {
        return Ordering::Equal;
    }
    if (ours >> lowest_difference(ours, theirs)) & 1 == 1 {
        Ordering::Less
    } else {
        Ordering::Greater
    }
}

/// The first place at which the two differ.
pub fn first_difference(ours: &[u64; WORDS], theirs: &[u64; WORDS]) -> Option<u16>
    ensures none { IsNone result → ours.now ≡ theirs.now }
    ensures some { IfSome result (IsFirstOtherBit ours.now theirs.now) }
{
    for word in 0..WORDS {
        let (mine, other) = (ours[word], theirs[word]);
        if mine != other {
            return Some(WORD_PLACES * word as u16 + lowest_difference(mine, other));
        }
    }
    None
}

/// The 64 bits from a place on.
pub fn bits_from(words: &[u64; WORDS], start: u16) -> u64
    requires { start ≤ 192 }
    ensures { IsWordFrom words.now start result }
{
    let word = usize::from(start / WORD_PLACES);
    let place = start % WORD_PLACES;
    if place == 0 {
        words[word]
    } else {
        words[word] >> place | words[word + 1] << (WORD_PLACES - place)
    }
}

/// Puts in 64 bits from a place on, from which on all is 0.
pub fn put_bits(words: &mut [u64; WORDS], start: u16, bits: u64)
    requires within { start ≤ 192 }
    requires clear { (i : ℕ) → start ≤ i → bit_of words.old i ≡ false }
    ensures { PutsBits start bits words.old words.new }
{
    let word = usize::from(start / WORD_PLACES);
    let place = start % WORD_PLACES;
    words[word] |= bits << place;
    if place != 0 {
        words[word + 1] = bits >> (WORD_PLACES - place);
    }
}

/// The bits of a word at the ones of the lowest places of a mask, in order.
pub fn restricted_word(bits: u64, mask: u64, places: u16) -> u64
    requires { places ≤ 64 }
    ensures { IsRestrictedWord bits mask places result }
{
    let mut restricted = 0u64;
    let mut width = 0u16;
    for place in 0..places {
        if (mask >> place) & 1 == 1 {
            restricted |= ((bits >> place) & 1) << width;
            width += 1;
        }
    }
    restricted
}

/// The bits of a word put at the ones of the lowest places of a mask, in order, and 1 at its zeros.
pub fn spread_word(bits: u64, mask: u64, places: u16) -> u64
    requires { places ≤ 64 }
    ensures { IsSpreadWord bits mask places result }
{
    let mut spread = 0u64;
    let mut from = bits;
    for place in 0..places {
        let here = (mask >> place) & 1;
        spread |= ((from & 1) | (1 - here)) << place;
        from >>= here;
    }
    spread
}
