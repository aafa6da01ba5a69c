//! The bits of a vector as letters: 1 or 0 for each layout, in order.
//! It builds on `win_vectors` and `byte_text`.
//! Its contract promises the letters of the definition, and the vector that letters say.
#![tactic(auto)]

ghost use Rattle.std.specs.Prelude.{◌≡◌, ◌≤◌, ◌++◌, OnOk, length, map};
ghost use Rattle.win_vectors.specs.Vectors.{most_layouts};
ghost use Rattle.bit_letters.specs.Bits.{bit_letter, is_one};

use byte_text::Text;
use std::alloc::AllocError;
use win_vectors::WinVector;

/// 1 if a contract is made, and 0 if it isn't.
pub fn bit_letter(bit: bool) -> u8
    ensures { result ≡ bit_letter bit }
{
    if bit { b'1' } else { b'0' }
}

/// Appends the bits of a vector. If an allocation fails, some of them may have been appended.
pub fn push_bits(text: &mut Text, vector: WinVector) -> Result<(), AllocError>
    ensures { OnOk result (text.new ≡ text.old ++ map bit_letter vector) }
{
    for place in 0..vector.width() {
        text.push(&[bit_letter(vector.get(place))])?;
    }
    Ok(())
}

/// The vector with a one wherever a text of 1 to 256 bytes has one.
pub fn vector_of(text: &[u8]) -> WinVector
    requires low { 1 ≤ length text.now }
    requires high { length text.now ≤ most_layouts }
    ensures { result ≡ map is_one text.now }
{
    let mut vector = WinVector::none(text.len() as u16);
    for (place, bit) in text.iter().enumerate() {
        vector = vector.set(place as u16, *bit == b'1');
    }
    vector
}
