//! Win vectors: for a list of layouts, one bit each that says whether the layout is made. It builds
//! on `bit_lists`: a vector is kept in four machine words and is seen as a list of bits. Each call
//! is its definition on lists of bits, and the reduction to the best vectors has its laws here,
//! once for all crates.
#![tactic(auto)]

pub mod laws;
mod narrow_vector;
mod weights;
mod win_vector;
mod words;

pub use narrow_vector::{MOST_NARROW, NarrowVector};
pub use weights::{MAX_WEIGHT, Weights};
pub use win_vector::{MOST_LAYOUTS, WinVector};
