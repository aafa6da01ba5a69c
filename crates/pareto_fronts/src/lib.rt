//! Pareto fronts: the best win vectors found so far, in printing order, none of which dominates
//! another.
//! It builds on `win_vectors`, and on `smallvec` for short lists that need no allocation.
//! Each call leaves exactly the reduced list of what it was given, or the front as it was if an
//! allocation fails.
#![tactic(auto)]

mod front;

pub use front::{Front, INLINE_VECTORS};
