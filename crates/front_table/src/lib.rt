//! Fronts that are known already, and the stores in which a search looks for them.
//! It builds on `strategy_tree` and `pareto_fronts`.
//! A hit is the definition's front of that node with those moves; what is put into a store is
//! proved to be one.
#![tactic(auto)]

mod buckets;
mod digest;
mod entries;
mod local;
mod proven;
mod store;
mod stored_front;
mod stored_vectors;

pub use entries::Entries;
pub use local::LocalStore;
pub use proven::ProvenFront;
pub use store::{FrontStore, Look, NoStore, Put};
pub use stored_front::{MOST_ENTRY_VECTORS, StoredFront};
pub use stored_vectors::fill_empty;
