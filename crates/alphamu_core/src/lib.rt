//! The search of αμ: the front of a node, within a budget of nodes, over any store, by any cuts.
//! It builds on nodes, fronts and joins, on double dummy, and on the laws of strategies.
//! An exact answer is the definition's front; an answer below says that alpha covers every
//! strategy; spent says that the tree is larger than the budget.
#![tactic(auto)]

mod answers;
mod budget;
mod exact;
mod kept;
mod keys;
mod known;
pub mod laws;
mod limits;
mod node_search;
mod offers;
mod part;
mod results;
mod scratch;
mod tree_search;
mod walk;

pub use answers::{Found, RaceFault, SearchFault};
pub use budget::{Budget, Entered};
pub use exact::exact_front;
pub use kept::{cards_to_try, take_highest};
pub use keys::store_key;
pub use node_search::{search, search_in_race};
pub use part::{filled, part_of};
