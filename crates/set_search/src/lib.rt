//! Is this set of layouts winnable by one strategy? A search that answers by yes or no, and gives a
//! core if the answer is no; and how much one strategy can win.
//! It builds on `set_nodes` for the laws, on `set_memo` for what it has found already, on
//! `free_sets` for sets without a core, on `dd_solver` for double dummy, and on the budget of
//! `alphamu_core`.
#![tactic(auto)]

mod card_order;
mod judge;
mod legal_sets;
mod neighbours;
mod open_cards;
mod search;
mod value;

pub use free_sets::Order;
pub use search::SetSearch;
pub use set_memo::{SetMemo, Verdict};
pub use value::{SetQuestion, SetValue};
