//! What is assured at a node, by a recursion over its tree that remembers what it has found and
//! leaves out the layouts that double dummy loses.
//! It builds on `sure_nodes` for what is assured at bridge, on `plain_fronts` for the steps from
//! card to card, and on `dd_solver` for double dummy.
#![tactic(auto)]

mod ends;
mod enough;
mod last;
mod memo;
mod replies;
mod search;
mod tried;
mod walk;

pub use replies::{AfterReply, waits};
pub use walk::{assured_front, assured_replies};
