//! What a job does at the root: the front over all root cards, the card to name, and the best
//! weight. It builds on the search, which it gives each root card with a budget of its own, and on
//! the laws of cuts.
//! Its contract promises the definition's front, named card and best weight, whatever the workers,
//! the table and the gate do, with cuts or without, or a root card whose tree is too large.
#![tactic(auto)]

mod best_card;
mod card_search;
mod crew;
mod deepening;
mod first_round;
mod leading;
mod question;
mod reports;
mod root;
mod round_work;
mod rounds;
mod searches;
mod worker_results;
mod workers;

pub use crew::{Alone, InThreads, RootCrew, Searched, searched_in_threads};
pub use question::Question;
pub use reports::{CardReport, Outcome, Stored};
pub use root::{Options, RootCard, RootFront, root_card, root_front};
pub use rounds::{CardSearch, Help, Round, Task};
pub use workers::RootWorker;
