//! Workers who draw the jobs of a list, each job once, and look into one shared table.
//! It builds on `work_tickets`, from which they draw, and on `shared_table`.
//! Its contract promises that each finding is right at its place, whichever worker made it. What
//! there is no memory for is left out.
#![tactic(auto)]

mod findings;
mod pool;
mod share;
mod work;
mod worker;

pub use findings::{Finding, take_finding};
pub use pool::work_side_by_side;
pub use work::Work;
