//! Many boards in one run: problems that workers share among themselves, over one table.
//! It builds on `root_answers`, which answers each problem, and on `worker_pool`, whose workers
//! draw the problems.
//! Its contract promises the definition's answer of each problem, in order, whatever the workers,
//! the table and the gate do, or the first problem with too large a tree.
#![tactic(auto)]

mod batch;
mod batch_work;
mod boards;
mod fault;
mod solving;

pub use batch::Problem;
pub use boards::run_boards;
pub use fault::BatchFault;
