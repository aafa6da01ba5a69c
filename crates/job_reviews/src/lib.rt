//! The job `review` for all games of a deal file, each with a layout file of its own. It builds on
//! `job_review` for the review of a board, on `worker_pool`, whose workers share the games, and on
//! `review_forms` and `am_line` for the text. Its contract promises the text by its definition,
//! whatever the workers do; only a failed allocation ends it.
#![tactic(auto)]

mod evening;
mod game;
mod job;

pub use job::tell_reviews;
