// A search under way.
use crate::budget::Budget;
use crate::scratch::Scratch;
use cut_rules::CutRules;
use dd_solver::Solver;
use search_race::Runner;
use std::alloc::Global;

/// What the search of a tree works with, and by which rules.
#[derive(Drop)]
pub struct TreeSearch<'a, S> {
    pub alloc: Global,
    pub store: &'a mut S,
    pub solver: &'a mut Solver,
    pub runner: &'a Runner,
    pub budget: &'a mut Budget,
    pub scratch: &'a mut Scratch,
    pub rules: CutRules,
}
