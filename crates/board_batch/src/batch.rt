//! What a batch wants of each worker.
use root_workers::Options;
use shared_table::SharedTable;
use std::alloc::Global;
use trick_rules::Node;
use win_vectors::Weights;

/// A node to be solved, by a weight for each of its layouts, and the number that names it.
#[derive(Drop)]
pub struct Problem<'a> {
    pub number: u16,
    pub node: &'a Node,
    pub weights: &'a Weights,
}

/// Problems to be solved with `moves` moves, and how a worker solves one of them alone.
#[derive(Drop)]
pub struct Batch<'a> {
    pub alloc: Global,
    pub problems: &'a [Problem<'a>],
    pub moves: u8,
    pub options: Options,
    pub table: &'a SharedTable,
}
