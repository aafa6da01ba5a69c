//! What a root is asked.
use crate::root::Options;
use shared_table::SharedTable;
use std::alloc::Global;
use trick_rules::Node;
use win_vectors::Weights;

/// What is asked of a node with `moves` moves: the front, by a weight for each of its layouts, and
/// how its cards are searched.
#[derive(Drop)]
pub struct Question<'a> {
    pub alloc: Global,
    pub node: &'a Node,
    pub moves: u8,
    pub weights: &'a Weights,
    pub options: &'a Options,
    pub table: &'a SharedTable,
}
