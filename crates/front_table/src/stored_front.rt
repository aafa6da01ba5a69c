//! What a store keeps: a proven front in less memory.
ghost use Rattle.std.specs.Prelude.{◌≡◌, ◌≤◌, ◌↔◌, IsTrue, IfOk, length};
ghost use Rattle.front_table.specs.Proven.{IsFrontAt};
ghost use Rattle.front_table.specs.Entries.{most_entry_vectors, stored_front_of, IsStoredFront, IsOfKey, IsTooWide};
ghost use Rattle.front_table.specs.StoredVectors.{vectors_of};

use crate::proven::ProvenFront;
use crate::stored_vectors::StoredVectors;
use pareto_fronts::Front;
use std::alloc::{AllocError, Global};
use std::marker::Model;
use trick_rules::Node;

/// The most vectors of an entry.
pub const MOST_ENTRY_VECTORS: usize = 64;

/// A node, a number of moves of declarer's side, and the front that the definitions give for them,
/// of at most 64 vectors.
#[derive(Drop)]
pub struct StoredFront {
    node: Node,
    moves: u8,
    vectors: StoredVectors,
}

impl Model for StoredFront {
    ghost use Rattle.front_table.specs.Entries.{StoredFrontValue, IsStoredFront};
    ghost use Rattle.front_table.specs.StoredVectors.{vectors_of};

    ghost Value = { StoredFrontValue };

    ghost view = { λ entry. record {
      node = entry.node;
      moves = entry.moves;
      vectors = vectors_of entry.vectors;
    } };

    ghost invariant = { λ entry. IsStoredFront (record {
      node = entry.node;
      moves = entry.moves;
      vectors = vectors_of entry.vectors;
    }) };
}

impl StoredFront {
    /// The entry of a proven front, by its vectors.
    pub(crate) fn new(proven: ProvenFront, vectors: StoredVectors) -> StoredFront
        requires narrow { ¬ IsTooWide proven }
        requires vectors { vectors_of vectors ≡ proven.front.vectors }
        ensures { result ≡ stored_front_of proven }
    {
        let (node, moves) = proven.into_key();
        StoredFront {
            node,
            moves,
            vectors,
        }
    }

    pub fn node(&self) -> &Node
        ensures value { result.now ≡ self.now.node }
        ensures entry { IsStoredFront self.now }
    {
        &self.node
    }

    /// How many cards of declarer's side the front looks ahead.
    pub fn moves(&self) -> u8
        ensures { result ≡ self.now.moves }
    {
        self.moves
    }

    /// The front.
    pub fn front(&self, alloc: Global) -> Result<Front, AllocError>
        ensures vectors { IfOk result (λ front. front.vectors ≡ self.now.vectors) }
        ensures proven { IfOk result (IsFrontAt self.now.node self.now.moves) }
    {
        let mut front = Front::new(alloc, self.node.width());
        front.reserve(MOST_ENTRY_VECTORS)?;
        self.copy_to(&mut front);
        Ok(front)
    }

    /// Whether the entry is of this node and these moves.
    pub(crate) fn is_of(&self, node: &Node, moves: u8) -> bool
        ensures { IsTrue result ↔ IsOfKey node.now moves self.now }
    {
        self.moves == moves && self.node.equals(node)
    }

    /// Leaves the front in `out`. It takes no memory.
    pub(crate) fn copy_to(&self, out: &mut Front)
        requires width { out.old.width ≡ length self.now.node.lefts }
        requires room { most_entry_vectors ≤ out.old.room }
        ensures vectors { out.new.vectors ≡ self.now.vectors }
        ensures proven { IsFrontAt self.now.node self.now.moves out.new }
        ensures room { out.old.room ≤ out.new.room }
    {
        self.vectors.fill(out);
    }
}
