// A store's fronts are copied through one buffer.
ghost use Rattle.std.specs.Prelude.{◌≡◌, ◌≤◌, true, IfOk, IfSome};
ghost use Rattle.trick_rules.specs.Nodes.{IsNode};
ghost use Rattle.front_table.specs.Proven.{IsFrontAt};
ghost use Rattle.front_table.specs.Entries.{most_entry_vectors};
ghost use Rattle.equivalent_nodes.specs.Ranks.{AreEquivalent};

use front_table::{FrontStore, Look, MOST_ENTRY_VECTORS};
use pareto_fronts::Front;
use std::alloc::{AllocError, Global};
use trick_rules::Node;

/// A front with room for each front that a store may have.
#[derive(Drop)]
pub struct Scratch {
    front: Front,
    ghost has_room: { most_entry_vectors ≤ front.room },
}

impl Scratch {
    /// Takes the memory for a search of this node.
    pub fn new(alloc: Global, node: &Node) -> Result<Scratch, AllocError>
        ensures a_node { IsNode node.now }
    {
        let mut front = Front::new(alloc, node.width());
        front.reserve(MOST_ENTRY_VECTORS)?;
        Ok(Scratch { front })
    }

    /// The front that the store has for a node with `moves` moves, under a key: an equivalent node.
    pub fn known<S: FrontStore>(
        &mut self,
        store: &mut S,
        node: &Node,
        key: &Node,
        moves: u8,
    ) -> Result<Option<Front>, AllocError>
        requires { AreEquivalent node.now key.now }
        ensures a_node { IsNode node.now }
        ensures front { IfOk result (λ front. IfSome front (IsFrontAt node.now moves)) }
        ensures blind { S.blind ≡ true → IfOk result (λ front. front ≡ None) }
        ensures grown { S.grown store.old store.new }
    {
        self.front.reset(node.width());
        match store.look(key, moves, &mut self.front) {
            Look::Hit => Ok(Some(self.front.copy()?)),
            Look::Miss | Look::Busy => Ok(None),
        }
    }
}
