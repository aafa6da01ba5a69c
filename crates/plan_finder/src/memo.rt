//! What searches above targets have found already.
ghost use Rattle.std.specs.Prelude.{IfSome};
ghost use Rattle.plan_finder.specs.Above.{AreAbove};

use crate::digest::digest;
use crate::kept_above::KeptAbove;
use crate::vector_at::VectorAt;
use pareto_fronts::Front;
use std::alloc::{AllocError, Global};
use trick_rules::Node;
use win_vectors::WinVector;

/// How many finds are kept at first, and how many once there have been more.
const FEW_SLOTS: usize = 256;

const MOST_SLOTS: usize = 65_536;

/// The most vectors of a find that is kept.
const MOST_KEPT_VECTORS: usize = 256;

/// What searches above targets have found, each in a slot that depends on its node, its moves and
/// its target.
#[derive(Drop)]
pub struct AboveMemo {
    alloc: Global,
    slots: Vec<Option<KeptAbove>>,
    kept: usize,
}

impl AboveMemo {
    /// Nothing kept yet. It takes no memory.
    ///
    /// No clause: what is kept is right by the entries' own invariant, however many there are.
    pub fn new(alloc: Global) -> AboveMemo {
        AboveMemo {
            alloc,
            slots: Vec::new(alloc),
            kept: 0,
        }
    }

    /// The allocator.
    ///
    /// No clause: no contract speaks of an allocator.
    pub fn alloc(&self) -> Global {
        self.alloc
    }

    /// The vectors above the target that were found for the node with `moves` moves, if they are
    /// kept and an allocation doesn't fail.
    pub fn look(&self, node: &Node, moves: u8, target: &WinVector) -> Option<Front>
        ensures { IfSome result (AreAbove node.now moves target.now) }
    {
        if self.slots.is_empty() {
            return None;
        }
        let place = (digest(node, moves, target) % self.slots.len() as u64) as usize;
        match &self.slots[place] {
            Some(kept) if kept.key().is_of(node, moves, target) => kept.front().copy().ok(),
            _ => None,
        }
    }

    /// Offers the vectors above a target: they are kept if they aren't too many and an allocation
    /// doesn't fail.
    ///
    /// No clause: a memo may forget, and no answer depends on what it keeps.
    pub fn offer(&mut self, node: &Node, moves: u8, target: &WinVector, found: &Front)
        requires { AreAbove node.now moves target.now found.now }
    {
        let _ = self.keep(node, moves, target, found);
    }

    // Keeps what was found above a target instead of what was in its slot, if it isn't too wide.
    fn keep(
        &mut self,
        node: &Node,
        moves: u8,
        target: &WinVector,
        found: &Front,
    ) -> Result<(), AllocError>
        requires { AreAbove node.now moves target.now found.now }
    {
        if found.len() > MOST_KEPT_VECTORS {
            return Ok(());
        }
        self.make_slots()?;
        let key = VectorAt {
            node: node.copy(self.alloc)?,
            moves,
            vector: *target,
        };
        let kept = KeptAbove::new(key, found.copy()?);
        if !self.slots.is_empty() {
            let place = digest(node, moves, target) % self.slots.len() as u64;
            self.slots[place as usize] = Some(kept);
            self.kept = self.kept.saturating_add(1);
        }
        Ok(())
    }

    // Takes the memory of the slots, if it isn't taken: of more, once many finds were kept.
    fn make_slots(&mut self) -> Result<(), AllocError> {
        if self.slots.is_empty() {
            self.slots = free_slots(self.alloc, FEW_SLOTS)?;
        }
        if self.slots.len() < MOST_SLOTS && self.kept > FEW_SLOTS {
            self.slots = free_slots(self.alloc, MOST_SLOTS)?;
        }
        Ok(())
    }
}

// This many slots with nothing in them.
fn free_slots(alloc: Global, count: usize) -> Result<Vec<Option<KeptAbove>>, AllocError> {
    let mut slots = Vec::with_capacity(alloc, count)?;
    for _ in 0..count {
        slots.push(None)?;
    }
    Ok(slots)
}
