//! Fronts that a search has found already.
ghost use Rattle.std.specs.Prelude.{◌≡◌, IsTrue, IfOk, IfSome};
ghost use Rattle.assured_fronts.specs.AssuredAt.{IsAssuredAt};

use alphamu_core::SearchFault;
use pareto_fronts::Front;
use std::alloc::{AllocError, Global};
use std::hash::{FoldHasher, Hash, Hasher};
use std::marker::Model;
use trick_rules::Node;

/// How many slots there are at first, and how many at most.
const FEW_SLOTS: usize = 1_024;

const MOST_SLOTS: usize = 65_536;

/// How many times as many there are once half of them are taken.
const GROWTH: usize = 8;

/// The most vectors of a front that is kept.
const MOST_KEPT_VECTORS: usize = 64;

/// A node, a number of moves, and the front of what is assured there.
#[derive(Drop)]
pub struct KeptFront {
    node: Node,
    moves: u8,
    front: Front,
}

impl Model for KeptFront {
    ghost use Rattle.assured_fronts.specs.AssuredAt.{KeptFrontValue, IsAssuredAt};

    ghost Value = { KeptFrontValue };

    ghost view = { λ kept. record {
      node = kept.node;
      moves = kept.moves;
      front = kept.front;
    } };

    ghost invariant = { λ kept. IsAssuredAt kept.node kept.moves kept.front };
}

impl KeptFront {
    fn new(node: Node, moves: u8, front: Front) -> KeptFront
        requires { IsAssuredAt node moves front }
    {
        KeptFront { node, moves, front }
    }

    fn front(&self) -> &Front
        ensures { IsAssuredAt self.now.node self.now.moves result.now }
    {
        &self.front
    }

    // Whether it is of this node and these moves.
    fn is_of(&self, node: &Node, moves: u8) -> bool
        ensures node { IsTrue result → self.now.node ≡ node.now }
        ensures moves { IsTrue result → self.now.moves ≡ moves }
    {
        self.moves == moves && self.node.equals(node)
    }
}

/// Fronts that were found, each by a slot that depends on its node and its moves.
#[derive(Drop)]
pub struct AssuredMemo {
    alloc: Global,
    slots: Vec<u32>,
    kept: Vec<KeptFront>,
}

impl AssuredMemo {
    /// Nothing kept yet. It takes no memory.
    ///
    /// No clause: what is kept is right by the entries' own invariant, however many there are.
    pub fn new(alloc: Global) -> AssuredMemo {
        AssuredMemo {
            alloc,
            slots: Vec::new(alloc),
            kept: Vec::new(alloc),
        }
    }

    /// The front that was found for the node with `moves` moves, if it is kept and an allocation
    /// doesn't fail.
    pub fn look(&self, node: &Node, moves: u8) -> Option<Front>
        ensures { IfSome result (IsAssuredAt node.now moves) }
    {
        if self.slots.is_empty() {
            return None;
        }
        let slot = (digest(node, moves) % self.slots.len() as u64) as usize;
        match self.kept.get(self.slots[slot] as usize) {
            Some(kept) if kept.is_of(node, moves) => kept.front().copy().ok(),
            _ => None,
        }
    }

    /// Offers what a search answers: it is kept if it isn't too wide and no allocation fails.
    ///
    /// No clause: a memo may forget, and no answer depends on what it keeps.
    pub fn offer(&mut self, node: &Node, moves: u8, answer: &Result<Front, SearchFault>)
        requires { IfOk answer.now (IsAssuredAt node.now moves) }
    {
        if let Ok(found) = answer {
            let _ = self.keep(node, moves, found);
        }
    }

    // Keeps a front instead of the one of the same slot, if it isn't too wide.
    fn keep(&mut self, node: &Node, moves: u8, front: &Front) -> Result<(), AllocError>
        requires { IsAssuredAt node.now moves front.now }
    {
        if front.len() > MOST_KEPT_VECTORS {
            return Ok(());
        }
        self.make_slots()?;
        let kept = KeptFront::new(node.copy(self.alloc)?, moves, front.copy()?);
        if self.slots.is_empty() {
            return Ok(());
        }
        let slot = (digest(node, moves) % self.slots.len() as u64) as usize;
        let place = self.slots[slot] as usize;
        if place < self.kept.len() {
            self.kept[place] = kept;
        } else if self.kept.len() < MOST_SLOTS {
            self.slots[slot] = self.kept.len() as u32;
            self.kept.push(kept)?;
        }
        Ok(())
    }

    // Takes the memory of the slots, if it isn't taken: of more, once half of them are. What is
    // kept is forgotten then.
    fn make_slots(&mut self) -> Result<(), AllocError> {
        let count = self.slots.len();
        if count == 0 {
            self.slots = free_slots(self.alloc, FEW_SLOTS)?;
        } else if count < MOST_SLOTS && self.kept.len() > count / 2 {
            self.slots = free_slots(self.alloc, count.saturating_mul(GROWTH).min(MOST_SLOTS))?;
            self.kept.clear();
        }
        Ok(())
    }
}

// This many slots with no front.
fn free_slots(alloc: Global, count: usize) -> Result<Vec<u32>, AllocError> {
    let mut slots = Vec::with_capacity(alloc, count)?;
    for _ in 0..count {
        slots.push(u32::MAX)?;
    }
    Ok(slots)
}

// A number that differs between most nodes with their moves. Nodes of one deal with the same hands
// mostly have other layouts if the first or the last one differs, or their number.
fn digest(node: &Node, moves: u8) -> u64 {
    let position = node.position();
    let mut hasher = FoldHasher::default();
    position.declarer.hash(&mut hasher);
    position.dummy.hash(&mut hasher);
    position.unseen.hash(&mut hasher);
    node.left(0).hash(&mut hasher);
    node.left(node.width() - 1).hash(&mut hasher);
    hasher.write_u16(node.width());
    hasher.write_u8(moves);
    hasher.finish()
}
