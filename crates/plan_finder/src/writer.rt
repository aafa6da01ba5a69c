//! Plans as text.
ghost use Rattle.std.specs.Prelude.{
  ◌≡◌,
  ◌++◌,
  [],
  None,
  false,
  length,
  All,
  IsTrue,
  IfOk,
  IfSome,
  OnOk,
};
ghost use Rattle.plan_finder.specs.Written.{IsPlanWritten, StandsWritten, EndsWritten};

use crate::digest::digest;
use crate::memo::AboveMemo;
use crate::vector_at::VectorAt;
use std::alloc::{AllocError, Global};
use std::marker::Model;
use std::mem;
use std::ops::Range;
use trick_rules::Node;
use win_vectors::WinVector;

/// How many plans are remembered while the text is short, and how many later.
const FEW_SLOTS: usize = 1024;

const MOST_SLOTS: usize = 65_536;

/// How many vectors a front has at most if its plans are found by whole fronts.
const MOST_NARROW: usize = 200;

/// How many bytes a short text has at most.
const SHORT: usize = 65_536;

/// The places between which the lines of the plan that is chosen for a vector stand, kept under
/// that vector.
#[derive(Drop)]
struct WrittenPlan {
    key: VectorAt,
    lines: Range<usize>,
}

/// Texts of plans, written one behind another. Parts that plans have in common are found once, and
/// their lines copied.
#[derive(Drop)]
pub struct PlanWriter {
    alloc: Global,
    whole_fronts: bool,
    memo: AboveMemo,
    text: Vec<u8>,
    copied: Vec<u8>,
    slots: Vec<Option<WrittenPlan>>,
}

// It is seen as the bytes that are written.
impl Model for PlanWriter {
    ghost use Rattle.std.specs.Prelude.{List, ℕ};
    ghost use Rattle.plan_finder.specs.Written.{AllStand};

    ghost Value = { List ℕ };

    ghost view = { λ writer. writer.text.items };

    ghost invariant = { λ writer. AllStand writer.text.items writer.slots.items };
}

// This many slots with nothing in them.
fn empty_slots(alloc: Global, count: usize) -> Result<Vec<Option<WrittenPlan>>, AllocError>
    ensures { IfOk result (λ slots. All (λ slot. slot ≡ None) slots.items) }
{
    let mut slots = Vec::with_capacity(alloc, count)?;
    for _ in 0..count {
        slots.push(None)?;
    }
    Ok(slots)
}

impl PlanWriter {
    /// Nothing written yet, for plans of which each is found by the vectors above its target. It
    /// takes no memory.
    pub fn new(alloc: Global) -> PlanWriter
        ensures { result ≡ [] }
    {
        PlanWriter {
            alloc,
            whole_fronts: false,
            memo: AboveMemo::new(alloc),
            text: Vec::new(alloc),
            copied: Vec::new(alloc),
            slots: Vec::new(alloc),
        }
    }

    /// Nothing written yet, for the plans of a front with this many vectors. If they are few, the
    /// plans are found by whole fronts, which serve them all; the lines are the same. It takes no
    /// memory.
    pub fn for_front(alloc: Global, vectors: usize) -> PlanWriter
        ensures { result ≡ [] }
    {
        PlanWriter {
            alloc,
            whole_fronts: vectors <= MOST_NARROW,
            memo: AboveMemo::new(alloc),
            text: Vec::new(alloc),
            copied: Vec::new(alloc),
            slots: Vec::new(alloc),
        }
    }

    /// Adds a piece at the end.
    pub fn push(&mut self, piece: &[u8]) -> Result<(), AllocError>
        ensures { OnOk result (self.new ≡ self.old ++ piece.now) }
    {
        self.text.extend_from_slice(piece)?;
        Ok(())
    }

    /// All that is written, in order.
    pub fn bytes(&self) -> &[u8]
        ensures { result.now ≡ self.now }
    {
        &self.text
    }

    /// The place at which the next piece begins.
    pub(crate) fn len(&self) -> usize
        ensures { result ≡ length self.now }
    {
        self.text.len()
    }

    pub(crate) fn alloc(&self) -> Global {
        self.alloc
    }

    /// Whether the plans are found by whole fronts.
    pub(crate) fn whole_fronts(&self) -> bool {
        self.whole_fronts
    }

    /// Takes the memo of the searches for plans out, which goes from one plan to the next.
    pub(crate) fn take_memo(&mut self) -> AboveMemo
        ensures { self.new ≡ self.old }
    {
        mem::replace(&mut self.memo, AboveMemo::new(self.alloc))
    }

    /// Puts it back.
    pub(crate) fn put_memo(&mut self, memo: AboveMemo)
        ensures { self.new ≡ self.old }
    {
        self.memo = memo;
    }

    // The place of the plan for a vector of a node with `moves` moves, if it is remembered.
    fn place_of(&self, node: &Node, moves: u8, vector: &WinVector) -> Option<Range<usize>>
        ensures { IfSome result (λ range.
            StandsWritten node.now moves vector.now self.now range.start range.end) }
    {
        if self.slots.is_empty() {
            return None;
        }
        let place = (digest(node, moves, vector) % self.slots.len() as u64) as usize;
        match &self.slots[place] {
            Some(found) if found.key.is_of(node, moves, vector) => {
                Some(found.lines.start..found.lines.end)
            }
            _ => None,
        }
    }

    /// Writes the plan for a vector of a node with `moves` moves once more, if it is remembered.
    pub(crate) fn push_again(
        &mut self,
        node: &Node,
        moves: u8,
        vector: &WinVector,
    ) -> Result<bool, AllocError>
        ensures written { IfOk result (λ known. IsTrue known
            → IsPlanWritten node.now moves vector.now self.old self.new) }
        ensures unchanged { IfOk result (λ known. known ≡ false → self.new ≡ self.old) }
    {
        let Some(lines) = self.place_of(node, moves, vector) else {
            return Ok(false);
        };
        // Two copies of a whole piece take less time than `extend_from_within`, byte by byte.
        self.copied.clear();
        self.copied.extend_from_slice(&self.text[lines])?;
        self.text.extend_from_slice(&self.copied)?;
        Ok(true)
    }

    // Takes the memory of the slots, if it isn't taken: of more, once the text is long.
    fn make_slots(&mut self) -> Result<(), AllocError>
        ensures { self.new ≡ self.old }
    {
        if self.slots.is_empty() {
            self.slots = empty_slots(self.alloc, FEW_SLOTS)?;
        }
        if self.slots.len() < MOST_SLOTS && self.text.len() > SHORT {
            self.slots = empty_slots(self.alloc, MOST_SLOTS)?;
        }
        Ok(())
    }

    /// Remembers the plan whose lines begin at a place, up to the end, instead of what was in its
    /// slot.
    pub(crate) fn remember(
        &mut self,
        node: &Node,
        moves: u8,
        vector: &WinVector,
        start: usize,
    ) -> Result<(), AllocError>
        requires { EndsWritten node.now moves vector.now self.old start }
        ensures { self.new ≡ self.old }
    {
        self.make_slots()?;
        let key = VectorAt {
            node: node.copy(self.alloc)?,
            moves,
            vector: *vector,
        };
        let written = WrittenPlan {
            key,
            lines: start..self.text.len(),
        };
        if !self.slots.is_empty() {
            let place = digest(node, moves, vector) % self.slots.len() as u64;
            self.slots[place as usize] = Some(written);
        }
        Ok(())
    }
}
