//! A list of entries that only grows, with each key once.
ghost use Rattle.std.specs.Prelude.{◌≡◌, ◌≤◌, ◌<◌, ◌^◌, ◌+◌, ◌++◌, ◌∷◌, ◌↔◌, [], false, length, IsTrue, IfSome, IsNone, OnOk, OnErr, IfErr};
ghost use Rattle.front_table.specs.Proven.{IsFrontAt};
ghost use Rattle.front_table.specs.Stores.{HandsBack};
ghost use Rattle.front_table.specs.Entries.{most_entry_vectors, stored_front_of, HasKey, HasKeysOnce, IsKeyAt, IsTooWide, PutLeaves};

use crate::buckets::Buckets;
use crate::digest::digest;
use crate::proven::ProvenFront;
use crate::store::Put;
use crate::stored_front::{MOST_ENTRY_VECTORS, StoredFront};
use crate::stored_vectors::StoredVectors;
use pareto_fronts::Front;
use std::alloc::Global;
use std::marker::Model;
use trick_rules::Node;

/// Entries in the order in which they came. The list only grows, at its end, and no two entries
/// have the same key.
#[derive(Drop)]
pub struct Entries {
    alloc: Global,
    list: Vec<StoredFront>,
    buckets: Buckets,
}

impl Model for Entries {
    ghost use Rattle.std.specs.Prelude.{List};
    ghost use Rattle.front_table.specs.Entries.{StoredFrontValue};

    ghost Value = { List StoredFrontValue };

    ghost use Rattle.front_table.specs.EntriesInside.{AreKept};

    ghost view = { λ a. a.list.items };

    ghost invariant = { AreKept };
}

impl Entries {
    /// No entry yet. It takes no memory.
    pub fn new(alloc: Global) -> Entries
        ensures { result ≡ [] }
    {
        Entries {
            alloc,
            list: Vec::new(alloc),
            buckets: Buckets::new(alloc),
        }
    }

    /// How many entries there are.
    pub fn len(&self) -> usize
        ensures value { result ≡ length self.now }
        ensures once { HasKeysOnce self.now }
    {
        self.list.len()
    }

    /// Whether there is no entry.
    pub fn is_empty(&self) -> bool
        ensures { IsTrue result ↔ (self.now ≡ []) }
    {
        self.list.is_empty()
    }

    /// The entries, in the order in which they came.
    pub fn as_slice(&self) -> &[StoredFront]
        ensures value { result.now ≡ self.now }
        ensures once { HasKeysOnce self.now }
    {
        self.list.as_slice()
    }

    /// Looks for the front of a node with `moves` moves, and leaves it in `out` if it is there. It
    /// takes no memory.
    pub fn look(&self, node: &Node, moves: u8, out: &mut Front) -> bool
        requires width { out.old.width ≡ length node.now.lefts }
        requires room { most_entry_vectors ≤ out.old.room }
        ensures found { IsTrue result ↔ HasKey self.now node.now moves }
        ensures front { IsTrue result → IsFrontAt node.now moves out.new }
        ensures unchanged { result ≡ false → out.new ≡ out.old }
        ensures width { out.new.width ≡ out.old.width }
        ensures room { out.old.room ≤ out.new.room }
    {
        let Some(place) = self.place_of(node, moves) else {
            return false;
        };
        let entry = &self.list[place];
        entry.copy_to(out);
        true
    }

    /// Puts the entry of a proven front at the end, if its key isn't there, and there is room for
    /// it: the list has fewer than `room` entries.
    pub fn put(&mut self, proven: ProvenFront, room: u32) -> Put
        ensures back { HandsBack proven result }
        ensures answer { PutLeaves room self.old proven result self.new }
    {
        if proven.front().len() > MOST_ENTRY_VECTORS {
            return Put::TooWide(proven);
        }
        if self.place_of(proven.node(), proven.moves()).is_some() {
            return Put::Present(proven);
        }
        if self.list.len() >= room as usize {
            return Put::Full(proven);
        }
        match self.keep(proven) {
            Ok(()) => Put::Kept,
            Err(back) => Put::Memory(back),
        }
    }

    // The place of the entry of this node and these moves.
    fn place_of(&self, node: &Node, moves: u8) -> Option<usize>
        ensures found { IfSome result (IsKeyAt self.now node.now moves) }
        ensures none { IsNone result → ¬ HasKey self.now node.now moves }
    {
        let digest = digest(node, moves);
        let mut last = self.buckets.last(digest);
        while last > 0 {
            let place = last as usize - 1;
            if self.buckets.digest(place) == digest {
                let entry = &self.list[place];
                if entry.is_of(node, moves) {
                    return Some(place);
                }
            }
            last = self.buckets.earlier(place);
        }
        None
    }

    // Puts an entry at the end. The list is as it was if an allocation fails.
    fn keep(&mut self, proven: ProvenFront) -> Result<(), ProvenFront>
        requires narrow { ¬ IsTooWide proven }
        requires new { ¬ HasKey self.old proven.node proven.moves }
        requires few { length self.old + 1 < 2 ^ 32 }
        ensures ok { OnOk result (self.new ≡ self.old ++ stored_front_of proven ∷ []) }
        ensures err { OnErr result (self.new ≡ self.old) }
        ensures back { IfErr result (λ back. back ≡ proven) }
    {
        let Ok(vectors) = StoredVectors::of(self.alloc, proven.front()) else {
            return Err(proven);
        };
        let digest = digest(proven.node(), proven.moves());
        if self.list.reserve(1).is_err() || self.buckets.add(digest).is_err() {
            return Err(proven);
        }
        // There is room, so this can't fail.
        let _ = self.list.push(StoredFront::new(proven, vectors));
        Ok(())
    }
}
