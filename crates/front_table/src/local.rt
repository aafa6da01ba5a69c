//! A store of one caller.
ghost use Rattle.std.specs.Prelude.{◌≡◌, ◌≢◌, ◌≤◌, ◌↔◌, [], length};
ghost use Rattle.front_table.specs.Proven.{IsFrontAt};
ghost use Rattle.front_table.specs.Stores.{HandsBack};
ghost use Rattle.front_table.specs.Entries.{most_entry_vectors, HasKey, PutLeaves};

use crate::entries::Entries;
use crate::proven::ProvenFront;
use crate::store::{FrontStore, Look, Put};
use pareto_fronts::Front;
use std::alloc::Global;
use std::marker::Model;
use trick_rules::Node;

/// A store for one caller: a list of at most `room` entries, each kept for good.
#[derive(Drop)]
pub struct LocalStore {
    entries: Entries,
    room: u32,
}

impl Model for LocalStore {
    ghost use Rattle.front_table.specs.LocalStores.{LocalStoreValue};

    ghost Value = { LocalStoreValue };

    ghost view = { λ store. record { entries = store.entries; room = store.room } };
}

impl LocalStore {
    /// No entry yet, and room for `room` of them. It takes no memory.
    pub fn new(alloc: Global, room: u32) -> LocalStore
        ensures { result ≡ record { entries = []; room = room } }
    {
        LocalStore {
            entries: Entries::new(alloc),
            room,
        }
    }

    /// The entries, in the order in which they came.
    pub fn entries(&self) -> &Entries
        ensures { result.now ≡ self.now.entries }
    {
        &self.entries
    }
}

impl FrontStore for LocalStore {
    ghost use Rattle.std.specs.Prelude.{false};
    ghost use Rattle.front_table.specs.LocalStores.{HasGrown, HasGrown-none, HasGrown-more};

    ghost blind = { false };

    // The earlier list begins the later one, and the room stays.
    ghost grown = { HasGrown };

    ghost grown_none = { HasGrown-none };

    ghost grown_more = { HasGrown-more };

    /// A hit exactly when the list has the key, and else a miss. The list stays.
    fn look(&mut self, node: &Node, moves: u8, out: &mut Front) -> Look
        requires width { out.old.width ≡ length node.now.lefts }
        requires room { most_entry_vectors ≤ out.old.room }
        ensures hit { (result ≡ Look.Hit) ↔ HasKey self.old.entries node.now moves }
        ensures never_busy { result ≢ Look.Busy }
        ensures list { self.new ≡ self.old }
        ensures front { result ≡ Look.Hit → IsFrontAt node.now moves out.new }
        ensures unchanged { result ≢ Look.Hit → out.new ≡ out.old }
        ensures width { out.new.width ≡ out.old.width }
        ensures room { out.old.room ≤ out.new.room }
    {
        if self.entries.look(node, moves, out) {
            Look::Hit
        } else {
            Look::Miss
        }
    }

    /// Puts the entry at the end of the list, if its key isn't there, and there is room for it.
    fn put(&mut self, entry: ProvenFront) -> Put
        ensures back { HandsBack entry result }
        ensures answer { PutLeaves self.old.room self.old.entries entry result self.new.entries }
        ensures room { self.new.room ≡ self.old.room }
    {
        self.entries.put(entry, self.room)
    }
}
