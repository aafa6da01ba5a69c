//! The table as a store.
ghost use Rattle.std.specs.Prelude.{◌≡◌, ◌≢◌, ◌≤◌, length};
ghost use Rattle.front_table.specs.Proven.{IsFrontAt};
ghost use Rattle.front_table.specs.Stores.{HandsBack};
ghost use Rattle.front_table.specs.Entries.{most_entry_vectors};
ghost use Rattle.shared_table.specs.Passes.{IsPassOf, table_plan, view_of, LookTells, PutTells};

use crate::{Pass, SharedTable};
use front_table::{FrontStore, Look, ProvenFront, Put};
use pareto_fronts::Front;
use trick_rules::Node;

/// A table with a pass of it, as a store of proven fronts.
#[derive(Drop)]
pub struct SharedStore<'a> {
    table: &'a SharedTable,
    pass: &'a mut Pass,
    ghost of_table: { IsPassOf table.now pass.now },
}

impl<'a> SharedStore<'a> {
    /// The table as a store, by this pass. It takes no memory.
    pub fn new(table: &'a SharedTable, pass: &'a mut Pass) -> SharedStore<'a>
        requires pass { IsPassOf table.now pass.old }
        ensures table { result.table.now ≡ table.now }
        ensures pass { result.pass.now ≡ pass.old }
        ensures same_reference { result.pass.ghost_name ≡ pass.entry.ghost_name }
    {
        SharedStore { table, pass }
    }
}

impl FrontStore for SharedStore<'_> {
    ghost use Rattle.std.specs.Prelude.{false};
    ghost use Rattle.shared_table.specs.Stores.{HasGrown, HasGrown-none, HasGrown-more};

    ghost blind = { false };

    // It is the same table and the same pass, which has seen no less and counted no less.
    ghost grown = { HasGrown };

    ghost grown_none = { HasGrown-none };

    ghost grown_more = { HasGrown-more };

    /// As `look` of the table, by its pass.
    fn look(&mut self, node: &Node, moves: u8, out: &mut Front) -> Look
        requires width { out.old.width ≡ length node.now.lefts }
        requires room { most_entry_vectors ≤ out.old.room }
        ensures answer { LookTells (table_plan self.old.table.now) node.now moves
            (view_of self.old.pass.now) (view_of self.new.pass.now) result }
        ensures front { result ≡ Look.Hit → IsFrontAt node.now moves out.new }
        ensures unchanged { result ≢ Look.Hit → out.new ≡ out.old }
        ensures width { out.new.width ≡ out.old.width }
        ensures room { out.old.room ≤ out.new.room }
        ensures grown { HasGrown self.old self.new }
    {
        self.table.look(self.pass, node, moves, out)
    }

    /// As `put` of the table, by its pass.
    fn put(&mut self, entry: ProvenFront) -> Put
        ensures back { HandsBack entry result }
        ensures answer { PutTells (table_plan self.old.table.now) entry
            (view_of self.old.pass.now) (view_of self.new.pass.now) result }
        ensures grown { HasGrown self.old self.new }
    {
        self.table.put(self.pass, entry)
    }
}
