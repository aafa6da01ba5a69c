//! Looks and puts. Each makes one exchange of a turn, and doesn't try again.
ghost use Rattle.std.specs.Prelude.{◌≡◌, ◌≢◌, ◌≤◌, length};
ghost use Rattle.front_table.specs.Proven.{IsFrontAt};
ghost use Rattle.front_table.specs.Stores.{HandsBack};
ghost use Rattle.front_table.specs.Entries.{most_entry_vectors};
ghost use Rattle.shared_table.specs.Passes.{IsPassOf, table_plan, view_of, LookTells, PutTells};

use crate::{Pass, SharedTable};
use front_table::{Look, MOST_ENTRY_VECTORS, ProvenFront, Put};
use pareto_fronts::Front;
use trick_rules::Node;

impl SharedTable {
    /// Looks for the front of a node with `moves` moves in the list of its shard. A hit leaves it
    /// in `out`. It takes no memory and doesn't wait.
    pub fn look(&self, pass: &mut Pass, node: &Node, moves: u8, out: &mut Front) -> Look
        requires pass { IsPassOf self.now pass.old }
        requires width { out.old.width ≡ length node.now.lefts }
        requires room { most_entry_vectors ≤ out.old.room }
        ensures pass { IsPassOf self.now pass.new }
        ensures answer { LookTells (table_plan self.now) node.now moves (view_of pass.old)
            (view_of pass.new) result }
        ensures front { result ≡ Look.Hit → IsFrontAt node.now moves out.new }
        ensures unchanged { result ≢ Look.Hit → out.new ≡ out.old }
        ensures width { out.new.width ≡ out.old.width }
        ensures room { out.old.room ≤ out.new.room }
    {
        let shard = self.shard(node, moves);
        if !self.take(&mut pass.seat, shard) {
            return Look::Busy;
        }
        let found = self.look_inside(&mut pass.seat, shard, node, moves, out);
        self.give(&mut pass.seat, shard);
        if found { Look::Hit } else { Look::Miss }
    }

    /// Puts an entry at the end of the list of its shard, if its key isn't there and there is room.
    /// It doesn't wait.
    pub fn put(&self, pass: &mut Pass, entry: ProvenFront) -> Put
        requires pass { IsPassOf self.now pass.old }
        ensures pass { IsPassOf self.now pass.new }
        ensures back { HandsBack entry result }
        ensures answer { PutTells (table_plan self.now) entry (view_of pass.old) (view_of pass.new)
            result }
    {
        if entry.front().len() > MOST_ENTRY_VECTORS {
            return Put::TooWide(entry);
        }
        let shard = self.shard(entry.node(), entry.moves());
        if !self.take(&mut pass.seat, shard) {
            return Put::Busy(entry);
        }
        let answer = self.put_inside(&mut pass.seat, shard, entry);
        self.give(&mut pass.seat, shard);
        answer
    }
}
