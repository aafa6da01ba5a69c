//! The turn of a shard: it is taken by one exchange, and given back by a store.
ghost use Rattle.std.specs.Prelude.{◌≡◌, ◌<◌, ◌≤◌, ◌↔◌, [], true, false, length, IsTrue};
ghost use mathlib.Core.List.{IsPrefix};
ghost use Rattle.front_table.specs.Proven.{IsFrontAt};
ghost use Rattle.front_table.specs.Stores.{HandsBack};
ghost use Rattle.front_table.specs.Entries.{most_entry_vectors, HasKey, PutLeaves};
ghost use Rattle.shared_table.specs.Shard.{IsShard};
ghost use Rattle.shared_table.specs.Shards.{seen_at, taken, refused, given, held};
ghost use Rattle.shared_table.specs.Passes.{IsSeatAt, IsOutAt, table_id_of, table_plan, Holds};

use crate::SharedTable;
use crate::rule::{Gives, TableView, Takes};
use atomic_table::Seat;
use front_table::{Entries, ProvenFront, Put};
use pareto_fronts::Front;
use trick_rules::Node;

impl SharedTable {
    // Takes the turn of a shard, if nobody has it.
    pub(crate) fn take(&self, seat: &mut Seat<Entries, TableView>, shard: u32) -> bool
        requires seat { IsOutAt (table_id_of self.now) (table_plan self.now) seat.old }
        requires shard { shard < (table_plan self.now).shards }
        ensures seat { IsSeatAt (table_id_of self.now) (table_plan self.now) seat.new }
        ensures holds { result ≡ true → Holds shard seat.new.me.1 }
        ensures taken { result ≡ true
            → seat.new.me.0 ≡ taken shard (held seat.new.me.1) seat.old.me.0 }
        ensures begins { result ≡ true
            → IsPrefix (seen_at shard seat.old.me.0).list (held seat.new.me.1) }
        ensures good { result ≡ true → IsShard (table_plan self.now) shard (held seat.new.me.1) }
        ensures busy { result ≡ false → (seat.new.me.0 ≡ refused shard seat.old.me.0) }
        ensures out { result ≡ false → IsOutAt (table_id_of self.now) (table_plan self.now) seat.new }
    {
        let found = self
            .table
            .shared
            .compare_exchange::<Takes>(seat, shard as usize, 0, 1);
        found == 0
    }

    // Looks into the list that the seat holds.
    pub(crate) fn look_inside(
        &self,
        seat: &mut Seat<Entries, TableView>,
        shard: u32,
        node: &Node,
        moves: u8,
        out: &mut Front,
    ) -> bool
        requires seat { IsSeatAt (table_id_of self.now) (table_plan self.now) seat.old }
        requires holds { Holds shard seat.old.me.1 }
        requires width { out.old.width ≡ length node.now.lefts }
        requires room { most_entry_vectors ≤ out.old.room }
        ensures seat { seat.new.table_id ≡ seat.old.table_id }
        ensures same { seat.new.me ≡ seat.old.me }
        ensures found { IsTrue result ↔ HasKey (held seat.old.me.1) node.now moves }
        ensures front { IsTrue result → IsFrontAt node.now moves out.new }
        ensures unchanged { result ≡ false → out.new ≡ out.old }
        ensures width { out.new.width ≡ out.old.width }
        ensures room { out.old.room ≤ out.new.room }
    {
        let list = seat.slot_mut(&self.table.shared, shard as usize);
        list.look(node, moves, out)
    }

    // Puts an entry into the list that the seat holds.
    pub(crate) fn put_inside(
        &self,
        seat: &mut Seat<Entries, TableView>,
        shard: u32,
        entry: ProvenFront,
    ) -> Put
        requires seat { IsSeatAt (table_id_of self.now) (table_plan self.now) seat.old }
        requires holds { Holds shard seat.old.me.1 }
        ensures seat { seat.new.table_id ≡ seat.old.table_id }
        ensures view { seat.new.me.0 ≡ seat.old.me.0 }
        ensures holds { Holds shard seat.new.me.1 }
        ensures back { HandsBack entry result }
        ensures answer { PutLeaves (table_plan self.now).room (held seat.old.me.1) entry result
            (held seat.new.me.1) }
    {
        let list = seat.slot_mut(&self.table.shared, shard as usize);
        list.put(entry, self.plan.room)
    }

    // Gives the turn back, with the list that the seat holds.
    pub(crate) fn give(&self, seat: &mut Seat<Entries, TableView>, shard: u32)
        requires seat { IsSeatAt (table_id_of self.now) (table_plan self.now) seat.old }
        requires shard { shard < (table_plan self.now).shards }
        requires holds { Holds shard seat.old.me.1 }
        requires inside { (seen_at shard seat.old.me.0).inside ≡ true }
        requires begins { IsPrefix (seen_at shard seat.old.me.0).list (held seat.old.me.1) }
        requires good { IsShard (table_plan self.now) shard (held seat.old.me.1) }
        ensures seat { IsSeatAt (table_id_of self.now) (table_plan self.now) seat.new }
        ensures empty { seat.new.me.1 ≡ [] }
        ensures given { seat.new.me.0 ≡ given shard (held seat.old.me.1) seat.old.me.0 }
    {
        self.table.shared.store::<Gives>(seat, shard as usize, 0);
    }
}
