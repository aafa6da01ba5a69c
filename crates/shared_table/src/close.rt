//! How a table is closed.
ghost use Rattle.std.specs.Prelude.{◌≡◌, ◌<◌, false, IfOk, OnErr};
ghost use Rattle.shared_table.specs.Shards.{seen_at};
ghost use Rattle.shared_table.specs.Passes.{IsPassOf, IsSeatAt, table_id_of, table_plan, view_of};
ghost use Rattle.shared_table.specs.Passes.{OthersStay};
ghost use Rattle.shared_table.specs.Ends.{AreEnds, IsEndOf};

use crate::rule::{TableView, Takes};
use crate::{Pass, SharedTable};
use atomic_table::Seat;
use front_table::Entries;
use std::alloc::AllocError;

/// How a shard ended.
#[derive(Drop)]
pub enum ShardEnd {
    /// Nobody was inside: its list.
    Home(Entries),
    /// A pass was inside.
    Held,
}

/// A table that no thread shares any more: how each shard ended, in order.
#[derive(Drop)]
pub struct ClosedTable {
    pub shards: Vec<ShardEnd>,
}

impl SharedTable {
    // Takes the list of a shard, if nobody has its turn. The turn isn't given back.
    fn take_list(&self, seat: &mut Seat<Entries, TableView>, shard: u32) -> ShardEnd
        requires seat { IsSeatAt (table_id_of self.now) (table_plan self.now) seat.old }
        requires shard { shard < (table_plan self.now).shards }
        requires outside { (seen_at shard seat.old.me.0).inside ≡ false }
        ensures seat { IsSeatAt (table_id_of self.now) (table_plan self.now) seat.new }
        ensures end { IsEndOf (table_plan self.now) shard (seen_at shard seat.old.me.0)
            (seen_at shard seat.new.me.0) result }
        ensures others { OthersStay shard seat.old.me.0 seat.new.me.0 }
    {
        let table = &self.table.shared;
        let place = shard as usize;
        let found = table.compare_exchange::<Takes>(seat, place, 0, 1);
        if found == 0 {
            ShardEnd::Home(table.exchange(seat, place, Entries::new(self.alloc)))
        } else {
            ShardEnd::Held
        }
    }

    /// How each shard ended: the list that it has at this call, or that another pass is inside. The
    /// pass counts which, as a look does. If an allocation fails, the table is dropped.
    pub fn close(self, pass: &mut Pass) -> Result<ClosedTable, AllocError>
        requires pass { IsPassOf self pass.old }
        ensures ends { IfOk result (λ closed. AreEnds (table_plan self) (view_of pass.old)
            (view_of pass.new) closed.shards.items) }
        ensures refused { OnErr result (pass.new ≡ pass.old) }
    {
        let count = self.plan.shards;
        let mut shards = Vec::with_capacity(self.alloc, count as usize)?;
        for shard in 0..count {
            let end = self.take_list(&mut pass.seat, shard);
            // There is room, so this can't fail.
            let _ = shards.push(end);
        }
        Ok(ClosedTable { shards })
    }
}
