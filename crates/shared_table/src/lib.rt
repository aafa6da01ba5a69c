//! A table of proven fronts that several threads share.
//! It builds on `front_table` and `atomic_table`.
//! Each answer is exactly that of one list, which only grows, whatever the other threads do.
#![tactic(auto)]

ghost use Rattle.std.specs.Prelude.{◌≡◌, ◌≤◌};
ghost use Rattle.shared_table.specs.Limits.{most_shards};

mod calls;
mod close;
mod make;
mod passes;
mod rule;
mod shards;
mod store;
mod turns;

use atomic_table::{Seat, Table};
pub use close::{ClosedTable, ShardEnd};
use front_table::Entries;
use rule::{Sharded, TablePlan, TableView};
use std::alloc::Global;
pub use store::SharedStore;

/// Lists of proven fronts, which only grow. One caller at a time is inside of each.
#[derive(Drop)]
pub struct SharedTable {
    table: Table<Entries, TableView, TablePlan, Sharded, Global>,
    plan: TablePlan,
    alloc: Global,
    ghost planned: { plan ≡ table.shared.key },
    ghost words: { table.shared.table_id.words ≡ plan.shards },
    ghost slots: { table.shared.table_id.slots ≡ plan.shards },
    ghost bounds: { (1 ≤ plan.shards) × (plan.shards ≤ most_shards) },
}

/// What one caller knows of its table: of each shard the list that it has seen. It has no bytes.
#[derive(Drop)]
pub struct Pass {
    seat: Seat<Entries, TableView>,
}
