//! How a table is made.
ghost use Rattle.std.specs.Prelude.{◌≡◌, ◌≤◌, ◌*◌, [], IfOk, replicate};
ghost use Rattle.shared_table.specs.Passes.{IsPassOf, table_plan, view_of, IsNew};
ghost use Rattle.shared_table.specs.Limits.{most_shards, most_room, most_entries};

use crate::rule::TablePlan;
use crate::{Pass, SharedTable};
use atomic_table::Table;
use front_table::Entries;
use std::alloc::{AllocError, Global};

// This many lists without an entry.
fn empty_lists(alloc: Global, count: u32) -> Result<Vec<Entries>, AllocError>
    ensures { IfOk result (λ lists. lists.items ≡ replicate count []) }
{
    let mut lists = Vec::with_capacity(alloc, count as usize)?;
    for _ in 0..count {
        lists.push(Entries::new(alloc))?;
    }
    Ok(lists)
}

impl SharedTable {
    /// A table of `shards` shards, each with room for `room` entries and no entry yet, and the
    /// first pass. Memory for entries is taken as they come.
    pub fn new(alloc: Global, shards: u32, room: u32) -> Result<(SharedTable, Pass), AllocError>
        requires shards { (1 ≤ shards) × (shards ≤ most_shards) }
        requires room { (1 ≤ room) × (room ≤ most_room) }
        requires entries { shards * room ≤ most_entries }
        ensures plan { IfOk result (λ t. table_plan t.0 ≡ record { shards = shards; room = room }) }
        ensures pass { IfOk result (λ t. IsPassOf t.0 t.1) }
        ensures fresh { IfOk result (λ t. IsNew (view_of t.1)) }
    {
        let plan = TablePlan { shards, room };
        let words = Vec::from_elem(alloc, 0u64, shards as usize)?;
        let lists = empty_lists(alloc, shards)?;
        match Table::new(alloc, words.as_slice(), lists, &plan) {
            Ok((table, seat)) => Ok((SharedTable { table, plan, alloc }, Pass { seat })),
            Err(_) => Err(AllocError),
        }
    }
}
