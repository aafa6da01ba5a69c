//! The table of fronts that a search looks into.
ghost use Rattle.std.specs.Prelude.{◌≡◌, IfOk, if◌then◌else◌};
ghost use Rattle.job_words.specs.Asks.{IsSearchWithinLimits};
ghost use Rattle.shared_table.specs.Passes.{IsPassOf, table_plan};

use job_words::Search;
use root_workers::Options;
use shared_table::{Pass, SharedTable};
use std::alloc::{AllocError, Global};

/// A table of as many shards and with as much room as the words ask for, and its first pass. Where
/// they ask for none it has one shard with room for one entry, and no search looks into it.
pub fn table_of(alloc: Global, search: &Search) -> Result<(SharedTable, Pass), AllocError>
    requires limits { IsSearchWithinLimits search.now }
    ensures pass { IfOk result (λ made. IsPassOf made.0 made.1) }
    ensures plan { IfOk result (λ made. table_plan made.0 ≡ (if search.now.table
        then record { shards = search.now.shards; room = search.now.room }
        else record { shards = 1; room = 1 })) }
{
    if search.table {
        SharedTable::new(alloc, search.shards, search.room)
    } else {
        SharedTable::new(alloc, 1, 1)
    }
}

/// How the words ask a root to be searched.
pub fn options_of(search: &Search) -> Options
    ensures { result ≡ record {
      nodes = search.now.nodes;
      workers = search.now.workers;
      table = search.now.table;
      cuts = search.now.cuts;
    } }
{
    Options {
        nodes: search.nodes,
        workers: search.workers,
        table: search.table,
        cuts: search.cuts,
    }
}
