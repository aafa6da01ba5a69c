//! The rule of the table, and what each step tells. These types are for the proofs alone.
use atomic_table::{Join, Play, Split, TableRule};
use front_table::{Entries, StoredFront};
use std::collections::LinkedList;

/// How many shards there are, and how many entries a shard may have.
#[derive(Clone, Copy)]
pub struct TablePlan {
    pub shards: u32,
    pub room: u32,
}

/// What a pass knows of a shard: the list that it has seen, that of a pass which joined it, whether
/// it is inside, how often its take succeeded and how often it found the turn taken.
pub struct SeenShard {
    pub list: LinkedList<StoredFront>,
    pub also: LinkedList<StoredFront>,
    pub inside: bool,
    pub got: u64,
    pub busy: u64,
}

/// What a pass knows: the plan, and each shard. No value of it is made.
pub struct TableView {
    pub plan: TablePlan,
    pub shards: LinkedList<SeenShard>,
}

pub struct Sharded;

impl TableRule<Entries, TableView, TablePlan> for Sharded {
    ghost use Rattle.shared_table.specs.Shards.{IsSharded, first_view};

    ghost holds = { IsSharded };

    ghost first = { first_view };
}

pub struct Takes;

impl Play<Entries, TableView> for Takes {
    ghost use Rattle.shared_table.specs.Shards.{took};

    ghost then = { took };
}

pub struct Gives;

impl Play<Entries, TableView> for Gives {
    ghost use Rattle.shared_table.specs.Shards.{gave};

    ghost then = { λ step seat _ after. gave step seat after };
}

pub struct Settles;

impl Play<Entries, TableView> for Settles {
    ghost use Rattle.shared_table.specs.Shards.{settles};

    ghost then = { λ _ seat _ after. settles seat after };
}

pub struct Parts;

impl Split<TableView> for Parts {
    ghost use Rattle.shared_table.specs.Shards.{newcomer};

    ghost left = { λ v. v };

    ghost right = { newcomer };
}

impl Join<TableView> for Parts {
    ghost use Rattle.shared_table.specs.Shards.{both, spent};

    ghost both = { both };

    ghost spent = { spent };
}
