//! The rule of the shards, and what each step tells. These types are for the proofs alone.
use crate::shared_memo::Shard;
use atomic_table::{Play, TableRule};

pub(crate) struct Homes;

impl TableRule<Shard, (), ()> for Homes {
    ghost use Rattle.dd_solver.specs.Shards.{AreHome};

    ghost holds = { λ _. AreHome };

    ghost first = { λ _. tt };
}

pub(crate) struct Takes;

impl Play<Shard, ()> for Takes {
    ghost use Rattle.std.specs.Prelude.{◌≡◌};
    ghost use Rattle.dd_solver.specs.Shards.{HoldsOnly};

    ghost then = { λ step _ found after. found ≡ 0 → HoldsOnly step.word after };
}

pub(crate) struct Gives;

impl Play<Shard, ()> for Gives {
    ghost use Rattle.std.specs.Prelude.{⊤};

    ghost then = { λ _ _ _ _. ⊤ };
}
