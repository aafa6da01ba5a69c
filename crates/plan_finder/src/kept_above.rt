//! What a search above a target has found.
ghost use Rattle.std.specs.Prelude.{◌≡◌};
ghost use Rattle.plan_finder.specs.Above.{AreAbove};

use crate::vector_at::VectorAt;
use pareto_fronts::Front;
use std::marker::Model;

/// The vectors of a node's front that dominate a target, kept under that target.
#[derive(Drop)]
pub struct KeptAbove {
    key: VectorAt,
    front: Front,
}

impl Model for KeptAbove {
    ghost use Rattle.pareto_fronts.specs.FrontValue.{FrontValue};
    ghost use Rattle.plan_finder.specs.Above.{AreAbove};
    ghost use Rattle.plan_finder.specs.declared.vector_at.VectorAt.{VectorAt};

    ghost Value = { VectorAt × FrontValue };

    ghost view = { λ kept. (kept.key, kept.front) };

    ghost invariant = { λ kept. AreAbove kept.key.node kept.key.moves kept.key.vector kept.front };
}

impl KeptAbove {
    /// The vectors above a target. No clause: that they are right is the invariant of its type.
    pub fn new(key: VectorAt, front: Front) -> KeptAbove
        requires { AreAbove key.node key.moves key.vector front }
    {
        KeptAbove { key, front }
    }

    /// The target, with its node and its moves.
    pub fn key(&self) -> &VectorAt
        ensures { result.now ≡ self.now.0 }
    {
        &self.key
    }

    pub fn front(&self) -> &Front
        ensures { AreAbove self.now.0.node self.now.0.moves self.now.0.vector result.now }
    {
        &self.front
    }
}
