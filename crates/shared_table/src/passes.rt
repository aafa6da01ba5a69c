//! How passes part and join.
ghost use Rattle.std.specs.Prelude.{◌≡◌};
ghost use Rattle.shared_table.specs.Passes.{IsPassOf, view_of, HasParted, HasJoined};

use crate::rule::{Parts, Settles};
use crate::{Pass, SharedTable};

impl SharedTable {
    /// A second pass, which has seen what the first one has.
    pub fn split(&self, pass: &mut Pass) -> Pass
        requires pass { IsPassOf self.now pass.old }
        ensures passes { IsPassOf self.now pass.new × IsPassOf self.now result }
        ensures parted { HasParted (view_of pass.old) (view_of pass.new) (view_of result) }
    {
        let seat = self.table.shared.split_seat::<Parts>(&mut pass.seat);
        Pass { seat }
    }

    /// Two passes become one, which has seen what both have.
    pub fn join(&self, pass: &mut Pass, other: Pass)
        requires passes { IsPassOf self.now pass.old × IsPassOf self.now other }
        ensures pass { IsPassOf self.now pass.new }
        ensures joined { HasJoined (view_of pass.old) (view_of other) (view_of pass.new) }
    {
        let Pass { seat } = other;
        self.table.shared.join_seat::<Parts>(&mut pass.seat, seat);
        self.table.shared.load::<Settles>(&mut pass.seat, 0);
    }
}
