//! The fast solver for the judge of plans: it settles the results that plans leave open.
//! It builds on `strategy_check` and on `dd_solver`. The judge's contracts stay as they are, since
//! the solver answers double dummy.
#![tactic(auto)]

use card_sets::CardSet;
use dd_solver::Solver;
use strategy_check::DoubleDummy;
use trick_rules::Position;

/// Double dummy by a solver that is lent. It keeps what it remembers for its owner.
#[derive(Drop)]
pub struct FastDoubleDummy<'a>(pub &'a mut Solver);

impl DoubleDummy for FastDoubleDummy<'_> {
    fn makes(&mut self, position: &Position, left: CardSet) -> bool {
        self.0.makes(position, left)
    }
}
