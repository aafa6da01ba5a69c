//! What is assured after each card of a defender.
ghost use Rattle.std.specs.Prelude.{◌≡◌, ◌↔◌, ◌<◌, false, IfOk, IsTrue};
ghost use Rattle.trick_rules.specs.Positions.{to_play};
ghost use Rattle.trick_rules.specs.Play.{is_declarers};
ghost use Rattle.assured_fronts.specs.AssuredAt.{AllMade, claims as claims_at};
ghost use Rattle.assured_fronts.specs.AfterReplies.{Waits, AreAfterReplies};
ghost use Rattle.assured_fronts.specs.AssuredSearches.{IsSameSearch, Pays, PaysBelow};

use crate::ends::{claims, results};
use crate::search::AssuredSearch;
use crate::tried::cards_of;
use alphamu_core::SearchFault;
use dd_solver::Solver;
use pareto_fronts::Front;
use trick_rules::Node;
use win_vectors::WinVector;

/// What is assured after a card of a defender: a mask with a 1 for each layout in which the card is
/// legal, and the front in those layouts.
#[derive(Drop)]
pub struct AfterReply {
    pub mask: WinVector,
    pub front: Front,
}

/// Whether play goes on at a node with these moves, and a defender is to play.
pub fn waits(node: &Node, moves: u8) -> bool
    ensures { IsTrue result → Waits node.now moves }
{
    moves > 0 && !node.is_ours() && !claims(node)
}

// Whether double dummy makes each layout.
fn is_all_made(solver: &mut Solver, node: &Node) -> bool
    ensures { IsTrue result → AllMade node.now }
{
    results(solver, node, false).count() == node.width()
}

impl AssuredSearch<'_> {
    /// Enters a node where a defender is to play, for which the budget pays, and finds what is
    /// assured after each of its cards, in card order.
    pub fn replies(&mut self, node: &Node, moves: u8) -> Result<Vec<AfterReply>, SearchFault>
        requires { Waits node.now moves }
        ensures replies { IfOk result (λ found. AreAfterReplies node.now moves found.items) }
        ensures costs { Pays node.now moves self.old self.new result }
        ensures same { IsSameSearch self.old self.new }
        ensures same_budget { self.new.budget.ghost_name ≡ self.old.budget.ghost_name }
    {
        self.budget.enter()?;
        let all_made = is_all_made(self.solver, node);
        self.after_each(node, moves, all_made)
    }

    // What is assured after each card. A layout that is made is made still after it. The node
    // itself is paid for.
    fn after_each(
        &mut self,
        node: &Node,
        moves: u8,
        all_made: bool,
    ) -> Result<Vec<AfterReply>, SearchFault>
        requires waits { Waits node.now moves }
        requires made { IsTrue all_made → AllMade node.now }
        ensures replies { IfOk result (λ found. AreAfterReplies node.now moves found.items) }
        ensures costs { PaysBelow node.now moves self.old self.new result }
        ensures same { IsSameSearch self.old self.new }
    {
        let _width = node.width();
        let mut found = Vec::new(self.alloc);
        let mut cards = cards_of(node);
        'cards: while let Some(card) = cards.pop_first() {
            let (child, mask) = node.child(self.alloc, card)?;
            let front = self.visit(&child, moves, all_made)?;
            found.push(AfterReply { mask, front })?;
        }
        Ok(found)
    }
}
