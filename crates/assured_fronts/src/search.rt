//! A search for what is assured, under way.
ghost use Rattle.std.specs.Prelude.{◌≡◌, ◌<◌, ◌≤◌, ℕ, false, map, Contains, IfOk, IsTrue};
ghost use Rattle.win_vectors.specs.Vectors.{ones_of};
ghost use Rattle.trick_rules.specs.Play.{makes};
ghost use Rattle.trick_rules.specs.Nodes.{states, child};
ghost use Rattle.alphamu_core.specs.Kept.{AreEnough};
ghost use Rattle.assured_fronts.specs.AssuredAt.{IsAssuredAt, AllMade, claims as claims_at};
ghost use Rattle.assured_fronts.specs.AssuredSearches.{GoesOnMade, IsSameSearch, Pays, PaysBelow};

use crate::ends::{is_settled, open_stop, results, settled};
use crate::enough::changes_nothing;
use crate::last::last_move;
use crate::memo::AssuredMemo;
use crate::tried::{cards_of, next_card};
use alphamu_core::{Budget, SearchFault, filled, part_of};
use card_sets::CardSet;
use dd_solver::Solver;
use pareto_fronts::Front;
use plain_fronts::{front_of_no_card, moves_after, with_child};
use std::alloc::Global;
use trick_rules::Node;
use win_vectors::WinVector;

/// What a search for what is assured works with.
#[derive(Drop)]
pub struct AssuredSearch<'a> {
    pub alloc: Global,
    pub solver: &'a mut Solver,
    pub budget: &'a mut Budget,
    pub memo: &'a mut AssuredMemo,
}

impl AssuredSearch<'_> {
    /// Enters a node, for which the budget pays, and finds its front. `all_made` says that double
    /// dummy is known to make each layout.
    #[cycle(assured)]
    pub fn visit(&mut self, node: &Node, moves: u8, all_made: bool) -> Result<Front, SearchFault>
        requires { IsTrue all_made → AllMade node.now }
        ensures front { IfOk result (IsAssuredAt node.now moves) }
        ensures costs { Pays node.now moves self.old self.new result }
        ensures same { IsSameSearch self.old self.new }
        ensures same_budget { self.new.budget.ghost_name ≡ self.old.budget.ghost_name }
    {
        self.budget.enter()?;
        let made = results(self.solver, node, all_made);
        if is_settled(node, made) {
            Ok(settled(self.alloc, node, moves, made)?)
        } else if moves == 0 {
            Ok(open_stop(self.alloc, node, made)?)
        } else if made.count() == node.width() {
            self.recall(node, moves)
        } else {
            self.in_made(node, moves, made)
        }
    }

    // The front by the layouts that double dummy makes: no other is assured. The node itself is
    // paid for.
    #[cycle(assured)]
    fn in_made(&mut self, node: &Node, moves: u8, made: WinVector) -> Result<Front, SearchFault>
        requires goes_on { claims_at node.now ≡ false }
        requires moves { 0 < moves }
        requires results { made ≡ map makes (states node.now) }
        requires some { 1 ≤ ones_of made }
        ensures front { IfOk result (IsAssuredAt node.now moves) }
        ensures costs { PaysBelow node.now moves self.old self.new result }
        ensures same { IsSameSearch self.old self.new }
    {
        let part = part_of(self.alloc, node, made)?;
        let front = self.recall(&part, moves)?;
        Ok(filled(self.alloc, &front, made)?)
    }

    // The front of a node at which each layout is made: with the last move, or the one that is
    // kept, or else the one that is found by the cards.
    #[cycle(assured)]
    fn recall(&mut self, node: &Node, moves: u8) -> Result<Front, SearchFault>
        requires { GoesOnMade node.now moves }
        ensures front { IfOk result (IsAssuredAt node.now moves) }
        ensures costs { PaysBelow node.now moves self.old self.new result }
        ensures same { IsSameSearch self.old self.new }
    {
        if moves == 1 && node.is_ours() {
            return Ok(last_move(self.alloc, self.solver, node)?);
        }
        if let Some(front) = self.memo.look(node, moves) {
            return Ok(front);
        }
        let answer = self.by_cards(node, moves);
        self.memo.offer(node, moves, &answer);
        answer
    }

    // The front from those after each card, with a move less at declarer's side. The node itself is
    // paid for.
    #[cycle(assured)]
    fn by_cards(&mut self, node: &Node, moves: u8) -> Result<Front, SearchFault>
        requires { GoesOnMade node.now moves }
        ensures front { IfOk result (IsAssuredAt node.now moves) }
        ensures costs { PaysBelow node.now moves self.old self.new result }
        ensures same { IsSameSearch self.old self.new }
    {
        let left = moves_after(node, moves);
        let mut front = front_of_no_card(self.alloc, node)?;
        let mut cards = cards_of(node);
        let all_made = is_made_after_each(node, cards);
        'cards: while let Some(card) = next_card(node, &mut cards) {
            let (child, mask) = node.child(self.alloc, card)?;
            if changes_nothing(node, &front, mask) {
                continue;
            }
            let won = self.visit(&child, left, all_made)?;
            front = with_child(self.alloc, node, front, &won, mask)?;
        }
        Ok(front)
    }
}

// Whether double dummy is known to make each layout after each of these cards, if it makes each at
// the node: at a defender's turn, or if declarer's side has only one to try.
fn is_made_after_each(node: &Node, cards: CardSet) -> bool
    requires goes_on { claims_at node.now ≡ false }
    requires made { AllMade node.now }
    requires enough { AreEnough node.now cards }
    ensures { IsTrue result → (card : ℕ) → Contains cards card → AllMade (child node.now card) }
{
    let _width = node.width();
    !node.is_ours() || cards.count() == 1
}
