//! Searches with a budget of their own.
ghost use Rattle.std.specs.Prelude.{◌≡◌, ◌<◌, ◌≤◌, None, Some, length, IfOk, IfSome, IsErrOf, IsTrue};
ghost use Rattle.trick_rules.specs.Nodes.{IsNode, most_moves};
ghost use Rattle.strategy_games.specs.Plans.{tree_size};
ghost use Rattle.strategy_games.specs.Choosing.{IsPick};
ghost use Rattle.strategy_tree.specs.Bridge.{bridge};
ghost use Rattle.alphamu_core.specs.Costs.{IsWithin};
ghost use Rattle.plan_finder.specs.Choices.{KeepsNone};
ghost use Rattle.plan_finder.specs.PlanSearches.{IsSameSearch};

use crate::above::{vectors_above, wins_all_made_by};
use crate::memo::AboveMemo;
use crate::rules::PlanRules;
use alphamu_core::{Budget, Entered, SearchFault};
use dd_solver::Solver;
use front_table::FrontStore;
use trick_rules::Node;
use win_vectors::WinVector;

/// What the searches for a plan work with, how many nodes each of them may enter, and by which
/// rules.
#[derive(Drop)]
pub struct PlanSearch<'a, S> {
    pub store: &'a mut S,
    pub solver: &'a mut Solver,
    pub memo: &'a mut AboveMemo,
    pub nodes: u64,
    pub rules: PlanRules,
}

/// The first vector of a front that dominates another, if there is one, and how many nodes the
/// search for it entered.
#[derive(Drop)]
pub struct Picked {
    pub vector: Option<WinVector>,
    pub entered: Entered,
}

// A vector that is known without a search. One of this many nodes pays for it.
fn known_pick(nodes: u64, vector: &WinVector) -> Result<Picked, SearchFault>
    ensures vector { IfOk result (λ found. found.vector ≡ Some vector.now) }
    ensures within { IfOk result (λ found. IsWithin nodes found.entered) }
    ensures spent { IsErrOf result SearchFault.Spent → nodes < 1 }
{
    let mut budget = Budget::new(nodes);
    budget.enter()?;
    Ok(Picked {
        vector: Some(*vector),
        entered: budget.entered(),
    })
}

impl<S: FrontStore> PlanSearch<'_, S> {
    /// The first vector of the front that dominates this one, if there is one.
    pub fn pick_of(
        &mut self,
        node: &Node,
        moves: u8,
        vector: &WinVector,
    ) -> Result<Picked, SearchFault>
        requires few_moves { moves ≤ most_moves }
        requires width { length vector.now ≡ length node.now.lefts }
        ensures picked { IfOk result (λ found.
            IfSome found.vector (IsPick bridge node.now moves vector.now)) }
        ensures none { IfOk result (λ found. found.vector ≡ None
            → KeepsNone node.now moves vector.now) }
        ensures within { IfOk result (λ found. IsWithin self.old.nodes found.entered) }
        ensures spent { IsErrOf result SearchFault.Spent
            → self.old.nodes < tree_size bridge node.now moves }
        ensures same { IsSameSearch S.grown self.old self.new }
    {
        let mut budget = Budget::new(self.nodes);
        let front = vectors_above(
            self.store,
            self.solver,
            self.memo,
            &mut budget,
            node,
            moves,
            vector,
            self.rules,
        )?;
        Ok(Picked {
            vector: front.pick(vector),
            entered: budget.entered(),
        })
    }

    /// The same; but if it is known to be this vector itself (`known`), nothing is searched.
    pub fn pick_unless_known(
        &mut self,
        node: &Node,
        moves: u8,
        vector: &WinVector,
        known: bool,
    ) -> Result<Picked, SearchFault>
        requires few_moves { moves ≤ most_moves }
        requires width { length vector.now ≡ length node.now.lefts }
        requires known { IsTrue known → IsPick bridge node.now moves vector.now vector.now }
        ensures picked { IfOk result (λ found.
            IfSome found.vector (IsPick bridge node.now moves vector.now)) }
        ensures none { IfOk result (λ found. found.vector ≡ None
            → KeepsNone node.now moves vector.now) }
        ensures within { IfOk result (λ found. IsWithin self.old.nodes found.entered) }
        ensures spent { IsErrOf result SearchFault.Spent
            → self.old.nodes < tree_size bridge node.now moves }
        ensures same { IsSameSearch S.grown self.old self.new }
    {
        if !known {
            return self.pick_of(node, moves, vector);
        }
        known_pick(self.nodes, vector)
    }

    /// The first vector of the front that dominates this one, which some vector is known to do. If
    /// double dummy makes no layout that this one loses, it is this one.
    pub fn pick_kept(
        &mut self,
        node: &Node,
        moves: u8,
        vector: &WinVector,
    ) -> Result<Picked, SearchFault>
        requires few_moves { moves ≤ most_moves }
        requires a_node { IsNode node.now }
        requires width { length vector.now ≡ length node.now.lefts }
        requires kept { KeepsNone node.now moves vector.now → ⊥ }
        ensures picked { IfOk result (λ found.
            IfSome found.vector (IsPick bridge node.now moves vector.now)) }
        ensures none { IfOk result (λ found. found.vector ≡ None
            → KeepsNone node.now moves vector.now) }
        ensures within { IfOk result (λ found. IsWithin self.old.nodes found.entered) }
        ensures spent { IsErrOf result SearchFault.Spent
            → self.old.nodes < tree_size bridge node.now moves }
        ensures same { IsSameSearch S.grown self.old self.new }
    {
        let known = wins_all_made_by(self.solver, self.rules.cuts, node, vector);
        self.pick_unless_known(node, moves, vector, known)
    }
}
