// What is known of a node's front before its children are searched.
ghost use Rattle.std.specs.Prelude.{◌≡◌, ◌≢◌, ◌≤◌, ◌-◌, [], ◌∷◌, true, false, List, length, map, IfOk, IfSome};
ghost use Rattle.win_vectors.specs.Fronts.{Vector};
ghost use Rattle.trick_rules.specs.Play.{makes};
ghost use Rattle.trick_rules.specs.Nodes.{IsNode, states};
ghost use Rattle.strategy_games.specs.Plans.{stops};
ghost use Rattle.strategy_tree.specs.Bridge.{bridge};
ghost use Rattle.front_table.specs.Proven.{IsFrontAt};
ghost use Rattle.cut_rules.specs.declared.CutRules.{CutRules};
ghost use Rattle.cut_rules.specs.Rules.{no_cuts};
ghost use Rattle.equivalent_nodes.specs.Ranks.{AreEquivalent};
ghost use Rattle.alphamu_core.specs.Findings.{IsAnswer};
ghost use Rattle.alphamu_core.specs.Asked.{IsAsked};
ghost use Rattle.alphamu_core.specs.Limits.{IsLimit, IsUnknown, IsUpperBound, IsUnionOf};
ghost use Rattle.alphamu_core.specs.TreeSearches.{IsSameSearch};

use crate::answers::Found;
use crate::results::{Question, results};
use crate::tree_search::TreeSearch;
use cut_rules::cut;
use dd_solver::Solver;
use front_table::FrontStore;
use pareto_fronts::Front;
use std::alloc::{AllocError, Global};
use trick_rules::Node;
use win_vectors::WinVector;

/// What is known of a node's front before its children are searched.
#[derive(Drop)]
pub enum Limit {
    /// The answer itself.
    Settled(Found),
    /// The layouts that double dummy makes; and an upper bound, the front with fewer moves.
    Upper(WinVector, Front),
    /// Nothing.
    Open,
}

impl<S: FrontStore> TreeSearch<'_, S> {
    /// The answer from the store, under the node's key, or by an upper bound; or else the upper
    /// bound, if the rules ask for one.
    pub fn limit(&mut self, question: &Question, key: &Node, moves: u8) -> Result<Limit, AllocError>
        requires asked { IsAsked self.old.rules question.now }
        requires goes_on { stops bridge question.now.node.now moves ≡ false }
        requires key { AreEquivalent question.now.node.now key.now }
        ensures limit { IfOk result (IsLimit question.now.node.now moves
            question.now.alpha.now.vectors self.old.rules) }
        ensures unknown { self.old.rules ≡ no_cuts → S.blind ≡ true → IfOk result IsUnknown }
        ensures unpaid { self.new.budget.now.left ≡ self.old.budget.now.left }
        ensures same { IsSameSearch S.grown self.old self.new }
    {
        let node = question.node;
        if let Some(front) = self.scratch.known(self.store, node, key, moves)? {
            return Ok(Limit::Settled(Found::Exact(front)));
        }
        if let Some(previous) = self.previous(node, key, moves)? {
            return by_previous(self.alloc, question, moves, previous);
        }
        if !self.rules.bound {
            return Ok(Limit::Open);
        }
        by_double_dummy(self.alloc, self.solver, question, moves)
    }

    // The front with a move less, if the rules use it and the store has it.
    fn previous(&mut self, node: &Node, key: &Node, moves: u8) -> Result<Option<Front>, AllocError>
        requires goes_on { stops bridge node.now moves ≡ false }
        requires key { AreEquivalent node.now key.now }
        ensures front { IfOk result (λ front. IfSome front (IsFrontAt node.now (moves - 1))) }
        ensures deepens { IfOk result (λ front. IfSome front (λ _. self.old.rules ≢ no_cuts)) }
        ensures unpaid { self.new.budget.now.left ≡ self.old.budget.now.left }
        ensures same { IsSameSearch S.grown self.old self.new }
    {
        if !self.rules.deepen {
            return Ok(None);
        }
        self.scratch.known(self.store, node, key, moves - 1)
    }
}

// By the front with a move less. Double dummy needn't be asked: a layout that it makes is won by
// some vector of that front.
fn by_previous(
    alloc: Global,
    question: &Question,
    moves: u8,
    previous: Front,
) -> Result<Limit, AllocError>
    requires width { question.now.alpha.now.width ≡ length question.now.node.now.lefts }
    requires goes_on { stops bridge question.now.node.now moves ≡ false }
    requires previous { IsFrontAt question.now.node.now (moves - 1) previous }
    requires a_node { IsNode question.now.node.now }
    ensures { (rules : CutRules) → rules ≢ no_cuts → IfOk result (IsLimit question.now.node.now
        moves question.now.alpha.now.vectors rules) }
{
    if cut(&previous, question.alpha) {
        return Ok(Limit::Settled(Found::Below));
    }
    let made = union_of(&previous);
    by_results(alloc, question.node, moves, made, previous)
}

// The vector with a 1 at each layout at which some vector of the front has 1.
fn union_of(front: &Front) -> WinVector
    ensures { IsUnionOf front.now.width front.now.vectors result }
{
    let count = front.len();
    let mut union = WinVector::none(front.width());
    for place in 0..count {
        union = union.either(front.get(place));
    }
    union
}

// By double dummy at the node itself: no strategy wins a layout that can't be made.
fn by_double_dummy(
    alloc: Global,
    solver: &mut Solver,
    question: &Question,
    moves: u8,
) -> Result<Limit, AllocError>
    requires asked { IsAsked question.now.rules question.now }
    requires goes_on { stops bridge question.now.node.now moves ≡ false }
    requires bound { question.now.rules.bound ≡ true }
    ensures { IfOk result (IsLimit question.now.node.now moves
        question.now.alpha.now.vectors question.now.rules) }
{
    let Some(made) = results(solver, question) else {
        return Ok(Limit::Settled(Found::Below));
    };
    let upper = single(alloc, made)?;
    by_results(alloc, question.node, moves, made, upper)
}

// By double dummy's results. If it makes one layout at most, nothing that matters is hidden, and
// the results are the front.
fn by_results(
    alloc: Global,
    node: &Node,
    moves: u8,
    made: WinVector,
    upper: Front,
) -> Result<Limit, AllocError>
    requires a_node { IsNode node.now }
    requires results { made ≡ map makes (states node.now) }
    requires upper { IsUpperBound node.now moves upper }
    ensures { (alpha : List Vector) (rules : CutRules) → rules ≢ no_cuts
        → IfOk result (IsLimit node.now moves alpha rules) }
{
    if made.count() < 2 {
        return Ok(Limit::Settled(Found::Exact(single(alloc, made)?)));
    }
    Ok(Limit::Upper(made, upper))
}

impl Question<'_> {
    /// Where plans stop: double dummy's results, or below.
    pub fn leaf(&self, alloc: Global, solver: &mut Solver, moves: u8) -> Result<Found, AllocError>
        requires asked { IsAsked self.now.rules self.now }
        requires stopped { stops bridge self.now.node.now moves ≡ true }
        ensures { IfOk result (IsAnswer self.now.node.now moves self.now.alpha.now.vectors
            self.now.rules) }
    {
        match results(solver, self) {
            Some(made) => Ok(Found::Exact(single(alloc, made)?)),
            None => Ok(Found::Below),
        }
    }
}

// The front of one vector.
fn single(alloc: Global, vector: WinVector) -> Result<Front, AllocError>
    requires low { 1 ≤ length vector }
    requires high { length vector ≤ 256 }
    ensures width { IfOk result (λ front. front.width ≡ length vector) }
    ensures vectors { IfOk result (λ front. front.vectors ≡ vector ∷ []) }
{
    let mut front = Front::new(alloc, vector.width());
    front.insert(vector)?;
    Ok(front)
}
