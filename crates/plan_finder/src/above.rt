//! The vectors of a front that dominate a target, by a search that looks for no others.
ghost use Rattle.std.specs.Prelude.{◌≡◌, ◌≤◌, ◌<◌, ◌+◌, [], true, false, length, map};
ghost use Rattle.std.specs.Prelude.{IfOk, IfSome, IsErrOf, IsTrue, slice_index_or};
ghost use Rattle.win_vectors.specs.Fronts.{Covers, Dominates};
ghost use Rattle.trick_rules.specs.Play.{makes};
ghost use Rattle.trick_rules.specs.Nodes.{IsNode, states, most_moves};
ghost use Rattle.strategy_games.specs.Plans.{stops, tree_size};
ghost use Rattle.strategy_tree.specs.Bridge.{bridge};
ghost use Rattle.front_table.specs.Proven.{IsFrontAt};
ghost use Rattle.alphamu_core.specs.Costs.{Costs};
ghost use Rattle.alphamu_core.specs.Judging.{makes_at};
ghost use Rattle.plan_finder.specs.Above.{IsPartAbove, AreAbove};
ghost use Rattle.plan_finder.specs.AboveSearches.{IsSameAbove};

use crate::memo::AboveMemo;
use crate::rules::PlanRules;
use alphamu_core::{Budget, Found, SearchFault, cards_to_try, search, store_key, take_highest};
use cut_rules::CutRules;
use dd_solver::Solver;
use front_join::Joiner;
use front_table::{FrontStore, Look, MOST_ENTRY_VECTORS};
use pareto_fronts::Front;
use std::alloc::{AllocError, Global};
use trick_rules::Node;
use win_vectors::WinVector;

/// What a search above a target finds.
pub type VectorsAbove = Result<Front, SearchFault>;

/// What a search above a target works with, and by which rules.
#[derive(Drop)]
pub struct AboveSearch<'a, S> {
    pub store: &'a mut S,
    pub solver: &'a mut Solver,
    pub memo: &'a mut AboveMemo,
    pub budget: &'a mut Budget,
    pub rules: PlanRules,
}

/// The vectors of the front of a node with `moves` moves that dominate a target. The budget pays
/// for each node that is entered.
pub fn vectors_above<S: FrontStore>(
    store: &mut S,
    solver: &mut Solver,
    memo: &mut AboveMemo,
    budget: &mut Budget,
    node: &Node,
    moves: u8,
    target: &WinVector,
    rules: PlanRules,
) -> Result<Front, SearchFault>
    requires few_moves { moves ≤ most_moves }
    requires width { length target.now ≡ length node.now.lefts }
    ensures above { IfOk result (AreAbove node.now moves target.now) }
    ensures spent { IsErrOf result SearchFault.Spent
        → budget.old.left < tree_size bridge node.now moves }
    ensures entered { IfOk result (λ _. budget.new.left < budget.old.left) }
    ensures nodes { budget.new.nodes ≡ budget.old.nodes }
    ensures grown { S.grown store.old store.new }
{
    let node = node.copy(memo.alloc())?;
    let mut search = AboveSearch {
        store,
        solver,
        memo,
        budget,
        rules,
    };
    search.visit(node, moves, target, false)
}

// The front of those vectors of a front that dominate the target.
fn part_above(alloc: Global, front: &Front, target: &WinVector) -> Result<Front, AllocError>
    requires { length target.now ≡ front.now.width }
    ensures part { IfOk result (λ part.
        IsPartAbove target.now front.now.vectors part.vectors) }
    ensures width { IfOk result (λ part. part.width ≡ front.now.width) }
{
    let mut part = Front::new(alloc, target.width());
    for vector in front.as_slice().iter() {
        if vector.dominates(*target) {
            part.insert(*vector)?;
        }
    }
    Ok(part)
}

// No vector, for the layouts of a node.
fn no_vectors(alloc: Global, node: &Node) -> Front
    ensures a_node { IsNode node.now }
    ensures width { result.width ≡ length node.now.lefts }
    ensures empty { result.vectors ≡ [] }
{
    Front::new(alloc, node.width())
}

// Whether double dummy makes each layout of the target. If it loses one, no strategy wins a vector
// that dominates the target.
fn makes_each(solver: &mut Solver, node: &Node, target: &WinVector) -> bool
    requires { length target.now ≡ length node.now.lefts }
    ensures a_node { IsNode node.now }
    ensures lost { result ≡ false → Dominates (map makes (states node.now)) target.now → ⊥ }
{
    for place in 0..node.width() {
        if target.get(place) && !solver.makes(node.position(), node.left(place)) {
            return false;
        }
    }
    true
}

// Whether double dummy makes a layout that the vector loses.
fn makes_another(solver: &mut Solver, node: &Node, vector: &WinVector, place: u16) -> bool
    requires within { place < length node.now.lefts }
    requires width { length vector.now ≡ length node.now.lefts }
    ensures { result ≡ false → makes_at node.now place ≡ true
        → slice_index_or vector.now place false ≡ true }
{
    if vector.get(place) {
        return false;
    }
    solver.makes(node.position(), node.left(place))
}

// Whether the vector wins each layout that double dummy makes.
fn wins_all_made(solver: &mut Solver, node: &Node, vector: &WinVector) -> bool
    requires { length vector.now ≡ length node.now.lefts }
    ensures { IsTrue result → Dominates vector.now (map makes (states node.now)) }
{
    for place in 0..node.width() {
        if makes_another(solver, node, vector, place) {
            return false;
        }
    }
    true
}

/// Whether the vector wins each layout that double dummy makes. Without cuts double dummy isn't
/// called, and the answer is no.
pub fn wins_all_made_by(
    solver: &mut Solver,
    rules: CutRules,
    node: &Node,
    vector: &WinVector,
) -> bool
    requires { length vector.now ≡ length node.now.lefts }
    ensures { IsTrue result → Dominates vector.now (map makes (states node.now)) }
{
    rules.bound && wins_all_made(solver, node, vector)
}

// Whether a vector of the front wins each layout that double dummy makes: it is the first one then.
fn is_complete(solver: &mut Solver, rules: CutRules, node: &Node, front: &Front) -> bool
    requires { front.now.width ≡ length node.now.lefts }
    ensures { IsTrue result → Covers front.now.vectors (map makes (states node.now)) }
{
    let Some(first) = front.pick(&WinVector::none(node.width())) else {
        return false;
    };
    wins_all_made_by(solver, rules, node, &first)
}

impl<S: FrontStore> AboveSearch<'_, S> {
    /// Enters a node, for which the budget pays, and finds the vectors of its front that dominate
    /// the target. `made` says that double dummy is known to make each layout of the target.
    #[cycle(above)]
    pub fn visit(&mut self, node: Node, moves: u8, target: &WinVector, made: bool) -> VectorsAbove
        requires few_moves { moves ≤ most_moves }
        requires width { length target.now ≡ length node.lefts }
        ensures above { IfOk result (AreAbove node moves target.now) }
        ensures costs { Costs ⊥ (tree_size bridge node moves) self.old.budget.now.left
            self.new.budget.now.left result }
        ensures same { IsSameAbove S.grown self.old self.new }
        ensures same_store { self.new.store.ghost_name ≡ self.old.store.ghost_name }
        ensures same_budget { self.new.budget.ghost_name ≡ self.old.budget.ghost_name }
    {
        if self.rules.whole_fronts {
            return self.by_shared_front(&node, moves, target);
        }
        if let Some(found) = self.memo.look(&node, moves, target) {
            self.budget.enter()?;
            return Ok(found);
        }
        let found = self.find(&node, moves, target, made)?;
        self.memo.offer(&node, moves, target, &found);
        Ok(found)
    }

    // The same, but without a look at what is kept. After a defender's card double dummy needn't be
    // asked, since a layout that was made is made still.
    #[cycle(above)]
    fn find(&mut self, node: &Node, moves: u8, target: &WinVector, made: bool) -> VectorsAbove
        requires few_moves { moves ≤ most_moves }
        requires width { length target.now ≡ length node.now.lefts }
        ensures above { IfOk result (AreAbove node.now moves target.now) }
        ensures costs { Costs ⊥ (tree_size bridge node.now moves) self.old.budget.now.left
            self.new.budget.now.left result }
        ensures same { IsSameAbove S.grown self.old self.new }
    {
        if !made && self.rules.cuts.bound && !makes_each(self.solver, node, target) {
            self.budget.enter()?;
            return Ok(no_vectors(self.memo.alloc(), node));
        }
        if node.stops(moves) || node.width() == 1 || target.count() == 0 {
            return self.by_whole_front(node, moves, target);
        }
        self.budget.enter()?;
        self.open(node, moves, target)
    }

    // By a whole front, which serves further targets. The store keeps it if it is narrow. The memo
    // keeps a wide one, under a target without ones, which each vector dominates.
    fn by_shared_front(&mut self, node: &Node, moves: u8, target: &WinVector) -> VectorsAbove
        requires few_moves { moves ≤ most_moves }
        requires width { length target.now ≡ length node.now.lefts }
        ensures above { IfOk result (AreAbove node.now moves target.now) }
        ensures costs { Costs ⊥ (tree_size bridge node.now moves) self.old.budget.now.left
            self.new.budget.now.left result }
        ensures same { IsSameAbove S.grown self.old self.new }
    {
        let none = WinVector::none(node.width());
        if let Some(whole) = self.memo.look(node, moves, &none) {
            self.budget.enter()?;
            return Ok(part_above(self.memo.alloc(), &whole, target)?);
        }
        let whole = self.whole_front(node, moves)?;
        if whole.len() > MOST_ENTRY_VECTORS {
            self.memo.offer(node, moves, &none, &whole);
        }
        Ok(part_above(self.memo.alloc(), &whole, target)?)
    }

    // Searches the front and takes its vectors above the target.
    fn by_whole_front(&mut self, node: &Node, moves: u8, target: &WinVector) -> VectorsAbove
        requires few_moves { moves ≤ most_moves }
        requires width { length target.now ≡ length node.now.lefts }
        ensures above { IfOk result (AreAbove node.now moves target.now) }
        ensures costs { Costs ⊥ (tree_size bridge node.now moves) self.old.budget.now.left
            self.new.budget.now.left result }
        ensures same { IsSameAbove S.grown self.old self.new }
    {
        let whole = self.whole_front(node, moves)?;
        Ok(part_above(self.memo.alloc(), &whole, target)?)
    }

    // Searches the front of a node.
    fn whole_front(&mut self, node: &Node, moves: u8) -> VectorsAbove
        requires few_moves { moves ≤ most_moves }
        ensures front { IfOk result (IsFrontAt node.now moves) }
        ensures costs { Costs ⊥ (tree_size bridge node.now moves) self.old.budget.now.left
            self.new.budget.now.left result }
        ensures same { IsSameAbove S.grown self.old self.new }
    {
        let none = Front::new(self.memo.alloc(), node.width());
        match search(
            self.memo.alloc(),
            self.store,
            self.solver,
            self.budget,
            node,
            moves,
            &none,
            self.rules.cuts,
        )? {
            Found::Exact(front) => Ok(front),
            Found::Below => unreachable!(),
        }
    }

    // The front that the store has for a node with `moves` moves, under its key.
    fn known(&mut self, node: &Node, moves: u8) -> Result<Option<Front>, AllocError>
        ensures front { IfOk result (λ front. IfSome front (IsFrontAt node.now moves)) }
        ensures unpaid { self.new.budget.now.left ≡ self.old.budget.now.left }
        ensures same { IsSameAbove S.grown self.old self.new }
    {
        let mut front = Front::new(self.memo.alloc(), node.width());
        front.reserve(MOST_ENTRY_VECTORS)?;
        let key = store_key(self.memo.alloc(), node, self.rules.cuts)?;
        match self.store.look(&key, moves, &mut front) {
            Look::Hit => Ok(Some(front)),
            Look::Miss | Look::Busy => Ok(None),
        }
    }

    // The vectors above the target of a node where play goes on, which is paid for.
    #[cycle(above)]
    fn open(&mut self, node: &Node, moves: u8, target: &WinVector) -> VectorsAbove
        requires few_moves { moves ≤ most_moves }
        requires width { length target.now ≡ length node.now.lefts }
        requires goes_on { stops bridge node.now moves ≡ false }
        ensures above { IfOk result (AreAbove node.now moves target.now) }
        ensures costs { Costs ⊥ (tree_size bridge node.now moves)
            (self.old.budget.now.left + 1) self.new.budget.now.left result }
        ensures same { IsSameAbove S.grown self.old self.new }
    {
        if let Some(front) = self.known(node, moves)? {
            return Ok(part_above(self.memo.alloc(), &front, target)?);
        }
        if node.is_ours() {
            self.at_declarer(node, moves, target)
        } else {
            self.at_defender(node, moves, target)
        }
    }

    // The best of the vectors above the target after each card of declarer's side, each with a
    // move less, until they win all that double dummy makes. The node itself is paid for.
    #[cycle(above)]
    fn at_declarer(&mut self, node: &Node, moves: u8, target: &WinVector) -> VectorsAbove
        requires few_moves { moves ≤ most_moves }
        requires width { length target.now ≡ length node.now.lefts }
        requires goes_on { stops bridge node.now moves ≡ false }
        requires ours { bridge.is_ours node.now ≡ true }
        ensures above { IfOk result (AreAbove node.now moves target.now) }
        ensures costs { Costs ⊥ (tree_size bridge node.now moves)
            (self.old.budget.now.left + 1) self.new.budget.now.left result }
        ensures same { IsSameAbove S.grown self.old self.new }
    {
        let mut front = Front::new(self.memo.alloc(), node.width());
        let mut cards = cards_to_try(node, self.rules.cuts);
        'cards: while let Some(card) = take_highest(&mut cards) {
            let (child, _) = node.child(self.memo.alloc(), card)?;
            let won = self.visit(child, moves - 1, target, false)?;
            front.union(&won)?;
            if is_complete(self.solver, self.rules.cuts, node, &front) {
                return Ok(front);
            }
        }
        Ok(front)
    }

    // The best of all meets of what is won above the target's part after each card of a defender;
    // nothing, as soon as nothing is won there. The node itself is paid for.
    #[cycle(above)]
    fn at_defender(&mut self, node: &Node, moves: u8, target: &WinVector) -> VectorsAbove
        requires few_moves { moves ≤ most_moves }
        requires width { length target.now ≡ length node.now.lefts }
        requires goes_on { stops bridge node.now moves ≡ false }
        requires theirs { bridge.is_ours node.now ≡ false }
        ensures above { IfOk result (AreAbove node.now moves target.now) }
        ensures costs { Costs ⊥ (tree_size bridge node.now moves)
            (self.old.budget.now.left + 1) self.new.budget.now.left result }
        ensures same { IsSameAbove S.grown self.old self.new }
    {
        let mut joiner = Joiner::new(self.memo.alloc(), node.width());
        let mut cards = cards_to_try(node, self.rules.cuts);
        'cards: while let Some(card) = cards.pop_first() {
            let (child, mask) = node.child(self.memo.alloc(), card)?;
            let part = target.restrict(mask);
            let won = self.visit(child, moves, &part, true)?;
            if won.is_empty() {
                return Ok(no_vectors(self.memo.alloc(), node));
            }
            joiner.add(&won, &mask)?;
        }
        Ok(joiner.finish())
    }
}
