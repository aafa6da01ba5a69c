//! The chosen plan as text, from the root to the leaves.
ghost use Rattle.std.specs.Prelude.{◌≡◌, ◌<◌, ◌≤◌, [], ℕ, true, false, OnOk, IfOk, IfSome, IsErrOf};
ghost use Rattle.trick_rules.specs.Nodes.{IsNode, most_moves};
ghost use Rattle.strategy_games.specs.Plans.{stops, tree_size};
ghost use Rattle.strategy_tree.specs.Bridge.{bridge};
ghost use Rattle.alphamu_core.specs.Costs.{IsWithin};
ghost use Rattle.plan_finder.specs.PlanSearches.{IsSameSearch};
ghost use Rattle.plan_finder.specs.Targets.{IsOfFront};
ghost use Rattle.plan_finder.specs.SpentPlans.{IsPlanSpentAt};
ghost use Rattle.plan_finder.specs.Written.{IsPlanWritten, AreRepliesWritten};

use crate::choice::{at_card, without_card};
use crate::plan_lines::{push_hear, push_on, push_play, push_stop};
use crate::rules::PlanRules;
use crate::searches::PlanSearch;
use crate::wanted::Wanted;
use crate::writer::PlanWriter;
use alphamu_core::{Entered, SearchFault};
use dd_solver::Solver;
use front_table::FrontStore;
use strategy_tree::RootFault;
use trick_rules::Node;
use win_vectors::WinVector;

impl PlanWriter {
    /// Adds the lines of the plan that `plan_for` gives for a target. What was written before, for
    /// vectors of this front or of others, is copied in place of a search. Refused as `plan_for`
    /// is; some of the lines may be written then.
    ///
    /// The answer is the most nodes that a search for the plan entered, if there was a search.
    pub fn push_plan<S: FrontStore>(
        &mut self,
        store: &mut S,
        solver: &mut Solver,
        wanted: &Wanted<'_>,
    ) -> Result<Option<Entered>, RootFault>
        requires ours { bridge.is_ours wanted.now.node.now ≡ true }
        requires a_move { 1 ≤ wanted.now.moves }
        requires few_moves { wanted.now.moves ≤ most_moves }
        requires target { IsOfFront wanted.now.node.now wanted.now.moves wanted.now.target.now }
        ensures plan { OnOk result (IsPlanWritten wanted.now.node.now wanted.now.moves
            wanted.now.target.now self.old self.new) }
        ensures within { IfOk result (λ most. IfSome most (IsWithin wanted.now.nodes)) }
        ensures spent { (card : ℕ) → IsErrOf result (RootFault.Spent card)
            → IsPlanSpentAt wanted.now.node.now wanted.now.moves wanted.now.target.now
            wanted.now.nodes card }
        ensures grown { S.grown store.old store.new }
    {
        let mut memo = self.take_memo();
        let mut search = PlanSearch {
            store,
            solver,
            memo: &mut memo,
            nodes: wanted.nodes,
            rules: PlanRules::new(wanted.cuts, self.whole_fronts()),
        };
        let most = search.write_root(self, wanted.node, wanted.moves, wanted.target);
        self.put_memo(memo);
        most
    }
}

impl<S: FrontStore> PlanSearch<'_, S> {
    // The plan for a vector of the root's front. If a search is spent, the fault names the root
    // card that it came after.
    fn write_root(
        &mut self,
        out: &mut PlanWriter,
        node: &Node,
        moves: u8,
        target: &WinVector,
    ) -> Result<Option<Entered>, RootFault>
        requires ours { bridge.is_ours node.now ≡ true }
        requires a_move { 1 ≤ moves }
        requires few_moves { moves ≤ most_moves }
        requires target { IsOfFront node.now moves target.now }
        ensures plan { OnOk result (IsPlanWritten node.now moves target.now out.old out.new) }
        ensures within { IfOk result (λ most. IfSome most (IsWithin self.old.nodes)) }
        ensures spent { (card : ℕ) → IsErrOf result (RootFault.Spent card)
            → IsPlanSpentAt node.now moves target.now self.old.nodes card }
        ensures same { IsSameSearch S.grown self.old self.new }
        ensures same_store { self.new.store.ghost_name ≡ self.old.store.ghost_name }
    {
        if node.stops(moves) {
            push_stop(out)?;
            return Ok(None);
        }
        prove!(target.width() == node.width());
        let first = self.first_choice(node, moves, target)?;
        push_play(out, first.card)?;
        match self.write_below(out, &first.child, moves - 1, &first.vector) {
            Ok(most) => Ok(Some(first.most.larger(most))),
            Err(fault) => Err(at_card(fault, first.card)),
        }
    }

    // The plan for a vector of the front of any node.
    #[cycle(write)]
    fn write_below(
        &mut self,
        out: &mut PlanWriter,
        node: &Node,
        moves: u8,
        vector: &WinVector,
    ) -> Result<Option<Entered>, SearchFault>
        requires few_moves { moves ≤ most_moves }
        requires a_node { IsNode node.now }
        requires vector { IsOfFront node.now moves vector.now }
        ensures plan { OnOk result (IsPlanWritten node.now moves vector.now out.old out.new) }
        ensures within { IfOk result (λ most. IfSome most (IsWithin self.old.nodes)) }
        ensures spent { IsErrOf result SearchFault.Spent
            → self.old.nodes < tree_size bridge node.now moves }
        ensures same { IsSameSearch S.grown self.old self.new }
    {
        if node.stops(moves) {
            push_stop(out)?;
            return Ok(None);
        }
        if node.is_ours() {
            return self.write_remembered(out, node, moves, vector);
        }
        push_hear(out, self.memo.alloc(), node.choices().count())?;
        self.write_replies(out, node, moves, vector)
    }

    // The plan for a vector of the front of a node where declarer's side plays, copied if it was
    // written before.
    #[cycle(write)]
    fn write_remembered(
        &mut self,
        out: &mut PlanWriter,
        node: &Node,
        moves: u8,
        vector: &WinVector,
    ) -> Result<Option<Entered>, SearchFault>
        requires few_moves { moves ≤ most_moves }
        requires a_node { IsNode node.now }
        requires goes_on { stops bridge node.now moves ≡ false }
        requires ours { bridge.is_ours node.now ≡ true }
        requires vector { IsOfFront node.now moves vector.now }
        ensures plan { OnOk result (IsPlanWritten node.now moves vector.now out.old out.new) }
        ensures within { IfOk result (λ most. IfSome most (IsWithin self.old.nodes)) }
        ensures spent { IsErrOf result SearchFault.Spent
            → self.old.nodes < tree_size bridge node.now moves }
        ensures same { IsSameSearch S.grown self.old self.new }
    {
        if out.push_again(node, moves, vector)? {
            return Ok(None);
        }
        let start = out.len();
        let most = self.write_play(out, node, moves, vector)?;
        out.remember(node, moves, vector, start)?;
        Ok(most)
    }

    // The first card that keeps the vector, and the plan after it.
    #[cycle(write)]
    fn write_play(
        &mut self,
        out: &mut PlanWriter,
        node: &Node,
        moves: u8,
        vector: &WinVector,
    ) -> Result<Option<Entered>, SearchFault>
        requires few_moves { moves ≤ most_moves }
        requires a_node { IsNode node.now }
        requires goes_on { stops bridge node.now moves ≡ false }
        requires ours { bridge.is_ours node.now ≡ true }
        requires vector { IsOfFront node.now moves vector.now }
        ensures plan { OnOk result (IsPlanWritten node.now moves vector.now out.old out.new) }
        ensures within { IfOk result (λ most. IfSome most (IsWithin self.old.nodes)) }
        ensures spent { IsErrOf result SearchFault.Spent
            → self.old.nodes < tree_size bridge node.now moves }
        ensures same { IsSameSearch S.grown self.old self.new }
    {
        let first = match self.first_choice(node, moves, vector) {
            Ok(first) => first,
            Err(fault) => return Err(without_card(fault)),
        };
        push_play(out, first.card)?;
        let below = self.write_below(out, &first.child, moves - 1, &first.vector)?;
        Ok(Some(first.most.larger(below)))
    }

    // A plan for each card of a defender, behind the line of the card.
    #[cycle(write)]
    fn write_replies(
        &mut self,
        out: &mut PlanWriter,
        node: &Node,
        moves: u8,
        vector: &WinVector,
    ) -> Result<Option<Entered>, SearchFault>
        requires few_moves { moves ≤ most_moves }
        requires a_node { IsNode node.now }
        requires goes_on { stops bridge node.now moves ≡ false }
        requires theirs { bridge.is_ours node.now ≡ false }
        requires vector { IsOfFront node.now moves vector.now }
        ensures replies { OnOk result
            (AreRepliesWritten node.now moves vector.now [] out.old out.new) }
        ensures within { IfOk result (λ most. IfSome most (IsWithin self.old.nodes)) }
        ensures spent { IsErrOf result SearchFault.Spent
            → self.old.nodes < tree_size bridge node.now moves }
        ensures same { IsSameSearch S.grown self.old self.new }
    {
        let mut most = None;
        let mut cards = node.choices();
        'cards: while let Some(card) = cards.pop_first() {
            let (child, mask) = node.child(self.memo.alloc(), card)?;
            let part = vector.restrict(mask);
            let picked = self.pick_kept(&child, moves, &part)?;
            let above = picked.vector.unwrap();
            push_on(out, card)?;
            let below = self.write_below(out, &child, moves, &above)?;
            most = Some(picked.entered.larger(most).larger(below));
        }
        Ok(most)
    }
}
