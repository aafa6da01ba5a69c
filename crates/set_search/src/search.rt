//! Whether a set of layouts is winnable.
ghost use Rattle.std.specs.Prelude.{◌≡◌, true, false, length, IfOk};
ghost use Rattle.trick_rules.specs.Positions.{to_play};
ghost use Rattle.trick_rules.specs.Play.{is_declarers};
ghost use Rattle.win_vectors.specs.Fronts.{Dominates};
ghost use Rattle.set_memo.specs.Known.{IsVerdictAt};
ghost use Rattle.set_nodes.specs.SetNodes.{node_at, AreLayoutsAt};
ghost use Rattle.set_search.specs.Judged.{stops_here, AreAllMade};
ghost use Rattle.set_search.specs.Verdicts.{IsSetVerdict};
ghost use Rattle.set_search.specs.Walks.{Pays, PaysBelow};

use crate::card_order::{counts_of, take_highest, take_widest};
use crate::judge::{lost_layout, stops};
use crate::legal_sets::{legal_sets, of_card};
use crate::neighbours::{has_answered_neighbour, own_cards};
use crate::open_cards::open_cards;
use alphamu_core::{Budget, SearchFault};
use card_sets::CardSet;
use dd_solver::Solver;
use set_memo::{SetMemo, Verdict};
use set_nodes::only;
use trick_rules::{Node, Position, play};
use win_vectors::WinVector;

/// What a search for one strategy works with: double dummy, a budget that pays for each position
/// that is entered, and a memo of what was found at positions of the same root.
#[derive(Drop)]
pub struct SetSearch<'a> {
    pub solver: &'a mut Solver,
    pub budget: &'a mut Budget,
    pub memo: &'a mut SetMemo,
}

impl SetSearch<'_> {
    /// Whether one strategy with `moves` moves of declarer's side wins each layout of a set, which
    /// has a 1 at each of its layouts; or a core in it. With more moves than declarer's side has
    /// cards left, all is planned. The memo is one of the same layouts.
    ///
    /// Errors: `Spent` if the budget has nothing left to pay with.
    pub fn is_winnable(
        &mut self,
        node: &Node,
        moves: u8,
        set: WinVector,
    ) -> Result<Verdict, SearchFault>
        requires width { length set ≡ length node.now.lefts }
        requires memo { self.old.memo.now ≡ node.now.lefts }
        ensures verdict { IfOk result (IsSetVerdict node.now moves set) }
        ensures pays { Pays self.old.budget.now self.new.budget.now result }
        ensures memo { self.new.memo.now ≡ node.now.lefts }
        ensures same_budget { self.new.budget.ghost_name ≡ self.old.budget.ghost_name }
        ensures same_solver { self.new.solver.ghost_name ≡ self.old.solver.ghost_name }
        ensures same_memo { self.new.memo.ghost_name ≡ self.old.memo.ghost_name }
    {
        let layouts = node.lefts();
        if set.count() == 0 {
            self.budget.enter()?;
            return Ok(Verdict::Won);
        }
        self.ask(layouts, node.position(), moves, set)
    }

    // The verdict on the layouts of a set at a position. The list has Left's hands at the root, which
    // number the layouts. A layout that double dummy loses is a core by itself.
    fn ask(
        &mut self,
        layouts: &[CardSet],
        position: &Position,
        moves: u8,
        set: WinVector,
    ) -> Result<Verdict, SearchFault>
        requires layouts { AreLayoutsAt layouts.now position.now set }
        requires memo { self.old.memo.now ≡ layouts.now }
        ensures verdict { IfOk result (IsVerdictAt layouts.now position.now moves set) }
        ensures pays { Pays self.old.budget.now self.new.budget.now result }
        ensures memo { self.new.memo.now ≡ layouts.now }
        ensures same_budget { self.new.budget.ghost_name ≡ self.old.budget.ghost_name }
        ensures same_solver { self.new.solver.ghost_name ≡ self.old.solver.ghost_name }
        ensures same_memo { self.new.memo.ghost_name ≡ self.old.memo.ghost_name }
    {
        if let Some(place) = lost_layout(self.solver, layouts, position, set) {
            self.budget.enter()?;
            return Ok(Verdict::Core(only(set.width(), place)));
        }
        self.search(layouts, position, moves, set)
    }

    // The same where double dummy makes each layout of the set.
    #[cycle(walk)]
    fn search(
        &mut self,
        layouts: &[CardSet],
        position: &Position,
        moves: u8,
        set: WinVector,
    ) -> Result<Verdict, SearchFault>
        requires layouts { AreLayoutsAt layouts.now position.now set }
        requires made { AreAllMade (node_at layouts.now position.now set) }
        requires memo { self.old.memo.now ≡ layouts.now }
        ensures verdict { IfOk result (IsVerdictAt layouts.now position.now moves set) }
        ensures pays { Pays self.old.budget.now self.new.budget.now result }
        ensures memo { self.new.memo.now ≡ layouts.now }
        ensures same_budget { self.new.budget.ghost_name ≡ self.old.budget.ghost_name }
        ensures same_solver { self.new.solver.ghost_name ≡ self.old.solver.ghost_name }
        ensures same_memo { self.new.memo.ghost_name ≡ self.old.memo.ghost_name }
    {
        self.budget.enter()?;
        if set.count() == 1 || stops(position, moves) {
            return Ok(Verdict::Won);
        }
        if let Some(known) = self.memo.look(position, moves, set) {
            return Ok(known);
        }
        let verdict = self.by_turn(layouts, position, moves, set)?;
        self.memo.offer(position, moves, set, &verdict);
        Ok(verdict)
    }

    // The same where play goes on. The position itself is paid for.
    #[cycle(walk)]
    fn by_turn(
        &mut self,
        layouts: &[CardSet],
        position: &Position,
        moves: u8,
        set: WinVector,
    ) -> Result<Verdict, SearchFault>
        requires layouts { AreLayoutsAt layouts.now position.now set }
        requires made { AreAllMade (node_at layouts.now position.now set) }
        requires memo { self.old.memo.now ≡ layouts.now }
        requires goes_on { stops_here position.now moves ≡ false }
        ensures verdict { IfOk result (IsVerdictAt layouts.now position.now moves set) }
        ensures pays { PaysBelow self.old.budget.now self.new.budget.now result }
        ensures memo { self.new.memo.now ≡ layouts.now }
        ensures same_budget { self.new.budget.ghost_name ≡ self.old.budget.ghost_name }
        ensures same_solver { self.new.solver.ghost_name ≡ self.old.solver.ghost_name }
        ensures same_memo { self.new.memo.ghost_name ≡ self.old.memo.ghost_name }
    {
        if position.is_ours() {
            self.by_card(layouts, position, moves, set)
        } else {
            self.by_reply(layouts, position, moves, set)
        }
    }

    // The same at declarer's turn, by the cards after which each layout is made still, one after the
    // other.
    #[cycle(walk)]
    fn by_card(
        &mut self,
        layouts: &[CardSet],
        position: &Position,
        moves: u8,
        set: WinVector,
    ) -> Result<Verdict, SearchFault>
        requires layouts { AreLayoutsAt layouts.now position.now set }
        requires memo { self.old.memo.now ≡ layouts.now }
        requires goes_on { stops_here position.now moves ≡ false }
        requires ours { is_declarers (to_play position.now) ≡ true }
        ensures verdict { IfOk result (IsVerdictAt layouts.now position.now moves set) }
        ensures pays { PaysBelow self.old.budget.now self.new.budget.now result }
        ensures memo { self.new.memo.now ≡ layouts.now }
        ensures same_budget { self.new.budget.ghost_name ≡ self.old.budget.ghost_name }
        ensures same_solver { self.new.solver.ghost_name ≡ self.old.solver.ghost_name }
        ensures same_memo { self.new.memo.ghost_name ≡ self.old.memo.ghost_name }
    {
        let tried = own_cards(position);
        let first = self.memo.settling_card(position, moves);
        let open = open_cards(self.solver, layouts, position, set, tried);
        let mut cards = open.cards;
        let mut core = open.core;
        'cards: while let Some(card) = take_highest(&mut cards, first) {
            let after = play(position, card);
            match self.core_first(layouts, &after, moves - 1, set, core)? {
                Verdict::Won => {
                    self.memo.keep_card(position, moves, card);
                    return Ok(Verdict::Won);
                }
                Verdict::Core(lost) => core = core.either(lost),
            }
        }
        Ok(Verdict::Core(core))
    }

    // The verdict on a set after a card of declarer's side. It asks for the core so far first: if that
    // is lost, the card adds nothing to it.
    #[cycle(walk)]
    fn core_first(
        &mut self,
        layouts: &[CardSet],
        after: &Position,
        moves: u8,
        set: WinVector,
        core: WinVector,
    ) -> Result<Verdict, SearchFault>
        requires layouts { AreLayoutsAt layouts.now after.now set }
        requires made { AreAllMade (node_at layouts.now after.now set) }
        requires core { Dominates set core }
        requires memo { self.old.memo.now ≡ layouts.now }
        ensures verdict { IfOk result (IsVerdictAt layouts.now after.now moves set) }
        ensures pays { PaysBelow self.old.budget.now self.new.budget.now result }
        ensures memo { self.new.memo.now ≡ layouts.now }
        ensures same_budget { self.new.budget.ghost_name ≡ self.old.budget.ghost_name }
        ensures same_solver { self.new.solver.ghost_name ≡ self.old.solver.ghost_name }
        ensures same_memo { self.new.memo.ghost_name ≡ self.old.memo.ghost_name }
    {
        if core.count() > 1 {
            if let Verdict::Core(lost) = self.search(layouts, after, moves, core)? {
                return Ok(Verdict::Core(lost));
            }
        }
        self.search(layouts, after, moves, set)
    }

    // The same at a defender's turn, by the cards that he may play one after the other, those that are
    // legal in most layouts first.
    #[cycle(walk)]
    fn by_reply(
        &mut self,
        layouts: &[CardSet],
        position: &Position,
        moves: u8,
        set: WinVector,
    ) -> Result<Verdict, SearchFault>
        requires layouts { AreLayoutsAt layouts.now position.now set }
        requires made { AreAllMade (node_at layouts.now position.now set) }
        requires memo { self.old.memo.now ≡ layouts.now }
        requires goes_on { stops_here position.now moves ≡ false }
        requires theirs { is_declarers (to_play position.now) ≡ false }
        ensures verdict { IfOk result (IsVerdictAt layouts.now position.now moves set) }
        ensures pays { PaysBelow self.old.budget.now self.new.budget.now result }
        ensures memo { self.new.memo.now ≡ layouts.now }
        ensures same_budget { self.new.budget.ghost_name ≡ self.old.budget.ghost_name }
        ensures same_solver { self.new.solver.ghost_name ≡ self.old.solver.ghost_name }
        ensures same_memo { self.new.memo.ghost_name ≡ self.old.memo.ghost_name }
    {
        let legal = legal_sets(layouts, position, set);
        let counts = counts_of(&legal);
        let first = self.memo.settling_card(position, moves);
        let mut cards = position.unseen;
        'cards: while let Some(card) = take_widest(&mut cards, &counts, first) {
            let kept = of_card(&legal, card);
            if kept.count() == 0 {
                continue;
            }
            if has_answered_neighbour(&legal, position, cards, card) {
                continue;
            }
            if let Verdict::Core(lost) = self.search(layouts, &play(position, card), moves, kept)? {
                self.memo.keep_card(position, moves, card);
                return Ok(Verdict::Core(lost));
            }
        }
        Ok(Verdict::Won)
    }
}
