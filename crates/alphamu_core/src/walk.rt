// The search of αμ: the walk through the tree, fronts from the leaves upward, with cuts.
ghost use Rattle.std.specs.Prelude.{◌≡◌, ◌<◌, ℕ, false, true, length, Contains};
ghost use Rattle.std.specs.Prelude.{IsTrue, IfOk, IsErrOf, IfSome, OnOk, Option};
ghost use Rattle.strategy_games.specs.Plans.{stops};
ghost use Rattle.strategy_tree.specs.Bridge.{bridge};
ghost use Rattle.cut_rules.specs.Rules.{no_cuts};
ghost use Rattle.alphamu_core.specs.Findings.{IsAnswer, IsExactOfWidth};
ghost use Rattle.alphamu_core.specs.Asked.{IsAsked, IsAnswerTo};
ghost use Rattle.trick_rules.specs.Nodes.{child};
ghost use Rattle.alphamu_core.specs.Judging.{IsKnown};
ghost use Rattle.alphamu_core.specs.Kept.{AreEnough};
ghost use Rattle.alphamu_core.specs.Limits.{IsLimit, IsUpperBound, IsUnited, IsReached};
ghost use Rattle.alphamu_core.specs.TreeSearches.{IsSameSearch, Pays, PaysBelow};

use crate::answers::{Answer, Found, RaceFault};
use crate::kept::{cards_to_try, going_first, take_highest, take_in_turn};
use crate::keys::store_key;
use crate::known::Known;
use crate::limits::Limit;
use crate::offers::offer;
use crate::part::{cut_down, fill};
use crate::results::Question;
use crate::tree_search::TreeSearch;
use card_sets::CardSet;
use cut_rules::cut;
use front_join::Joiner;
use front_table::FrontStore;
use pareto_fronts::Front;
use std::alloc::AllocError;
use trick_rules::Node;
use win_vectors::WinVector;

impl<S: FrontStore> TreeSearch<'_, S> {
    /// Enters a node, for which the budget pays, and answers for it, unless another runner of its
    /// race has the answer already.
    #[cycle(walk)]
    pub fn visit(&mut self, node: Node, moves: u8, alpha: &Front, known: Known) -> Answer
        requires width { alpha.now.width ≡ length node.lefts }
        requires known { IsKnown node known }
        ensures answer { IfOk result (IsAnswer node moves alpha.now.vectors self.old.rules) }
        ensures costs { Pays S.blind node moves self.old self.new result }
        ensures late { IsErrOf result RaceFault.Late → 1 < self.old.runner.now.runners }
        ensures same { IsSameSearch S.grown self.old self.new }
        ensures same_store { self.new.store.ghost_name ≡ self.old.store.ghost_name }
        ensures same_budget { self.new.budget.ghost_name ≡ self.old.budget.ghost_name }
    {
        self.budget.enter()?;
        if self.runner.is_late() {
            return Err(RaceFault::Late);
        }
        let question = Question {
            node: &node,
            known,
            alpha,
            rules: self.rules,
            runner: self.runner,
        };
        if node.stops(moves) {
            Ok(question.leaf(self.alloc, self.solver, moves)?)
        } else {
            self.open(&question, moves)
        }
    }

    // Answers for a node where play goes on, which is paid for.
    #[cycle(walk)]
    fn open(&mut self, question: &Question, moves: u8) -> Answer
        requires asked { IsAsked self.old.rules question.now }
        requires goes_on { stops bridge question.now.node.now moves ≡ false }
        ensures answer { IfOk result (IsAnswerTo self.old.rules question.now moves) }
        ensures costs { PaysBelow S.blind question.now.node.now moves self.old self.new result }
        ensures late { IsErrOf result RaceFault.Late → 1 < self.old.runner.now.runners }
        ensures same { IsSameSearch S.grown self.old self.new }
    {
        let key = store_key(self.alloc, question.node, self.rules)?;
        let answer = match self.limit(question, &key, moves)? {
            Limit::Settled(found) => return Ok(found),
            Limit::Upper(made, upper) => self.in_made(question, moves, made, upper),
            Limit::Open => self.by_cards(question, moves, &None),
        };
        offer(self.store, question.node, key, moves, &answer);
        answer
    }

    // Answers by the layouts that double dummy makes: no strategy wins another.
    #[cycle(walk)]
    fn in_made(&mut self, question: &Question, moves: u8, made: WinVector, upper: Front) -> Answer
        requires asked { IsAsked self.old.rules question.now }
        requires goes_on { stops bridge question.now.node.now moves ≡ false }
        requires limit { IsLimit question.now.node.now moves question.now.alpha.now.vectors
            self.old.rules (Limit.Upper made upper) }
        ensures answer { IfOk result (IsAnswerTo self.old.rules question.now moves) }
        ensures costs { PaysBelow S.blind question.now.node.now moves self.old self.new result }
        ensures late { IsErrOf result RaceFault.Late → 1 < self.old.runner.now.runners }
        ensures same { IsSameSearch S.grown self.old self.new }
    {
        let part = cut_down(
            self.alloc,
            question.node,
            moves,
            question.alpha,
            made,
            upper,
        )?;
        let in_part = Question {
            node: &part.node,
            known: Known::AllMade,
            alpha: &part.alpha,
            rules: self.rules,
            runner: self.runner,
        };
        let found = self.by_cards(&in_part, moves, &part.upper)?;
        Ok(fill(self.alloc, found, made)?)
    }

    // Answers by the fronts after the cards.
    #[cycle(walk)]
    fn by_cards(&mut self, question: &Question, moves: u8, upper: &Option<Front>) -> Answer
        requires asked { IsAsked self.old.rules question.now }
        requires goes_on { stops bridge question.now.node.now moves ≡ false }
        requires upper { IfSome upper.now (IsUpperBound question.now.node.now moves) }
        requires none { self.old.rules ≡ no_cuts → upper.now ≡ None }
        ensures answer { IfOk result (IsAnswerTo self.old.rules question.now moves) }
        ensures costs { PaysBelow S.blind question.now.node.now moves self.old self.new result }
        ensures late { IsErrOf result RaceFault.Late → 1 < self.old.runner.now.runners }
        ensures same { IsSameSearch S.grown self.old self.new }
    {
        if question.node.is_ours() {
            self.at_declarer(question, moves, upper)
        } else {
            self.at_defender(question, moves)
        }
    }

    // The best of the fronts after each card of declarer's side, each with a move less, until they
    // cover the upper bound. The node itself is paid for.
    #[cycle(walk)]
    fn at_declarer(&mut self, question: &Question, moves: u8, upper: &Option<Front>) -> Answer
        requires known { IsKnown question.now.node.now question.now.known }
        requires goes_on { stops bridge question.now.node.now moves ≡ false }
        requires ours { bridge.is_ours question.now.node.now ≡ true }
        requires upper { IfSome upper.now (IsUpperBound question.now.node.now moves) }
        requires none { self.old.rules ≡ no_cuts → upper.now ≡ None }
        ensures answer { IfOk result (IsAnswerTo self.old.rules question.now moves) }
        ensures costs { PaysBelow S.blind question.now.node.now moves self.old self.new result }
        ensures late { IsErrOf result RaceFault.Late → 1 < self.old.runner.now.runners }
        ensures same { IsSameSearch S.grown self.old self.new }
    {
        let mut front = Front::new(self.alloc, question.node.width());
        let mut cards = cards_to_try(question.node, self.rules);
        let known = known_after(question, cards);
        'cards: while let Some(card) = take_highest(&mut cards) {
            let (child, _) = question.node.child(self.alloc, card)?;
            let found = self.visit(child, moves - 1, &front, known)?;
            unite(&mut front, &found)?;
            if is_reached(upper, &front) {
                return Ok(Found::Exact(front));
            }
        }
        Ok(Found::Exact(front))
    }

    // The best of all meets of what is won after each card of a defender, until alpha covers them.
    // A layout that is made is made still after the card.
    // The node itself is paid for.
    #[cycle(walk)]
    fn at_defender(&mut self, question: &Question, moves: u8) -> Answer
        requires asked { IsAsked self.old.rules question.now }
        requires goes_on { stops bridge question.now.node.now moves ≡ false }
        requires theirs { bridge.is_ours question.now.node.now ≡ false }
        ensures answer { IfOk result (IsAnswerTo self.old.rules question.now moves) }
        ensures costs { PaysBelow S.blind question.now.node.now moves self.old self.new result }
        ensures late { IsErrOf result RaceFault.Late → 1 < self.old.runner.now.runners }
        ensures same { IsSameSearch S.grown self.old self.new }
    {
        let mut joiner = Joiner::new(self.alloc, question.node.width());
        let mut cards = cards_to_try(question.node, self.rules);
        let first = going_first(self.runner, cards);
        'cards: while let Some(card) = take_in_turn(&mut cards, first) {
            let (child, mask) = question.node.child(self.alloc, card)?;
            let none = Front::new(self.alloc, child.width());
            let won = match self.visit(child, moves, &none, question.known)? {
                Found::Exact(won) => won,
                Found::Below => unreachable!(),
            };
            joiner.add(&won, &mask)?;
            if self.rules.early && cut(joiner.optimistic(), question.alpha) {
                return Ok(Found::Below);
            }
        }
        Ok(Found::Exact(joiner.finish()))
    }
}

// What is known of double dummy's results after each of the cards that declarer's side tries. If
// there is only one, what was made is made still after it.
fn known_after(question: &Question, cards: CardSet) -> Known
    requires ours { bridge.is_ours question.now.node.now ≡ true }
    requires open_result { bridge.is_decided question.now.node.now ≡ false }
    requires known { IsKnown question.now.node.now question.now.known }
    requires enough { AreEnough question.now.node.now cards }
    ensures { (card : ℕ) → Contains cards card
        → IsKnown (child question.now.node.now card) result }
{
    let _width = question.node.width();
    if cards.count() == 1 {
        question.known
    } else {
        Known::Nothing
    }
}

// Leaves the best of the vectors so far and of those that were found.
fn unite(front: &mut Front, found: &Found) -> Result<(), AllocError>
    requires { IsExactOfWidth front.old.width found.now }
    ensures width { front.new.width ≡ front.old.width }
    ensures united { OnOk result (IsUnited found.now front.old.vectors front.new.vectors) }
{
    match found {
        Found::Exact(won) => front.union(won),
        Found::Below => Ok(()),
    }
}

// Whether the front covers the upper bound, so that it can't grow.
fn is_reached(upper: &Option<Front>, front: &Front) -> bool
    requires { IfSome upper.now (λ upper. upper.width ≡ front.now.width) }
    ensures { IsTrue result → IsReached upper.now front.now.vectors }
{
    match upper {
        Some(upper) => cut(upper, front),
        None => false,
    }
}
