//! What is found at a root: over all its cards, or no more than the card to play.
ghost use Rattle.std.specs.Prelude.{◌≡◌, ◌≤◌, ℕ, true, false, IfOk, IsErrOf, length};
ghost use Rattle.trick_rules.specs.Nodes.{most_moves};
ghost use Rattle.strategy_games.specs.Choosing.{IsBestWeight, IsNamedByWeight};
ghost use Rattle.strategy_tree.specs.Bridge.{bridge};
ghost use Rattle.front_table.specs.Proven.{IsFrontAt};
ghost use Rattle.alphamu_core.specs.Costs.{IsWithin};
ghost use Rattle.shared_table.specs.Passes.{IsPassOf};
ghost use Rattle.strategy_tree.specs.RootTrees.{IsSpentAt, IsFirstSpentAt, AllFit};
ghost use Rattle.root_workers.specs.Plain.{IsPlain, HasWorkers};
ghost use Rattle.root_workers.specs.Questions.{IsQuestion, NamesSpent, NamesFirstSpent, FitsIfPlain};
ghost use Rattle.root_workers.specs.Rounds.{HasSeenMore};
ghost use Rattle.root_workers.specs.Reports.{AreReports, course_of};

use crate::crew::{InThreads, RootCrew, searched_in_threads};
use crate::deepening::Rounds;
use crate::question::Question;
use crate::reports::{CardReport, reports};
use crate::workers::{RootWorker, workers_for};
use alphamu_core::Entered;
use am_outside::Gate;
use card_sets::Card;
use cut_rules::Stop;
use pareto_fronts::Front;
use shared_table::{Pass, SharedTable};
use std::alloc::{AllocError, Global};
use std::thread::Threads;
use strategy_tree::RootFault;
use trick_rules::Node;
use win_vectors::Weights;

/// How a root is searched.
#[derive(Clone, Copy, Debug, PartialEq, Eq)]
pub struct Options {
    /// How many nodes the search of each root card may enter.
    pub nodes: u64,
    /// How many workers there are: 1 to 64. Without cuts they share the root cards, one each at most.
    /// With cuts they race after each once the search takes long.
    pub workers: u32,
    /// Whether the searches look into the table.
    pub table: bool,
    /// Whether the searches make cuts.
    pub cuts: bool,
}

/// The front of a root, the card to play, the weight of the layouts that it wins, and what became
/// of each root card, in card order.
#[derive(Drop)]
pub struct RootFront {
    pub front: Front,
    pub card: Card,
    pub weight: u32,
    pub cards: Vec<CardReport>,
    /// The most nodes that one search of a root card entered, in all rounds.
    pub most: Entered,
}

/// The card to play at a root, and the weight of the layouts that it wins.
#[derive(Clone, Copy, Debug, PartialEq, Eq)]
pub struct RootCard {
    pub card: Card,
    pub weight: u32,
    /// The most nodes that one search of a root card entered, in all rounds.
    pub most: Entered,
}

/// The front of a node at which declarer's side is to play, with 1 to 26 moves; the first card
/// after which the best weight is kept; and that weight, by a weight for each of the node's
/// layouts. The workers, the gate, the table and the cuts change none of them.
///
/// Each search of a root card has a budget of its own, of `options.nodes` nodes, and comes between
/// the gate's `enter` and `leave`. With cuts the cards are searched in rounds with 1, 2, .. moves,
/// and a card that the cards before it cover is left. Without cuts each card is searched to its end.
/// The workers are joined, so it may wait.
///
/// `Spent` names a root card whose tree has more nodes; with neither table nor cuts the first such
/// card. If there is one, no answer comes then.
pub fn root_front<R: Threads + Sync, G: Gate>(
    rt: &R,
    alloc: Global,
    node: &Node,
    moves: u8,
    weights: &Weights,
    options: &Options,
    table: &SharedTable,
    pass: &mut Pass,
    gate: &G,
) -> Result<RootFront, RootFault>
    requires ours { bridge.is_ours node.now ≡ true }
    requires goes_on { bridge.is_over node.now ≡ false }
    requires some_moves { 1 ≤ moves }
    requires few_moves { moves ≤ most_moves }
    requires weights { length weights.now ≡ length node.now.lefts }
    requires workers { HasWorkers options.now }
    requires pass { IsPassOf table.now pass.old }
    ensures front { IfOk result (λ root. IsFrontAt node.now moves root.front) }
    ensures card { IfOk result (λ root. IsNamedByWeight bridge weights.now node.now moves
        root.card) }
    ensures weight { IfOk result (λ root. IsBestWeight bridge weights.now node.now moves
        root.weight) }
    ensures cards { IfOk result (λ root. AreReports (course_of node.now moves options.now
        table.now pass.old pass.new) root.cards.items) }
    ensures within { IfOk result (λ root. IsWithin options.now.nodes root.most) }
    ensures fits { IsPlain options.now
        → IfOk result (λ _. AllFit node.now moves options.now.nodes) }
    ensures spent { (card : ℕ) → IsErrOf result (RootFault.Spent card)
        → IsSpentAt node.now moves options.now.nodes card }
    ensures first_spent { IsPlain options.now → (card : ℕ)
        → IsErrOf result (RootFault.Spent card)
        → IsFirstSpentAt node.now moves options.now.nodes card }
    ensures pass { IsPassOf table.now pass.new }
    ensures grown { HasSeenMore pass.old pass.new }
{
    let crew = InThreads {
        rt,
        gate,
        search: searched_in_threads,
    };
    let question = Question {
        alloc,
        node,
        moves,
        weights,
        options,
        table,
    };
    question.front(&crew, pass)
}

/// The card to play at a root, and its weight, as `root_front` names them. It may end earlier,
/// since the front need not be whole.
pub fn root_card<R: Threads + Sync, G: Gate>(
    rt: &R,
    alloc: Global,
    node: &Node,
    moves: u8,
    weights: &Weights,
    options: &Options,
    table: &SharedTable,
    pass: &mut Pass,
    gate: &G,
) -> Result<RootCard, RootFault>
    requires ours { bridge.is_ours node.now ≡ true }
    requires goes_on { bridge.is_over node.now ≡ false }
    requires some_moves { 1 ≤ moves }
    requires few_moves { moves ≤ most_moves }
    requires weights { length weights.now ≡ length node.now.lefts }
    requires workers { HasWorkers options.now }
    requires pass { IsPassOf table.now pass.old }
    ensures card { IfOk result (λ root. IsNamedByWeight bridge weights.now node.now moves
        root.card) }
    ensures weight { IfOk result (λ root. IsBestWeight bridge weights.now node.now moves
        root.weight) }
    ensures within { IfOk result (λ root. IsWithin options.now.nodes root.most) }
    ensures fits { IsPlain options.now
        → IfOk result (λ _. AllFit node.now moves options.now.nodes) }
    ensures spent { (card : ℕ) → IsErrOf result (RootFault.Spent card)
        → IsSpentAt node.now moves options.now.nodes card }
    ensures first_spent { IsPlain options.now → (card : ℕ)
        → IsErrOf result (RootFault.Spent card)
        → IsFirstSpentAt node.now moves options.now.nodes card }
    ensures pass { IsPassOf table.now pass.new }
    ensures grown { HasSeenMore pass.old pass.new }
{
    let crew = InThreads {
        rt,
        gate,
        search: searched_in_threads,
    };
    let question = Question {
        alloc,
        node,
        moves,
        weights,
        options,
        table,
    };
    question.card(&crew, pass)
}

impl Question<'_> {
    /// The workers that the options ask for, or as many as there are root cards, but at least one.
    /// None of them has solved anything. No answer depends on how many they are.
    pub fn workers(&self) -> Result<Vec<RootWorker>, AllocError>
        ensures { IfOk result (λ workers. 1 ≤ length workers.items) }
    {
        workers_for(self.alloc, self.options, self.node)
    }

    /// What `root_front` finds, with a crew that searches root cards beforehand.
    pub fn front<C: RootCrew>(&self, crew: &C, pass: &mut Pass) -> Result<RootFront, RootFault>
        requires ready { C.ready crew.now }
        requires question { IsQuestion self.now }
        requires workers { HasWorkers self.now.options.now }
        requires pass { IsPassOf self.now.table.now pass.old }
        ensures front { IfOk result (λ root. IsFrontAt self.now.node.now self.now.moves
            root.front) }
        ensures card { IfOk result (λ root. IsNamedByWeight bridge self.now.weights.now
            self.now.node.now self.now.moves root.card) }
        ensures weight { IfOk result (λ root. IsBestWeight bridge self.now.weights.now
            self.now.node.now self.now.moves root.weight) }
        ensures cards { IfOk result (λ root. AreReports (course_of self.now.node.now
            self.now.moves self.now.options.now self.now.table.now pass.old pass.new)
            root.cards.items) }
        ensures within { IfOk result (λ root. IsWithin self.now.options.now.nodes root.most) }
        ensures fits { FitsIfPlain self.now result }
        ensures spent { NamesSpent self.now result }
        ensures first_spent { NamesFirstSpent self.now result }
        ensures pass { IsPassOf self.now.table.now pass.new }
        ensures grown { HasSeenMore pass.old pass.new }
    {
        let mut workers = self.workers()?;
        self.front_by(crew, pass, &mut workers)
    }

    /// What `front` finds, by workers who may have solved something before. What they have solved
    /// changes no answer, and they keep what they solve now.
    pub fn front_by<C: RootCrew>(
        &self,
        crew: &C,
        pass: &mut Pass,
        workers: &mut [RootWorker],
    ) -> Result<RootFront, RootFault>
        requires ready { C.ready crew.now }
        requires question { IsQuestion self.now }
        requires pass { IsPassOf self.now.table.now pass.old }
        requires some { 1 ≤ length workers.old }
        ensures front { IfOk result (λ root. IsFrontAt self.now.node.now self.now.moves
            root.front) }
        ensures card { IfOk result (λ root. IsNamedByWeight bridge self.now.weights.now
            self.now.node.now self.now.moves root.card) }
        ensures weight { IfOk result (λ root. IsBestWeight bridge self.now.weights.now
            self.now.node.now self.now.moves root.weight) }
        ensures cards { IfOk result (λ root. AreReports (course_of self.now.node.now
            self.now.moves self.now.options.now self.now.table.now pass.old pass.new)
            root.cards.items) }
        ensures within { IfOk result (λ root. IsWithin self.now.options.now.nodes root.most) }
        ensures fits { FitsIfPlain self.now result }
        ensures spent { NamesSpent self.now result }
        ensures first_spent { NamesFirstSpent self.now result }
        ensures pass { IsPassOf self.now.table.now pass.new }
        ensures grown { HasSeenMore pass.old pass.new }
    {
        let rounds = Rounds {
            crew,
            question: self,
            stop: Stop::SameFront,
        };
        let found = rounds.last(pass, workers)?;
        let cards = reports(self, pass, &found.founds)?;
        Ok(RootFront {
            front: found.front,
            card: found.card,
            weight: found.weight,
            cards,
            most: found.most,
        })
    }

    /// What `root_card` finds, with a crew that searches root cards beforehand.
    pub fn card<C: RootCrew>(&self, crew: &C, pass: &mut Pass) -> Result<RootCard, RootFault>
        requires ready { C.ready crew.now }
        requires question { IsQuestion self.now }
        requires workers { HasWorkers self.now.options.now }
        requires pass { IsPassOf self.now.table.now pass.old }
        ensures card { IfOk result (λ root. IsNamedByWeight bridge self.now.weights.now
            self.now.node.now self.now.moves root.card) }
        ensures weight { IfOk result (λ root. IsBestWeight bridge self.now.weights.now
            self.now.node.now self.now.moves root.weight) }
        ensures within { IfOk result (λ root. IsWithin self.now.options.now.nodes root.most) }
        ensures fits { FitsIfPlain self.now result }
        ensures spent { NamesSpent self.now result }
        ensures first_spent { NamesFirstSpent self.now result }
        ensures pass { IsPassOf self.now.table.now pass.new }
        ensures grown { HasSeenMore pass.old pass.new }
    {
        let mut workers = self.workers()?;
        let rounds = Rounds {
            crew,
            question: self,
            stop: Stop::SameWeight,
        };
        let found = rounds.last(pass, &mut workers)?;
        Ok(RootCard {
            card: found.card,
            weight: found.weight,
            most: found.most,
        })
    }
}
