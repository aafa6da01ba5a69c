//! The log of a root, in which each card has its own number of nodes.
ghost use Rattle.std.specs.Prelude.{◌≡◌, ◌≤◌, ◌∷◌, [], ℕ, true, false};
ghost use Rattle.std.specs.Prelude.{Contains, IfOk, IsErrOf};
ghost use Rattle.trick_rules.specs.Positions.{to_play};
ghost use Rattle.trick_rules.specs.Play.{is_declarers};
ghost use Rattle.trick_rules.specs.Nodes.{IsNode, stops, choices, child, most_moves};
ghost use Rattle.strategy_tree.specs.Bridge.{bridge};
ghost use Rattle.log_check.specs.Limits.{most_lines};
ghost use Rattle.log_texts.specs.LogText.{IsLogTextFor};
ghost use Rattle.log_maker.specs.Steps.{IsWritten, IsTooLong, IsSameWriter};
ghost use Rattle.strategy_tree.specs.RootTrees.{AllFit, IsFirstSpentAt};

use crate::lines::{line_with, path_after};
use crate::tree::leaf;
use crate::tree_writer::TreeWriter;
use alphamu_core::SearchFault;
use byte_text::Text;
use card_sets::Card;
use dd_solver::Solver;
use log_check::{LineList, Rule};
use log_texts::LogWriter;
use pareto_fronts::Front;
use std::alloc::Global;
use strategy_tree::RootFault;
use trick_rules::{CardLine, Node};

/// The most nodes that a root card may be given. So the lines of thirteen cards can be numbered.
pub const MOST_NODES: u64 = 268_435_456;

/// The text of the log of a node at which declarer's side is to play and a card is left, with 1 to
/// 26 moves of declarer's side. It proves that no strategy wins a vector that the node's front
/// doesn't dominate. No line is kept once it is written, so it takes little more memory than the
/// text.
///
/// The tree after each root card, with a move less, may have `nodes` nodes, at most [`MOST_NODES`].
/// `Spent` comes exactly when one has more, and names the first such card, unless an allocation
/// fails.
pub fn log_of(
    alloc: Global,
    solver: &mut Solver,
    node: &Node,
    moves: u8,
    nodes: u64,
) -> Result<Text, RootFault>
    requires ours { bridge.is_ours node.now ≡ true }
    requires goes_on { bridge.is_over node.now ≡ false }
    requires some_moves { 1 ≤ moves }
    requires few_moves { moves ≤ most_moves }
    requires few_nodes { nodes ≤ MOST_NODES }
    ensures text { IfOk result (IsLogTextFor node.now moves) }
    ensures fits { IfOk result (λ _. AllFit node.now moves nodes) }
    ensures spent { (card : ℕ) → IsErrOf result (RootFault.Spent card)
        → IsFirstSpentAt node.now moves nodes card }
{
    if node.stops(moves) {
        log_where_decided(alloc, solver, node, moves, nodes)
    } else {
        log_by_cards(alloc, solver, node, moves, nodes as u32)
    }
}

// If the result is decided: a leaf. The tree after each card has one node.
fn log_where_decided(
    alloc: Global,
    solver: &mut Solver,
    node: &Node,
    moves: u8,
    nodes: u64,
) -> Result<Text, RootFault>
    requires some_moves { 1 ≤ moves }
    requires stops { stops node.now moves ≡ true }
    ensures text { IfOk result (IsLogTextFor node.now moves) }
    ensures fits { IfOk result (λ _. AllFit node.now moves nodes) }
    ensures spent { (card : ℕ) → IsErrOf result (RootFault.Spent card)
        → IsFirstSpentAt node.now moves nodes card }
{
    let mut cards = node.choices();
    if let Some(card) = cards.pop_first() {
        if nodes == 0 {
            return Err(RootFault::Spent(card));
        }
    }
    let (line, _) = leaf(alloc, solver, node, moves, CardLine::new())?;
    let mut log = LogWriter::new(alloc)?;
    log.push(alloc, &line)?;
    let text = log.finish()?;
    Ok(text)
}

// If it is open: the lines after each card, and a union of them.
fn log_by_cards(
    alloc: Global,
    solver: &mut Solver,
    node: &Node,
    moves: u8,
    nodes: u32,
) -> Result<Text, RootFault>
    requires ours { is_declarers (to_play node.now.position) ≡ true }
    requires goes_on { stops node.now moves ≡ false }
    requires few_nodes { nodes ≤ MOST_NODES }
    ensures text { IfOk result (IsLogTextFor node.now moves) }
    ensures fits { IfOk result (λ _. AllFit node.now moves nodes) }
    ensures spent { (card : ℕ) → IsErrOf result (RootFault.Spent card)
        → IsFirstSpentAt node.now moves nodes card }
{
    let mut log = LogWriter::new(alloc)?;
    let mut front = Front::new(alloc, node.width());
    let mut from = LineList::new(alloc);
    let mut cards = node.choices();
    'cards: while let Some(card) = cards.pop_first() {
        let limit = log.len() + nodes;
        let mut writer = TreeWriter {
            alloc,
            solver,
            log: &mut log,
            limit,
        };
        let won = writer.write_after(node, card, moves - 1)?;
        front.union(&won)?;
        from.push(log.len())?;
    }
    let line = line_with(alloc, Rule::Union, CardLine::new(), moves, from, &front)?;
    log.push(alloc, &line)?;
    let text = log.finish()?;
    Ok(text)
}

impl TreeWriter<'_> {
    // The lines after a root card, with `moves` moves left.
    fn write_after(&mut self, node: &Node, card: Card, moves: u8) -> Result<Front, RootFault>
        requires a_node { IsNode node.now }
        requires card { Contains (choices node.now) card }
        requires limit { self.old.limit ≤ most_lines }
        ensures written { IfOk result
            (IsWritten (child node.now card) moves (card ∷ []) self.old self.new) }
        ensures spent { (other : ℕ) → IsErrOf result (RootFault.Spent other)
            → (other ≡ card) × IsTooLong (child node.now card) moves self.old }
        ensures same { IsSameWriter self.old self.new }
    {
        let (child, _) = node.child(self.alloc, card)?;
        let behind = path_after(&CardLine::new(), card);
        match self.write_node(&child, moves, behind) {
            Ok(front) => Ok(front),
            Err(SearchFault::Spent) => Err(RootFault::Spent(card)),
            Err(SearchFault::Memory) => Err(RootFault::Memory),
        }
    }
}
