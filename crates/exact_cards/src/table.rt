//! The rows of all cards, all moves planned.
ghost use Rattle.std.specs.Prelude.{◌≡◌, true, false, IfOk, length};
ghost use Rattle.trick_rules.specs.Positions.{to_play};
ghost use Rattle.trick_rules.specs.Play.{is_declarers, is_over};
ghost use Rattle.exact_cards.specs.ExactRows.{IsExactTable, AreFinalUnlessSpent};

use crate::rows::{Asked, row_after};
use crate::safest::safest_card;
use alphamu_core::Entered;
use card_brackets::CardRow;
use card_sets::Card;
use dd_solver::Solver;
use fusion_base::per_card_alone;
use set_search::SetMemo;
use std::alloc::{AllocError, Global};
use trick_rules::Node;
use win_vectors::Weights;

/// How many sets of layouts the memo has room for.
const MEMO_SLOTS: usize = 1 << 16;

/// The rows of all legal cards, in card order, all moves planned; what the search of each row
/// entered; and the first of the cards whose `least` is the greatest.
#[derive(Drop)]
pub struct ExactTable {
    pub rows: Vec<CardRow>,
    pub entered: Vec<Entered>,
    pub named: Card,
}

/// The rows of all legal cards of a root at which declarer's side is to play. `least` and `most` are
/// the weight of the layouts that one strategy wins after the card, all moves planned, or enclose
/// it: a row that isn't final has spent its nodes. Each card has a budget of its own of `nodes`
/// nodes. One worker does all the work.
///
/// Errors: an allocation fails.
pub fn exact_table(
    alloc: Global,
    node: &Node,
    weights: &Weights,
    nodes: u64,
) -> Result<ExactTable, AllocError>
    requires ours { is_declarers (to_play node.now.position) ≡ true }
    requires goes_on { is_over node.now.position ≡ false }
    requires weights { length weights.now ≡ length node.now.lefts }
    ensures table { IfOk result (IsExactTable node.now weights.now) }
    ensures spent { IfOk result (AreFinalUnlessSpent nodes) }
{
    let _width = node.width();
    let asked = Asked {
        alloc,
        node,
        weights,
        nodes,
    };
    let believed = per_card_alone(alloc, node)?;
    let mut solver = Solver::new(alloc);
    let mut memo = SetMemo::new(alloc, node, MEMO_SLOTS)?;
    let mut rows = Vec::new(alloc);
    let mut entered = Vec::new(alloc);
    for entry in &believed {
        let found = row_after(&asked, &mut solver, &mut memo, entry)?;
        rows.push(found.row)?;
        entered.push(found.entered)?;
    }
    let named = safest_card(rows.as_slice());
    Ok(ExactTable {
        rows,
        entered,
        named,
    })
}
