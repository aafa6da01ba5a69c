//! What is known of one card.
ghost use Rattle.std.specs.Prelude.{◌≡◌, ◌⊎◌, true, IfOk, length};
ghost use Rattle.card_sets.specs.SetWords.{has_card};
ghost use Rattle.trick_rules.specs.Positions.{to_play};
ghost use Rattle.trick_rules.specs.Play.{is_declarers};
ghost use Rattle.trick_rules.specs.Nodes.{choices};
ghost use Rattle.fusion_base.specs.Sampling.{made_after};
ghost use Rattle.set_search.specs.Values.{IsBracket};
ghost use Rattle.exact_cards.specs.ExactRows.{moves_after, IsExactRow, IsFinalUnlessSpent};

use alphamu_core::{Budget, Entered, SearchFault};
use card_brackets::CardRow;
use card_sets::Card;
use dd_solver::Solver;
use fusion_base::CardVector;
use set_search::{Order, SetMemo, SetQuestion, SetSearch, SetValue};
use std::alloc::{AllocError, Global};
use trick_rules::{MOST_MOVES, Node};
use win_vectors::Weights;

/// What is asked of a root: the weights of its layouts, and how many nodes the search of one card
/// may enter.
#[derive(Drop)]
pub struct Asked<'a> {
    pub alloc: Global,
    pub node: &'a Node,
    pub weights: &'a Weights,
    pub nodes: u64,
}

/// The row of a card, and what its search entered.
#[derive(Drop)]
pub struct SearchedRow {
    pub row: CardRow,
    pub entered: Entered,
}

// How much one strategy can win after a card, and what the search entered.
#[derive(Drop)]
struct SearchedValue {
    value: SetValue,
    entered: Entered,
}

// How much one strategy can win after a card. `child` is the node after it.
fn value_after(
    asked: &Asked,
    solver: &mut Solver,
    memo: &mut SetMemo,
    child: &Node,
) -> Result<SearchedValue, AllocError>
    requires weights { length asked.now.weights.now ≡ length child.now.lefts }
    requires memo { memo.old ≡ child.now.lefts }
    ensures bracket { IfOk result (λ found. IsBracket child.now moves_after
        asked.now.weights.now found.value.won found.value.least found.value.most) }
    ensures spent { IfOk result (λ found. (found.value.least ≡ found.value.most)
        ⊎ (found.entered.count ≡ asked.now.nodes)) }
    ensures budget { IfOk result (λ found. found.entered.nodes ≡ asked.now.nodes) }
    ensures memo { memo.new ≡ memo.old }
{
    let question = SetQuestion {
        node: child,
        moves: MOST_MOVES - 1,
        weights: asked.weights,
        order: Order::Weight,
    };
    let mut budget = Budget::new(asked.nodes);
    let mut search = SetSearch {
        solver,
        budget: &mut budget,
        memo,
    };
    match search.value(asked.alloc, &question) {
        Ok(value) => Ok(SearchedValue {
            value,
            entered: budget.entered(),
        }),
        Err(SearchFault::Memory) => Err(AllocError),
        Err(SearchFault::Spent) => unreachable!(),
    }
}

// The row of a card, by how much one strategy can win after it and what sampling believes.
fn row_of(card: Card, value: &SetValue, sampled: u32) -> CardRow
    ensures card { result.card ≡ card }
    ensures vector { result.vector ≡ value.now.won }
    ensures most { result.most ≡ value.now.most }
    ensures least { result.least ≡ value.now.least }
    ensures sampled { result.sampled ≡ sampled }
{
    CardRow {
        card,
        vector: value.won,
        most: value.most,
        least: value.least,
        sampled,
    }
}

/// The row of a card, of which sampling believes this. The memo is one of the root's layouts: a card
/// of declarer's side leaves each layout its number.
///
/// Errors: an allocation fails.
pub fn row_after(
    asked: &Asked,
    solver: &mut Solver,
    memo: &mut SetMemo,
    believed: &CardVector,
) -> Result<SearchedRow, AllocError>
    requires ours { is_declarers (to_play asked.now.node.now.position) ≡ true }
    requires weights { length asked.now.weights.now ≡ length asked.now.node.now.lefts }
    requires card { has_card (choices asked.now.node.now) believed.now.card ≡ true }
    requires believed { believed.now.vector ≡ made_after asked.now.node.now believed.now.card }
    requires memo { memo.old ≡ asked.now.node.now.lefts }
    ensures row { IfOk result (λ found. IsExactRow asked.now.node.now asked.now.weights.now
        believed.now.card found.row) }
    ensures spent { IfOk result (λ found.
        IsFinalUnlessSpent asked.now.nodes found.row found.entered) }
    ensures memo { memo.new ≡ memo.old }
{
    let _width = asked.node.width();
    let (child, _) = asked.node.child(asked.alloc, believed.card)?;
    let found = value_after(asked, solver, memo, &child)?;
    let sampled = asked.weights.total(believed.vector);
    let row = row_of(believed.card, &found.value, sampled);
    Ok(SearchedRow {
        row,
        entered: found.entered,
    })
}
