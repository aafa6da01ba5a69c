//! A strategy played out in one layout.
ghost use Rattle.std.specs.Prelude.{◌≡◌, ◌≤◌, ◌-◌, ◌==◌, true, false, Option, Some, IfOk, IfSome, map, length, option_map, slice_get};
ghost use Rattle.trick_rules.specs.Positions.{State, IsState};
ghost use Rattle.trick_rules.specs.Play.{is_declarers, is_over, legal_in};
ghost use Rattle.trick_rules.specs.Nodes.{states};
ghost use Rattle.strategy_games.specs.Plans.{Fits, wins};
ghost use Rattle.strategy_tree.specs.Bridge.{bridge};
ghost use Rattle.strategy_tree.specs.PlanMeaning.{plan_of};
ghost use Rattle.strategy_check.specs.Following.{CanFollow};
ghost use Rattle.am_match.specs.Defences.{IsChange, sitter, change_at, table_at, tell_table};
ghost use Rattle.am_match.specs.PlayOuts.{Follows, IsNext, state_after};

use crate::defender::Defender;
use crate::following::{card_by_plan, rest_after};
use crate::seats::{Swap, defenders_card, seat_if_due, tell_both};
use card_sets::{Card, CardSet};
use dd_solver::Solver;
use std::alloc::AllocError;
use strategy_tree::Plan;
use trick_rules::{CardLine, Node, Position, play};

/// What came of a play-out.
#[derive(Debug, Drop)]
pub struct PlayOut {
    /// The cards in the order of play.
    pub cards: CardLine,
    /// Whether declarer's side took the tricks that it needed.
    pub made: bool,
}

// The card that is played next: by the plan, or by the defender who sits there.
fn next_card(
    solver: &mut Solver,
    plan: &Plan,
    position: &Position,
    left: CardSet,
    layout: u16,
    table: &mut Vec<Box<dyn Defender>>,
) -> Card
    requires follow { CanFollow (plan_of plan.now)
        (record { position = position.now; left = left }) }
    requires going_on { is_over position.now ≡ false }
    requires seats { 2 ≤ length table.old.items }
    ensures next { IsNext (plan_of plan.now) (record { position = position.now; left = left })
        (map (λ d. sitter (style d) (heard d)) table.old.items) result }
    ensures same { map (λ d. sitter (style d) (heard d)) table.new.items
        ≡ map (λ d. sitter (style d) (heard d)) table.old.items }
    ensures length { length table.new.items ≡ length table.old.items }
{
    if position.is_ours() {
        card_by_plan(solver, plan, position, left)
    } else {
        let hand = position.hand(position.to_play(), left);
        defenders_card(table, position, hand, layout)
    }
}

/// Plays a strategy in one layout of a node, from there to the end.
///
/// The layout is a place in the node's order, counted from 1. Declarer's side plays the cards of
/// the plan, and after the plan has stopped the first legal card that keeps what double dummy
/// makes. The table's first defender sits at Left and its second at Right, and both hear each card
/// after it is played. Before the card of a swap's number, the swap's defender takes the seat and
/// hears the cards so far; a swap that comes too late is not made.
///
/// A layout that the plan wins is made, whoever the defenders are. The call fails only if an
/// allocation fails in a defender who hears a card.
pub fn play_out(
    solver: &mut Solver,
    plan: &Plan,
    node: &Node,
    moves: u8,
    layout: u16,
    table: &mut Vec<Box<dyn Defender>>,
    swap: Option<Swap>,
) -> Result<PlayOut, AllocError>
    requires fits { Fits bridge (plan_of plan.now) node.now moves }
    requires first { 1 ≤ layout }
    requires last { layout ≤ length node.now.lefts }
    requires seats { 2 ≤ length table.old.items }
    requires change { IfSome (option_map (λ swap. change_at swap.at swap.seat
        (sitter (style swap.defender) (heard swap.defender))) swap) IsChange }
    ensures follows { IfOk result (λ played. (s : State)
        → slice_get (states node.now) (layout - 1) ≡ Some s
        → Follows (plan_of plan.now) s (table_at
        (map (λ d. sitter (style d) (heard d)) table.old.items)
        (option_map (λ swap. change_at swap.at swap.seat
        (sitter (style swap.defender) (heard swap.defender))) swap)) played.cards) }
    ensures made { IfOk result (λ played. (s : State)
        → slice_get (states node.now) (layout - 1) ≡ Some s
        → played.made ≡ ((state_after s played.cards).position.need == 0)) }
    ensures kept { IfOk result (λ played. (s : State)
        → slice_get (states node.now) (layout - 1) ≡ Some s
        → wins bridge (plan_of plan.now) s ≡ true → played.made ≡ true) }
    ensures told { IfOk result (λ played. map (λ d. sitter (style d) (heard d)) table.new.items
        ≡ tell_table played.cards (table_at
        (map (λ d. sitter (style d) (heard d)) table.old.items)
        (option_map (λ swap. change_at swap.at swap.seat
        (sitter (style swap.defender) (heard swap.defender))) swap)
        (length played.cards))) }
    ensures seats { length table.new.items ≡ length table.old.items }
{
    let mut cards = CardLine::new();
    let mut rest = plan;
    let mut position = node.position().copy();
    let mut left = node.left(layout - 1);
    let mut waiting = swap;
    while !position.over() {
        waiting = seat_if_due(table, waiting, &cards)?;
        let card = next_card(solver, rest, &position, left, layout, table);
        rest = rest_after(rest, card);
        position = play(&position, card);
        left = left.without(card);
        cards.push(card);
        tell_both(table, card)?;
    }
    Ok(PlayOut {
        cards,
        made: position.need == 0,
    })
}
