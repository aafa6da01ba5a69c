//! The cards of declarer's side after which double dummy makes each layout still.
ghost use Rattle.std.specs.Prelude.{◌≡◌, ℕ, true, IfSome, IsNone};
ghost use Rattle.card_sets.specs.SetWords.{has_card};
ghost use Rattle.trick_rules.specs.Positions.{to_play};
ghost use Rattle.trick_rules.specs.Play.{is_declarers};
ghost use Rattle.win_vectors.specs.Fronts.{Dominates};
ghost use Rattle.set_nodes.specs.SetNodes.{node_at, AreLayoutsAt};
ghost use Rattle.set_search.specs.Judged.{IsLostPlace, AreAllMade};
ghost use Rattle.set_search.specs.Open.{own_legal, AreOpenCards};

use crate::judge::{lost_layout, lost_outside};
use card_sets::CardSet;
use dd_solver::Solver;
use set_nodes::only;
use trick_rules::{Position, play};
use win_vectors::WinVector;

/// The cards after which double dummy makes each layout of a set, and for each other card a layout
/// that it loses.
#[derive(Drop)]
pub(crate) struct OpenCards {
    pub cards: CardSet,
    pub core: WinVector,
}

// A layout of the set that double dummy loses, if there is one: of the core, if that has one.
fn lost_first_in(
    solver: &mut Solver,
    layouts: &[CardSet],
    position: &Position,
    set: WinVector,
    core: WinVector,
) -> Option<u16>
    requires layouts { AreLayoutsAt layouts.now position.now set }
    requires core { Dominates set core }
    ensures lost { IfSome result (IsLostPlace layouts.now position.now set) }
    ensures none { IsNone result → AreAllMade (node_at layouts.now position.now set) }
{
    if core.count() > 0 {
        let place = lost_layout(solver, layouts, position, core);
        if place.is_some() {
            return place;
        }
    }
    lost_outside(solver, layouts, position, set, core)
}

/// Judges each of these cards of declarer's side.
pub(crate) fn open_cards(
    solver: &mut Solver,
    layouts: &[CardSet],
    position: &Position,
    set: WinVector,
    tried: CardSet,
) -> OpenCards
    requires layouts { AreLayoutsAt layouts.now position.now set }
    requires ours { is_declarers (to_play position.now) ≡ true }
    requires legal { (card : ℕ) → has_card tried card ≡ true
        → has_card (own_legal position.now) card ≡ true }
    ensures { AreOpenCards layouts.now position.now set tried result.cards result.core }
{
    let width = set.width();
    let mut cards = tried;
    let mut core = WinVector::none(width);
    let mut rest = tried;
    'rest: while let Some(card) = rest.pop_first() {
        let after = play(position, card);
        match lost_first_in(solver, layouts, &after, set, core) {
            Some(place) => {
                core = core.either(only(width, place));
                cards = cards.without(card);
            }
            None => {}
        }
    }
    OpenCards { cards, core }
}
