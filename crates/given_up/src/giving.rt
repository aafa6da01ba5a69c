//! The first card after which double dummy no longer makes.
ghost use Rattle.std.specs.Prelude.{◌≡◌, ◌<◌, Some, length, slice_get};
ghost use Rattle.trick_rules.specs.Positions.{State, IsState};
ghost use Rattle.trick_rules.specs.Nodes.{states};
ghost use Rattle.given_up.specs.GivenUp.{AreLegal, giving_place as first_giving, giving_card};

use card_sets::{Card, CardSet};
use dd_solver::Solver;
use trick_rules::{CardLine, Node, Position, play};

/// The place, counted from 0, of the first of these cards after which double dummy no longer makes,
/// where Left holds this hand at first.
///
/// `None` if it makes after each of them. It takes no memory, except what the solver remembers.
pub fn giving_place(
    solver: &mut Solver,
    position: &Position,
    left: CardSet,
    cards: &CardLine,
) -> Option<usize>
    requires state { IsState (record { position = position.now; left = left }) }
    requires legal { AreLegal (record { position = position.now; left = left }) cards.now }
    ensures { result ≡ first_giving (record { position = position.now; left = left }) cards.now }
{
    let mut at = position.copy();
    let mut held = left;
    for place in 0..cards.len() {
        let card = cards.get(place);
        at = play(&at, card);
        held = held.without(card);
        if !solver.makes(&at, held) {
            return Some(place);
        }
    }
    None
}

/// The card that gives up the layout of a place of the node, of cards played from there on.
///
/// `None` if double dummy doesn't make the layout, or makes after each of the cards.
pub fn card_that_gives_up(
    solver: &mut Solver,
    node: &Node,
    place: u16,
    cards: &CardLine,
) -> Option<Card>
    requires a_layout { place < length node.now.lefts }
    requires legal { (s : State) → slice_get (states node.now) place ≡ Some s
        → AreLegal s cards.now }
    ensures { (s : State) → slice_get (states node.now) place ≡ Some s
        → result ≡ giving_card s cards.now }
{
    let position = node.position();
    let left = node.left(place);
    if !solver.makes(position, left) {
        return None;
    }
    match giving_place(solver, position, left, cards) {
        Some(at) => Some(cards.get(at)),
        None => None,
    }
}
