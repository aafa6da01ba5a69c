//! Copies of an ending, whose fronts have as many vectors as the ending's.
ghost use Rattle.std.specs.Prelude.{◌≤◌};
ghost use Rattle.trick_rules.specs.Nodes.{most_moves};

use super::nodes::node_of;
use crate::draws::Draws;
use alphamu_core::{Budget, Found, search};
use card_sets::{Card, CardSet};
use cut_rules::{CutRules, Stop};
use dd_solver::Solver;
use front_table::{FrontStore, LocalStore, NoStore, ProvenFront, Put};
use pareto_fronts::Front;
use std::alloc::{AllocError, Global};
use trick_rules::{Node, Position};

/// How many moves the fronts look ahead, how many layouts a copy has, how many copies are put, and
/// for how many there is room.
#[derive(Clone, Copy)]
pub struct Copies {
    pub moves: u8,
    pub width: u16,
    pub copies: u32,
    pub room: u32,
}

/// A card for each card, in the same suit.
#[derive(Drop)]
struct Moved {
    to: [u8; 52],
}

impl Moved {
    // The cards get ranks by lot, in the same order within their suits.
    fn by_lot(draws: &mut Draws, cards: CardSet) -> Moved {
        let mut to = [0u8; 52];
        let mut rest = cards;
        for number in 0..52u8 {
            let waiting = rest.of_suit(Card::from_number(number).suit());
            let drawn = draws.next(u64::from(13 - number % 13));
            if let Some(card) = waiting.first() {
                if drawn < u64::from(waiting.count()) {
                    to[usize::from(card.number())] = number;
                    rest = rest.without(card);
                }
            }
        }
        Moved { to }
    }

    fn of(&self, cards: CardSet) -> CardSet {
        let mut moved = CardSet::empty();
        for card in cards {
            let number = self.to[usize::from(card.number())];
            moved = moved.with(Card::from_number(number % 52));
        }
        moved
    }

    fn position(&self, position: &Position) -> Option<Position> {
        Position::between_tricks(
            self.of(position.declarer),
            self.of(position.dummy),
            self.of(position.unseen),
            position.trick.leader,
            position.need,
            position.trump,
        )
    }

    // Left's hands, repeated until there are enough.
    fn lefts(&self, alloc: Global, node: &Node, width: u16) -> Result<Vec<CardSet>, AllocError> {
        let mut lefts = Vec::new(alloc);
        for place in 0..width {
            lefts.push(self.of(node.left(place % node.width())))?;
        }
        Ok(lefts)
    }

    fn node(&self, alloc: Global, node: &Node, width: u16) -> Result<Option<Node>, AllocError> {
        let Some(position) = self.position(node.position()) else {
            return Ok(None);
        };
        let lefts = self.lefts(alloc, node, width)?;
        node_of(alloc, position, lefts.as_slice())
    }
}

// Puts the front of a node; the number of its vectors if it is kept.
fn put(
    alloc: Global,
    store: &mut LocalStore,
    node: Node,
    moves: u8,
) -> Result<Option<u64>, AllocError>
    requires { moves ≤ most_moves }
{
    let alpha = Front::new(alloc, node.width());
    let found = search(
        alloc,
        &mut NoStore,
        &mut Solver::new(alloc),
        &mut Budget::new(u64::MAX),
        &node,
        moves,
        &alpha,
        CutRules::all(Stop::Never),
    );
    let Ok(Found::Exact(front)) = found else {
        return Err(AllocError);
    };
    let vectors = front.len() as u64;
    match store.put(ProvenFront::new(node, moves, front)) {
        Put::Kept => Ok(Some(vectors)),
        _ => Ok(None),
    }
}

/// Puts the fronts of this many copies of an ending at whose root no card is played yet. How many
/// are kept, and how many vectors they have together.
pub fn put_copies(alloc: Global, node: &Node, asked: Copies) -> Result<(u64, u64), AllocError>
    requires { asked.moves ≤ most_moves }
{
    let mut store = LocalStore::new(alloc, asked.room);
    let mut draws = Draws::new(3);
    let position = node.position();
    let cards = position
        .declarer
        .either(position.dummy)
        .either(position.unseen);
    let (mut kept, mut vectors) = (0u64, 0u64);
    for _ in 0..asked.copies {
        let moved = Moved::by_lot(&mut draws, cards);
        if let Some(copy) = moved.node(alloc, node, asked.width)? {
            if let Some(count) = put(alloc, &mut store, copy, asked.moves)? {
                kept = kept.saturating_add(1);
                vectors = vectors.saturating_add(count);
            }
        }
    }
    Ok((kept, vectors))
}
