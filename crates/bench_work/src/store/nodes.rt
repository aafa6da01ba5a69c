//! Nodes that are drawn.
ghost use Rattle.std.specs.Prelude.{IsTrue, All};
ghost use Rattle.trick_rules.specs.Positions.{FitsLeft};

use crate::draws::Draws;
use card_sets::{CardSet, Seat};
use std::alloc::{AllocError, Global};
use trick_rules::{Node, Position, Trump};

/// What is asked of a drawn node.
#[derive(Clone, Copy)]
pub struct Shape {
    pub tricks: u8,
    pub layouts: u16,
    pub leader: Seat,
    pub need: u8,
}

// Whether Left may hold each of the hands.
fn all_fit(position: &Position, lefts: &[CardSet]) -> bool
    ensures { IsTrue result → All (FitsLeft position.now) lefts.now }
{
    lefts.iter().all(|left| position.fits(*left))
}

/// The node of a position and Left's hands, if they make one.
pub fn node_of(
    alloc: Global,
    position: Position,
    lefts: &[CardSet],
) -> Result<Option<Node>, AllocError> {
    if lefts.is_empty() || lefts.len() > 256 || !all_fit(&position, lefts) {
        return Ok(None);
    }
    Ok(Some(Node::new(alloc, position, lefts)?))
}

impl Draws {
    // Left's hands.
    fn hands(
        &mut self,
        alloc: Global,
        position: &Position,
        shape: Shape,
    ) -> Result<Vec<CardSet>, AllocError> {
        let mut lefts = Vec::new(alloc);
        for _ in 0..shape.layouts {
            let mut used = CardSet::pack().minus(position.unseen);
            lefts.push(self.hand(shape.tricks, &mut used))?;
        }
        Ok(lefts)
    }

    /// The next node, if its cards make one.
    pub fn node(&mut self, alloc: Global, shape: Shape) -> Result<Option<Node>, AllocError> {
        let mut used = CardSet::empty();
        let declarer = self.hand(shape.tricks, &mut used);
        let dummy = self.hand(shape.tricks, &mut used);
        let unseen = self
            .hand(shape.tricks, &mut used)
            .either(self.hand(shape.tricks, &mut used));
        let position = Position::between_tricks(
            declarer,
            dummy,
            unseen,
            shape.leader,
            shape.need,
            Trump::NoTrump,
        );
        let Some(position) = position else {
            return Ok(None);
        };
        let lefts = self.hands(alloc, &position, shape)?;
        node_of(alloc, position, lefts.as_slice())
    }
}
