//! A turn of a trick: its position, and what stays the same until the trick ends.
ghost use Rattle.std.specs.Prelude.{◌≡◌, ◌≢◌, ◌<◌, ◌++◌, ◌∷◌, [], true, length};
ghost use Rattle.card_sets.specs.SetWords.{has_card};
ghost use Rattle.trick_rules.specs.Positions.{IsState};
ghost use Rattle.trick_rules.specs.Play.{after as after_play, after_card, legal_in, CanPlay};
ghost use Rattle.dd_solver.specs.Shapes.{IsShapeOf};
ghost use Rattle.dd_solver.specs.Turns.{turn_state, IsTurn};

use crate::order::{Order, turn_of};
use crate::recall::Recall;
use crate::shape::Shape;
use arrayvec::ArrayVec;
use card_sets::{Card, CardSet};
use double_dummy::cards_in_play;
use trick_rules::{Position, Trick};

/// A position, Left's hand, the cards in play, which stay the same until the trick ends, and the
/// shape of the hands.
#[derive(Drop)]
pub(crate) struct Turn {
    pub(crate) position: Position,
    pub(crate) left: CardSet,
    pub(crate) playing: CardSet,
    pub(crate) shape: Shape,
}

// Up to two cards of a trick, and one more. A loop over so few takes longer.
fn followed_by(cards: &[Card], card: Card) -> ArrayVec<Card, 4>
    requires { length cards.now < 3 }
    ensures { result.items ≡ cards.now ++ card ∷ [] }
{
    let mut longer = ArrayVec::new();
    if cards.is_empty() {
        longer.push(card);
        return longer;
    }
    longer.push(cards[0]);
    if cards.len() == 1 {
        longer.push(card);
        return longer;
    }
    longer.push(cards[1]);
    longer.push(card);
    longer
}

// A trick of up to two cards with one more.
fn with_card(trick: &Trick, card: Card) -> Trick
    requires { length trick.now.cards < 3 }
    ensures { result ≡ record { leader = trick.now.leader; cards = trick.now.cards ++ card ∷ [] } }
{
    Trick {
        leader: trick.leader,
        cards: followed_by(trick.cards.as_slice(), card),
    }
}

// The position after a card that doesn't end the trick. It takes fewer steps than `play`, which
// checks whether the trick ends.
fn followed(position: &Position, card: Card) -> Position
    requires held { CanPlay position.now card }
    requires goes_on { length position.now.trick.cards ≢ 3 }
    ensures { result ≡ after_card position.now card }
{
    Position {
        declarer: position.declarer.without(card),
        dummy: position.dummy.without(card),
        unseen: position.unseen.without(card),
        trick: with_card(&position.trick, card),
        need: position.need,
        trump: position.trump,
    }
}

impl Turn {
    /// The turn at a position.
    pub(crate) fn of(position: &Position, left: CardSet, shape: Shape) -> Turn
        requires shape { IsShapeOf shape (record { position = position.now; left = left }) }
        requires state { IsState (record { position = position.now; left = left }) }
        ensures turn { IsTurn result }
        ensures position { result.position ≡ position.now }
        ensures left { result.left ≡ left }
    {
        Turn {
            position: position.copy(),
            left,
            playing: cards_in_play(position),
            shape,
        }
    }

    /// The next turn of the trick.
    pub(crate) fn after(&self, card: Card) -> Turn
        requires turn { IsTurn self.now }
        requires legal { has_card (legal_in (turn_state self.now)) card ≡ true }
        requires goes_on { length self.now.position.trick.cards ≢ 3 }
        ensures turn { IsTurn result }
        ensures state { turn_state result ≡ after_play (turn_state self.now) card }
    {
        Turn {
            position: followed(&self.position, card),
            left: self.left.without(card),
            playing: self.playing,
            shape: self.shape_after(card),
        }
    }

    /// The shape after the card.
    pub(crate) fn shape_after(&self, card: Card) -> Shape
        requires turn { IsTurn self.now }
        requires legal { has_card (legal_in (turn_state self.now)) card ≡ true }
        ensures { IsShapeOf result (after_play (turn_state self.now) card) }
    {
        self.shape.without(self.position.to_play(), card)
    }

    /// The order in which these cards are tried.
    pub(crate) fn order(&self, recall: &Recall, cards: CardSet) -> Order {
        let best_lead = recall.best_lead(turn_of(&self.position));
        Order::begun(&self.position, self.left, cards, best_lead)
    }

    /// Orders the cards that are left, if there are any and only the first is known.
    pub(crate) fn complete(&self, order: &mut Order, cards: CardSet) {
        if !cards.is_empty() {
            order.complete(&self.position, self.left, cards);
        }
    }
}
