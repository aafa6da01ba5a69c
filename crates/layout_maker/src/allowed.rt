//! Which cards each defender may hold, as the play tells.
ghost use Rattle.std.specs.Prelude.{◌≡◌, ◌||◌, filter};
ghost use Rattle.card_sets.specs.Cards.{suit_of, same_suit};
ghost use Rattle.card_sets.specs.SetWords.{has_card};
ghost use Rattle.trick_rules.specs.Play.{is_declarers};
ghost use Rattle.pbn_deal.specs.Boards.{first_trick};
ghost use Rattle.layout_maker.specs.Choosing.{shows_void, narrowed, after_plays};

use card_sets::{Card, CardSet, Seat, Suit};
use pbn_deal::Board;
use trick_rules::Trick;

/// The unseen cards that Left may hold before the first card, and those that Right may.
#[derive(Clone, Copy, Debug)]
pub struct MayHold {
    pub left: CardSet,
    pub right: CardSet,
}

fn follows(card: Card, suit: Suit) -> bool
    ensures { result ≡ same_suit (suit_of card) suit }
{
    card.suit() == suit
}

// The unseen cards that a seat doesn't hold when it plays this card: those of the suit led, if it
// doesn't follow suit.
fn void_cards(trick: &Trick, unseen: CardSet, card: Card) -> CardSet
    ensures { result ≡ filter (shows_void trick.now.cards card) unseen }
{
    let Some(suit) = trick.suit_led() else {
        return CardSet::empty();
    };
    if follows(card, suit) {
        CardSet::empty()
    } else {
        unseen.of_suit(suit)
    }
}

// What is left of the cards that each defender may hold when a seat plays this card.
fn narrow(may: &MayHold, seat: Seat, trick: &Trick, unseen: CardSet, card: Card) -> MayHold
    ensures { result ≡ narrowed seat trick.now.cards unseen card may.now }
{
    match seat {
        Seat::Declarer | Seat::Dummy => *may,
        Seat::Left => MayHold {
            left: may.left.minus(void_cards(trick, unseen, card)),
            right: may.right.without(card),
        },
        Seat::Right => MayHold {
            left: may.left.without(card),
            right: may.right.minus(void_cards(trick, unseen, card)),
        },
    }
}

// Whether a seat may have played this card: a defender's was unseen.
fn may_play(hidden: CardSet, seat: Seat, card: Card) -> bool
    ensures { result ≡ (is_declarers seat || has_card hidden card) }
{
    matches!(seat, Seat::Declarer | Seat::Dummy) || hidden.has(card)
}

/// The cards that each defender may hold as the play tells: `None` if a defender played a card that
/// wasn't unseen.
pub fn may_hold(board: &Board, unseen: CardSet) -> Option<MayHold>
    ensures { result ≡ after_plays board.now.trump (first_trick board.now) unseen
        (record { left = unseen; right = unseen }) board.now.plays }
{
    let trump = board.trump();
    let mut trick = Trick::led_by(board.leader());
    let mut hidden = unseen;
    let mut may = MayHold {
        left: unseen,
        right: unseen,
    };
    for play in board.plays() {
        if !may_play(hidden, play.seat, play.card) {
            return None;
        }
        may = narrow(&may, play.seat, &trick, hidden, play.card);
        hidden = hidden.without(play.card);
        trick.add(trump, play.card);
    }
    Some(may)
}
