//! What the play says of a layout.
ghost use Rattle.std.specs.Prelude.{◌≡◌, ◌<◌, Some, None, length, MatchResult, IfOk};
ghost use Rattle.trick_rules.specs.Positions.{IsSound, IsState};
ghost use Rattle.pbn_deal.specs.Boards.{IsCourse, FitsUnseen};
ghost use Rattle.layout_list.specs.Verdicts.{first_position, cause_of, contradiction};
ghost use Rattle.layout_list.specs.Verdicts.{position_after, hand_after, course_of};

use crate::kept::Cause;
use card_sets::{CardSet, Seat};
use pbn_deal::{Board, Played};
use trick_rules::{Position, Trick, legal, play as play_card};

/// A defender's card that a layout contradicts, by its number in order of play, from 1.
#[derive(Clone, Copy, Debug)]
pub struct Contradiction {
    pub cause: Cause,
    pub play: u16,
}

// Why a defender can't have played this card at a position where Left holds these cards.
fn cause_of(position: &Position, left: CardSet, play: Played) -> Option<Cause>
    ensures { result ≡ cause_of (record { position = position.now; left = left }) play }
{
    if matches!(play.seat, Seat::Declarer | Seat::Dummy) {
        return None;
    }
    let hand = position.hand(play.seat, left);
    if !hand.has(play.card) {
        Some(Cause::NotHeld)
    } else if !legal(position, hand).has(play.card) {
        Some(Cause::Revoke)
    } else {
        None
    }
}

/// What the play leaves of a layout that allows it: the position, and Left's cards.
#[derive(Debug, Drop)]
pub struct Followed {
    pub position: Position,
    pub left: CardSet,
}

/// The position before the first card, where these cards are unseen.
pub fn first_position(board: &Board, unseen: CardSet) -> Position
    requires { FitsUnseen board.now unseen }
    ensures value { result ≡ first_position board.now unseen }
    ensures sound { IsSound result }
{
    Position {
        declarer: board.declarer_hand(),
        dummy: board.dummy_hand(),
        unseen,
        trick: Trick::led_by(board.leader()),
        need: board.need(),
        trump: board.trump(),
    }
}

/// Follows the play from a position where Left holds these cards, up to the first card that this
/// contradicts.
pub fn follow(plays: &[Played], start: Position, left: CardSet) -> Result<Followed, Contradiction>
    requires state { IsState (record { position = start; left = left }) }
    requires fair { IsCourse start.trump (course_of start) plays.now }
    requires few { length plays.now < 65535 }
    ensures verdict { MatchResult result
        (λ _. contradiction 1 (record { position = start; left = left }) plays.now ≡ None)
        (λ found. contradiction 1 (record { position = start; left = left }) plays.now
        ≡ Some found) }
    ensures position { IfOk result
        (λ followed. followed.position ≡ position_after start plays.now) }
    ensures left { IfOk result (λ followed. followed.left ≡ hand_after left plays.now) }
    ensures state { IfOk result
        (λ followed. IsState (record { position = followed.position; left = followed.left })) }
{
    let mut position = start;
    let mut hand = left;
    for (index, play) in plays.iter().enumerate() {
        if let Some(cause) = cause_of(&position, hand, *play) {
            return Err(Contradiction {
                cause,
                play: index as u16 + 1,
            });
        }
        position = play_card(&position, play.card);
        hand = hand.without(play.card);
    }
    Ok(Followed {
        position,
        left: hand,
    })
}
