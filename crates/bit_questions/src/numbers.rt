//! Seats and trumps by their numbers.
ghost use Rattle.std.specs.Prelude.{◌≡◌, ◌<◌, MatchOption};
ghost use Rattle.trick_rules.specs.Positions.{seat_after, seat_place};
ghost use Rattle.bit_questions.specs.Numbers.{trump_place};

use card_sets::{Seat, Suit};
use trick_rules::Trump;

/// The seat of a number, clockwise from 0 for declarer.
pub fn seat_at(number: u32) -> Option<Seat>
    ensures { MatchOption result (3 < number) (λ seat. seat_place seat ≡ number) }
{
    match number {
        0 => Some(Seat::Declarer),
        1 => Some(Seat::Left),
        2 => Some(Seat::Dummy),
        3 => Some(Seat::Right),
        _ => None,
    }
}

/// The seat this many places after another, up to three.
pub fn seat_after(seat: Seat, places: usize) -> Seat
    requires { places < 4 }
    ensures { result ≡ seat_after places seat }
{
    match places {
        0 => seat,
        1 => seat.next(),
        2 => seat.next().next(),
        _ => seat.next().next().next(),
    }
}

/// Trumps by the place of their suit in card order, or none at 4.
pub fn trump_at(number: u32) -> Option<Trump>
    ensures { MatchOption result (4 < number) (λ trump. trump_place trump ≡ number) }
{
    match number {
        0 => Some(Trump::Suit(Suit::Spades)),
        1 => Some(Trump::Suit(Suit::Hearts)),
        2 => Some(Trump::Suit(Suit::Diamonds)),
        3 => Some(Trump::Suit(Suit::Clubs)),
        4 => Some(Trump::NoTrump),
        _ => None,
    }
}
