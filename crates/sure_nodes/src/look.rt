//! The test of a node: top cards of the hand on lead.
ghost use Rattle.std.specs.Prelude.{◌≡◌, not, ◌&&◌, ◌||◌, length, min, nat_lt, if◌then◌else◌};
ghost use Rattle.trick_rules.specs.Positions.{to_play, seat_after};
ghost use Rattle.trick_rules.specs.Play.{of_suit, held_by};
ghost use Rattle.sure_tricks.specs.Sure.{high_count as count_of_high, trumps_of, is_suit};
ghost use Rattle.sure_nodes.specs.SureNodes.{tops_in as count_of_tops, drawn as count_of_drawn, none_ruffs as nobody_ruffs, sure_tops as count_of_sure, is_sure as is_sure_at};

use card_sets::{CardSet, Suit};
use sure_tricks::high_count;
use trick_rules::{Position, Trump};

// What the hand on lead sees: its own cards, its partner's, and the unseen ones.
#[derive(Clone, Copy)]
struct Seen {
    own: CardSet,
    partners: CardSet,
    unseen: CardSet,
}

// How many trumps are among these cards.
fn trumps_in(cards: CardSet, trump: Trump) -> u8
    ensures { result ≡ length (trumps_of trump cards) }
{
    match trump {
        Trump::NoTrump => CardSet::empty().count(),
        Trump::Suit(suit) => cards.of_suit(suit).count(),
    }
}

impl Seen {
    // The cards as they lie.
    fn of(position: &Position) -> Seen
        ensures own { result.own ≡ held_by position.now (to_play position.now) }
        ensures partners { result.partners
            ≡ held_by position.now (seat_after 2 (to_play position.now)) }
        ensures unseen { result.unseen ≡ position.now.unseen }
    {
        let seat = position.to_play();
        Seen {
            own: position.held_by(seat),
            partners: position.held_by(seat.next().next()),
            unseen: position.unseen,
        }
    }

    // The top cards of a suit.
    fn tops_in(&self, suit: Suit) -> u8
        ensures { result ≡ min
            (count_of_high (of_suit suit self.now.own) (of_suit suit self.now.partners))
            (count_of_high (of_suit suit self.now.own) (of_suit suit self.now.unseen)) }
    {
        let own = self.own.of_suit(suit);
        let partners = high_count(own, self.partners.of_suit(suit));
        partners.min(high_count(own, self.unseen.of_suit(suit)))
    }
}

// Whether no hand can have a trump more than are drawn.
fn none_ruffs(position: &Position) -> bool
    ensures { result ≡ nobody_ruffs position.now }
{
    let seen = Seen::of(position);
    let drawn = match position.trump {
        Trump::NoTrump => 0,
        Trump::Suit(suit) => seen.tops_in(suit),
    };
    trumps_in(seen.partners, position.trump) <= drawn
        && trumps_in(seen.unseen, position.trump) <= drawn
}

// The top cards of a suit that nobody can ruff.
fn sure_tops(position: &Position, suit: Suit) -> u8
    ensures { result ≡ count_of_sure position.now suit }
{
    if position.trump == Trump::Suit(suit) || none_ruffs(position) {
        Seen::of(position).tops_in(suit)
    } else {
        0
    }
}

/// Whether declarer's side is on lead to a new trick, and its hand on lead has as many sure top
/// cards as it needs tricks. No layout is looked at.
pub fn is_sure(position: &Position) -> bool
    ensures { result ≡ is_sure_at position.now }
{
    if !position.is_ours() || position.trick.suit_led().is_some() {
        return false;
    }
    let majors = u16::from(sure_tops(position, Suit::Spades))
        + u16::from(sure_tops(position, Suit::Hearts));
    let minors = u16::from(sure_tops(position, Suit::Diamonds))
        + u16::from(sure_tops(position, Suit::Clubs));
    u16::from(position.need) <= majors + minors
}
