//! Equal cards, which DDS calls a sequence: only the highest is tried. After a card that fails,
//! none that is like it.
ghost use Rattle.std.specs.Prelude.{◌≡◌, ℕ, ◌+◌, ◌<◌, ◌≤◌, Some, true, false, IfSome, length};
ghost use Rattle.card_sets.specs.Cards.{suit_of};
ghost use Rattle.card_sets.specs.SetWords.{has_card, IsCardSet, IsSubset};
ghost use Rattle.trick_rules.specs.Play.{legal_in};
ghost use Rattle.double_dummy.specs.Equals.{IsNextEqual};
ghost use Rattle.equivalent_positions.specs.Alike.{IsClosedUp, IsLike};
ghost use Rattle.dd_solver.specs.Closed.{IsClosedDown, AreSpokenFor};
ghost use Rattle.dd_solver.specs.Turns.{turn_state, IsTurn};

use crate::answer::with_up;
use crate::turn::Turn;
use card_sets::{Card, CardSet};

// The equal card that comes next after a card, if there is one.
fn next_equal(legal: CardSet, playing: CardSet, card: Card) -> Option<Card>
    ensures is { IfSome result (λ next. IsNextEqual legal playing card next) }
    ensures each { IsSubset legal playing → (next : ℕ) → IsNextEqual legal playing card next
        → result ≡ Some next }
{
    let next = playing.after(card)?;
    if legal.has(next) && next.suit() == card.suit() {
        Some(next)
    } else {
        None
    }
}

// Those of some cards that are just below a legal card that counts, in its suit.
fn just_below(cards: CardSet, legal: CardSet, counting: CardSet) -> CardSet
    ensures within { IsSubset result cards }
    ensures a_set { IsCardSet result }
    ensures counts { (card : ℕ) → has_card result card ≡ true
        → (has_card counting (card + 1) ≡ true) × (suit_of card ≡ suit_of (card + 1)) }
    ensures all { (card : ℕ) → has_card cards card ≡ true → has_card legal (card + 1) ≡ true
        → has_card counting (card + 1) ≡ true → suit_of card ≡ suit_of (card + 1)
        → has_card result card ≡ true }
{
    cards.both(counting.both(legal).one_below())
}

// Those of some cards that have an empty place just above them.
fn below_gaps(cards: CardSet, playing: CardSet) -> CardSet
    ensures within { IsSubset result cards }
    ensures none { (card : ℕ) → has_card cards card ≡ true → has_card result card ≡ false
        → card + 1 < 52 → suit_of card ≡ suit_of (card + 1) → has_card playing (card + 1) ≡ true }
{
    cards.both(CardSet::pack().minus(playing).one_below())
}

/// The legal cards, of equal cards the highest alone: with it, fewer cards count.
pub(crate) fn one_of_equals(turn: &Turn, legal: CardSet) -> CardSet
    requires turn { IsTurn turn.now }
    requires legal { legal ≡ legal_in (turn_state turn.now) }
    ensures legal { IsSubset result (legal_in (turn_state turn.now)) }
    ensures others { AreSpokenFor (turn_state turn.now) result }
{
    let mut kept = legal.minus(legal.one_below());
    let mut rest = below_gaps(kept, turn.playing);
    while let Some(card) = rest.pop_first() {
        if let Some(_next) = next_equal(legal, turn.playing, card) {
            kept = kept.without(card);
        }
    }
    kept
}

// The cards that count with each of these whose next equal counts, from the last one down.
fn closed_down(legal: CardSet, playing: CardSet, cards: CardSet, counting: CardSet) -> CardSet
    requires playing { IsSubset legal playing }
    requires closed { IsClosedUp counting }
    ensures closed { IsClosedUp result }
    ensures within { IsSubset counting result }
    ensures down { (low high : ℕ) → has_card cards low ≡ true → IsNextEqual legal playing low high
        → has_card result high ≡ true → has_card result low ≡ true }
{
    let mut rest = cards;
    let Some(card) = rest.pop_first() else {
        return counting;
    };
    let closed = closed_down(legal, playing, rest, counting);
    match next_equal(legal, playing, card) {
        Some(next) if closed.has(next) => with_up(closed, card),
        _ => closed,
    }
}

/// The cards that count with the lower equals of the legal ones among them.
pub(crate) fn with_lower_equals(turn: &Turn, legal: CardSet, counting: CardSet) -> CardSet
    requires turn { IsTurn turn.now }
    requires legal { legal ≡ legal_in (turn_state turn.now) }
    requires closed { IsClosedUp counting }
    ensures closed { IsClosedUp result }
    ensures within { IsSubset counting result }
    ensures down { IsClosedDown (turn_state turn.now) result }
{
    if !below_gaps(legal, turn.playing).is_empty() {
        return closed_down(legal, turn.playing, legal, counting);
    }
    if counting.is_empty() {
        return counting;
    }
    let mut closed = counting;
    let mut rest = legal.minus(counting);
    let mut lower = just_below(rest, legal, closed);
    while !lower.is_empty() {
        closed = closed.either(lower);
        rest = rest.minus(lower);
        lower = just_below(rest, legal, closed);
    }
    closed
}

/// The cards without those that are like a card: of its suit, if neither counts.
pub(crate) fn without_like(cards: CardSet, card: Card, counting: CardSet) -> CardSet
    ensures within { IsSubset result cards }
    ensures fewer { length result ≤ length cards }
    ensures like { (other : ℕ) → has_card cards other ≡ true → has_card result other ≡ false
        → IsLike counting card other }
{
    if counting.has(card) {
        return cards;
    }
    cards.minus(cards.of_suit(card.suit()).minus(counting))
}
