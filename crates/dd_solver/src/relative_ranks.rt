//! Relative ranks (DDS: relRanks): between two tricks the cards in play are the highest
//! of their suits. The gaps that the last trick left are closed, the lowest first.
ghost use Rattle.std.specs.Prelude.{◌≡◌, ℕ, Bool, true, false};
ghost use Rattle.card_sets.specs.SetWords.{has_card, IsCardSet};
ghost use Rattle.trick_rules.specs.Positions.{State, IsState};
ghost use Rattle.equivalent_positions.specs.Alike.{IsClosedUp, HasAnswer};
ghost use Rattle.dd_solver.specs.Keys.{key_state, HasShape};
ghost use Rattle.dd_solver.specs.Answers.{IsAnswer};
ghost use Rattle.dd_solver.specs.RelativeRanks.{IsGapClosed, AreGapsClosed};

use crate::answer::Answer;
use crate::key::Key;
use card_sets::{Card, CardSet, Suit};

/// A position between two tricks with the gaps that were closed, the lowest first.
#[derive(Debug, Drop)]
pub(crate) struct RelativeRanks {
    pub(crate) key: Key,
    pub(crate) gaps: CardSet,
}

// The places of the suit that nobody holds above its lowest card in play.
fn gaps_in(playing: CardSet, suit: Suit) -> CardSet
    ensures free { (card : ℕ) → has_card result card ≡ true → has_card playing card ≡ false }
    ensures a_set { IsCardSet result }
{
    match playing.of_suit(suit).first() {
        Some(lowest) => CardSet::up_from(lowest).minus(playing),
        None => CardSet::empty(),
    }
}

// The same of all suits.
fn gaps_of(playing: CardSet) -> CardSet
    ensures free { (card : ℕ) → has_card result card ≡ true → has_card playing card ≡ false }
    ensures a_set { IsCardSet result }
{
    let spades = gaps_in(playing, Suit::Spades);
    let hearts = gaps_in(playing, Suit::Hearts);
    let diamonds = gaps_in(playing, Suit::Diamonds);
    let clubs = gaps_in(playing, Suit::Clubs);
    spades.either(hearts).either(diamonds.either(clubs))
}

// The cards that count before a gap is closed, if these count after it. They are closed up, so one
// card joins them at most.
fn before_gap(counting: CardSet, gap: Card) -> CardSet
    requires { IsClosedUp counting }
    ensures closed { IsClosedUp result }
    ensures back { (s t : State) (made : Bool) → IsState s → IsGapClosed gap s t
        → HasAnswer counting t made → HasAnswer result s made }
{
    if !counting.has(gap) {
        return counting;
    }
    match counting.of_suit(gap.suit()).first() {
        Some(lowest) if lowest.rank().number() > 2 => {
            counting.with(Card::from_number(lowest.number() - 1))
        }
        _ => counting,
    }
}

impl RelativeRanks {
    /// The position with the cards in play at the highest places. No clause says that no gap is
    /// left, since no answer depends on it.
    pub(crate) fn of(first: &Key) -> RelativeRanks
        requires state { IsState (key_state first.now) }
        requires shape { HasShape first.now }
        ensures closed { AreGapsClosed result.gaps
            (key_state first.now) (key_state result.key) }
        ensures state { IsState (key_state result.key) }
        ensures shape { HasShape result.key }
    {
        let ours = first.declarer.either(first.dummy);
        let gaps = gaps_of(ours.either(first.unseen));
        let mut rest = gaps;
        let mut key = *first;
        while let Some(gap) = rest.pop_first() {
            key = key.raised_to(gap);
        }
        RelativeRanks { key, gaps }
    }

    /// An answer for this position, as one for the position with the gaps.
    pub(crate) fn carried_back(self, answer: &Answer) -> Answer
        requires { IsClosedUp answer.now.counting }
        ensures { (s t : State) → IsState s → AreGapsClosed self.gaps s t
            → IsAnswer t answer.now → IsAnswer s result }
    {
        let mut rest = self.gaps;
        let mut counting = answer.counting;
        while let Some(gap) = rest.last() {
            rest = rest.without(gap);
            counting = before_gap(counting, gap);
        }
        Answer {
            made: answer.made,
            counting,
        }
    }
}
