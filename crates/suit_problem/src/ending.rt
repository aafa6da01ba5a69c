//! How large the ending of a suit is.
ghost use Rattle.std.specs.Prelude.{◌≡◌, ◌≤◌, IfOk, max, length};
ghost use Rattle.card_sets.specs.SetWords.{IsCardSet};
ghost use Rattle.suit_problem.specs.Written.{suit_cards};
ghost use Rattle.suit_problem.specs.Endings.{missing_cards, longer, entries_for, ending_of_size, ending_made, IsEnding};

use crate::fault::SuitFault;
use crate::hands::SuitHands;
use card_sets::{CardSet, Suit};

/// An ending in which a suit is played: the cards of it that dummy, South and the defenders hold,
/// how many entries each hand has in the other suits, and how many tricks are left.
#[derive(Clone, Copy, Debug)]
pub struct Ending {
    pub dummy: CardSet,
    pub south: CardSet,
    pub missing: CardSet,
    pub entries: u8,
    pub tricks: u8,
}

// The cards of the suit that the defenders hold.
fn missing_cards(hands: &SuitHands) -> CardSet
    ensures value { result ≡ missing_cards hands.now }
    ensures a_set { IsCardSet result }
{
    let suit = CardSet::pack().of_suit(Suit::Spades);
    suit.minus(hands.dummy.either(hands.south))
}

// How many entries each hand needs, so that a defender can hold all missing cards.
fn entries_for(asked: u8, long: u8, missing: u8) -> u8
    requires { missing ≤ 8 }
    ensures { result ≡ entries_for asked long missing }
{
    asked.max((missing.saturating_sub(long) + 1) / 2)
}

/// The ending of a suit with at least `asked` entries in each hand: they are more if a defender
/// couldn't hold all missing cards otherwise. All hands have as many cards as there are tricks, which
/// is the length of the longer holding and all entries.
///
/// Errors: `TooFew` if the defenders have more than eight cards of the suit; `TooMany` at more than
/// thirteen tricks.
pub fn ending_of(hands: &SuitHands, asked: u8) -> Result<Ending, SuitFault>
    requires some { 1 ≤ asked }
    requires few { asked ≤ 13 }
    ensures value { result ≡ ending_made hands.now asked }
    ensures sound { IfOk result IsEnding }
{
    let missing = missing_cards(hands);
    if missing.count() > 8 {
        return Err(SuitFault::TooFew);
    }
    let dummy = hands.dummy.count();
    let south = hands.south.count();
    let long = dummy.max(south);
    let entries = entries_for(asked, long, missing.count());
    let tricks = u16::from(long) + 2 * u16::from(entries);
    if tricks > 13 {
        return Err(SuitFault::TooMany);
    }
    Ok(Ending {
        dummy: hands.dummy,
        south: hands.south,
        missing,
        entries,
        tricks: tricks as u8,
    })
}
