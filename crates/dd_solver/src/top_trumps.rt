//! What the top trumps of one hand settle, whoever leads.
ghost use Rattle.std.specs.Prelude.{◌≡◌, ◌⊎◌, [], IfSome};
ghost use Rattle.card_sets.specs.SetWords.{IsCardSet};
ghost use Rattle.trick_rules.specs.Positions.{FitsLeft};
ghost use Rattle.dd_solver.specs.Sure.{AreOutOfReach};
ghost use Rattle.dd_solver.specs.Answers.{IsAnswer};

use crate::answer::Answer;
use crate::sure::highest_of;
use card_sets::{CardSet, Suit};
use trick_rules::{Position, Trump};

// The hand's `many` highest cards of the suit, and every card above them, if the opponents have
// none of these.
fn top_of(hand: CardSet, opponents: CardSet, suit: Suit, many: u8) -> Option<CardSet>
    requires { IsCardSet hand }
    ensures { IfSome result (λ cards. AreOutOfReach hand opponents suit many cards) }
{
    let own = hand.of_suit(suit);
    if own.count() < many {
        return None;
    }
    let cards = highest_of(hand, suit, many);
    if own.both(cards).count() >= many && cards.is_disjoint(opponents) {
        Some(cards)
    } else {
        None
    }
}

// Those of either hand of a side.
fn top_of_either(
    hand: CardSet,
    partner: CardSet,
    opponents: CardSet,
    suit: Suit,
    many: u8,
) -> Option<CardSet>
    requires hand { IsCardSet hand }
    requires partner { IsCardSet partner }
    ensures { IfSome result (λ cards. AreOutOfReach hand opponents suit many cards
        ⊎ AreOutOfReach partner opponents suit many cards) }
{
    let trumps = hand.either(partner).of_suit(suit);
    let top = trumps.after_each(opponents.of_suit(suit));
    // One side alone has top trumps, and counting takes longer than looking.
    if top.is_empty() || top.count() < many {
        return None;
    }
    match top_of(hand, opponents, suit, many) {
        Some(cards) => Some(cards),
        None => top_of(partner, opponents, suit, many),
    }
}

/// The answer if the top trumps of one hand settle it, whichever hand that is.
pub(crate) fn top_trumps_answer(position: &Position, left: CardSet) -> Option<Answer>
    requires fits { FitsLeft position.now left }
    requires between { position.now.trick.cards ≡ [] }
    ensures { IfSome result
        (λ answer. IsAnswer (record { position = position.now; left = left }) answer) }
{
    let Trump::Suit(suit) = position.trump else {
        return None;
    };
    let declarer = position.declarer;
    let dummy = position.dummy;
    let unseen = position.unseen;
    if let Some(counting) = top_of_either(declarer, dummy, unseen, suit, position.need) {
        return Some(Answer {
            made: true,
            counting,
        });
    }
    let ours = declarer.either(dummy);
    let enough = (position.tricks_left() + 1).saturating_sub(position.need);
    let counting = top_of_either(left, unseen.minus(left), ours, suit, enough)?;
    Some(Answer {
        made: false,
        counting,
    })
}
