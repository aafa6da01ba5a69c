//! Equal cards of the hand that is to play.
ghost use Rattle.std.specs.Prelude.{◌≡◌, IfOk, map};
ghost use Rattle.std.specs.List.{list_any};
ghost use Rattle.serde_json.specs.View.{view};
ghost use Rattle.card_forms.specs.Equals.{others_in_play, stands_between, are_equal, equal_rows};
ghost use Rattle.card_forms.specs.Objects.{row_name};

use card_brackets::CardRow;
use card_sets::{Card, CardSet};
use double_dummy::cards_in_play;
use serde_json::{Value, json};
use std::alloc::{AllocError, Global};
use text_forms::card_string;
use trick_rules::Node;

/// The cards in play that aren't choices of the node.
pub fn others_in_play(node: &Node) -> CardSet
    ensures { result ≡ others_in_play node.now }
{
    cards_in_play(node.position()).minus(node.choices())
}

// Whether a card stands between two in card order.
fn stands_between(card: Card, other: Card, it: Card) -> bool
    ensures { result ≡ stands_between card other it }
{
    (card < it && it < other) || (other < it && it < card)
}

// Whether one of the others stands between two cards.
fn are_parted(others: CardSet, card: Card, other: Card) -> bool
    ensures { result ≡ list_any (stands_between card other) others }
{
    let mut rest = others;
    while let Some(it) = rest.pop_first() {
        if stands_between(card, other, it) {
            return true;
        }
    }
    false
}

// Whether two cards are different ones of a suit, and none of the others stands between them.
fn are_equal(others: CardSet, card: Card, other: Card) -> bool
    ensures { result ≡ are_equal others card other }
{
    card != other && card.suit() == other.suit() && !are_parted(others, card, other)
}

/// The names of the cards of these rows that are equal to a card.
///
/// Errors: an allocation fails.
pub fn equal_names(
    alloc: Global,
    others: CardSet,
    rows: &Vec<CardRow>,
    card: Card,
) -> Result<Vec<Value>, AllocError>
    ensures { IfOk result (λ names.
        map view names.items ≡ map row_name (equal_rows others rows.now.items card)) }
{
    let mut names = Vec::new(alloc);
    for row in rows {
        if are_equal(others, card, row.card) {
            let name = card_string(alloc, row.card)?;
            names.push(json!(in alloc; name)?)?;
        }
    }
    Ok(names)
}
