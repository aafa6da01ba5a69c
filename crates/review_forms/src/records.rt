//! Decisions as records of CSV.
ghost use Rattle.std.specs.Prelude.{◌≡◌, ◌++◌, ◌∷◌, [], IfOk, OnOk, flat_map, length, map};
ghost use Rattle.std.specs.Prelude.{replicate};
ghost use Rattle.std.specs.List.{enumerate_from};
ghost use Rattle.text_forms.specs.Records.{record_text};
ghost use Rattle.review_forms.specs.Records.{decision_names, card_fields, cost_fields};
ghost use Rattle.review_forms.specs.Records.{decision_fields, review_csv, game_names, game_record};
ghost use Rattle.review_forms.specs.Records.{outcome_records, game_records, reviews_csv};

use byte_text::Text;
use card_letters::{compass_letter, letters_of};
use review_text::{GameReview, Reviewed};
use std::alloc::{AllocError, Global};
use text_forms::{Record, push_fields};

// The names of the fields of a decision.
fn decision_names() -> [&'static [u8]; 15]
    ensures { map (λ name. name.now) result ≡ decision_names }
{
    [
        b"number",
        b"trick",
        b"seat",
        b"played",
        b"most",
        b"least",
        b"named",
        b"named_most",
        b"named_least",
        b"layouts",
        b"weight",
        b"cost",
        b"cost_up_to",
        b"final",
        b"moves",
    ]
}

// Adds which card of the play it was, who played it, and its bounds.
#[tactic(auto, unfolding(crate::specs::Records::card_fields))]
fn push_card(fields: &mut Record, told: &Reviewed) -> Result<(), AllocError>
    ensures { OnOk result (fields.new ≡ fields.old ++ card_fields told.now) }
{
    fields.push_number(u64::from(told.number))?;
    fields.push_number(u64::from(told.trick))?;
    fields.push(&[compass_letter(told.seat)])?;
    fields.push(&letters_of(told.played))?;
    fields.push_number(u64::from(told.most))?;
    fields.push_number(u64::from(told.least))
}

// Adds the card named, the layouts, and what the card cost, at least and at most.
#[tactic(auto, unfolding(crate::specs::Records::cost_fields))]
fn push_cost(fields: &mut Record, told: &Reviewed) -> Result<(), AllocError>
    ensures { OnOk result (fields.new ≡ fields.old ++ cost_fields told.now) }
{
    fields.push(&letters_of(told.named))?;
    fields.push_number(u64::from(told.named_most))?;
    fields.push_number(u64::from(told.named_least))?;
    fields.push_number(u64::from(told.layouts))?;
    fields.push_number(u64::from(told.weight))?;
    fields.push_number(u64::from(told.cost()))?;
    fields.push_number(u64::from(told.cost_up_to()))?;
    fields.push(told.final_word())
}

// Adds the fields of a decision.
#[tactic(auto, unfolding(crate::specs::Records::decision_fields))]
fn push_decision(fields: &mut Record, moves: u8, told: &Reviewed) -> Result<(), AllocError>
    ensures { OnOk result (fields.new ≡ fields.old ++ decision_fields moves told.now) }
{
    push_card(fields, told)?;
    push_cost(fields, told)?;
    fields.push_number(u64::from(moves))
}

/// A record with the names of the fields, and then one for each decision: which card of the play it
/// was, its trick, who played it, the card with its bounds, the card named with its bounds, the
/// layouts with their weight, what the card cost at least and at most, whether both are equal, and
/// the greatest number of moves.
///
/// Errors: an allocation fails.
#[tactic(auto, unfolding(crate::specs::Records::review_csv))]
pub fn review_csv(alloc: Global, moves: u8, told: &[Reviewed]) -> Result<Text, AllocError>
    ensures { IfOk result (λ text. text ≡ review_csv moves told.now) }
{
    let mut text = Text::new(alloc);
    push_fields(&mut text, alloc, &decision_names())?;
    for decision in told {
        let mut fields = Record::new(alloc);
        push_decision(&mut fields, moves, decision)?;
        fields.write_to(&mut text)?;
    }
    Ok(text)
}

// Adds a field for each name.
fn push_names(fields: &mut Record, names: &[&[u8]]) -> Result<(), AllocError>
    ensures { OnOk result (fields.new ≡ fields.old ++ map (λ name. name.now) names.now) }
{
    for name in names {
        fields.push(name)?;
    }
    Ok(())
}

// Adds empty fields.
fn push_empty(fields: &mut Record, count: usize) -> Result<(), AllocError>
    ensures { OnOk result (fields.new ≡ fields.old ++ replicate count []) }
{
    for _ in 0..count {
        fields.push(b"")?;
    }
    Ok(())
}

// Appends the names of the fields of many games.
#[tactic(auto, unfolding(crate::specs::Records::game_names))]
fn push_game_names(text: &mut Text, alloc: Global) -> Result<(), AllocError>
    ensures { OnOk result (text.new ≡ text.old ++ record_text game_names) }
{
    let mut fields = Record::new(alloc);
    fields.push(b"game")?;
    push_names(&mut fields, &decision_names())?;
    fields.push(b"refused")?;
    fields.write_to(text)
}

// Appends a record of a decision of a game.
#[tactic(auto, unfolding(crate::specs::Records::game_record))]
fn push_game_decision(
    text: &mut Text,
    alloc: Global,
    number: u64,
    moves: u8,
    told: &Reviewed,
) -> Result<(), AllocError>
    ensures { OnOk result
        (text.new ≡ text.old ++ game_record number (decision_fields moves told.now) []) }
{
    let mut fields = Record::new(alloc);
    fields.push_number(number)?;
    push_decision(&mut fields, moves, told)?;
    fields.push(b"")?;
    fields.write_to(text)
}

// Appends a record for each decision of a game.
fn push_game_decisions(
    text: &mut Text,
    alloc: Global,
    number: u64,
    moves: u8,
    told: &[Reviewed],
) -> Result<(), AllocError>
    ensures { OnOk result (text.new ≡ text.old
        ++ flat_map (λ t. game_record number (decision_fields moves t) []) told.now) }
{
    for decision in told {
        push_game_decision(text, alloc, number, moves, decision)?;
    }
    Ok(())
}

// Appends the record of a refused game.
#[tactic(auto, unfolding(crate::specs::Records::game_record))]
fn push_refused(text: &mut Text, alloc: Global, number: u64, said: &Text) -> Result<(), AllocError>
    ensures { OnOk result (text.new ≡ text.old
        ++ game_record number (replicate (length decision_names) []) said.now) }
{
    let mut fields = Record::new(alloc);
    fields.push_number(number)?;
    push_empty(&mut fields, decision_names().len())?;
    fields.push(said.bytes())?;
    fields.write_to(text)
}

// Appends the records of a game.
fn push_game(
    text: &mut Text,
    alloc: Global,
    number: u64,
    moves: u8,
    game: &GameReview,
) -> Result<(), AllocError>
    ensures { OnOk result (text.new ≡ text.old ++ outcome_records moves number game.now) }
{
    match game {
        GameReview::Told(told) => push_game_decisions(text, alloc, number, moves, told),
        GameReview::Refused(said) => push_refused(text, alloc, number, said),
    }
}

/// A record with the names of the fields, and then one for each decision of each game: the game's
/// number, counted from 1, the fields of a decision, and an empty one. A refused game has one
/// record, with its number and, in the last field, the reason; the others are empty.
///
/// Errors: an allocation fails.
#[tactic(auto, unfolding(crate::specs::Records::reviews_csv))]
pub fn reviews_csv(alloc: Global, moves: u8, games: &[GameReview]) -> Result<Text, AllocError>
    ensures { IfOk result (λ text. text ≡ reviews_csv moves games.now) }
{
    let mut text = Text::new(alloc);
    push_game_names(&mut text, alloc)?;
    for (place, game) in games.iter().enumerate() {
        push_game(&mut text, alloc, place as u64 + 1, moves, game)?;
    }
    Ok(text)
}
