//! Decisions as an object of JSON.
ghost use Rattle.std.specs.Prelude.{◌≡◌, IfOk, map};
ghost use Rattle.std.specs.List.{enumerate_from};
ghost use Rattle.serde_json.specs.View.{view};
ghost use Rattle.review_forms.specs.Objects.{cost_data, decision_data, named_data, review_data, review_json};
ghost use Rattle.review_forms.specs.Objects.{told_data, refused_data, outcome_data, game_data};
ghost use Rattle.review_forms.specs.Objects.{reviews_data, reviews_json};

use byte_text::Text;
use review_text::{
    GameReview, Reviewed, all_told, costly_among, greatest_cost, greatest_up_to, maybe_costly_among,
};
use serde_json::{Value, json};
use std::alloc::{AllocError, Global};
use text_forms::{card_string, compass_string, json_line};

// What the card cost.
#[tactic(auto, unfolding(crate::specs::Objects::cost_data))]
fn cost_value(alloc: Global, told: &Reviewed) -> Result<Value, AllocError>
    ensures { IfOk result (λ value. view value ≡ cost_data told.now) }
{
    json!(in alloc; {
        "final": told.is_final(),
        "least": told.cost(),
        "most": told.cost_up_to(),
    })
}

// The card named with its bounds.
#[tactic(auto, unfolding(crate::specs::Objects::named_data))]
fn named_value(alloc: Global, told: &Reviewed) -> Result<Value, AllocError>
    ensures { IfOk result (λ value. view value ≡ named_data told.now) }
{
    let card = card_string(alloc, told.named)?;
    json!(in alloc; {
        "card": card,
        "least": told.named_least,
        "most": told.named_most,
    })
}

// What was told of a decision.
#[tactic(auto, unfolding(crate::specs::Objects::decision_data))]
fn decision_value(alloc: Global, told: &Reviewed) -> Result<Value, AllocError>
    ensures { IfOk result (λ value. view value ≡ decision_data told.now) }
{
    let cost = cost_value(alloc, told)?;
    let named = named_value(alloc, told)?;
    let played = card_string(alloc, told.played)?;
    let seat = compass_string(alloc, told.seat)?;
    json!(in alloc; {
        "cost": cost,
        "layouts": told.layouts,
        "least": told.least,
        "most": told.most,
        "named": named,
        "number": told.number,
        "played": played,
        "seat": seat,
        "trick": told.trick,
        "weight": told.weight,
    })
}

// What was told of each decision.
fn decision_values(alloc: Global, told: &[Reviewed]) -> Result<Vec<Value>, AllocError>
    ensures { IfOk result (λ values. map view values.items ≡ map decision_data told.now) }
{
    let mut values = Vec::new(alloc);
    for decision in told {
        values.push(decision_value(alloc, decision)?)?;
    }
    Ok(values)
}

// The review of a board as a value.
#[tactic(auto, unfolding(crate::specs::Objects::review_data))]
fn review_value(alloc: Global, moves: u8, told: &[Reviewed]) -> Result<Value, AllocError>
    ensures { IfOk result (λ value. view value ≡ review_data moves told.now) }
{
    let decisions = decision_values(alloc, told)?;
    json!(in alloc; {
        "costly": costly_among(told) as u64,
        "costly_up_to": maybe_costly_among(told) as u64,
        "decisions": decisions,
        "greatest": greatest_cost(told),
        "greatest_up_to": greatest_up_to(told),
        "moves": moves,
    })
}

/// One object with how many decisions cost something, a list of the decisions, the greatest cost,
/// and the greatest number of moves; of costs what is certain and what may be. The members of each object are in the order of their keys. No
/// blanks stand between them, and a line feed at the end.
///
/// Errors: an allocation fails.
pub fn review_json(alloc: Global, moves: u8, told: &[Reviewed]) -> Result<Text, AllocError>
    ensures { IfOk result (λ text. text ≡ review_json moves told.now) }
{
    json_line(alloc, &review_value(alloc, moves, told)?)
}

// A game that was reviewed.
#[tactic(auto, unfolding(crate::specs::Objects::told_data))]
fn told_value(alloc: Global, moves: u8, number: u64, told: &[Reviewed]) -> Result<Value, AllocError>
    ensures { IfOk result (λ value. view value ≡ told_data moves number told.now) }
{
    let review = review_value(alloc, moves, told)?;
    json!(in alloc; { "game": number, "review": review })
}

// A refused game.
#[tactic(auto, unfolding(crate::specs::Objects::refused_data))]
fn refused_value(alloc: Global, number: u64, said: &Text) -> Result<Value, AllocError>
    ensures { IfOk result (λ value. view value ≡ refused_data number said.now) }
{
    let reason = String::from_utf8_lossy(alloc, said.bytes())?;
    json!(in alloc; { "game": number, "refused": reason })
}

// What came of a game.
fn game_value(alloc: Global, moves: u8, number: u64, game: &GameReview) -> Result<Value, AllocError>
    ensures { IfOk result (λ value. view value ≡ outcome_data moves number game.now) }
{
    match game {
        GameReview::Told(told) => told_value(alloc, moves, number, told),
        GameReview::Refused(said) => refused_value(alloc, number, said),
    }
}

// What came of each game, numbered from 1.
fn game_values(alloc: Global, moves: u8, games: &[GameReview]) -> Result<Vec<Value>, AllocError>
    ensures { IfOk result (λ values.
        map view values.items ≡ map (game_data moves) (enumerate_from 1 games.now)) }
{
    let mut values = Vec::new(alloc);
    for (place, game) in games.iter().enumerate() {
        values.push(game_value(alloc, moves, place as u64 + 1, game)?)?;
    }
    Ok(values)
}

// The reviews of many games as a value.
#[tactic(auto, unfolding(crate::specs::Objects::reviews_data))]
fn reviews_value(alloc: Global, moves: u8, games: &[GameReview]) -> Result<Value, AllocError>
    ensures { IfOk result (λ value. view value ≡ reviews_data moves games.now) }
{
    let told = all_told(alloc, games)?;
    let values = game_values(alloc, moves, games)?;
    json!(in alloc; {
        "costly": costly_among(&told) as u64,
        "costly_up_to": maybe_costly_among(&told) as u64,
        "games": values,
        "greatest": greatest_cost(&told),
        "greatest_up_to": greatest_up_to(&told),
        "moves": moves,
    })
}

/// One object with how many decisions of all games cost something, a list of the games in order,
/// the greatest cost, and the greatest number of moves; of costs what is certain and what may be. A game has its number, counted from 1, and
/// either its review, which is the object of one board, or the reason why it was refused. The
/// members of each object are in the order of their keys. No blanks stand between them, and a line
/// feed at the end.
///
/// Errors: an allocation fails.
pub fn reviews_json(alloc: Global, moves: u8, games: &[GameReview]) -> Result<Text, AllocError>
    ensures { IfOk result (λ text. text ≡ reviews_json moves games.now) }
{
    json_line(alloc, &reviews_value(alloc, moves, games)?)
}
