//! The forms in which decisions are told.
ghost use Rattle.std.specs.Prelude.{◌≡◌, IfOk};
ghost use Rattle.review_forms.specs.Forms.{review_in, reviews_in};

use crate::objects::{review_json, reviews_json};
use crate::records::{review_csv, reviews_csv};
use byte_text::Text;
use review_text::{GameReview, Reviewed, review_text, reviews_text};
use std::alloc::{AllocError, Global};
use text_forms::Form;

/// The decisions of a board in a form, in the order of play, with the greatest number of moves.
///
/// Errors: an allocation fails.
pub fn review_in(
    alloc: Global,
    form: Form,
    moves: u8,
    told: &[Reviewed],
) -> Result<Text, AllocError>
    ensures { IfOk result (λ text. text ≡ review_in form moves told.now) }
{
    match form {
        Form::Text => review_text(alloc, moves, told),
        Form::Csv => review_csv(alloc, moves, told),
        Form::Json => review_json(alloc, moves, told),
    }
}

/// The reviews of the games of a file in a form, in order. The games are numbered from 1.
///
/// Errors: an allocation fails.
pub fn reviews_in(
    alloc: Global,
    form: Form,
    moves: u8,
    games: &[GameReview],
) -> Result<Text, AllocError>
    ensures { IfOk result (λ text. text ≡ reviews_in form moves games.now) }
{
    match form {
        Form::Text => reviews_text(alloc, moves, games),
        Form::Csv => reviews_csv(alloc, moves, games),
        Form::Json => reviews_json(alloc, moves, games),
    }
}
