//! The nearer of two places.
ghost use Rattle.std.specs.Prelude.{◌≡◌, IfOk, option_map};
ghost use Rattle.line_partings.specs.Nearest.{nearer, with_card};

use crate::walk::Parting;
use card_sets::Card;
use std::alloc::AllocError;

/// The place, if there is one, with a card before its history. Histories are short, at most a pack
/// of cards, so that a card is put in front of one quickly.
pub fn after_card(card: Card, found: Option<Parting>) -> Result<Option<Parting>, AllocError>
    ensures { IfOk result (λ after. after ≡ option_map (with_card card) found) }
{
    let Some(mut parting) = found else {
        return Ok(None);
    };
    parting.history.insert(0, card)?;
    Ok(Some(parting))
}

/// The place with the shorter history, and the first of two that are equally short.
pub fn nearer(here: Option<Parting>, there: Option<Parting>) -> Option<Parting>
    ensures { result ≡ nearer here there }
{
    let Some(first) = here else {
        return there;
    };
    let Some(second) = there else {
        return Some(first);
    };
    if first.history.len() <= second.history.len() {
        Some(first)
    } else {
        Some(second)
    }
}
