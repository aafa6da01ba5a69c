//! All decisions of a play, in order.
ghost use Rattle.std.specs.Prelude.{◌≡◌, ◌<◌, ◌-◌, ◌^◌, Some, length, slice_get, All, IfOk, IfErr, IfSome};
ghost use Rattle.board_decisions.specs.Decisions.{AreDecisions, IsWeighed};
ghost use Rattle.board_decisions.specs.Decisions.{IsFaultBefore, IsFoundAt};

use crate::moments::{is_chosen, is_turn, kept_before};
use layout_list::{Kept, LayoutFault};
use pbn_deal::{Board, Played};
use std::alloc::Global;

/// A card of declarer's side that was chosen, and what was known just before it: the layouts that
/// the play up to there allows. Its place in the play is counted from 0.
#[derive(Debug, Drop)]
pub struct Decision {
    pub place: u16,
    pub played: Played,
    pub kept: Kept,
}

// The decision at a place of the play, if the card there is one.
fn decision_at(
    alloc: Global,
    bytes: &[u8],
    board: &Board,
    from: u8,
    place: u16,
    played: Played,
) -> Result<Option<Decision>, LayoutFault>
    requires played { slice_get board.now.plays place ≡ Some played }
    requires short { length bytes.now < 2 ^ 32 - 1 }
    ensures found { IfOk result (IsFoundAt board.now bytes.now from place) }
    ensures weighed { IfOk result (λ found. IfSome found IsWeighed) }
    ensures refused { IfErr result (IsFaultBefore board.now bytes.now from) }
{
    if !is_turn(from, place, played.seat) {
        return Ok(None);
    }
    let kept = kept_before(alloc, bytes, board, usize::from(place))?;
    if is_chosen(&kept.node, played.card) {
        Ok(Some(Decision {
            place,
            played,
            kept,
        }))
    } else {
        Ok(None)
    }
}

/// The decisions of declarer's side in the play of a board, from a trick on, in the order of play.
/// The bytes are those of the layout file. Tricks are counted from 1.
///
/// Errors: those of `layouts`, just before the first card of declarer's side at which the file is
/// refused. If declarer's side has played no card from that trick on, the file isn't read.
pub fn decisions(
    alloc: Global,
    bytes: &[u8],
    board: &Board,
    from: u8,
) -> Result<Vec<Decision>, LayoutFault>
    requires { length bytes.now < 2 ^ 32 - 1 }
    ensures decisions { IfOk result (λ found. AreDecisions board.now bytes.now from found.items) }
    ensures weighed { IfOk result (λ found. All IsWeighed found.items) }
    ensures refused { IfErr result (IsFaultBefore board.now bytes.now from) }
{
    let mut found = Vec::new(alloc);
    for (place, played) in board.plays().iter().enumerate() {
        if let Some(decision) = decision_at(alloc, bytes, board, from, place as u16, *played)? {
            found.push(decision).map_err(|_| LayoutFault::Memory)?;
        }
    }
    Ok(found)
}
