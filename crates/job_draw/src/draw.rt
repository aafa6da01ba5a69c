//! Layouts that are drawn for a deal.
ghost use Rattle.std.specs.Prelude.{◌≡◌, ◌-◌, ◌<◌, ◌^◌, IfErr, IfOk, length};
ghost use Rattle.job_draw.specs.DrawJob.{IsDrawFile, IsDrawFor, IsDrawRefusal};
ghost use Rattle.job_draw.specs.DrawJob.{IsRefusedFor};

use crate::refusal::DrawRefusal;
use crate::seats::for_defenders;
use crate::text::draw_text;
use am_inputs::read_deal;
use byte_text::Text;
use job_words::Draw;
use layout_draw::draw_layouts;
use pbn_deal::Board;
use std::alloc::Global;

// The file of layouts drawn for a board.
fn draw_for(alloc: Global, board: &Board, draw: Draw) -> Result<Text, DrawRefusal>
    ensures text { IfOk result (IsDrawFor board.now draw) }
    ensures refused { IfErr result (IsRefusedFor board.now draw) }
{
    let Draw {
        amount,
        seed,
        conditions,
    } = draw;
    let conditions = match for_defenders(board.declarer(), conditions) {
        Ok(conditions) => conditions,
        Err(option) => return Err(DrawRefusal::NotDefender(option)),
    };
    let drawn = draw_layouts(alloc, board, &conditions, seed, usize::from(amount))?;
    Ok(draw_text(alloc, board, seed, &drawn)?)
}

/// The layouts that are drawn for the board of a deal file, as a layout file whose first line says
/// how many layouts fit.
///
/// They are as many as are asked for, or all that fit if there are fewer: different layouts, each
/// allowed by the play so far, in which each defender's hand before the first card meets one of the
/// conditions on it. They stand in the order of `list`.
///
/// Errors: `NotDefender` if a condition is on a hand of declarer's side; the refusals of the deal
/// file; `BadMake` if the board doesn't show the defenders' cards or no layout fits; `Memory`.
pub fn draw_file(alloc: Global, deal: &Text, draw: Draw) -> Result<Text, DrawRefusal>
    requires { length deal.now < 2 ^ 32 - 1 }
    ensures text { IfOk result (IsDrawFile deal.now draw) }
    ensures refused { IfErr result (IsDrawRefusal deal.now draw) }
{
    let board = read_deal(alloc, deal)?;
    draw_for(alloc, &board, draw)
}
