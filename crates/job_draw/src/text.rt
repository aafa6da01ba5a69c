//! The file of drawn layouts.
ghost use Rattle.std.specs.Prelude.{◌≡◌, IfOk, length};
ghost use Rattle.job_draw.specs.DrawJob.{draw_line, draw_text};

use am_report::list_text;
use byte_text::Text;
use layout_draw::Drawn;
use pbn_deal::Board;
use std::alloc::{AllocError, Global};

// The line that says how many layouts were drawn, of how many, and by which number.
#[tactic(auto, unfolding(crate::specs::DrawJob::draw_line))]
fn draw_line(alloc: Global, drawn: u64, count: u64, seed: u64) -> Result<Text, AllocError>
    ensures { IfOk result (λ line. line ≡ draw_line drawn count seed) }
{
    let mut line = Text::new(alloc);
    line.push(b"% ")?;
    line.push_number(alloc, drawn)?;
    line.push(b" of ")?;
    line.push_number(alloc, count)?;
    line.push(b" layouts that the play and these conditions allow, seed ")?;
    line.push_number(alloc, seed)?;
    line.push(b"\n")?;
    Ok(line)
}

/// The file of the layouts that were drawn by this number.
#[tactic(auto, unfolding(crate::specs::DrawJob::draw_text))]
pub(crate) fn draw_text(
    alloc: Global,
    board: &Board,
    seed: u64,
    drawn: &Drawn,
) -> Result<Text, AllocError>
    ensures { IfOk result (λ text. text
        ≡ draw_text board.now seed drawn.now.count drawn.now.layouts.items) }
{
    let mut text = draw_line(alloc, drawn.layouts.len() as u64, drawn.count as u64, seed)?;
    text.push(list_text(alloc, board, &drawn.layouts)?.bytes())?;
    Ok(text)
}
