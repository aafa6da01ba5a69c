//! All layouts of a board, as text.
ghost use Rattle.std.specs.Prelude.{IfOk, IfErr};
ghost use Rattle.layout_maker.specs.Divisions.{layouts_made};
ghost use Rattle.am_answer.specs.Answers.{listed_or};
ghost use Rattle.am_answer.specs.Stages.{IsFileRefusal, IsTextFor};

use am_answer::Status;
use am_report::list_text;
use byte_text::Text;
use layout_maker::all_layouts;
use pbn_deal::Board;
use std::alloc::Global;

/// All layouts of a board that the play allows, as a layout file.
pub fn list_layouts(alloc: Global, board: &Board) -> Result<Text, Status>
    ensures text { IfOk result (IsTextFor (listed_or board.now (layouts_made board.now))) }
    ensures refused { IfErr result (IsFileRefusal (listed_or board.now (layouts_made board.now))) }
{
    let layouts = all_layouts(alloc, board)?;
    Ok(list_text(alloc, board, &layouts)?)
}
