//! The layouts that the play rules out.
ghost use Rattle.std.specs.Prelude.{◌≡◌, ◌++◌, OnOk};
ghost use Rattle.page_report.specs.ReportPages.{cause_words, dropped_pieces, left_out};

use crate::markup::{AT_CARD, DROPPED, DROPPED_END};
use html_text::Page;
use layout_list::{Cause, Dropped};
use std::alloc::AllocError;

fn cause_words(cause: Cause) -> &'static [u8]
    ensures { result.now ≡ cause_words cause }
{
    match cause {
        Cause::NotHeld => b" of the play the defender doesn&#8217;t hold that card.</p>\n",
        Cause::Revoke => b" of the play the defender could have followed suit.</p>\n",
    }
}

#[tactic(auto, unfolding(crate::specs::ReportPages::dropped_pieces))]
fn push_dropped(page: &mut Page, layout: &Dropped) -> Result<(), AllocError>
    ensures { OnOk result (page.new ≡ page.old ++ dropped_pieces layout.now) }
{
    page.own(DROPPED)?;
    page.number(u64::from(layout.number))?;
    page.own(AT_CARD)?;
    page.number(u64::from(layout.play))?;
    page.own(cause_words(layout.cause))
}

/// Adds the layouts that are left out, and why.
#[tactic(auto, unfolding(crate::specs::ReportPages::left_out))]
pub fn push_left_out(page: &mut Page, dropped: &[Dropped]) -> Result<(), AllocError>
    ensures { OnOk result (page.new ≡ page.old ++ left_out dropped.now) }
{
    for layout in dropped {
        push_dropped(page, layout)?;
    }
    page.own(DROPPED_END)
}
