//! What stands round the parts of a page.
ghost use Rattle.std.specs.Prelude.{◌≡◌, ◌++◌, OnOk, option_copied};
ghost use Rattle.html_text.specs.Pages.{own};
ghost use Rattle.page_text.specs.declared.markup.TheConstants.{NAVIGATION};
ghost use Rattle.page_text.specs.declared.script.TheConstants.{END};
ghost use Rattle.page_text.specs.Frames.{start, told_by, fact, tags as tag_pieces, facts, report};

use crate::markup::{
    BOARD, CONTRACT, EVENT, FACTS, FACTS_END, HEAD, HEAD_END, NAVIGATION, REPORT, REPORT_END,
    STYLE, TITLE_END,
};
use crate::picking::push_rules;
use crate::script::END;
use crate::signs::compass_word;
use card_letters::letters_of;
use card_sets::{Card, Compass};
use html_text::Page;
use std::alloc::AllocError;

/// Adds the head, with the card to play as title, and the style for a page of this many layouts.
#[tactic(auto, unfolding(crate::specs::Frames::start))]
pub fn push_start(page: &mut Page, card: Card, width: u16) -> Result<(), AllocError>
    ensures { OnOk result (page.new ≡ page.old ++ start card width) }
{
    page.own(HEAD)?;
    page.told(&letters_of(card))?;
    page.own(TITLE_END)?;
    page.own(STYLE)?;
    push_rules(page, width)?;
    page.own(HEAD_END)
}

// Adds what a tag of the deal file says, if it is there.
#[tactic(auto, unfolding(crate::specs::Frames::fact))]
fn push_fact(page: &mut Page, front: &'static [u8], value: Option<&[u8]>) -> Result<(), AllocError>
    ensures { OnOk result (page.new ≡ page.old ++ fact front.now (option_copied value.entry)) }
{
    let Some(bytes) = value else {
        return Ok(());
    };
    page.own(front)?;
    page.told(bytes)?;
    page.own(b"</li>\n")
}

/// What the deal file says of its first game: the values of its tags.
#[derive(Clone, Copy)]
pub struct Tags<'a> {
    pub event: Option<&'a [u8]>,
    pub board: Option<&'a [u8]>,
    pub contract: Option<&'a [u8]>,
}

#[tactic(auto, unfolding(crate::specs::Frames::tags))]
fn push_tags(page: &mut Page, tags: &Tags) -> Result<(), AllocError>
    ensures { OnOk result (page.new ≡ page.old ++ tag_pieces (told_by tags.now)) }
{
    page.own(FACTS)?;
    push_fact(page, EVENT, tags.event)?;
    push_fact(page, BOARD, tags.board)?;
    push_fact(page, CONTRACT, tags.contract)
}

/// Adds what the deal file says, and whose turn it is.
#[tactic(auto, unfolding(crate::specs::Frames::facts))]
pub fn push_facts(page: &mut Page, tags: &Tags, turn: Compass) -> Result<(), AllocError>
    ensures { OnOk result (page.new ≡ page.old ++ facts (told_by tags.now) turn) }
{
    push_tags(page, tags)?;
    page.own(b"<li>")?;
    page.own(compass_word(turn))?;
    page.own(FACTS_END)
}

/// Adds links to the parts of the page.
pub fn push_navigation(page: &mut Page) -> Result<(), AllocError>
    ensures { OnOk result (page.new ≡ page.old ++ own NAVIGATION.now) }
{
    page.own(NAVIGATION)
}

/// Adds the report itself, byte for byte.
#[tactic(auto, unfolding(crate::specs::Frames::report))]
pub fn push_report(page: &mut Page, bytes: &[u8]) -> Result<(), AllocError>
    ensures { OnOk result (page.new ≡ page.old ++ report bytes.now) }
{
    page.own(REPORT)?;
    page.told(bytes)?;
    page.own(REPORT_END)
}

/// Adds the end of the page.
pub fn push_end(page: &mut Page) -> Result<(), AllocError>
    ensures { OnOk result (page.new ≡ page.old ++ own END.now) }
{
    page.own(END)
}
