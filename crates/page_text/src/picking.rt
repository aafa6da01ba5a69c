//! The picker of a layout, and the rules by which a page shows the one that is picked.
ghost use Rattle.std.specs.Prelude.{◌≡◌, ◌++◌, OnOk};
ghost use Rattle.page_text.specs.Picking.{picker, part_if, columns_if, shown_if, hidden_if};
ghost use Rattle.page_text.specs.Picking.{rule, rules};

use crate::markup::{
    CELLS, CHOICE, CHOICE_END, HANDS, HEADS, HIDDEN, ITEMS, PICKED, PICKER, PICKER_END, SHOWN,
    STEPS,
};
use crate::shared::push_each_numbered;
use html_text::Page;
use std::alloc::AllocError;

/// Adds the picker of one of this many layouts. What is picked is shown by the rules.
#[tactic(auto, unfolding(crate::specs::Picking::picker))]
pub fn push_picker(page: &mut Page, width: u16) -> Result<(), AllocError>
    ensures { OnOk result (page.new ≡ page.old ++ picker width) }
{
    page.own(PICKER)?;
    push_each_numbered(page, width, CHOICE, CHOICE_END)?;
    page.own(PICKER_END)
}

// Adds a part of the page, by its kind and its place, if the layout of this number is picked.
#[tactic(auto, unfolding(crate::specs::Picking::part_if))]
fn push_part_if(
    page: &mut Page,
    number: u16,
    kind: &'static [u8],
    place: u64,
) -> Result<(), AllocError>
    ensures { OnOk result (page.new ≡ page.old ++ part_if number kind.now place) }
{
    page.number_between(PICKED, u64::from(number) + 1, kind)?;
    page.number(place)?;
    page.own(b")")
}

#[tactic(auto, unfolding(crate::specs::Picking::columns_if))]
fn push_columns_if(page: &mut Page, number: u16) -> Result<(), AllocError>
    ensures { OnOk result (page.new ≡ page.old ++ columns_if number) }
{
    let place = u64::from(number) + 3;
    push_part_if(page, number, CELLS, place)?;
    page.own(b",")?;
    push_part_if(page, number, HEADS, place)
}

#[tactic(auto, unfolding(crate::specs::Picking::shown_if))]
fn push_shown_if(page: &mut Page, number: u16) -> Result<(), AllocError>
    ensures { OnOk result (page.new ≡ page.old ++ shown_if number) }
{
    push_part_if(page, number, HANDS, u64::from(number) + 1)?;
    page.own(b",")?;
    push_columns_if(page, number)?;
    page.own(b",")?;
    push_part_if(page, number, ITEMS, u64::from(number))?;
    page.own(SHOWN)
}

#[tactic(auto, unfolding(crate::specs::Picking::hidden_if))]
fn push_hidden_if(page: &mut Page, number: u16) -> Result<(), AllocError>
    ensures { OnOk result (page.new ≡ page.old ++ hidden_if number) }
{
    push_part_if(page, number, STEPS, u64::from(number))?;
    page.own(HIDDEN)
}

fn push_rule(page: &mut Page, number: u16) -> Result<(), AllocError>
    ensures { OnOk result (page.new ≡ page.old ++ rule number) }
{
    push_shown_if(page, number)?;
    push_hidden_if(page, number)
}

/// Adds a rule of style for each of this many layouts: what is shown if that one is picked.
pub fn push_rules(page: &mut Page, width: u16) -> Result<(), AllocError>
    ensures { OnOk result (page.new ≡ page.old ++ rules width) }
{
    for place in 0..width {
        push_rule(page, place + 1)?;
    }
    Ok(())
}
