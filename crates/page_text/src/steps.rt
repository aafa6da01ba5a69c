//! A line in words as nested lists.
ghost use Rattle.std.specs.Prelude.{◌≡◌, ◌≤◌, ◌<◌, ◌++◌, length, flat_map, option_copied};
ghost use Rattle.std.specs.Prelude.{IfOk, IfSome, OnOk};
ghost use Rattle.std.specs.List.{range_with_len};
ghost use Rattle.page_text.specs.Steps.{indentation, level_of, level_after, repeated, turn};
ghost use Rattle.page_text.specs.Steps.{layout_class, step_classes, mark, tag};
ghost use Rattle.page_text.specs.Steps.{card_in, word_as, sentence, step, steps};

use crate::markup::{CLASSES, INNER_LIST, LIST, LIST_END, NEXT_STEP, STEP};
use crate::shared::push_numbered;
use crate::signs::push_card;
use byte_text::{first_word, split_line};
use card_letters::read_card;
use card_sets::Card;
use html_text::Page;
use std::alloc::AllocError;
use win_vectors::WinVector;

// The spaces at the front of a line of text.
fn indentation(text: &[u8]) -> usize
    ensures { result ≡ indentation text.now }
{
    text.iter()
        .position(|byte| *byte != b' ')
        .unwrap_or(text.len())
}

// The level of its step: 1, and 1 more for each two spaces.
fn level_of(text: &[u8]) -> usize
    ensures { result ≡ level_of text.now }
{
    indentation(text) / 2 + 1
}

fn push_repeated(page: &mut Page, times: usize, markup: &'static [u8]) -> Result<(), AllocError>
    ensures { OnOk result (page.new ≡ page.old ++ repeated times markup.now) }
{
    for _ in 0..times {
        page.own(markup)?;
    }
    Ok(())
}

// From a step of one level to the next one's tag.
#[tactic(auto, unfolding(crate::specs::Steps::turn))]
fn push_turn(page: &mut Page, level: usize, next: usize) -> Result<(), AllocError>
    ensures { OnOk result (page.new ≡ page.old ++ turn level next) }
{
    if level < next {
        page.own(LIST)?;
        return push_repeated(page, next - level - 1, INNER_LIST);
    }
    push_repeated(page, level - next, LIST_END)?;
    page.own(NEXT_STEP)
}

// Adds a class for the layout at a place, if it can reach the step.
fn push_layout_class(page: &mut Page, layouts: WinVector, place: u16) -> Result<(), AllocError>
    requires { place < length layouts }
    ensures { OnOk result (page.new ≡ page.old ++ layout_class layouts place) }
{
    if !layouts.get(place) {
        return Ok(());
    }
    push_numbered(page, place + 1, b"l", b" ")
}

fn push_layout_classes(page: &mut Page, layouts: WinVector) -> Result<(), AllocError>
    ensures { OnOk result (page.new
        ≡ page.old ++ flat_map (layout_class layouts) (range_with_len 0 (length layouts))) }
{
    for place in 0..layouts.width() {
        push_layout_class(page, layouts, place)?;
    }
    Ok(())
}

#[tactic(auto, unfolding(crate::specs::Steps::step_classes))]
fn push_step_classes(page: &mut Page, layouts: WinVector) -> Result<(), AllocError>
    ensures { OnOk result (page.new ≡ page.old ++ step_classes layouts) }
{
    page.own(CLASSES)?;
    push_layout_classes(page, layouts)?;
    page.own(b"'")
}

// Adds the classes of a step that not every layout can reach.
fn push_mark(page: &mut Page, layouts: Option<&WinVector>) -> Result<(), AllocError>
    ensures { OnOk result (page.new ≡ page.old ++ mark (option_copied layouts.entry)) }
{
    let Some(layouts) = layouts else {
        return Ok(());
    };
    if layouts.count() == layouts.width() {
        return Ok(());
    }
    push_step_classes(page, *layouts)
}

// Adds the tag of a step by its line and its place there.
#[tactic(auto, unfolding(crate::specs::Steps::tag))]
fn push_tag(
    page: &mut Page,
    line: u64,
    place: usize,
    layouts: Option<&WinVector>,
) -> Result<(), AllocError>
    ensures { OnOk result (page.new ≡ page.old ++ tag line place (option_copied layouts.entry)) }
{
    page.number_between(STEP, line, b"-")?;
    page.number(place as u64)?;
    page.own(b"'")?;
    push_mark(page, layouts)?;
    page.own(b">")
}

// The card that a word begins with, as SA or D2.
fn card_in(word: &[u8]) -> Option<Card>
    ensures value { result ≡ card_in word.now }
    ensures inside { IfSome result (λ card. 2 ≤ length word.now) }
{
    match word {
        [suit, rank, ..] if *suit <= b'Z' && *rank <= b'Z' => read_card(*suit, *rank),
        _ => None,
    }
}

// Adds a word, of which a card has the sign of its suit.
fn push_word(page: &mut Page, word: &[u8]) -> Result<(), AllocError>
    ensures { OnOk result (page.new ≡ page.old ++ word_as (card_in word.now) word.now) }
{
    match card_in(word) {
        Some(card) => {
            push_card(page, card)?;
            page.told(&word[2..])
        }
        None => page.told(word),
    }
}

// Adds the words of a text, with the signs of suits.
fn push_sentence(page: &mut Page, text: &[u8]) -> Result<(), AllocError>
    ensures { OnOk result (page.new ≡ page.old ++ sentence text.now) }
{
    let mut rest = text;
    'words: while let Some((word, after)) = first_word(rest) {
        push_word(page, word)?;
        page.own(b" ")?;
        rest = after;
    }
    Ok(())
}

// Adds the step of a text line at a place, after one of this level, and gives the level after it.
#[tactic(auto, unfolding(crate::specs::Steps::step))]
fn push_step(
    page: &mut Page,
    line: u64,
    place: usize,
    layouts: Option<&WinVector>,
    level: usize,
    text: &[u8],
) -> Result<usize, AllocError>
    ensures step { OnOk result (page.new
        ≡ page.old ++ step line place (option_copied layouts.entry) level text.now) }
    ensures level { IfOk result (λ next. next ≡ level_after level text.now) }
{
    if text.is_empty() {
        return Ok(level);
    }
    let next = level_of(text);
    push_turn(page, level, next)?;
    push_tag(page, line, place, layouts)?;
    push_sentence(page, text)?;
    Ok(next)
}

/// Adds a text in words as nested lists: a step for each line, and within it the lines that are
/// indented further, by two spaces for each level. Each step is named after the number of the
/// report's line and its place there, and marked with the layouts that can reach it.
pub fn push_steps(
    page: &mut Page,
    line: u64,
    reached: &[WinVector],
    words: &[u8],
) -> Result<(), AllocError>
    ensures { OnOk result (page.new ≡ page.old ++ steps line reached.now words.now) }
{
    let mut level = 0;
    let mut place = 0;
    let mut rest = Some(words);
    'lines: while let Some(text) = rest {
        let (step, after) = split_line(text);
        level = push_step(page, line, place, reached.get(place), level, step)?;
        place += 1;
        rest = after;
    }
    push_repeated(page, level, LIST_END)
}
