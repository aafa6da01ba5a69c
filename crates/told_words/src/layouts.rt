//! The layouts behind a step, in words.
ghost use Rattle.std.specs.Prelude.{◌≡◌, ◌++◌, ◌≤◌, OnOk};
ghost use Rattle.win_vectors.specs.Vectors.{most_layouts};
ghost use Rattle.told_words.specs.Numbers.{has_layout, has_one, number_text, layouts_text};
ghost use Rattle.told_words.specs.Numbers.{some_text, between, outcome_text, given_up_text};

use byte_text::Text;
use std::alloc::{AllocError, Global};
use told_layouts::StepLayouts;
use win_vectors::WinVector;

// Whether the layout of this number, from 1, is one of these.
fn has_layout(layouts: WinVector, number: u16) -> bool
    ensures { result ≡ has_layout layouts number }
{
    if number == 0 || number > layouts.width() {
        return false;
    }
    layouts.get(number - 1)
}

// Whether there is one.
fn has_one(layouts: WinVector) -> bool
    ensures { result ≡ has_one layouts }
{
    layouts.count() > 0
}

// Appends a number, if the text has it.
fn push_number(
    out: &mut Text,
    alloc: Global,
    layouts: WinVector,
    begun: bool,
    number: u16,
) -> Result<(), AllocError>
    requires { number ≤ most_layouts }
    ensures { OnOk result (out.new ≡ out.old ++ number_text layouts begun number) }
{
    if !has_layout(layouts, number) {
        return Ok(());
    }
    let follows = has_layout(layouts, number.saturating_sub(1));
    if follows && has_layout(layouts, number + 1) {
        return Ok(());
    }
    if follows && has_layout(layouts, number.saturating_sub(2)) {
        out.push(b" to ")?;
    } else if begun {
        out.push(b", ")?;
    }
    out.push_number(alloc, u64::from(number))
}

// Appends the numbers of these layouts.
fn push_layouts(out: &mut Text, alloc: Global, layouts: WinVector) -> Result<(), AllocError>
    ensures { OnOk result (out.new ≡ out.old ++ layouts_text layouts) }
{
    let mut begun = false;
    for place in 0..layouts.width() {
        push_number(out, alloc, layouts, begun, place + 1)?;
        begun |= layouts.get(place);
    }
    Ok(())
}

// Appends the words, and the numbers of the layouts, if there are any.
fn push_some(
    out: &mut Text,
    alloc: Global,
    words: &[u8],
    layouts: WinVector,
) -> Result<(), AllocError>
    ensures { OnOk result (out.new ≡ out.old ++ some_text words.now layouts) }
{
    if !has_one(layouts) {
        return Ok(());
    }
    out.push(words)?;
    push_layouts(out, alloc, layouts)
}

// Appends what stands between the layouts that are made and those that fail.
fn push_between(out: &mut Text, won: WinVector, lost: WinVector) -> Result<(), AllocError>
    ensures { OnOk result (out.new ≡ out.old ++ between won lost) }
{
    if has_one(won) && has_one(lost) {
        return out.push(b"; ");
    }
    Ok(())
}

/// Appends in which layouts the contract is made from a step, and in which it fails.
pub fn push_outcome(out: &mut Text, alloc: Global, layouts: &StepLayouts) -> Result<(), AllocError>
    ensures { OnOk result (out.new ≡ out.old ++ outcome_text layouts.now.won layouts.now.lost) }
{
    out.push(b" (")?;
    push_some(out, alloc, b"made in ", layouts.won)?;
    push_between(out, layouts.won, layouts.lost)?;
    push_some(out, alloc, b"fails in ", layouts.lost)?;
    out.push(b")")
}

/// Appends which layouts are given up, if there are any.
pub fn push_given_up(out: &mut Text, alloc: Global, layouts: WinVector) -> Result<(), AllocError>
    ensures { OnOk result (out.new ≡ out.old ++ given_up_text layouts) }
{
    push_some(out, alloc, b", giving up ", layouts)
}
