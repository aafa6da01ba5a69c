//! What several parts of a page share.
ghost use Rattle.std.specs.Prelude.{◌≡◌, ◌++◌, flat_map, OnOk};
ghost use Rattle.std.specs.List.{range_with_len};
ghost use Rattle.page_text.specs.Shared.{numbered};

use html_text::Page;
use std::alloc::AllocError;

/// Adds a number between two texts.
#[tactic(auto, unfolding(crate::specs::Shared::numbered))]
pub fn push_numbered(
    page: &mut Page,
    number: u16,
    before: &'static [u8],
    after: &'static [u8],
) -> Result<(), AllocError>
    ensures { OnOk result (page.new ≡ page.old ++ numbered before.now after.now number) }
{
    page.number_between(before, u64::from(number), after)
}

/// Adds the numbers from 1 to this one, each between two texts.
pub fn push_each_numbered(
    page: &mut Page,
    last: u16,
    before: &'static [u8],
    after: &'static [u8],
) -> Result<(), AllocError>
    ensures { OnOk result (page.new ≡ page.old
        ++ flat_map (numbered before.now after.now) (range_with_len 1 last)) }
{
    for place in 0..last {
        push_numbered(page, place + 1, before, after)?;
    }
    Ok(())
}
