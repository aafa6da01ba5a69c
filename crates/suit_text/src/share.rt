//! A weight as a share of all layouts.
ghost use Rattle.std.specs.Prelude.{◌≡◌, ◌++◌, ◌<◌, OnOk};
ghost use Rattle.suit_text.specs.Shares.{hundredths, percent_text, share_text};

use byte_text::Text;
use std::alloc::{AllocError, Global};

fn hundredths(part: u32, whole: u32) -> u64
    requires { 0 < whole }
    ensures { result ≡ hundredths part whole }
{
    let whole = u64::from(whole);
    (20_000 * u64::from(part) + whole) / (2 * whole)
}

#[tactic(auto, unfolding(crate::specs::Shares::percent_text))]
fn push_percent(text: &mut Text, alloc: Global, share: u64) -> Result<(), AllocError>
    ensures { OnOk result (text.new ≡ text.old ++ percent_text share) }
{
    text.push_number(alloc, share / 100)?;
    text.push(b".")?;
    text.push_number(alloc, share % 100 / 10)?;
    text.push_number(alloc, share % 10)?;
    text.push(b" %")?;
    Ok(())
}

/// Adds a weight as a percentage of the whole, to two places, and as a fraction.
#[tactic(auto, unfolding(crate::specs::Shares::share_text))]
pub(crate) fn push_share(
    text: &mut Text,
    alloc: Global,
    part: u32,
    whole: u32,
) -> Result<(), AllocError>
    requires { 0 < whole }
    ensures { OnOk result (text.new ≡ text.old ++ share_text part whole) }
{
    push_percent(text, alloc, hundredths(part, whole))?;
    text.push(b" ")?;
    text.push_number(alloc, u64::from(part))?;
    text.push(b"/")?;
    text.push_number(alloc, u64::from(whole))?;
    Ok(())
}
