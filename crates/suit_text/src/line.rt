//! The line for a number of tricks.
ghost use Rattle.std.specs.Prelude.{◌≡◌, ◌++◌, ◌<◌, OnOk};
ghost use Rattle.suit_text.specs.Shares.{yes_or_no, suit_line};

use crate::share::push_share;
use byte_text::Text;
use std::alloc::{AllocError, Global};

/// What is known of the best line of play for a number of tricks of a suit, in weights of layouts.
#[derive(Clone, Copy, Debug)]
pub struct SuitLine {
    /// How many tricks of the suit are wanted.
    pub tricks: u8,
    /// No line of play makes them in more.
    pub most: u32,
    /// One makes them in as many.
    pub least: u32,
    /// What a simulation believes in.
    pub sampled: u32,
    /// The weight of all layouts.
    pub total: u32,
}

fn yes_or_no(is_so: bool) -> &'static [u8]
    ensures { result.now ≡ yes_or_no is_so }
{
    if is_so { b"yes" } else { b"no" }
}

/// Adds the line for a number of tricks: each weight as a percentage of all layouts, to two places
/// with a half rounded up, and as a fraction; and whether the best weight is known for sure.
#[tactic(auto, unfolding(crate::specs::Shares::suit_line))]
pub fn push_line(text: &mut Text, alloc: Global, line: &SuitLine) -> Result<(), AllocError>
    requires { 0 < line.now.total }
    ensures { OnOk result (text.new ≡ text.old ++ suit_line line.now) }
{
    text.push(b"tricks ")?;
    text.push_number(alloc, u64::from(line.tricks))?;
    text.push(b" most ")?;
    push_share(text, alloc, line.most, line.total)?;
    text.push(b" least ")?;
    push_share(text, alloc, line.least, line.total)?;
    text.push(b" sampled ")?;
    push_share(text, alloc, line.sampled, line.total)?;
    text.push(b" final ")?;
    text.push(yes_or_no(line.most == line.least))?;
    text.push(b"\n")?;
    Ok(())
}
