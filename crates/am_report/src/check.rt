//! The text of a report whose plans are all good.
ghost use Rattle.std.specs.Prelude.{◌≡◌, ◌++◌, IfOk};
ghost use Rattle.am_report.specs.Check.{check_text};

use crate::lines::verdict_text;
use byte_text::Text;
use std::alloc::{AllocError, Global};

/// How many plans a report has, and that they are good.
#[tactic(auto, unfolding(crate::specs::Check::check_text))]
pub fn check_text(alloc: Global, plans: u32) -> Result<Text, AllocError>
    ensures { IfOk result (λ text. text ≡ check_text plans) }
{
    verdict_text(alloc, b"alphamu check 1", b"plans ", plans, b"good")
}
