//! The text of a log that proves a report complete.
ghost use Rattle.std.specs.Prelude.{◌≡◌, IfOk};
ghost use Rattle.am_report.specs.Audit.{audit_text};

use crate::lines::verdict_text;
use byte_text::Text;
use std::alloc::{AllocError, Global};

/// That a log of this many lines proves a report complete.
#[tactic(auto, unfolding(crate::specs::Audit::audit_text))]
pub fn audit_text(alloc: Global, lines: u32) -> Result<Text, AllocError>
    ensures { IfOk result (λ text. text ≡ audit_text lines) }
{
    verdict_text(alloc, b"alphamu audit 1", b"lines ", lines, b"complete")
}
