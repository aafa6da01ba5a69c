//! What plain sampling believes, as text.
ghost use Rattle.std.specs.Prelude.{◌≡◌, true, IfOk, length};
ghost use Rattle.fusion_base.specs.Sampling.{card_vectors};
ghost use Rattle.am_answer.specs.Answers.{has_choice};
ghost use Rattle.am_answer.specs.Tasks.{Fusion};
ghost use Rattle.am_answer.specs.Reports.{IsText};

use am_answer::Root;
use am_report::fusion_text;
use byte_text::Text;
use fusion_base::{CardVector, per_card, per_card_alone};
use std::alloc::{AllocError, Global};
use std::thread::Threads;

// The table at a root as text.
fn text_of(alloc: Global, root: &Root, table: &[CardVector]) -> Result<Text, AllocError>
    requires table { table.now ≡ card_vectors root.now.kept.node }
    requires weighed { length root.now.kept.weights ≡ length root.now.kept.node.lefts }
    ensures { IfOk result (IsText (Fusion root.now)) }
{
    fusion_text(alloc, table, &root.kept.weights)
}

/// The table of what plain sampling believes of each card at a root. It fails only if an allocation
/// fails.
pub fn sample_text<R: Threads + Sync>(
    rt: &R,
    alloc: Global,
    root: &Root,
) -> Result<Text, AllocError>
    requires turn { has_choice root.now.kept.node ≡ true }
    requires weighed { length root.now.kept.weights ≡ length root.now.kept.node.lefts }
    ensures { IfOk result (IsText (Fusion root.now)) }
{
    let table = per_card(rt, alloc, &root.kept.node)?;
    text_of(alloc, root, &table)
}

/// What `sample_text` gives, with no thread but the caller's.
pub fn sample_text_alone(alloc: Global, root: &Root) -> Result<Text, AllocError>
    requires turn { has_choice root.now.kept.node ≡ true }
    requires weighed { length root.now.kept.weights ≡ length root.now.kept.node.lefts }
    ensures { IfOk result (IsText (Fusion root.now)) }
{
    let table = per_card_alone(alloc, &root.kept.node)?;
    text_of(alloc, root, &table)
}
