//! What plain sampling believes of each card at a root.
ghost use Rattle.std.specs.Prelude.{◌≡◌, false, true, length, map, All, IfOk};
ghost use Rattle.trick_rules.specs.Positions.{to_play};
ghost use Rattle.trick_rules.specs.Play.{is_declarers, is_over};
ghost use Rattle.page_report.specs.ReportPages.{belief_of, beliefs_of};

use fusion_base::{CardVector, per_card_alone};
use layout_list::Kept;
use page_text::Belief;
use std::alloc::{AllocError, Global};
use win_vectors::Weights;

fn belief_of(weights: &Weights, judged: &CardVector) -> Belief
    requires { length weights.now ≡ length judged.now.vector }
    ensures { result ≡ belief_of weights.now judged.now }
{
    Belief {
        card: judged.card,
        vector: judged.vector,
        weight: weights.total(judged.vector),
    }
}

fn weighed(
    alloc: Global,
    weights: &Weights,
    table: &[CardVector],
) -> Result<Vec<Belief>, AllocError>
    requires { All (λ judged. length weights.now ≡ length judged.vector) table.now }
    ensures { IfOk result (λ beliefs. beliefs.items ≡ map (belief_of weights.now) table.now) }
{
    let mut beliefs = Vec::new(alloc);
    for judged in table {
        beliefs.push(belief_of(weights, judged))?;
    }
    Ok(beliefs)
}

/// What plain sampling believes of each card that can be played, in card order.
pub fn beliefs_of(alloc: Global, kept: &Kept) -> Result<Vec<Belief>, AllocError>
    requires ours { is_declarers (to_play kept.now.node.position) ≡ true }
    requires goes_on { is_over kept.now.node.position ≡ false }
    requires weighed { length kept.now.weights ≡ length kept.now.node.lefts }
    ensures { IfOk result (λ beliefs. beliefs.items ≡ beliefs_of kept.now) }
{
    let table = per_card_alone(alloc, &kept.node)?;
    weighed(alloc, &kept.weights, &table)
}
