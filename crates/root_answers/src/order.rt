//! The vectors of a front as a report lists them.
ghost use Rattle.std.specs.Prelude.{◌≡◌, ◌==◌, IfOk, length, All, AllPairs, IsPermutation};
ghost use Rattle.std.specs.Prelude.{if◌then◌else◌};
ghost use Rattle.win_vectors.specs.Fronts.{Precedes};
ghost use Rattle.win_vectors.specs.Weights.{weight_of, IsReportedBefore};
ghost use Rattle.front_table.specs.Proven.{IsFrontAt};
ghost use Rattle.root_workers.specs.Questions.{IsQuestion};
ghost use Rattle.am_answer.specs.ReportOrder.{IsReportedFront};

use pareto_fronts::Front;
use root_workers::Question;
use std::alloc::{AllocError, Global};
use std::cmp::Reverse;
use win_vectors::{Weights, WinVector};

/// The vectors of a root's front in report order: the heavier first, and equally heavy ones in the
/// front's order.
pub fn reported(question: &Question, front: &Front) -> Result<Vec<WinVector>, AllocError>
    requires question { IsQuestion question.now }
    requires front { IsFrontAt question.now.node.now question.now.moves front.now }
    ensures { IfOk result (λ vectors. IsReportedFront question.now.node.now
        question.now.weights.now question.now.moves vectors.items) }
{
    by_weight(question.alloc, question.weights, front.as_slice())
}

// Vectors that are in order, put in report order.
fn by_weight(
    alloc: Global,
    weights: &Weights,
    ordered: &[WinVector],
) -> Result<Vec<WinVector>, AllocError>
    requires wide { All (λ v. length v ≡ length weights.now) ordered.now }
    requires ordered { AllPairs Precedes ordered.now }
    ensures same { IfOk result (λ vectors. IsPermutation ordered.now vectors.items) }
    ensures reported { IfOk result (λ vectors.
        AllPairs (IsReportedBefore weights.now) vectors.items) }
{
    let mut vectors = Vec::new(alloc);
    for vector in ordered {
        vectors.push(*vector)?;
    }
    vectors.sort_by_cached_key(|vector| Reverse(weight_in(weights, *vector)))?;
    Ok(vectors)
}

// The weight of a vector that has a bit for each layout, and 0 for another one.
fn weight_in(weights: &Weights, vector: WinVector) -> u32
    ensures { result ≡ (if length weights.now == length vector
        then weight_of weights.now vector else 0) }
{
    if weights.width() == vector.width() {
        weights.total(vector)
    } else {
        0
    }
}
