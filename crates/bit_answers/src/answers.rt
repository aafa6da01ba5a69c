//! What is answered to a question in numbers.
ghost use Rattle.std.specs.Prelude.{IfOk, IfErr};
ghost use Rattle.bit_answers.specs.Faults.{IsRefusedFor};
ghost use Rattle.bit_answers.specs.Answers.{AreFrontWords, AreWorths, HoldsAt, IsChoice};

use crate::fault::BitFault;
use crate::searches::{root_card, root_front};
use crate::structs::{Choice, Worth};
use crate::worths::worths;
use bit_questions::{Question, read};
use std::alloc::Global;
use vector_words::front_words;

/// The first card that keeps the best weight, and that weight.
pub fn card(
    alloc: Global,
    question: &Question,
    lefts: &[u64],
    weights: &[u32],
) -> Result<Choice, BitFault>
    ensures choice { IfOk result (λ choice. HoldsAt question.now lefts.now
        (λ n. IsChoice n weights.now question.now.moves choice)) }
    ensures refused { IfErr result (IsRefusedFor question.now lefts.now weights.now) }
{
    let asked = read(alloc, question, lefts, weights)?;
    let found = root_card(alloc, &asked)?;
    Ok(Choice {
        card: u32::from(found.card.number()),
        weight: found.weight,
    })
}

/// Each legal card with what it is worth, in card order.
pub fn cards(
    alloc: Global,
    question: &Question,
    lefts: &[u64],
    weights: &[u32],
) -> Result<Vec<Worth>, BitFault>
    ensures worths { IfOk result (λ all. HoldsAt question.now lefts.now
        (λ n. AreWorths n weights.now question.now.moves all.items)) }
    ensures refused { IfErr result (IsRefusedFor question.now lefts.now weights.now) }
{
    let asked = read(alloc, question, lefts, weights)?;
    Ok(worths(alloc, &asked)?)
}

/// The vectors of the front in its order, four words each: layout i is bit i % 64 of word i / 64.
pub fn front(
    alloc: Global,
    question: &Question,
    lefts: &[u64],
    weights: &[u32],
) -> Result<Vec<u64>, BitFault>
    ensures words { IfOk result (λ words. HoldsAt question.now lefts.now
        (λ n. AreFrontWords n question.now.moves words.items)) }
    ensures refused { IfErr result (IsRefusedFor question.now lefts.now weights.now) }
{
    let asked = read(alloc, question, lefts, weights)?;
    let found = root_front(alloc, &asked)?;
    Ok(front_words(alloc, &found)?)
}
