//! The report of an answer, whole, and its parts for a writer that puts plans between them.
ghost use Rattle.std.specs.Prelude.{◌≡◌, ◌++◌, IfOk, OnOk, flat_map, length, All};
ghost use Rattle.am_report.specs.Solve.{vector_line, entry_text};
ghost use Rattle.am_report.specs.Solve.{solve_start, solve_end, solve_text};

use crate::answer::{Entry, SolveAnswer};
use crate::card::push_named;
use crate::head::head_text;
use crate::lines::push_number_line;
use crate::version::{Version, push_weight};
use bit_letters::push_bits;
use byte_text::Text;
use card_sets::Card;
use layout_list::Kept;
use pbn_deal::Board;
use std::alloc::{AllocError, Global};
use win_vectors::{Weights, WinVector};

#[tactic(auto, unfolding(crate::specs::Solve::vector_line))]
pub(crate) fn push_vector_line(
    text: &mut Text,
    alloc: Global,
    weights: &Weights,
    vector: WinVector,
) -> Result<(), AllocError>
    requires { length weights.now ≡ length vector }
    ensures { OnOk result (text.new ≡ text.old ++ vector_line weights.now vector) }
{
    text.push(b"vector ")?;
    push_bits(text, vector)?;
    push_weight(text, alloc, Version::of(weights), weights.total(vector))?;
    text.push(b"\n")
}

// Appends each vector with its plan.
fn push_entries(
    text: &mut Text,
    alloc: Global,
    weights: &Weights,
    entries: &[Entry],
) -> Result<(), AllocError>
    requires { All (λ entry. length weights.now ≡ length entry.vector) entries.now }
    ensures { OnOk result (text.new ≡ text.old ++ flat_map (entry_text weights.now) entries.now) }
{
    for entry in entries {
        push_vector_line(text, alloc, weights, entry.vector)?;
        entry.plan.lines(alloc, text)?;
    }
    Ok(())
}

/// The report up to the first vector: its head, and how many vectors the front has.
#[tactic(auto, unfolding(crate::specs::Solve::solve_start))]
pub fn solve_start(
    alloc: Global,
    board: &Board,
    kept: &Kept,
    moves: u8,
    vectors: usize,
) -> Result<Text, AllocError>
    ensures { IfOk result (λ text. text ≡ solve_start board.now kept.now moves vectors) }
{
    let mut text = head_text(alloc, board, kept, moves)?;
    push_number_line(&mut text, alloc, b"front ", vectors as u64)?;
    Ok(text)
}

/// The line before a vector's plan: the vector, which has a bit for each layout, and its weight. If
/// each layout weighs 1, that is a count of layouts.
pub fn vector_text(alloc: Global, weights: &Weights, vector: WinVector) -> Result<Text, AllocError>
    requires { length weights.now ≡ length vector }
    ensures { IfOk result (λ text. text ≡ vector_line weights.now vector) }
{
    let mut text = Text::new(alloc);
    push_vector_line(&mut text, alloc, weights, vector)?;
    Ok(text)
}

/// The report behind the last plan: the card to play with the weight of the kept layouts in which
/// the contract is made, and the end.
#[tactic(auto, unfolding(crate::specs::Solve::solve_end))]
pub fn solve_end(
    alloc: Global,
    weights: &Weights,
    card: Card,
    weight: u32,
) -> Result<Text, AllocError>
    ensures { IfOk result (λ text. text ≡ solve_end weights.now card weight) }
{
    let mut text = Text::new(alloc);
    push_named(&mut text, alloc, Version::of(weights), card, weight)?;
    text.push(b"\n")?;
    text.push(b"end\n")?;
    Ok(text)
}

/// The report: its head, then the number of vectors of the front, each vector with its weight and
/// its plan, and the card to play with the weight of the kept layouts in which the contract is
/// made. If each layout weighs 1, a weight is a count of layouts. The vectors have a bit for each
/// layout.
#[tactic(auto, unfolding(crate::specs::Solve::solve_text))]
pub fn solve_text(
    alloc: Global,
    board: &Board,
    kept: &Kept,
    moves: u8,
    answer: &SolveAnswer,
) -> Result<Text, AllocError>
    requires { All (λ entry. length kept.now.weights ≡ length entry.vector)
        answer.now.entries }
    ensures { IfOk result (λ text. text ≡ solve_text board.now kept.now moves answer.now) }
{
    let vectors = answer.entries.len();
    let mut text = solve_start(alloc, board, kept, moves, vectors)?;
    push_entries(&mut text, alloc, &kept.weights, &answer.entries)?;
    let end = solve_end(alloc, &kept.weights, answer.card, answer.weight)?;
    text.push(end.bytes())?;
    Ok(text)
}
