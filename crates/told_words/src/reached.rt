//! The layouts that can reach each line of a told plan in words.
ghost use Rattle.std.specs.Prelude.{◌≡◌, ◌++◌, [], ◌∷◌, not, IfOk, OnOk};
ghost use Rattle.told_plans.specs.Told.{ToldPlay};
ghost use Rattle.told_plans.specs.ToldMeaning.{told_of, branches_of};
ghost use Rattle.told_words.specs.Words.{is_one};
ghost use Rattle.told_words.specs.Reached.{begun_line, lines_below, lines_of, lines_reached};
ghost use Rattle.told_words.specs.Strategies.{FitsItsNode, reached_of};

use crate::steps::Strategy;
use card_sets::{Card, CardSet};
use std::alloc::{AllocError, Global};
use told_layouts::reached_at;
use told_plans::{Branch, ToldPlan};
use win_vectors::WinVector;

/// For each line of a told plan in words, the layouts that can reach it, in the order of the lines.
pub fn lines_reached(
    alloc: Global,
    strategy: &Strategy,
    told: &ToldPlan,
) -> Result<Vec<WinVector>, AllocError>
    requires { FitsItsNode strategy.now }
    ensures { IfOk result (λ found. found.items
        ≡ lines_reached (reached_of strategy.now) (told_of told.now)) }
{
    let sets = Vec::new(alloc);
    let mut found = Vec::new(alloc);
    push_line(strategy, true, &sets, &mut found)?;
    push_below(alloc, strategy, told, &sets, &mut found)?;
    Ok(found)
}

// Adds those that can reach the step after these sets, if it begins a line.
fn push_line(
    strategy: &Strategy,
    begins: bool,
    sets: &[CardSet],
    found: &mut Vec<WinVector>,
) -> Result<(), AllocError>
    requires { FitsItsNode strategy.now }
    ensures { OnOk result (found.new.items
        ≡ found.old.items ++ begun_line (reached_of strategy.now) begins sets.now) }
{
    if !begins {
        return Ok(());
    }
    found.push(reached_at(strategy.plan, strategy.node, sets))?;
    Ok(())
}

// Adds those that can reach each line below a step.
#[cycle(reached)]
fn push_below(
    alloc: Global,
    strategy: &Strategy,
    told: &ToldPlan,
    sets: &[CardSet],
    found: &mut Vec<WinVector>,
) -> Result<(), AllocError>
    requires { FitsItsNode strategy.now }
    ensures { OnOk result (found.new.items ≡ found.old.items
        ++ lines_below (reached_of strategy.now) (told_of told.now) sets.now) }
{
    match told {
        ToldPlan::Stop => Ok(()),
        ToldPlan::Play(card, rest) => push_play(alloc, strategy, *card, rest, sets, found),
        ToldPlan::Hear(branches) => push_branches(alloc, strategy, branches, sets, found),
    }
}

// The same of what follows a card of declarer's side.
#[cycle(reached)]
fn push_play(
    alloc: Global,
    strategy: &Strategy,
    card: Card,
    rest: &ToldPlan,
    sets: &[CardSet],
    found: &mut Vec<WinVector>,
) -> Result<(), AllocError>
    requires { FitsItsNode strategy.now }
    ensures { OnOk result (found.new.items ≡ found.old.items
        ++ lines_below (reached_of strategy.now) (ToldPlay card (told_of rest.now)) sets.now) }
{
    let cards = CardSet::empty().with(card);
    let after = with_set(alloc, sets, cards)?;
    push_below(alloc, strategy, rest, &after, found)
}

// The same of branches: if there are several, each begins a line.
#[cycle(reached)]
fn push_branches(
    alloc: Global,
    strategy: &Strategy,
    branches: &[Branch],
    sets: &[CardSet],
    found: &mut Vec<WinVector>,
) -> Result<(), AllocError>
    requires { FitsItsNode strategy.now }
    ensures { OnOk result (found.new.items ≡ found.old.items ++ lines_of (reached_of strategy.now)
        (not (is_one (branches_of branches.now))) (branches_of branches.now) sets.now) }
{
    let begins = begin_lines(branches);
    for branch in branches {
        let after = with_set(alloc, sets, branch.cards)?;
        push_line(strategy, begins, &after, found)?;
        push_below(alloc, strategy, &branch.plan, &after, found)?;
    }
    Ok(())
}

// Whether branches begin a line each.
#[tactic(auto, using(crate::proofs::Telling::one_begins, crate::proofs::Telling::several_begin))]
fn begin_lines(branches: &[Branch]) -> bool
    ensures { result ≡ not (is_one (branches_of branches.now)) }
{
    if branches.len() == 1 {
        return false;
    }
    true
}

// These sets, and one more.
fn with_set(alloc: Global, sets: &[CardSet], set: CardSet) -> Result<Vec<CardSet>, AllocError>
    ensures { IfOk result (λ all. all.items ≡ sets.now ++ set ∷ []) }
{
    let mut all = Vec::from_slice(alloc, sets)?;
    all.push(set)?;
    Ok(all)
}
