//! What is reported of each root card.
ghost use Rattle.std.specs.Prelude.{◌≡◌, ◌↔◌, ◌≤◌, ◌-◌, false, true, Some, take, slice_get, length};
ghost use Rattle.std.specs.Prelude.{IfOk, Contains};
ghost use Rattle.trick_rules.specs.Nodes.{choices, child};
ghost use Rattle.front_table.specs.Proven.{IsFrontAt};
ghost use Rattle.shared_table.specs.Passes.{IsPassOf, table_plan, view_of};
ghost use Rattle.root_workers.specs.Rounds.{HasSeenMore};
ghost use Rattle.root_workers.specs.Founds.{AreFound};
ghost use Rattle.root_workers.specs.Reports.{stored_of, IsStoredAs, HasCause, AreReports, course_of};

use crate::question::Question;
use alphamu_core::Found;
use card_sets::Card;
use front_table::{ProvenFront, Put};
use pareto_fronts::Front;
use shared_table::Pass;
use std::alloc::AllocError;

/// What became of the front after a root card, once it was found whole.
#[derive(Clone, Copy, Debug, PartialEq, Eq)]
pub enum Stored {
    /// In the table.
    Table,
    /// Not in the table, since its shard is full.
    Full,
    /// Not in the table, since it has more vectors than an entry may have.
    TooWide,
    /// Not in the table, since another thread was inside of its shard.
    Busy,
    /// Not in the table, since there was no memory.
    Memory,
    /// The searches look into no table.
    Off,
}

/// What became of a root card.
#[derive(Clone, Copy, Debug, PartialEq, Eq)]
pub enum Outcome {
    /// The front after it was found.
    Exact(Stored),
    /// The cards before it cover what is won after it.
    Below,
    /// It was left, since the cards before it win all that is won with a move less.
    Skipped,
}

/// A root card, and what became of it.
#[derive(Clone, Copy, Debug, PartialEq, Eq)]
pub struct CardReport {
    pub card: Card,
    pub outcome: Outcome,
}

// The front after a root card, as an entry of the table.
fn entry_of(question: &Question, card: Card, front: &Front) -> Result<ProvenFront, AllocError>
    requires some_moves { 1 ≤ question.now.moves }
    requires card { Contains (choices question.now.node.now) card }
    requires front { IsFrontAt (child question.now.node.now card) (question.now.moves - 1)
        front.now }
    ensures node { IfOk result (λ entry. entry.node ≡ child question.now.node.now card) }
    ensures moves { IfOk result (λ entry. entry.moves ≡ question.now.moves - 1) }
    ensures front { IfOk result (λ entry. IsFrontAt entry.node entry.moves entry.front) }
{
    let (child, _) = question.node.child(question.alloc, card)?;
    Ok(ProvenFront::new(child, question.moves - 1, front.copy()?))
}

// What became of a front that was put.
fn stand_of(put: &Put) -> Stored
    ensures { result ≡ stored_of put.now }
{
    match put {
        Put::Kept | Put::Present(_) => Stored::Table,
        Put::Full(_) => Stored::Full,
        Put::TooWide(_) => Stored::TooWide,
        Put::Busy(_) => Stored::Busy,
        Put::Memory(_) => Stored::Memory,
    }
}

// Puts the front after a root card into the table, if there is one, and says what became of it.
fn put_front(question: &Question, pass: &mut Pass, card: Card, front: &Front) -> Stored
    requires pass { IsPassOf question.now.table.now pass.old }
    requires some_moves { 1 ≤ question.now.moves }
    requires card { Contains (choices question.now.node.now) card }
    requires front { IsFrontAt (child question.now.node.now card) (question.now.moves - 1)
        front.now }
    ensures stored { IsStoredAs (table_plan question.now.table.now)
        (child question.now.node.now card)
        (question.now.moves - 1) (view_of pass.old) (view_of pass.new) result }
    ensures off { (result ≡ Stored.Off) ↔ (question.now.options.now.table ≡ false) }
    ensures pass { IsPassOf question.now.table.now pass.new }
    ensures grown { HasSeenMore pass.old pass.new }
{
    if !question.options.table {
        return Stored::Off;
    }
    let Ok(entry) = entry_of(question, card, front) else {
        return Stored::Memory;
    };
    stand_of(&question.table.put(pass, entry))
}

// What became of the root card at a place, by what was found.
fn outcome_of(
    question: &Question,
    pass: &mut Pass,
    founds: &Vec<Found>,
    place: usize,
    card: Card,
) -> Outcome
    requires some_moves { 1 ≤ question.now.moves }
    requires pass { IsPassOf question.now.table.now pass.old }
    requires founds { AreFound question.now.node.now question.now.moves
        (question.now.options.now.cuts ≡ true) founds.now.items }
    requires card { slice_get (choices question.now.node.now) place ≡ Some card }
    ensures cause { HasCause (course_of question.now.node.now question.now.moves
        question.now.options.now question.now.table.now pass.old pass.new)
        (take place (choices question.now.node.now)) card result }
    ensures pass { IsPassOf question.now.table.now pass.new }
    ensures grown { HasSeenMore pass.old pass.new }
{
    if place >= founds.len() {
        return Outcome::Skipped;
    }
    match &founds[place] {
        Found::Exact(front) => Outcome::Exact(put_front(question, pass, card, front)),
        Found::Below => Outcome::Below,
    }
}

/// What became of each root card, in card order, by what the last round found.
pub fn reports(
    question: &Question,
    pass: &mut Pass,
    founds: &Vec<Found>,
) -> Result<Vec<CardReport>, AllocError>
    requires some_moves { 1 ≤ question.now.moves }
    requires pass { IsPassOf question.now.table.now pass.old }
    requires founds { AreFound question.now.node.now question.now.moves
        (question.now.options.now.cuts ≡ true) founds.now.items }
    ensures reports { IfOk result (λ reports. AreReports (course_of question.now.node.now
        question.now.moves question.now.options.now question.now.table.now pass.old pass.new)
        reports.items) }
    ensures pass { IsPassOf question.now.table.now pass.new }
    ensures grown { HasSeenMore pass.old pass.new }
{
    let mut reports = Vec::new(question.alloc);
    let mut cards = question.node.choices();
    'cards: while let Some(card) = cards.pop_first() {
        let outcome = outcome_of(question, pass, founds, reports.len(), card);
        reports.push(CardReport { card, outcome })?;
    }
    Ok(reports)
}
