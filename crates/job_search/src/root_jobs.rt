//! The report of a root, the card to play at it, and the first strategy that is printed for it.
ghost use Rattle.std.specs.Prelude.{◌≡◌, true, Ok, IfOk, IfErr, length};
ghost use Rattle.front_table.specs.Proven.{IsFrontAt};
ghost use Rattle.strategy_tree.specs.RootTrees.{AllFit};
ghost use Rattle.root_workers.specs.Questions.{IsQuestion, NamesSpent};
ghost use Rattle.shared_table.specs.Passes.{IsPassOf};
ghost use Rattle.job_words.specs.Asks.{IsMoves, IsSearchWithinLimits};
ghost use Rattle.am_answer.specs.Answers.{has_choice};
ghost use Rattle.am_answer.specs.Tasks.{Card, Match, Playing, Solve};
ghost use Rattle.am_answer.specs.Endings.{IsPlain};
ghost use Rattle.am_answer.specs.Matches.{IsFirstStrategy};
ghost use Rattle.am_answer.specs.Stages.{IsTaskRefusal, IsTextFor};

use am_answer::{Root, Status};
use am_report::{Entry, card_text};
use byte_text::Text;
use dd_solver::Solver;
use job_words::Search;
use pareto_fronts::Front;
use root_answers::{chosen_plan, options_of, report_text, reported, table_of, written_root};
use root_workers::{Question, RootCrew};
use shared_table::Pass;
use std::alloc::Global;
use strategy_tree::RootFault;

/// The report of a root, for `moves` moves of declarer's side. Errors: `Spent` at a root card whose
/// tree has more nodes than a search may enter, in a plain search the first such card; `Memory`.
/// The crew and its gate change nothing of it.
pub fn solve<C: RootCrew>(
    crew: &C,
    alloc: Global,
    root: &Root,
    moves: u8,
    search: &Search,
) -> Result<Text, Status>
    requires ready { C.ready crew.now }
    requires turn { has_choice root.now.kept.node ≡ true }
    requires weighed { length root.now.kept.weights ≡ length root.now.kept.node.lefts }
    requires moves { IsMoves moves }
    requires limits { IsSearchWithinLimits search.now }
    ensures text { IfOk result (IsTextFor (Ok (Solve root.now moves search.now))) }
    ensures refused { IfErr result (IsTaskRefusal (Ok (Solve root.now moves search.now))) }
{
    let options = options_of(search);
    let (table, mut pass) = table_of(alloc, search)?;
    let question = Question {
        alloc,
        node: &root.kept.node,
        moves,
        weights: &root.kept.weights,
        options: &options,
        table: &table,
    };
    let answer = written_root(crew, &question, &mut pass)?;
    Ok(report_text(alloc, root, moves, &answer)?)
}

/// The first card that keeps the best weight, with that weight, for `moves` moves of declarer's
/// side.
/// Errors: those of `solve`.
pub fn name_card<C: RootCrew>(
    crew: &C,
    alloc: Global,
    root: &Root,
    moves: u8,
    search: &Search,
) -> Result<Text, Status>
    requires ready { C.ready crew.now }
    requires turn { has_choice root.now.kept.node ≡ true }
    requires weighed { length root.now.kept.weights ≡ length root.now.kept.node.lefts }
    requires moves { IsMoves moves }
    requires limits { IsSearchWithinLimits search.now }
    ensures text { IfOk result (IsTextFor (Ok (Card root.now moves search.now))) }
    ensures refused { IfErr result (IsTaskRefusal (Ok (Card root.now moves search.now))) }
{
    let options = options_of(search);
    let (table, mut pass) = table_of(alloc, search)?;
    let question = Question {
        alloc,
        node: &root.kept.node,
        moves,
        weights: &root.kept.weights,
        options: &options,
        table: &table,
    };
    let found = question.card(crew, &mut pass)?;
    Ok(card_text(alloc, found.card, found.weight, question.weights)?)
}

// The first vector of a front in report order, with the plan for it.
fn first_entry(
    question: &Question,
    solver: &mut Solver,
    pass: Pass,
    front: &Front,
) -> Result<Entry, RootFault>
    requires question { IsQuestion question.now }
    requires pass { IsPassOf question.now.table.now pass }
    requires front { IsFrontAt question.now.node.now question.now.moves front.now }
    ensures first { IfOk result (λ entry. IsFirstStrategy question.now.node.now
        question.now.weights.now question.now.moves entry.vector entry.plan) }
    ensures spent { NamesSpent question.now result }
{
    prove!(question.node.width() > 0);
    let vectors = reported(question, front)?;
    let vector = vectors[0];
    Ok(Entry {
        vector,
        plan: chosen_plan(question, solver, pass, &vector)?,
    })
}

/// The first vector that is printed for a root, for `moves` moves of declarer's side, with its
/// plan.
/// Errors: those of `solve`.
pub fn first_strategy<C: RootCrew>(
    crew: &C,
    alloc: Global,
    root: &Root,
    moves: u8,
    search: &Search,
) -> Result<Entry, Status>
    requires ready { C.ready crew.now }
    requires turn { has_choice root.now.kept.node ≡ true }
    requires weighed { length root.now.kept.weights ≡ length root.now.kept.node.lefts }
    requires moves { IsMoves moves }
    requires limits { IsSearchWithinLimits search.now }
    ensures first { IfOk result (λ entry.
        IsFirstStrategy root.now.kept.node root.now.kept.weights moves
        entry.vector entry.plan) }
    ensures fits { IfOk result (λ _. IsPlain search.now
        → AllFit root.now.kept.node moves search.now.nodes) }
    ensures refused { (playing : Playing)
        → IfErr result (IsTaskRefusal (Ok (Match root.now moves search.now playing))) }
{
    let options = options_of(search);
    let (table, mut pass) = table_of(alloc, search)?;
    let question = Question {
        alloc,
        node: &root.kept.node,
        moves,
        weights: &root.kept.weights,
        options: &options,
        table: &table,
    };
    let mut workers = question.workers()?;
    let found = question.front_by(crew, &mut pass, &mut workers)?;
    let solver = &mut workers[0].solver;
    Ok(first_entry(&question, solver, pass, &found.front)?)
}
