//! The answer at a root, with its vectors and their plans as lines of a report.
ghost use Rattle.std.specs.Prelude.{[], All, IfOk};
ghost use Rattle.plan_finder.specs.Targets.{IsOfFront};
ghost use Rattle.root_workers.specs.Plain.{HasWorkers};
ghost use Rattle.root_workers.specs.Questions.{IsQuestion, NamesSpent, NamesFirstSpent};
ghost use Rattle.root_workers.specs.Questions.{FitsIfPlain};
ghost use Rattle.root_workers.specs.Rounds.{HasSeenMore};
ghost use Rattle.shared_table.specs.Passes.{IsPassOf};
ghost use Rattle.root_answers.specs.EntryTexts.{AreEntriesWritten};
ghost use Rattle.root_answers.specs.Written.{IsWrittenAnswer};

use crate::order::reported;
use crate::wanted::plan_wanted;
use am_report::vector_text;
use byte_text::Text;
use card_sets::Card;
use dd_solver::Solver;
use front_table::{FrontStore, NoStore};
use plan_finder::PlanWriter;
use root_workers::{Question, RootCrew};
use shared_table::{Pass, SharedStore};
use strategy_tree::RootFault;
use win_vectors::WinVector;

/// The answer at a root: the lines of the front's vectors and their plans, as a report lists them,
/// how many vectors there are, the named card and the best weight.
#[derive(Drop)]
pub struct WrittenAnswer {
    pub lines: Text,
    pub vectors: usize,
    pub card: Card,
    pub weight: u32,
}

// The lines of these vectors, each with the plan for it. What the plans have in common is found
// once, and its lines copied.
fn written<'a, S: FrontStore>(
    store: &mut S,
    solver: &mut Solver,
    question: &'a Question<'a>,
    vectors: &'a [WinVector],
) -> Result<Text, RootFault>
    requires question { IsQuestion question.now }
    requires targets { All (λ v. IsOfFront question.now.node.now question.now.moves v)
        vectors.now }
    ensures lines { IfOk result (λ lines. AreEntriesWritten question.now.node.now
        question.now.weights.now question.now.moves vectors.now [] lines) }
    ensures spent { NamesSpent question.now result }
{
    let mut out = PlanWriter::for_front(question.alloc, vectors.len());
    for vector in vectors {
        let line = vector_text(question.alloc, question.weights, *vector)?;
        out.push(line.bytes())?;
        out.push_plan(store, solver, &plan_wanted(question, vector))?;
    }
    let lines = Text::from_bytes(question.alloc, out.bytes())?;
    Ok(lines)
}

// The lines of these vectors of the node's front with their plans. The plans are found over the
// table, if the options say so, by a pass that ends with them.
fn written_over(
    question: &Question,
    solver: &mut Solver,
    pass: &mut Pass,
    vectors: &[WinVector],
) -> Result<Text, RootFault>
    requires question { IsQuestion question.now }
    requires pass { IsPassOf question.now.table.now pass.old }
    requires targets { All (λ v. IsOfFront question.now.node.now question.now.moves v)
        vectors.now }
    ensures lines { IfOk result (λ lines. AreEntriesWritten question.now.node.now
        question.now.weights.now question.now.moves vectors.now [] lines) }
    ensures spent { NamesSpent question.now result }
    ensures pass { IsPassOf question.now.table.now pass.new }
    ensures grown { HasSeenMore pass.old pass.new }
{
    if question.options.table {
        let mut own = question.table.split(pass);
        let mut store = SharedStore::new(question.table, &mut own);
        written(&mut store, solver, question, vectors)
    } else {
        written(&mut NoStore, solver, question, vectors)
    }
}

/// The answer of a node at which declarer's side is to play, with 1 to 26 moves: the lines of the
/// vectors of its front and of the plan for each, in report order; the first card after which the
/// best weight is kept; and that weight, by a weight for each of the node's layouts. The crew, the
/// gate, the table and the cuts change none of them.
///
/// The front is found as `root_front` finds it, and the plans after it, over the same table and by
/// the solver of the first worker; their lines are written as they are found. A crew in threads
/// joins them, so it may wait.
///
/// `Spent` names a root card whose tree has more nodes than a search may enter; with neither table
/// nor cuts the first such card. If there is one, no answer comes then.
pub fn written_root<C: RootCrew>(
    crew: &C,
    question: &Question,
    pass: &mut Pass,
) -> Result<WrittenAnswer, RootFault>
    requires ready { C.ready crew.now }
    requires question { IsQuestion question.now }
    requires workers { HasWorkers question.now.options.now }
    requires pass { IsPassOf question.now.table.now pass.old }
    ensures written { IfOk result (IsWrittenAnswer question.now.node.now
        question.now.weights.now question.now.moves) }
    ensures fits { FitsIfPlain question.now result }
    ensures spent { NamesSpent question.now result }
    ensures first_spent { NamesFirstSpent question.now result }
    ensures pass { IsPassOf question.now.table.now pass.new }
    ensures grown { HasSeenMore pass.old pass.new }
{
    let mut workers = question.workers()?;
    let found = question.front_by(crew, pass, &mut workers)?;
    let vectors = reported(question, &found.front)?;
    let lines = written_over(question, &mut workers[0].solver, pass, &vectors)?;
    Ok(WrittenAnswer {
        lines,
        vectors: vectors.len(),
        card: found.card,
        weight: found.weight,
    })
}
