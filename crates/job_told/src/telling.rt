//! A report that is judged and then told.
ghost use Rattle.std.specs.Prelude.{◌≡◌, ◌<◌, ◌-◌, ◌^◌, Ok, length, IfOk, IfErr};
ghost use Rattle.am_report.specs.Reading.{report_of, report_read};
ghost use Rattle.job_words.specs.declared.asks.LayoutsJob.TheVariants as jobs;
ghost use Rattle.am_answer.specs.Answers.{task_at};
ghost use Rattle.am_answer.specs.Judging.{plans_in};
ghost use Rattle.am_answer.specs.Stages.{IsFileRefusal};
ghost use Rattle.job_told.specs.ToldJob.{IsToldReport};

use am_answer::{Root, Status};
use am_report::{ReadReport, read_report};
use byte_text::Text;
use card_sets::Seat;
use dd_solver::Solver;
use fast_check::FastDoubleDummy;
use job_check::check_report_by;
use std::alloc::Global;
use told_report::tell_strategies;

/// A report at a root. It is judged first, and refused as `check` refuses it; the fast solver
/// settles the results that plans leave open.
#[tactic(auto, unfolding(am_answer::specs::Answers::task_at, am_answer::specs::Judging::plans_in))]
pub fn good_report(alloc: Global, root: &Root, bytes: &Text) -> Result<ReadReport, Status>
    requires weighed { length root.now.kept.weights ≡ length root.now.kept.node.lefts }
    requires short { length bytes.now < 2 ^ 32 - 1 }
    ensures read { IfOk result (λ report. report_read bytes.now ≡ Ok (report_of report)) }
    ensures good { IfOk result (λ report.
        plans_in root.now bytes.now ≡ Ok (length report.entries.items)) }
    ensures refused { IfErr result (IsFileRefusal (task_at root.now (jobs.Check bytes.now))) }
{
    let mut solver = Solver::new(alloc);
    check_report_by(alloc, root, bytes, &mut FastDoubleDummy(&mut solver))?;
    Ok(read_report(alloc, bytes.bytes())?)
}

/// The strategies of a report at a root, in words. The report is judged first, and refused as
/// `check` refuses it. Each told plan, cut down at the root's node, is the report's plan.
pub fn tell_report(alloc: Global, root: &Root, bytes: &Text) -> Result<Text, Status>
    requires weighed { length root.now.kept.weights ≡ length root.now.kept.node.lefts }
    requires short { length bytes.now < 2 ^ 32 - 1 }
    ensures text { IfOk result (IsToldReport root.now bytes.now) }
    ensures refused { IfErr result (IsFileRefusal (task_at root.now (jobs.Check bytes.now))) }
{
    let report = good_report(alloc, root, bytes)?;
    let declarer = root.board.compass(Seat::Declarer);
    let kept = &root.kept;
    let words = tell_strategies(alloc, declarer, &kept.weights, &kept.node, &report.entries)?;
    let mut text = Text::from_bytes(alloc, b"alphamu words 1\n")?;
    text.push(words.bytes())?;
    Ok(text)
}
