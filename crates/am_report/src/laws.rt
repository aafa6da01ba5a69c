//! The law of reports. A call does nothing: its contract is the law, for every board, every file of
//! layouts and every answer.
ghost use Rattle.std.specs.Prelude.{◌≡◌, ℕ, Ok};
ghost use Rattle.pbn_deal.specs.Boards.{BoardValue};
ghost use Rattle.layout_list.specs.Kept.{KeptValue};
ghost use Rattle.am_report.specs.Answers.{SolveAnswerValue};
ghost use Rattle.am_report.specs.Solve.{solve_text};
ghost use Rattle.am_report.specs.Reading.{report_read};
ghost use Rattle.am_report.specs.ReadBack.{IsPrintable, printed_report};

/// What is written of an answer is read back as the same version, head, moves, vectors, plans, card
/// and weights.
pub fn solve_text_reads_back()
    ensures { (board : BoardValue) (kept : KeptValue) (moves : ℕ) (answer : SolveAnswerValue)
        → IsPrintable kept.weights moves answer
        → report_read (solve_text board kept moves answer)
        ≡ Ok (printed_report board kept moves answer) }
{}
