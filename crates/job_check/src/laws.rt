//! What `check` says of what `solve` writes. A call does nothing: its contract is the law.
ghost use Rattle.std.specs.Prelude.{◌≡◌, ◌<◌, ◌^◌, ℕ, List, Ok, length, All};
ghost use Rattle.win_vectors.specs.Weights.{IsWeight};
ghost use Rattle.trick_rules.specs.Nodes.{IsNode};
ghost use Rattle.job_words.specs.Asks.{IsMoves};
ghost use Rattle.job_words.specs.declared.asks.LayoutsJob.TheVariants as jobs;
ghost use Rattle.am_report.specs.Answers.{SolveAnswerValue};
ghost use Rattle.am_report.specs.Solve.{solve_text};
ghost use Rattle.am_answer.specs.declared.root.Root.{Root};
ghost use Rattle.am_answer.specs.Answers.{task_at};
ghost use Rattle.am_answer.specs.Judging.{plans_in};
ghost use Rattle.am_answer.specs.Reports.{IsSolveAnswer, IsSolveText};
ghost use Rattle.am_answer.specs.Tasks as tasks;

/// What `solve` writes at a root is found good by `check`, with as many plans as it has vectors, if
/// these are fewer than 2^32. A text of fewer than 2^32 bytes never has more.
pub fn solved_reports_are_good()
    ensures plans { (root : Root) (moves : ℕ) (found : SolveAnswerValue) → IsNode root.kept.node
        → length root.kept.weights ≡ length root.kept.node.lefts
        → All IsWeight root.kept.weights → IsMoves moves
        → IsSolveAnswer root.kept.node root.kept.weights moves found
        → length found.entries < 2 ^ 32
        → plans_in root (solve_text root.board root.kept moves found) ≡ Ok (length found.entries) }
    ensures text { (root : Root) (moves : ℕ) (report : List ℕ) → IsNode root.kept.node
        → length root.kept.weights ≡ length root.kept.node.lefts
        → All IsWeight root.kept.weights → IsMoves moves
        → IsSolveText root moves report → length report < 2 ^ 32
        → (plans : ℕ) × (task_at root (jobs.Check report) ≡ Ok (tasks.Check plans)) }
{}
