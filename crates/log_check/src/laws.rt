//! The laws of logs. A call does nothing: its contract is the law.
ghost use Rattle.std.specs.Prelude.{◌≡◌, ◌↔◌, ℕ, List, Some, slice_get};
ghost use Rattle.win_vectors.specs.Fronts.{Vector};
ghost use Rattle.trick_rules.specs.Nodes.{NodeValue, IsNode};
ghost use Rattle.strategy_games.specs.Plans.{IsBelow};
ghost use Rattle.strategy_tree.specs.Bridge.{bridge};
ghost use Rattle.log_check.specs.declared.lines.LogLine.{LogLine};
ghost use Rattle.log_check.specs.declared.check.LogVerdict.{LogVerdict};
ghost use Rattle.log_check.specs.Logs.{node_after, AreSound, IsSoundLine, IsValidLog};
ghost use Rattle.log_check.specs.Steps.{CoverAlike, SayAlike, SayAllAlike};
ghost use Rattle.log_check.specs.LogVerdicts.{IsLogVerdict};

/// No strategy wins a vector that the vectors proved by a valid log don't dominate.
pub fn valid_log_covers()
    ensures { (n : NodeValue) (moves : ℕ) (vectors : List Vector) (lines : List LogLine) → IsNode n
        → IsValidLog n moves vectors lines → IsBelow bridge n moves vectors }
{}

/// If each line of a log is sound, no strategy wins a vector at a line's node that the line's
/// vectors don't dominate.
pub fn sound_line_covers()
    ensures { (n : NodeValue) (moves : ℕ) (lines : List LogLine) (place : ℕ) (line : LogLine)
        → IsNode n → AreSound n moves lines → slice_get lines place ≡ Some line
        → IsBelow bridge (node_after n line.path) line.moves line.vectors }
{}

/// A log has one verdict only for a node, moves and vectors: each verdict comes exactly when what
/// it says is true.
pub fn one_log_verdict()
    ensures { (n : NodeValue) (moves : ℕ) (vectors : List Vector) (lines : List LogLine)
        (one other : LogVerdict) → IsLogVerdict n moves vectors lines one
        → IsLogVerdict n moves vectors lines other → one ≡ other }
{}

/// Vectors that others of their line dominate change nothing: a line is sound after some lines
/// exactly if a line like it is sound after lines like them, and a log is valid exactly if one like
/// it is.
pub fn dominated_vectors_change_nothing()
    ensures line { (n : NodeValue) (moves : ℕ) (earlier others : List LogLine)
        (one other : LogLine) → SayAllAlike earlier others → SayAlike one other
        → IsSoundLine n moves earlier one ↔ IsSoundLine n moves others other }
    ensures log { (n : NodeValue) (moves : ℕ) (vectors best : List Vector)
        (lines others : List LogLine) → CoverAlike vectors best → SayAllAlike lines others
        → IsValidLog n moves vectors lines ↔ IsValidLog n moves best others }
{}
