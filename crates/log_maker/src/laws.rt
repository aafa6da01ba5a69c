//! The laws of the logs of nodes. A call does nothing: its contract is the law.
ghost use Rattle.std.specs.Prelude.{◌≡◌, ℕ, List, length};
ghost use Rattle.win_vectors.specs.Fronts.{Vector};
ghost use Rattle.trick_rules.specs.Nodes.{NodeValue, IsNode};
ghost use Rattle.strategy_games.specs.Plans.{IsFront, tree_size};
ghost use Rattle.strategy_tree.specs.Bridge.{bridge};
ghost use Rattle.log_check.specs.declared.lines.LogLine.{LogLine};
ghost use Rattle.log_check.specs.declared.check.LogVerdict.{LogVerdict};
ghost use Rattle.log_check.specs.Logs.{IsValidLog};
ghost use Rattle.log_check.specs.LogVerdicts.{IsLogVerdict};
ghost use Rattle.log_check.specs.LogsFor.{IsLogFor};

/// The log of a node is valid for its front, and so no other verdict is true of it.
pub fn log_of_a_node_is_valid()
    ensures valid { (n : NodeValue) (moves : ℕ) (lines : List LogLine) (front : List Vector)
        → IsNode n → IsLogFor n moves lines → IsFront bridge n moves front
        → IsValidLog n moves front lines }
    ensures verdict { (n : NodeValue) (moves : ℕ) (lines : List LogLine) (front : List Vector)
        (verdict : LogVerdict) → IsNode n → IsLogFor n moves lines → IsFront bridge n moves front
        → IsLogVerdict n moves front lines verdict → verdict ≡ LogVerdict.Yes }
{}

/// A node has one log with a number of moves.
pub fn one_log()
    ensures { (n : NodeValue) (moves : ℕ) (lines others : List LogLine) → IsLogFor n moves lines
        → IsLogFor n moves others → lines ≡ others }
{}

/// The log of a node has a line for each node of its tree.
pub fn log_has_a_line_for_each_node()
    ensures { (n : NodeValue) (moves : ℕ) (lines : List LogLine) → IsNode n
        → IsLogFor n moves lines → length lines ≡ tree_size bridge n moves }
{}
