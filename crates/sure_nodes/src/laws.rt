//! The laws of assured vectors at bridge. A call does nothing: its contract is the law, for every
//! node and every number of moves.
ghost use Rattle.std.specs.Prelude.{ℕ};
ghost use Rattle.win_vectors.specs.Fronts.{Vector};
ghost use Rattle.win_vectors.specs.Weights.{IsMonotone};
ghost use Rattle.trick_rules.specs.Nodes.{NodeValue, IsNode};
ghost use Rattle.strategy_tree.specs.Bridge.{bridge};
ghost use Rattle.assured_games.specs.Laws.{IsPlayedOut, IsSureOfAll, IsBracketed, HasBracket};
ghost use Rattle.sure_nodes.specs.SureNodes.{is_sure_node};

/// Double dummy makes nothing that play doesn't.
pub fn played_out()
    ensures { IsPlayedOut bridge IsNode }
{}

/// At a sure node some strategy wins all layouts, with every number of moves.
pub fn sure_node_is_won()
    ensures { IsSureOfAll bridge IsNode is_sure_node }
{}

/// A vector that is assured with some moves is assured with more moves too, and the front with any
/// number of moves from there on dominates it. With more moves than cards are left, the assured
/// front is the front.
pub fn assured_is_won()
    ensures { IsBracketed bridge IsNode is_sure_node }
{}

/// By a monotone measure, such as the weight of the layouts, the best with every greater number of
/// moves lies between the greatest measure that is assured and the best with the present moves. The
/// first never falls as moves are added, the second never rises, and where they meet the answer is
/// final.
pub fn best_lies_in_the_bracket()
    ensures { (measure : Vector → ℕ) → IsMonotone measure
        → HasBracket bridge IsNode is_sure_node measure }
{}
