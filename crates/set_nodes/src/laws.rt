//! Laws of winnable sets at bridge. A call does nothing: its contract is the law, for every node
//! and every number of moves.
ghost use Rattle.std.specs.Prelude.{◌↔◌, ℕ};
ghost use Rattle.win_vectors.specs.Fronts.{Vector};
ghost use Rattle.trick_rules.specs.Nodes.{NodeValue, IsNode};
ghost use Rattle.strategy_tree.specs.Bridge.{bridge};
ghost use Rattle.winnable_sets.specs.Sets.{IsWinnable, IsWonThroughout};
ghost use Rattle.winnable_sets.specs.Laws.{HasTurns, HasCores, HasSets};
ghost use Rattle.set_nodes.specs.SetNodes.{node_at, AreLayoutsAt, KeepsNumbers};
ghost use Rattle.set_nodes.specs.Neighbours.{NeighbourIsEnough};

/// A set is winnable at declarer's turn if it is after some card, and at a defender's turn if for
/// each card the layouts in which that card is legal are winnable after it.
pub fn winnable_by_turns()
    ensures { HasTurns bridge IsNode }
{}

/// At declarer's turn a core after each card, put together, are a core; at a defender's turn a core
/// after one card is.
pub fn cores_by_turns()
    ensures { HasCores bridge IsNode }
{}

/// The winnable sets are those that the front dominates.
pub fn winnable_sets()
    ensures { HasSets bridge IsNode }
{}

/// Some layouts of a node are winnable exactly if they are won throughout the node that has no
/// others.
pub fn other_layouts_may_be_left_out()
    ensures { (n : NodeValue) (moves : ℕ) (set : Vector) → IsNode n
        → AreLayoutsAt n.lefts n.position set
        → IsWonThroughout bridge (node_at n.lefts n.position set) moves
        ↔ IsWinnable bridge n moves set }
{}

/// Two ways to one position leave each layout the same cards. So a set of layouts, by their numbers
/// at an earlier node, means the same there whatever was played before.
pub fn positions_keep_numbers()
    ensures { KeepsNumbers }
{}

/// A card needs no answer of its own if its neighbour in play is legal in each layout in which it
/// is: what is won after the neighbour is won after it.
pub fn neighbour_is_enough()
    ensures { NeighbourIsEnough }
{}
