//! Which sets of layouts one strategy wins together, and which sets no strategy does: cores.
//! It builds on `strategy_games` and `assured_games`; a game joins by implementing `SetGame`, and
//! nothing here runs.
//! Each function's contract is a law that holds for every such game; the definitions are in specs/.
#![tactic(auto)]

ghost use Rattle.std.specs.Prelude.{ℕ};
ghost use Rattle.win_vectors.specs.Fronts.{Vector};
ghost use Rattle.win_vectors.specs.Weights.{IsMonotone};
ghost use Rattle.strategy_games.specs.Games.{Game, IsLawful, IsDoubleDummy};
ghost use Rattle.assured_games.specs.Laws.{IsPlayedOut};
ghost use Rattle.winnable_sets.specs.Laws.{HasTurns, HasCores, HasSets, HasSetBracket};
ghost use Rattle.winnable_sets.specs.Parts.{AreParts, HasParts};

/// A game of hidden layouts, with a relation between a node and the same node without some of its
/// layouts.
///
/// An implementation names its nodes, states and cards and gives the game over them, the condition
/// under which a node is sound, the relation, and the proofs that the rules hold at sound nodes.
/// Then every law below holds for it, by a call of the law's function at the implementing type.
pub trait SetGame {
    ghost Node: { Type 0 };

    ghost State: { Type 0 };

    ghost Card: { Type 0 };

    ghost game: { Game Node State Card };

    ghost Sound: { Node → Type 0 };

    ghost in_part: { Node → Node → Type 0 };

    ghost lawful: { IsLawful game Sound };

    ghost double_dummy: { IsDoubleDummy game Sound };

    ghost played_out: { IsPlayedOut game Sound };

    ghost parts: { AreParts game Sound in_part };
}

/// A set is winnable at declarer's turn if it is after some card, and at a defender's if for each
/// card the layouts in which that card is legal are winnable after it. Where plans stop, double
/// dummy decides.
pub fn winnable_by_turns<G: SetGame>()
    ensures { HasTurns G.game G.Sound }
{}

/// At declarer's turn a core after each card, put together, are a core; at a defender's a core
/// after one card is. A layout that double dummy loses is a core, and so is what contains a core.
pub fn cores_by_turns<G: SetGame>()
    ensures { HasCores G.game G.Sound }
{}

/// The winnable sets are those that the front dominates: parts of winnable sets, no layouts, and
/// each layout alone that double dummy makes are among them. More moves than cards change nothing.
pub fn winnable_sets<G: SetGame>()
    ensures { HasSets G.game G.Sound }
{}

/// By a monotone measure, such as the weight of the layouts, the best lies between what a winnable
/// set measures and the most that a set without a known core measures.
pub fn cores_bound_the_best<G: SetGame>()
    ensures { (measure : Vector → ℕ) → IsMonotone measure
        → HasSetBracket G.game G.Sound measure }
{}

/// If layouts are left out of a node, what is won of the rest stays the same.
pub fn other_layouts_may_be_left_out<G: SetGame>()
    ensures { HasParts G.game G.Sound G.in_part }
{}
