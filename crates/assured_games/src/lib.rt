//! What declarer's side is sure to win, however many moves more it plans: a lower bound, as the
//! front is an upper bound.
//! It builds on `strategy_games`; a game joins by implementing `AssuredGame`. Nothing here runs.
//! Each function's contract is a law that holds for every such game; the definitions are in specs/.
#![tactic(auto)]

ghost use Rattle.std.specs.Prelude.{Bool, ℕ};
ghost use Rattle.win_vectors.specs.Fronts.{Vector};
ghost use Rattle.win_vectors.specs.Weights.{IsMonotone};
ghost use Rattle.strategy_games.specs.Games.{Game, IsLawful, IsDoubleDummy};
ghost use Rattle.assured_games.specs.Laws.{IsPlayedOut, IsSureOfAll, IsBracketed, HasBracket};
ghost use Rattle.assured_games.specs.Made.{IsWithinMade, LeavesOut, LostMayBeLeftOut};
ghost use Rattle.assured_games.specs.Steps.{HasAssuredSteps};

/// A game of hidden layouts with a test of nodes at which declarer's side is sure to make the
/// contract.
///
/// An implementation names its nodes, states and cards and gives the game over them, the condition
/// under which a node is sound, the test, and the proofs that the rules and the test hold at sound
/// nodes. Then every law below holds for it, by a call of the law's function at the implementing
/// type.
pub trait AssuredGame {
    ghost Node: { Type 0 };

    ghost State: { Type 0 };

    ghost Card: { Type 0 };

    ghost game: { Game Node State Card };

    ghost Sound: { Node → Type 0 };

    ghost sure: { Node → Bool };

    ghost lawful: { IsLawful game Sound };

    ghost double_dummy: { IsDoubleDummy game Sound };

    ghost played_out: { IsPlayedOut game Sound };

    ghost sure_of_all: { IsSureOfAll game Sound sure };
}

/// Such a game with a relation between a node and the same node without some of its layouts.
pub trait NodesInPart {
    ghost Node: { Type 0 };

    ghost State: { Type 0 };

    ghost Card: { Type 0 };

    ghost game: { Game Node State Card };

    ghost Sound: { Node → Type 0 };

    ghost sure: { Node → Bool };

    ghost in_part: { Node → Node → Type 0 };

    ghost lawful: { IsLawful game Sound };

    ghost double_dummy: { IsDoubleDummy game Sound };

    ghost played_out: { IsPlayedOut game Sound };

    ghost sure_of_all: { IsSureOfAll game Sound sure };

    ghost leaves_out: { LeavesOut game Sound sure in_part };
}

/// A vector that is assured with some moves is assured with more moves too, and the front with any
/// number of moves from there on dominates it. With more moves than cards are left, the assured
/// front is the front.
pub fn assured_is_won<G: AssuredGame>()
    ensures { IsBracketed G.game G.Sound G.sure }
{}

/// By a monotone measure, such as the weight of the layouts, the best with every greater number of
/// moves lies between the greatest measure that is assured and the best with the present moves. The
/// first never falls as moves are added, the second never rises, and where they meet the answer is
/// final.
pub fn best_lies_in_the_bracket<G: AssuredGame>()
    ensures { (measure : Vector → ℕ) → IsMonotone measure
        → HasBracket G.game G.Sound G.sure measure }
{}

/// The assured front where play stops, and from the fronts of the children card by card, as a
/// search goes through the choices of a node.
pub fn assured_front_steps<G: AssuredGame>()
    ensures { HasAssuredSteps G.game G.sure G.Sound }
{}

/// Double dummy makes what is assured; and if it makes one layout at most, its results are the
/// assured front.
pub fn double_dummy_bounds_the_assured<G: AssuredGame>()
    ensures { IsWithinMade G.game G.Sound G.sure }
{}

/// If only layouts are left out that double dummy loses, the assured front of a node is that of the
/// rest, with 0 at the layouts that are left out.
pub fn lost_layouts_may_be_left_out<G: NodesInPart>()
    ensures { LostMayBeLeftOut G.game G.Sound G.sure G.in_part }
{}
