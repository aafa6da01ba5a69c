//! What declarer's strategies win when several layouts are possible, and which win vectors are the
//! best that any of them reaches.
//! It builds on `win_vectors`; a game gives its nodes, cards and double dummy by implementing
//! `HiddenGame`, and nothing here runs.
//! Each function's contract is a law that holds for every such game; the definitions are in specs/.
#![tactic(auto)]

ghost use Rattle.std.specs.Prelude.{Bool, Decides, ◌≡◌, ℕ};
ghost use Rattle.win_vectors.specs.Fronts.{Vector};
ghost use Rattle.win_vectors.specs.Weights.{IsMonotone};
ghost use Rattle.strategy_games.specs.Games.{Game, IsLawful, IsDoubleDummy, IsSettled};
ghost use Rattle.strategy_games.specs.Laws.{EndsSomewhere, HasOneFront, HasRecursion, HasSteps, HasMoreMoves, HasChosenPlan, HasSizes, HasBestBy, HasNamedBy, HasBestCount, HasNamedCard, HasBestWeight, HasCuts, HasFirstMisfit, HaveOneFront};
ghost use Rattle.strategy_games.specs.SearchLaws.{HasEnoughCards, HasLeaders, HasMisses, HasExactness};
ghost use Rattle.strategy_games.specs.Alike.{IsKeptByPlay};

/// A game of hidden layouts: a node is what everybody sees, with the layouts that are still
/// possible.
///
/// An implementation names its nodes, states and cards and gives the game over them, the condition
/// under which a node is sound, a test of equal cards, and the proofs that its rules hold at sound
/// nodes. Then every law below holds for it, by a call of the law's function at the implementing
/// type.
pub trait HiddenGame {
    ghost Node: { Type 0 };

    ghost State: { Type 0 };

    ghost Card: { Type 0 };

    ghost game: { Game Node State Card };

    ghost Sound: { Node → Type 0 };

    ghost same: { Card → Card → Bool };

    ghost lawful: { IsLawful game Sound };

    ghost double_dummy: { IsDoubleDummy game Sound };

    ghost settled: { IsSettled game Sound };

    ghost tells_cards: { (c d : Card) → Decides (same c d) (c ≡ d) };
}

/// A game of hidden layouts with a relation between its nodes that play keeps.
pub trait AlikeNodes {
    ghost Node: { Type 0 };

    ghost State: { Type 0 };

    ghost Card: { Type 0 };

    ghost game: { Game Node State Card };

    ghost Sound: { Node → Type 0 };

    ghost alike: { Node → Node → Type 0 };

    ghost lawful: { IsLawful game Sound };

    ghost kept: { IsKeptByPlay game Sound alike };
}

/// A strategy ends somewhere in each layout, so that a layout isn't won because nothing was looked
/// at.
pub fn strategy_ends<G: HiddenGame>()
    ensures { EndsSomewhere G.game G.Sound }
{}

/// Exactly one list is the front of a node with a number of moves, and it isn't empty.
pub fn one_front<G: HiddenGame>()
    ensures { HasOneFront G.game G.Sound }
{}

/// The front at declarer's side is the best of the children's fronts with a move less, one after
/// the other; at a defender it is the best of all meets of one spread vector of each child's front
/// with the same moves.
pub fn front_recursion<G: HiddenGame>()
    ensures { HasRecursion G.game G.Sound }
{}

/// The same recursion card by card, as a search goes through the choices of a node.
pub fn front_steps<G: HiddenGame>()
    ensures { HasSteps G.game G.Sound }
{}

/// Each vector of the front with a move more is dominated by one with fewer, and the best by a
/// monotone measure, as the best count, never rises with the moves.
pub fn front_more_moves<G: HiddenGame>()
    ensures { HasMoreMoves G.game G.Sound }
{}

/// For a target that the front dominates exactly one plan is the chosen one; it is a strategy,
/// and its vector is the first vector of the front that dominates the target.
pub fn chosen_plan_wins<G: HiddenGame>()
    ensures { HasChosenPlan G.game G.Sound }
{}

/// The size of the tree is 1 if the plan stops, and otherwise 1 more than its children's sizes
/// together; it never falls as the moves rise, and a child's size is below its node's.
pub fn tree_size_laws<G: HiddenGame>()
    ensures { HasSizes G.game G.Sound }
{}

/// By a measure that is monotone under dominance exactly one number is the best, and no strategy
/// wins more.
pub fn best_measure_is_most<G: HiddenGame>()
    ensures { (measure : Vector → ℕ) → IsMonotone measure → HasBestBy G.game G.Sound measure }
{}

/// Where declarer's side is to play and play isn't over exactly one card is named by a monotone
/// measure, and some strategy that begins with it wins the best.
pub fn card_named_by_measure_wins<G: HiddenGame>()
    ensures { (measure : Vector → ℕ) → IsMonotone measure → HasNamedBy G.game G.Sound measure }
{}

/// By any weights exactly one weight is the best and exactly one card is named; with equal weights
/// they are the best count and the card that it names.
pub fn best_weight_is_most<G: HiddenGame>()
    ensures { HasBestWeight G.game G.Sound }
{}

/// No strategy wins more layouts than the best count, and the first vector of the front has that
/// count.
pub fn best_count_is_most<G: HiddenGame>()
    ensures { HasBestCount G.game G.Sound }
{}

/// Where declarer's side is to play and play isn't over exactly one card is named,
/// and some strategy that begins with it wins the best count.
pub fn named_card_wins<G: HiddenGame>()
    ensures { HasNamedCard G.game G.Sound }
{}

/// When a search may stop early: a list that covers a node's front, the front with a move less,
/// each child of declarer's side, or the replies to some of a defender's cards covers what every
/// strategy wins.
pub fn cuts_hold<G: HiddenGame>()
    ensures { HasCuts G.game G.Sound }
{}

/// Some of a node's choices are enough: one reply for a cut, the cards that cover what each other
/// wins for the front, and one of equal cards.
pub fn some_cards_are_enough<G: HiddenGame>()
    ensures { HasEnoughCards G.game G.Sound }
{}

/// The first of declarer's cards that keeps the greatest measure so far leads. A card that the
/// front over the earlier ones covers changes nothing. In the end, or when a loop may stop, the
/// leader has the best and is named.
pub fn leader_is_named<G: HiddenGame>()
    ensures { (measure : Vector → ℕ) → IsMonotone measure → HasLeaders G.game G.Sound measure }
{}

/// A vector dominates u exactly when none of the vectors that miss a 1 of u dominates it; so a list
/// of those covers what a child wins exactly when its card doesn't keep u.
pub fn misses_tell<G: HiddenGame>()
    ensures { HasMisses G.game G.Sound }
{}

/// Where plans that stop only at a decided result win each vector of the front, the front is the
/// same with more moves.
pub fn complete_plans_are_exact<G: HiddenGame>()
    ensures { HasExactness G.game G.Sound }
{}

/// A plan has no first misfit exactly when it is a strategy.
pub fn first_misfit_tells<G: HiddenGame>()
    ensures { HasFirstMisfit G.game G.same }
{}

/// Nodes in a relation that play keeps have the same front with each number of moves.
pub fn alike_nodes_have_one_front<G: AlikeNodes>()
    ensures { HaveOneFront G.game G.Sound G.alike }
{}
