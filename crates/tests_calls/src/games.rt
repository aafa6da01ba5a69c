//! The laws at the smallest game in which seeing all layouts wins more than any strategy.
ghost use Rattle.std.specs.Prelude.{Bool, true, false, [], ◌∷◌};
ghost use Rattle.strategy_games.specs.Plans.{IsFront};
ghost use Rattle.strategy_games.specs.Finesse.{Spot, Deal, ToGuess, finesse, Any, same_hand, finesse_lawful, finesse_double_dummy, finesse_settled, hands_told};

use strategy_games::{
    HiddenGame, best_count_is_most, best_measure_is_most, best_weight_is_most,
    card_named_by_measure_wins, chosen_plan_wins, cuts_hold, first_misfit_tells, front_more_moves,
    front_recursion, front_steps, named_card_wins, one_front, strategy_ends, tree_size_laws,
};

// A queen in one of two hands, and one guess.
struct Finesse;

impl HiddenGame for Finesse {
    ghost Node = { Spot };

    ghost State = { Deal };

    ghost Card = { Bool };

    ghost game = { finesse };

    ghost Sound = { Any };

    ghost same = { same_hand };

    ghost lawful = { finesse_lawful };

    ghost double_dummy = { finesse_double_dummy };

    ghost settled = { finesse_settled };

    ghost tells_cards = { hands_told };
}

// Seeing all hands wins both layouts; a strategy that has to guess wins one or the other.
fn guess_wins_one()
    ensures seen { IsFront finesse ToGuess 0 ((true ∷ true ∷ []) ∷ []) }
    ensures guessed { IsFront finesse ToGuess 1 ((true ∷ false ∷ []) ∷ (false ∷ true ∷ []) ∷ []) }
{
    front_recursion::<Finesse>()
}

#[test]
fn laws_hold_for_a_finesse() {
    guess_wins_one();
    strategy_ends::<Finesse>();
    one_front::<Finesse>();
    front_steps::<Finesse>();
    front_more_moves::<Finesse>();
    chosen_plan_wins::<Finesse>();
    tree_size_laws::<Finesse>();
    best_measure_is_most::<Finesse>();
    card_named_by_measure_wins::<Finesse>();
    best_weight_is_most::<Finesse>();
    best_count_is_most::<Finesse>();
    named_card_wins::<Finesse>();
    cuts_hold::<Finesse>();
    first_misfit_tells::<Finesse>();
}
