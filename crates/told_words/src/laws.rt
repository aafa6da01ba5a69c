//! The laws of what is told. Each function does nothing: its contract is the law.
ghost use Rattle.told_words.specs.TurnLaws.{EachTurnIsOnce, EachTurnIsTold};

/// Each seat has its turn in the text with each manner, once.
#[tactic(auto, using(crate::proofs::Told::each_turn_is_once))]
pub fn each_turn_is_once()
    ensures { EachTurnIsOnce }
{}

/// The cards that a seat leads, follows suit with, ruffs with or throws are told as such.
#[tactic(auto, using(crate::proofs::Told::each_turn_is_told))]
pub fn each_turn_is_told()
    ensures { EachTurnIsTold }
{}
