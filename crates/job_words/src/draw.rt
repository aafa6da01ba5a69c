//! How layouts are drawn.

use hand_conditions::Condition;
use std::marker::Model;

/// Conditions on the hands of the four seats before the first card. Of several on one hand it has
/// to meet one.
#[derive(Debug, Drop)]
pub struct SeatConditions {
    pub north: Vec<Condition>,
    pub east: Vec<Condition>,
    pub south: Vec<Condition>,
    pub west: Vec<Condition>,
}

impl Model for SeatConditions {
    ghost use Rattle.job_words.specs.SeatConditions.{SeatConditionsValue};

    ghost Value = { SeatConditionsValue };

    ghost view = { λ conditions. record {
      north = conditions.north.items;
      east = conditions.east.items;
      south = conditions.south.items;
      west = conditions.west.items;
    } };
}

/// Which layouts are drawn.
#[derive(Debug, Drop)]
pub struct Draw {
    /// How many: 1 to 256.
    pub amount: u16,
    /// The number that decides which.
    pub seed: u64,
    /// What the hands have to meet.
    pub conditions: SeatConditions,
}
