//! The layouts that can reach the steps of a line.
ghost use Rattle.std.specs.Prelude.{◌≡◌};

use std::marker::Model;
use win_vectors::WinVector;

/// The layouts that can reach each step of a line, in order.
#[derive(Debug, Drop)]
pub struct Reached {
    steps: Vec<WinVector>,
}

impl Model for Reached {
    ghost use Rattle.std.specs.Prelude.{List};
    ghost use Rattle.win_vectors.specs.Fronts.{Vector};

    ghost Value = { List Vector };

    ghost view = { λ reached. reached.steps.items };
}

impl Reached {
    /// These layouts.
    pub fn by(steps: Vec<WinVector>) -> Reached
        ensures { result ≡ steps.items }
    {
        Reached { steps }
    }

    /// The same step by step.
    pub fn steps(&self) -> &[WinVector]
        ensures { result.now ≡ self.now }
    {
        &self.steps
    }
}
