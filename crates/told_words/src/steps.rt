//! The steps of a told plan.
ghost use Rattle.std.specs.Prelude.{◌≡◌, IfOk};
ghost use Rattle.told_words.specs.Steps.{first_step, step_after};

use crate::turns::after_cards;
use card_sets::CardSet;
use std::alloc::{AllocError, Global};
use std::marker::Model;
use strategy_tree::Plan;
use trick_rules::Node;

/// A strategy of declarer's side: a plan that fits the node.
#[derive(Debug, Drop)]
pub struct Strategy<'a> {
    pub plan: &'a Plan,
    pub node: &'a Node,
}

/// A step of a told plan.
#[derive(Debug, Drop)]
pub struct Step {
    /// It comes after one card of each of these sets.
    pub sets: Vec<CardSet>,
    /// The nodes at which it may be reached.
    pub places: Vec<Node>,
}

impl Model for Step {
    ghost use Rattle.told_words.specs.Steps.{StepValue};

    ghost Value = { StepValue };

    ghost view = { λ step. record { sets = step.sets.items; places = step.places.items } };
}

impl Step {
    /// The first step at a node.
    pub fn first(alloc: Global, node: &Node) -> Result<Step, AllocError>
        ensures { IfOk result (λ step. step ≡ first_step node.now) }
    {
        let mut places = Vec::new(alloc);
        places.push(node.copy(alloc)?)?;
        Ok(Step {
            sets: Vec::new(alloc),
            places,
        })
    }

    /// The step after one of these cards.
    pub fn after(&self, alloc: Global, cards: CardSet) -> Result<Step, AllocError>
        ensures { IfOk result (λ step. step ≡ step_after cards self.now) }
    {
        let mut sets = Vec::from_slice(alloc, &self.sets)?;
        sets.push(cards)?;
        Ok(Step {
            sets,
            places: after_cards(alloc, cards, &self.places)?,
        })
    }
}
