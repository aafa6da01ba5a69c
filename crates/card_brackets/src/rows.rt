//! What is known of a card.
ghost use Rattle.std.specs.Prelude.{◌≡◌, ◌-◌, true};
ghost use Rattle.card_sets.specs.SetWords.{has_card};
ghost use Rattle.win_vectors.specs.Weights.{weight_of};
ghost use Rattle.trick_rules.specs.Nodes.{choices, child};
ghost use Rattle.strategy_tree.specs.Bridge.{bridge};
ghost use Rattle.front_table.specs.Proven.{IsFrontAt};
ghost use Rattle.fusion_base.specs.Sampling.{made_after};
ghost use Rattle.assured_games.specs.Assured.{IsLeastBy};
ghost use Rattle.sure_nodes.specs.SureNodes.{is_sure_node};
ghost use Rattle.root_workers.specs.Questions.{IsQuestion};
ghost use Rattle.card_brackets.specs.Rows.{IsRow, is_final};

use crate::bounds::Bounds;
use card_sets::Card;
use fusion_base::CardVector;
use root_workers::Question;
use vector_words::first_best;
use win_vectors::WinVector;

/// What is known of a card, with a number of moves that counts the card itself. Each weight is that
/// of some layouts.
#[derive(Clone, Copy, Debug)]
pub struct CardRow {
    pub card: Card,
    /// The first of the heaviest vectors of the front after the card.
    pub vector: WinVector,
    /// The weight of that vector: no strategy that begins with the card wins more.
    pub most: u32,
    /// The greatest weight of a vector that is assured after the card.
    pub least: u32,
    /// The weight of the layouts that are made after the card by double dummy.
    pub sampled: u32,
}

impl CardRow {
    /// Whether the two bounds are equal: then no greater number of moves changes what is won.
    pub fn is_final(&self) -> bool
        ensures { result ≡ is_final self.now }
    {
        self.least == self.most
    }
}

/// The row of a card, by the front after it and by what is assured and believed.
pub fn row_of(question: &Question, believed: &CardVector, bounds: &Bounds) -> CardRow
    requires question { IsQuestion question.now }
    requires card { has_card (choices question.now.node.now) believed.now.card ≡ true }
    requires believed { believed.now.vector ≡ made_after question.now.node.now believed.now.card }
    requires front { IsFrontAt (child question.now.node.now believed.now.card)
        (question.now.moves - 1) bounds.now.front }
    requires least { IsLeastBy bridge is_sure_node (weight_of question.now.weights.now)
        (child question.now.node.now believed.now.card) (question.now.moves - 1)
        bounds.now.least }
    ensures { IsRow question.now.node.now question.now.weights.now question.now.moves
        believed.now.card result }
{
    let _width = question.node.width();
    let weights = question.weights;
    let vector = first_best(&bounds.front, weights);
    CardRow {
        card: believed.card,
        vector,
        most: weights.total(vector),
        least: bounds.least,
        sampled: weights.total(believed.vector),
    }
}
