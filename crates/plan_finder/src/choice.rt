//! The card that a plan takes at declarer's side, by the fronts after each card.
ghost use Rattle.std.specs.Prelude.{◌≡◌, ◌≤◌, ℕ, true, false, IfOk, IsErrOf};
ghost use Rattle.trick_rules.specs.Nodes.{IsNode, most_moves};
ghost use Rattle.strategy_games.specs.Plans.{stops};
ghost use Rattle.strategy_tree.specs.Bridge.{bridge};
ghost use Rattle.alphamu_core.specs.Costs.{IsWithin};
ghost use Rattle.plan_finder.specs.Choices.{IsFirstChoice, IsChoiceSpentAt};
ghost use Rattle.plan_finder.specs.PlanSearches.{IsSameSearch};
ghost use Rattle.plan_finder.specs.Targets.{IsOfFront};

use crate::searches::PlanSearch;
use alphamu_core::{Entered, SearchFault};
use card_sets::Card;
use front_table::FrontStore;
use strategy_tree::RootFault;
use trick_rules::Node;
use win_vectors::WinVector;

/// A card of declarer's side, the node after it, the vector that the plan goes on with there, and
/// the most nodes that a search for it entered.
#[derive(Drop)]
pub struct Choice {
    pub card: Card,
    pub child: Node,
    pub vector: WinVector,
    pub most: Entered,
}

impl<S: FrontStore> PlanSearch<'_, S> {
    /// The first card after which some vector of the front dominates this one. With cuts the last one
    /// isn't searched: if no other keeps the vector, it does.
    pub fn first_choice(
        &mut self,
        node: &Node,
        moves: u8,
        vector: &WinVector,
    ) -> Result<Choice, RootFault>
        requires few_moves { moves ≤ most_moves }
        requires a_node { IsNode node.now }
        requires goes_on { stops bridge node.now moves ≡ false }
        requires ours { bridge.is_ours node.now ≡ true }
        requires vector { IsOfFront node.now moves vector.now }
        ensures first { IfOk result (IsFirstChoice node.now moves vector.now) }
        ensures within { IfOk result (λ choice. IsWithin self.old.nodes choice.most) }
        ensures spent { (card : ℕ) → IsErrOf result (RootFault.Spent card)
            → IsChoiceSpentAt node.now moves vector.now self.old.nodes card }
        ensures same { IsSameSearch S.grown self.old self.new }
    {
        let mut most = None;
        let mut cards = node.choices();
        'cards: while let Some(card) = cards.pop_first() {
            let (child, _) = node.child(self.memo.alloc(), card)?;
            let is_last = self.rules.cuts.bound && cards.is_empty();
            match self.pick_unless_known(&child, moves - 1, vector, is_last) {
                Ok(picked) => {
                    let entered = picked.entered.larger(most);
                    most = Some(entered);
                    if let Some(above) = picked.vector {
                        return Ok(Choice {
                            card,
                            child,
                            vector: above,
                            most: entered,
                        });
                    }
                }
                Err(fault) => return Err(at_card(fault, card)),
            }
        }
        unreachable!()
    }
}

/// The fault of a search after a root card.
pub fn at_card(fault: SearchFault, card: Card) -> RootFault
    ensures spent { fault ≡ SearchFault.Spent → result ≡ RootFault.Spent card }
    ensures only { (other : ℕ) → result ≡ RootFault.Spent other
        → (other ≡ card) × (fault ≡ SearchFault.Spent) }
{
    match fault {
        SearchFault::Spent => RootFault::Spent(card),
        SearchFault::Memory => RootFault::Memory,
    }
}

/// The fault without a root card.
pub fn without_card(fault: RootFault) -> SearchFault
    ensures spent { (card : ℕ) → fault ≡ RootFault.Spent card → result ≡ SearchFault.Spent }
    ensures only { result ≡ SearchFault.Spent → (card : ℕ) × (fault ≡ RootFault.Spent card) }
{
    match fault {
        RootFault::Spent(_) => SearchFault::Spent,
        RootFault::Memory => SearchFault::Memory,
    }
}
