//! A plan in memory.
ghost use Rattle.std.specs.Prelude.{◌≡◌, IfOk, map};
ghost use Rattle.strategy_tree.specs.PlanMeaning.{plan_of, answer_of};

use card_sets::Card;
use std::alloc::{AllocError, Global};

/// A strategy of declarer's side.
#[derive(Debug, Drop)]
#[cycle(plan)]
pub enum Plan {
    /// No moves are left, or the result is decided.
    Stop,
    /// Declarer or dummy plays the card.
    Play(Card, Box<Plan>),
    /// A defender plays: one reply for each card that he may play, in card order.
    Hear(Vec<Reply>),
}

/// A card that a defender may play, and the plan that answers it.
#[derive(Debug, Drop)]
#[cycle(plan)]
pub struct Reply {
    pub card: Card,
    pub plan: Plan,
}

impl Plan {
    /// An equal plan.
    #[cycle(copy)]
    pub fn copy(&self, alloc: Global) -> Result<Plan, AllocError>
        ensures { IfOk result (λ copy. plan_of copy ≡ plan_of self.now) }
    {
        match self {
            Plan::Stop => Ok(Plan::Stop),
            Plan::Play(card, rest) => Ok(Plan::Play(*card, Box::new(alloc, rest.copy(alloc)?)?)),
            Plan::Hear(replies) => Ok(Plan::Hear(copy_replies(alloc, replies)?)),
        }
    }
}

#[cycle(copy)]
fn copy_replies(alloc: Global, replies: &[Reply]) -> Result<Vec<Reply>, AllocError>
    ensures { IfOk result (λ copies. map answer_of copies.items ≡ map answer_of replies.now) }
{
    let mut copies = Vec::new(alloc);
    for reply in replies {
        copies.push(Reply {
            card: reply.card,
            plan: reply.plan.copy(alloc)?,
        })?;
    }
    Ok(copies)
}
