//! Two plans side by side.
ghost use Rattle.std.specs.Prelude.{IfOk};
ghost use Rattle.strategy_games.specs.Plans.{Hear};
ghost use Rattle.strategy_tree.specs.PlanMeaning.{plan_of, replies_of};
ghost use Rattle.line_partings.specs.Partings.{FitOneNode, IsWhereTheyPart, PartingValue};

use crate::nearest::{after_card, nearer};
use card_sets::Card;
use std::alloc::{AllocError, Global};
use std::marker::Model;
use strategy_tree::{Plan, Reply};

/// Where two strategies part.
#[derive(Debug, Drop)]
pub struct Parting {
    /// The cards after which they part, in the order of play.
    pub history: Vec<Card>,
    /// The card that the one plays then.
    pub card: Card,
    /// The card that the other plays then.
    pub other: Card,
}

impl Model for Parting {
    ghost Value = { PartingValue };

    ghost view = { λ p. record { history = p.history.items; card = p.card; other = p.other } };
}

/// Where two strategies first part that fit one node with as many moves: after the fewest cards,
/// and of equally many after those that come first in card order. `None` exactly when the two are
/// the same.
#[cycle(walk)]
pub fn first_parting(
    alloc: Global,
    plan: &Plan,
    other: &Plan,
) -> Result<Option<Parting>, AllocError>
    requires { FitOneNode (plan_of plan.now) (plan_of other.now) }
    ensures { IfOk result (IsWhereTheyPart (plan_of plan.now) (plan_of other.now)) }
{
    match plan {
        Plan::Stop => Ok(None),
        Plan::Play(card, rest) => {
            let Plan::Play(other_card, other_rest) = other else {
                unreachable!()
            };
            if card != other_card {
                return Ok(Some(Parting {
                    history: Vec::new(alloc),
                    card: *card,
                    other: *other_card,
                }));
            }
            let found = first_parting(alloc, rest, other_rest)?;
            after_card(*card, found)
        }
        Plan::Hear(replies) => {
            let Plan::Hear(others) = other else {
                unreachable!()
            };
            parting_replies(alloc, replies, others)
        }
    }
}

// The same, if both hear a defender's card: they reply to the same cards.
#[cycle(walk)]
fn parting_replies(
    alloc: Global,
    replies: &[Reply],
    others: &[Reply],
) -> Result<Option<Parting>, AllocError>
    requires { FitOneNode (Hear (replies_of replies.now)) (Hear (replies_of others.now)) }
    ensures { IfOk result
        (IsWhereTheyPart (Hear (replies_of replies.now)) (Hear (replies_of others.now))) }
{
    let mut found = None;
    let mut place = replies.len();
    // From the last reply to the first, so that the first of two equally near ones is kept.
    'replies: while place > 0 {
        place -= 1;
        let below = first_parting(alloc, &replies[place].plan, &others[place].plan)?;
        found = nearer(after_card(replies[place].card, below)?, found);
    }
    Ok(found)
}
