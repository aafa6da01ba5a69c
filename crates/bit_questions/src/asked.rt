//! What the numbers of a question say, or what is wrong with them.
ghost use Rattle.std.specs.Prelude.{◌≡◌, ◌<◌, ◌≤◌, All, IfOk, IfErr, length, IsTrue, ◌↔◌};
ghost use Rattle.trick_rules.specs.Positions.{IsSound};
ghost use Rattle.bit_questions.specs.Asked.{IsAsked, IsAskedTable};
ghost use Rattle.bit_questions.specs.Numbers.{trick_of, AreMoves, IsAskedPosition};
ghost use Rattle.bit_questions.specs.Causes.{AreCards, CanChoose, HasCause, IsFaultOf};

use crate::cards::cards_at;
use crate::fault::QuestionFault;
use crate::layouts::{node_at, weights_at};
use crate::numbers::{seat_at, trump_at};
use crate::question::Question;
use crate::table::Table;
use std::alloc::Global;
use trick_rules::{MOST_MOVES, Node, Position};
use win_vectors::Weights;

/// A node at which declarer's side is to play, a weight for each of its layouts, how many moves,
/// and how many nodes a search may enter.
#[derive(Drop)]
pub struct Asked {
    pub node: Node,
    pub weights: Weights,
    pub moves: u8,
    pub nodes: u64,
}

// Whether no hand has a bit past the last card.
fn are_cards(question: &Question) -> bool
    ensures { IsTrue result ↔ AreCards question.now }
{
    question.declarer >> 52u32 == 0 && question.dummy >> 52u32 == 0 && question.unseen >> 52u32 == 0
}

// The hands, the leader, trumps and the need.
fn table_at(question: &Question) -> Result<Table, QuestionFault>
    ensures table { IfOk result (IsAskedTable question.now) }
    ensures refused { IfErr result (IsFaultOf question.now) }
{
    if !are_cards(question) {
        return Err(QuestionFault::NotCards);
    }
    let Some(leader) = seat_at(question.leader) else {
        return Err(QuestionFault::Leader);
    };
    let Some(trump) = trump_at(question.trump) else {
        return Err(QuestionFault::Trump);
    };
    if question.need > 13 {
        return Err(QuestionFault::Need);
    }
    Ok(Table {
        declarer: cards_at(question.declarer),
        dummy: cards_at(question.dummy),
        unseen: cards_at(question.unseen),
        leader,
        need: question.need as u8,
        trump,
    })
}

// The cards of the trick.
fn trick_at(question: &Question) -> Result<&[u32], QuestionFault>
    ensures trick { IfOk result (λ cards. cards.now ≡ trick_of question.now) }
    ensures short { IfOk result (λ cards. length cards.now < 4) }
    ensures cards { IfOk result (λ cards. All (λ card. card < 52) cards.now) }
    ensures refused { IfErr result (IsFaultOf question.now) }
{
    if question.played > 3 {
        return Err(QuestionFault::Trick);
    }
    let cards = &question.trick[..question.played as usize];
    if cards.iter().all(|card| *card < 52) {
        Ok(cards)
    } else {
        Err(QuestionFault::Trick)
    }
}

// The position.
fn position_at(question: &Question) -> Result<Position, QuestionFault>
    ensures position { IfOk result (IsAskedPosition question.now) }
    ensures sound { IfOk result IsSound }
    ensures refused { IfErr result (IsFaultOf question.now) }
{
    let table = table_at(question)?;
    let trick = trick_at(question)?;
    match table.position(trick) {
        Some(position) => Ok(position),
        None => Err(table.fault(trick)),
    }
}

// The moves.
fn moves_at(question: &Question) -> Result<u8, QuestionFault>
    ensures moves { IfOk result (λ moves. (moves ≡ question.now.moves) × AreMoves moves) }
    ensures nodes { IfOk result (λ _. 1 ≤ question.now.nodes) }
    ensures refused { IfErr result (IsFaultOf question.now) }
{
    if question.moves == 0 || question.moves > u32::from(MOST_MOVES) {
        return Err(QuestionFault::Moves);
    }
    if question.nodes == 0 {
        return Err(QuestionFault::Nodes);
    }
    Ok(question.moves as u8)
}

// Whether declarer's side is to play and cards are left.
fn can_choose(node: &Node) -> bool
    ensures { IsTrue result ↔ CanChoose node.now.position }
{
    node.is_ours() && !node.position().over()
}

/// What the numbers say: the node with the layouts in order, their weights, and how to search.
/// Otherwise what is wrong with them, with its cause.
pub fn read(
    alloc: Global,
    question: &Question,
    lefts: &[u64],
    weights: &[u32],
) -> Result<Asked, QuestionFault>
    ensures asked { IfOk result (IsAsked question.now lefts.now weights.now) }
    ensures refused { IfErr result (HasCause question.now lefts.now weights.now) }
{
    let moves = moves_at(question)?;
    let position = position_at(question)?;
    let node = node_at(alloc, position, lefts)?;
    let weights = weights_at(node.width(), weights)?;
    if !can_choose(&node) {
        return Err(QuestionFault::NoTurn);
    }
    Ok(Asked {
        node,
        weights,
        moves,
        nodes: question.nodes,
    })
}
