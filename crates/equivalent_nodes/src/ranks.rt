//! Relative ranks (DDS: relRanks): between two tricks the cards in play are the highest
//! of their suits.
ghost use Rattle.std.specs.Prelude.{◌≡◌, [], map, IfOk};
ghost use Rattle.card_sets.specs.Raised.{with_raised};
ghost use Rattle.trick_rules.specs.Positions.{IsSound};
ghost use Rattle.trick_rules.specs.Nodes.{IsNode};
ghost use Rattle.equivalent_nodes.specs.Ranks.{gaps_of as gaps_at, with_gaps_closed as closed_up};
ghost use Rattle.equivalent_nodes.specs.Ranks.{with_gaps_closed_in, with_gaps_closed_at};
ghost use Rattle.equivalent_nodes.specs.Ranks.{in_relative_ranks as relative_node, AreEquivalent};

use card_sets::{Card, CardSet};
use double_dummy::cards_in_play;
use std::alloc::{AllocError, Global};
use trick_rules::{Node, Position};

// The places at which no card is in play.
fn gaps_of(position: &Position) -> CardSet
    ensures { result ≡ gaps_at position.now }
{
    CardSet::pack().minus(cards_in_play(position))
}

// The cards after these gaps are closed, the lowest first.
fn with_gaps_closed(gaps: CardSet, cards: CardSet) -> CardSet
    ensures { result ≡ closed_up gaps cards }
{
    let mut rest = gaps;
    let mut raised = cards;
    while let Some(gap) = rest.pop_first() {
        raised = raised.raised_to(gap);
    }
    raised
}

// Closes a gap in each of these hands.
fn close_gap(hands: &mut [CardSet], gap: Card)
    ensures { hands.new ≡ map (with_raised gap) hands.old }
{
    for hand in hands.iter_mut() {
        *hand = hand.raised_to(gap);
    }
}

// Closes these gaps in each of the hands, the lowest first.
fn close_gaps(hands: &mut [CardSet], gaps: CardSet)
    ensures { hands.new ≡ map (closed_up gaps) hands.old }
{
    let mut rest = gaps;
    while let Some(gap) = rest.pop_first() {
        close_gap(hands, gap);
    }
}

// Left's hands, one a layout, after these gaps are closed.
fn lefts_of(alloc: Global, gaps: CardSet, node: &Node) -> Result<Vec<CardSet>, AllocError>
    ensures lefts { IfOk result (λ lefts. lefts.items ≡ map (closed_up gaps) node.now.lefts) }
    ensures a_node { IsNode node.now }
{
    let mut lefts = Vec::from_slice(alloc, node.lefts())?;
    close_gaps(lefts.as_mut_slice(), gaps);
    Ok(lefts)
}

// The position after these gaps are closed.
fn closed_position(gaps: CardSet, position: &Position) -> Position
    requires { IsSound (with_gaps_closed_in gaps position.now) }
    ensures { result ≡ with_gaps_closed_in gaps position.now }
{
    Position {
        declarer: with_gaps_closed(gaps, position.declarer),
        dummy: with_gaps_closed(gaps, position.dummy),
        unseen: with_gaps_closed(gaps, position.unseen),
        trick: position.trick.copy(),
        need: position.need,
        trump: position.trump,
    }
}

// The node with all gaps closed, between two tricks.
fn with_all_closed(alloc: Global, node: &Node) -> Result<Node, AllocError>
    requires { node.now.position.trick.cards ≡ [] }
    ensures value { IfOk result (λ there.
        there ≡ with_gaps_closed_at (gaps_at node.now.position) node.now) }
    ensures equivalent { IfOk result (AreEquivalent node.now) }
{
    let position = node.position();
    let gaps = gaps_of(position);
    let lefts = lefts_of(alloc, gaps, node)?;
    let there = closed_position(gaps, position);
    Node::new(alloc, there, lefts.as_slice())
}

/// The node in relative ranks, which has the same front with each number of moves. Between two
/// tricks no gap is left in a suit: the cards in play are its highest. A node whose
/// trick is under way stays as it is.
pub fn in_relative_ranks(alloc: Global, node: &Node) -> Result<Node, AllocError>
    ensures value { IfOk result (λ there. there ≡ relative_node node.now) }
    ensures equivalent { IfOk result (AreEquivalent node.now) }
{
    if node.position().trick.cards.is_empty() {
        with_all_closed(alloc, node)
    } else {
        node.copy(alloc)
    }
}
