//! All facts about the defenders' hands.
ghost use Rattle.std.specs.Prelude.{◌≡◌, ◌++◌, flat_map, IfOk, OnOk};
ghost use Rattle.layout_facts.specs.Facts.{holding, holdings, all_holdings};
ghost use Rattle.layout_facts.specs.Facts.{suit_lengths, lengths, all_lengths, facts};

use crate::fact::Fact;
use card_sets::{Card, Rank, Seat, Suit};
use std::alloc::{AllocError, Global};

// Adds that Left holds a card, and that Right does.
fn push_holding(listed: &mut Vec<Fact>, rank: Rank, suit: Suit) -> Result<(), AllocError>
    ensures { OnOk result (listed.new.items ≡ listed.old.items ++ holding rank suit) }
{
    let card = Card::new(suit, rank);
    let seat = Seat::Left;
    listed.push(Fact::Holds { seat, card })?;
    let seat = Seat::Right;
    listed.push(Fact::Holds { seat, card })?;
    Ok(())
}

// Adds the holdings of a rank.
fn push_holdings(listed: &mut Vec<Fact>, rank: Rank) -> Result<(), AllocError>
    ensures { OnOk result (listed.new.items ≡ listed.old.items ++ holdings rank) }
{
    push_holding(listed, rank, Suit::Spades)?;
    push_holding(listed, rank, Suit::Hearts)?;
    push_holding(listed, rank, Suit::Diamonds)?;
    push_holding(listed, rank, Suit::Clubs)
}

// Adds the holdings of all ranks, from the aces down.
fn push_all_holdings(listed: &mut Vec<Fact>) -> Result<(), AllocError>
    ensures { OnOk result (listed.new.items ≡ listed.old.items ++ all_holdings) }
{
    for place in 0..13 {
        push_holdings(listed, Rank::new(14 - place))?;
    }
    Ok(())
}

// Adds that a defender has exactly, or at least, this many cards of a suit.
fn push_suit_lengths(listed: &mut Vec<Fact>, count: u8, suit: Suit) -> Result<(), AllocError>
    ensures { OnOk result (listed.new.items ≡ listed.old.items ++ suit_lengths count suit) }
{
    let seat = Seat::Left;
    listed.push(Fact::Exactly { seat, suit, count })?;
    listed.push(Fact::AtLeast { seat, suit, count })?;
    let seat = Seat::Right;
    listed.push(Fact::Exactly { seat, suit, count })?;
    listed.push(Fact::AtLeast { seat, suit, count })?;
    Ok(())
}

// Adds the lengths of each suit.
fn push_lengths(listed: &mut Vec<Fact>, count: u8) -> Result<(), AllocError>
    ensures { OnOk result (listed.new.items ≡ listed.old.items ++ lengths count) }
{
    push_suit_lengths(listed, count, Suit::Spades)?;
    push_suit_lengths(listed, count, Suit::Hearts)?;
    push_suit_lengths(listed, count, Suit::Diamonds)?;
    push_suit_lengths(listed, count, Suit::Clubs)
}

// Adds the lengths of all numbers, from none up.
fn push_all_lengths(listed: &mut Vec<Fact>) -> Result<(), AllocError>
    ensures { OnOk result (listed.new.items ≡ listed.old.items ++ all_lengths) }
{
    for count in 0..14 {
        push_lengths(listed, count)?;
    }
    Ok(())
}

/// All facts that are tried, in order.
#[tactic(auto, unfolding(crate::specs::Facts::facts))]
pub fn all_facts(alloc: Global) -> Result<Vec<Fact>, AllocError>
    ensures { IfOk result (λ listed. listed.items ≡ facts) }
{
    let mut listed = Vec::new(alloc);
    push_all_holdings(&mut listed)?;
    push_all_lengths(&mut listed)?;
    Ok(listed)
}
