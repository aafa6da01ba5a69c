//! Who sits at the table of a play-out.
ghost use Rattle.std.specs.Prelude.{◌≡◌, ◌≢◌, ◌≤◌, ◌+◌, ◌==◌, ℕ, List, [], ◌∷◌, Option, None, Some, true, false, IfOk, IfSome, map, length, option_map, slice_get};
ghost use Rattle.trick_rules.specs.Positions.{to_play};
ghost use Rattle.trick_rules.specs.Play.{is_declarers, is_over};
ghost use Rattle.am_match.specs.Defences.{IsLegalFrom, MayPlay, Sitter, Change, IsChange, sitter, change_at, tell as tell_one, tell_table, at_seat, seat as seat_in, table_for_next, left_waiting};

use crate::defender::Defender;
use card_sets::{Card, CardSet, Seat};
use std::alloc::AllocError;
use trick_rules::{CardLine, Position};

/// A defender to take over a seat in the middle of a play-out.
#[derive(Drop)]
pub struct Swap {
    /// The number of the card before which he takes it, counted from 1.
    pub at: u16,
    /// Left or Right.
    pub seat: Seat,
    pub defender: Box<dyn Defender>,
}

// Has a defender play a card of his hand.
fn ask(defender: &mut Box<dyn Defender>, position: &Position, hand: CardSet, layout: u16) -> Card
    requires going_on { is_over position.now ≡ false }
    requires holds_cards { hand ≢ [] }
    ensures may { MayPlay (style defender.old) position.now hand result }
    ensures same { sitter (style defender.new) (heard defender.new)
        ≡ sitter (style defender.old) (heard defender.old) }
{
    defender.choose(position, hand, layout)
}

// Tells a defender a card.
fn tell(defender: &mut Box<dyn Defender>, card: Card) -> Result<(), AllocError>
    ensures { IfOk result (λ _. sitter (style defender.new) (heard defender.new)
        ≡ tell_one (card ∷ []) (sitter (style defender.old) (heard defender.old))) }
{
    defender.saw(card)
}

/// The card of the defender to play, by the one who sits there. The hand is that seat's, and the
/// layout its place counted from 1.
pub fn defenders_card(
    table: &mut Vec<Box<dyn Defender>>,
    position: &Position,
    hand: CardSet,
    layout: u16,
) -> Card
    requires seats { 2 ≤ length table.old.items }
    requires theirs { is_declarers (to_play position.now) ≡ false }
    requires going_on { is_over position.now ≡ false }
    requires holds_cards { hand ≢ [] }
    ensures may { (who : Sitter)
        → at_seat (map (λ d. sitter (style d) (heard d)) table.old.items) (to_play position.now)
        ≡ Some who
        → MayPlay who.style position.now hand result }
    ensures legal { IsLegalFrom position.now hand result }
    ensures same { map (λ d. sitter (style d) (heard d)) table.new.items
        ≡ map (λ d. sitter (style d) (heard d)) table.old.items }
    ensures length { length table.new.items ≡ length table.old.items }
{
    let place = if position.to_play() == Seat::Left {
        0
    } else {
        1
    };
    ask(&mut table[place], position, hand, layout)
}

/// Tells both defenders at the table a card.
pub fn tell_both(table: &mut Vec<Box<dyn Defender>>, card: Card) -> Result<(), AllocError>
    requires seats { 2 ≤ length table.old.items }
    ensures told { IfOk result (λ _. map (λ d. sitter (style d) (heard d)) table.new.items
        ≡ tell_table (card ∷ []) (map (λ d. sitter (style d) (heard d)) table.old.items)) }
    ensures length { length table.new.items ≡ length table.old.items }
{
    tell(&mut table[0], card)?;
    tell(&mut table[1], card)
}

// Tells a defender cards in their order.
fn tell_past(defender: &mut Box<dyn Defender>, cards: &CardLine) -> Result<(), AllocError>
    ensures { IfOk result (λ _. sitter (style defender.new) (heard defender.new)
        ≡ tell_one cards.now (sitter (style defender.old) (heard defender.old))) }
{
    for place in 0..cards.len() {
        tell(defender, cards.get(place))?;
    }
    Ok(())
}

// A defender takes a seat from the one who sits there, and hears the cards that were played.
fn take_seat(
    table: &mut Vec<Box<dyn Defender>>,
    swap: Swap,
    cards: &CardLine,
) -> Result<(), AllocError>
    requires seats { 2 ≤ length table.old.items }
    requires theirs { is_declarers swap.seat ≡ false }
    ensures taken { IfOk result (λ _. map (λ d. sitter (style d) (heard d)) table.new.items
        ≡ seat_in swap.seat
        (tell_one cards.now (sitter (style swap.defender) (heard swap.defender)))
        (map (λ d. sitter (style d) (heard d)) table.old.items)) }
    ensures length { length table.new.items ≡ length table.old.items }
{
    let place = if swap.seat == Seat::Left { 0 } else { 1 };
    table[place] = swap.defender;
    tell_past(&mut table[place], cards)
}

/// Before the next card: the new defender takes the seat if that is due. Gives back the swap that
/// is still to come.
pub fn seat_if_due(
    table: &mut Vec<Box<dyn Defender>>,
    waiting: Option<Swap>,
    cards: &CardLine,
) -> Result<Option<Swap>, AllocError>
    requires seats { 2 ≤ length table.old.items }
    requires change { IfSome (option_map (λ swap. change_at swap.at swap.seat
        (sitter (style swap.defender) (heard swap.defender))) waiting) IsChange }
    ensures table { IfOk result (λ _. map (λ d. sitter (style d) (heard d)) table.new.items
        ≡ table_for_next (option_map (λ swap. change_at swap.at swap.seat
        (sitter (style swap.defender) (heard swap.defender))) waiting)
        cards.now (map (λ d. sitter (style d) (heard d)) table.old.items)) }
    ensures waiting { IfOk result (λ still. option_map (λ swap. change_at swap.at swap.seat
        (sitter (style swap.defender) (heard swap.defender))) still
        ≡ left_waiting (option_map (λ swap. change_at swap.at swap.seat
        (sitter (style swap.defender) (heard swap.defender))) waiting) (length cards.now)) }
    ensures length { length table.new.items ≡ length table.old.items }
{
    let Some(swap) = waiting else {
        return Ok(None);
    };
    if usize::from(swap.at) != cards.len() + 1 {
        return Ok(Some(swap));
    }
    take_seat(table, swap, cards)?;
    Ok(None)
}
