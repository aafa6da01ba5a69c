//! Won sets and cores that a search has found already.
ghost use Rattle.std.specs.Prelude.{◌≡◌, None, IfSome, IfOk, All};
ghost use Rattle.set_nodes.specs.SetNodes.{AreLayoutsAt};
ghost use Rattle.set_memo.specs.Known.{IsVerdictAt};

use crate::kept_set::{KeptSet, digest};
use crate::verdict::Verdict;
use card_sets::{Card, CardSet};
use std::alloc::{AllocError, Global};
use std::marker::Model;
use trick_rules::{Node, Position};
use win_vectors::WinVector;

/// In how many slots, one after the other, what is found at a position may be kept.
const WAYS: usize = 16;

/// Sets of layouts that are won at a position, and cores. It is seen as the list of Left's hands at
/// the root, which number the layouts: what it keeps is true of these, whatever it keeps. So it
/// serves each set and each history that leads to a position.
#[derive(Drop)]
pub struct SetMemo {
    layouts: Vec<CardSet>,
    slots: Vec<Option<KeptSet>>,
    first: Vec<CardSet>,
    turn: usize,
}

impl Model for SetMemo {
    ghost use Rattle.std.specs.Prelude.{ℕ, List, All};
    ghost use Rattle.set_memo.specs.Kept.{IsTrueSlot};

    ghost Value = { List (List ℕ) };

    ghost view = { λ memo. memo.layouts.items };

    ghost invariant = { λ memo. All (IsTrueSlot memo.layouts.items) memo.slots.items };
}

impl SetMemo {
    /// Nothing kept yet, of the layouts of a root, and room for `slots` sets.
    ///
    /// Errors: an allocation fails.
    pub fn new(alloc: Global, root: &Node, slots: usize) -> Result<SetMemo, AllocError>
        ensures { IfOk result (λ memo. memo ≡ root.now.lefts) }
    {
        Ok(SetMemo {
            layouts: Vec::from_slice(alloc, root.lefts())?,
            slots: free_slots(alloc, slots)?,
            first: no_cards(alloc, slots)?,
            turn: 0,
        })
    }

    /// What is known of a set of layouts at a position with `moves` moves, if it is kept.
    pub fn look(&self, position: &Position, moves: u8, set: WinVector) -> Option<Verdict>
        requires { AreLayoutsAt self.now position.now set }
        ensures { IfSome result (IsVerdictAt self.now position.now moves set) }
    {
        if self.slots.is_empty() {
            return None;
        }
        let start = digest(position, moves) as usize;
        for way in 0..WAYS {
            let place = start.wrapping_add(way) % self.slots.len();
            if let Some(kept) = &self.slots[place]
                && kept.is_of(position, moves)
            {
                let verdict = kept.verdict_on(set);
                if verdict.is_some() {
                    return verdict;
                }
            }
        }
        None
    }

    /// The card that settled a position the last time, if it is kept: it won all of a set, or a core
    /// was left after it.
    ///
    /// No clause: it decides only which card is tried first.
    pub fn settling_card(&self, position: &Position, moves: u8) -> CardSet {
        if self.first.is_empty() {
            return CardSet::empty();
        }
        self.first[digest(position, moves) as usize % self.first.len()]
    }

    /// Keeps the card that settled a position.
    ///
    /// No clause says that it is kept, for the same reason.
    pub fn keep_card(&mut self, position: &Position, moves: u8, card: Card)
        ensures { self.new ≡ self.old }
    {
        if !self.first.is_empty() {
            let place = digest(position, moves) as usize % self.first.len();
            self.first[place] = CardSet::empty().with(card);
        }
    }

    /// Offers a verdict on a set. It is kept instead of what says no more, or in a free slot, or
    /// else instead of something.
    ///
    /// No clause says that it is kept: no answer depends on what a memo keeps.
    pub fn offer(&mut self, position: &Position, moves: u8, set: WinVector, verdict: &Verdict)
        requires layouts { AreLayoutsAt self.old position.now set }
        requires verdict { IsVerdictAt self.old position.now moves set verdict.now }
        ensures { self.new ≡ self.old }
    {
        let kept = KeptSet::of_verdict(position, moves, set, verdict);
        let start = digest(position, moves) as usize;
        self.turn = self.turn.wrapping_add(1);
        let place = place_for(self.slots.as_slice(), &kept, start, self.turn);
        if place < self.slots.len() {
            self.slots[place] = Some(kept);
        }
    }
}

// Where a set is kept, of the slots from a start on: instead of one that says no more, or in a free
// slot, or else by turns. No clause: any place will do.
fn place_for(slots: &[Option<KeptSet>], kept: &KeptSet, start: usize, turn: usize) -> usize {
    if slots.is_empty() {
        return 0;
    }
    let mut free = start.wrapping_add(turn % WAYS) % slots.len();
    for way in 0..WAYS {
        let place = start.wrapping_add(way) % slots.len();
        match &slots[place] {
            Some(old) if old.says_no_more_than(kept) => return place,
            Some(_) => {}
            None => free = place,
        }
    }
    free
}

// This many slots with nothing in them.
fn free_slots(alloc: Global, count: usize) -> Result<Vec<Option<KeptSet>>, AllocError>
    ensures { IfOk result (λ slots. All (λ slot. slot ≡ None) slots.items) }
{
    let mut slots = Vec::with_capacity(alloc, count)?;
    for _ in 0..count {
        slots.push(None)?;
    }
    Ok(slots)
}

// This many sets with no card in them.
fn no_cards(alloc: Global, count: usize) -> Result<Vec<CardSet>, AllocError> {
    let mut cards = Vec::with_capacity(alloc, count)?;
    for _ in 0..count {
        cards.push(CardSet::empty())?;
    }
    Ok(cards)
}
