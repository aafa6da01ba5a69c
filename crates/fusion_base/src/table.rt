//! The table of plain sampling, which the αμ papers call PIMC: a line for each card of a root.
ghost use Rattle.std.specs.Prelude.{◌≡◌, true, false, map, IfOk};
ghost use Rattle.card_sets.specs.SetWords.{has_card};
ghost use Rattle.trick_rules.specs.Positions.{to_play, FitsLeft};
ghost use Rattle.trick_rules.specs.Play.{is_declarers, is_over};
ghost use Rattle.trick_rules.specs.Nodes.{choices};
ghost use Rattle.fusion_base.specs.Sampling.{made_after, cards_that_make, card_vectors};

use card_sets::{Card, CardSet};
use dd_solver::Solver;
use rayon::prelude::*;
use std::alloc::{AllocError, Global};
use std::thread::Threads;
use trick_rules::{Node, play};
use win_vectors::WinVector;

/// A card, and in which layouts the contract is made after it by double dummy.
#[derive(Clone, Copy, Debug)]
pub struct CardVector {
    pub card: Card,
    /// A bit a layout, in the order of the layouts.
    pub vector: WinVector,
}

// The cards after which the contract is made where Left holds these, by double dummy. One solver is
// asked of all cards, so what it finds of one serves the others.
fn made_cards(alloc: Global, node: &Node, left: CardSet) -> CardSet
    requires ours { is_declarers (to_play node.now.position) ≡ true }
    requires fits { FitsLeft node.now.position left }
    ensures { result ≡ cards_that_make node.now left }
{
    let mut solver = Solver::new(alloc);
    let mut made = node.choices();
    let mut rest = made;
    while let Some(card) = rest.pop_first() {
        let after = play(node.position(), card);
        if !solver.makes(&after, left.without(card)) {
            made = made.without(card);
        }
    }
    made
}

// The same in each layout, in order. The layouts are shared out among threads.
fn made_in_threads<R: Threads + Sync>(
    rt: &R,
    alloc: Global,
    node: &Node,
) -> Result<Vec<CardSet>, AllocError>
    requires { is_declarers (to_play node.now.position) ≡ true }
    ensures { IfOk result
        (λ made. made.items ≡ map (cards_that_make node.now) node.now.lefts) }
{
    node.lefts()
        .par_iter()
        .with_min_len(1)
        .map(
            |left: &CardSet| -> CardSet
                requires ours { is_declarers (to_play node.now.position) ≡ true }
                requires fits { FitsLeft node.now.position left.now }
                ensures { result ≡ cards_that_make node.entry.now left.now }
            { made_cards(alloc, node, *left) },
        )
        .collect(rt, alloc)
}

// The same by the calling thread, layout by layout.
fn made_in_turn(alloc: Global, node: &Node) -> Result<Vec<CardSet>, AllocError>
    requires { is_declarers (to_play node.now.position) ≡ true }
    ensures { IfOk result
        (λ made. made.items ≡ map (cards_that_make node.now) node.now.lefts) }
{
    let mut made = Vec::new(alloc);
    for left in node.lefts() {
        made.push(made_cards(alloc, node, *left))?;
    }
    Ok(made)
}

// In which layouts a card is among those that make.
fn vector_of(node: &Node, made: &[CardSet], card: Card) -> WinVector
    requires made { made.now ≡ map (cards_that_make node.now) node.now.lefts }
    requires choice { has_card (choices node.now) card ≡ true }
    ensures { result ≡ made_after node.now card }
{
    let mut vector = WinVector::none(node.width());
    for place in 0..node.width() {
        vector = vector.set(place, made[usize::from(place)].has(card));
    }
    vector
}

// Each legal card, in card order, with its vector.
fn lines_of(alloc: Global, node: &Node, made: &[CardSet]) -> Result<Vec<CardVector>, AllocError>
    requires made { made.now ≡ map (cards_that_make node.now) node.now.lefts }
    ensures { IfOk result (λ table. table.items ≡ card_vectors node.now) }
{
    let mut lines = Vec::new(alloc);
    let mut rest = node.choices();
    while let Some(card) = rest.pop_first() {
        let vector = vector_of(node, made, card);
        lines.push(CardVector { card, vector })?;
    }
    Ok(lines)
}

/// Plain sampling at a node where declarer's side is to play: each legal card, in card order, with
/// its vector.
///
/// Each layout is judged as if declarer could see it, so a vector may promise more than a strategy
/// can win. The layouts are shared out among threads.
pub fn per_card<R: Threads + Sync>(
    rt: &R,
    alloc: Global,
    node: &Node,
) -> Result<Vec<CardVector>, AllocError>
    requires ours { is_declarers (to_play node.now.position) ≡ true }
    requires goes_on { is_over node.now.position ≡ false }
    ensures { IfOk result (λ table. table.items ≡ card_vectors node.now) }
{
    let made = made_in_threads(rt, alloc, node)?;
    lines_of(alloc, node, &made)
}

/// What `per_card` gives, with no thread but the caller's.
pub fn per_card_alone(alloc: Global, node: &Node) -> Result<Vec<CardVector>, AllocError>
    requires ours { is_declarers (to_play node.now.position) ≡ true }
    requires goes_on { is_over node.now.position ≡ false }
    ensures { IfOk result (λ table. table.items ≡ card_vectors node.now) }
{
    let made = made_in_turn(alloc, node)?;
    lines_of(alloc, node, &made)
}
