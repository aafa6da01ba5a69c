//! The layouts of a file that the play of a board allows.
ghost use Rattle.std.specs.Prelude.{◌≡◌, ◌<◌, ◌≤◌, ◌-◌, ◌^◌, ◌++◌, ◌∷◌, Ok, Some, None, [], map};
ghost use Rattle.std.specs.Prelude.{length, All, MatchResult, MatchOption, IfOk, IfErr, OnOk};
ghost use Rattle.std.specs.List.{enumerate_from};
ghost use Rattle.trick_rules.specs.Positions.{IsState};
ghost use Rattle.trick_rules.specs.Nodes.{IsNode};
ghost use Rattle.pbn_deal.specs.Boards.{IsCourse};
ghost use Rattle.win_vectors.specs.Vectors.{most_layouts};
ghost use Rattle.win_vectors.specs.Weights.{IsWeight};
ghost use Rattle.layout_list.specs.Lines.{IsOneDeal, HaveWeights, most_listed};
ghost use Rattle.layout_list.specs.Verdicts.{hand_after, course_of};
ghost use Rattle.layout_list.specs.Layouts.{numbers_kept, weights_kept, lefts_kept, dropped};
ghost use Rattle.layout_list.specs.Layouts.{IsAfter, kept_of};
ghost use Rattle.layout_list.specs.Layouts.{layouts_read, IsLayoutFaultOf};

use crate::fault::LayoutFault;
use crate::kept::{Dropped, Kept};
use crate::line::{Weighed, read_lines};
use crate::verdict::{Followed, first_position, follow};
use card_sets::CardSet;
use pbn_deal::{Board, Played};
use std::alloc::Global;
use trick_rules::{Node, Position};
use win_vectors::Weights;

// The layouts that the play allows, by number, weight and Left's cards after it, and those that it
// doesn't. There is a position after the play as soon as a layout is allowed.
#[derive(Debug, Drop)]
struct Sorting {
    numbers: Vec<u16>,
    weights: Vec<u32>,
    lefts: Vec<CardSet>,
    dropped: Vec<Dropped>,
    position: Option<Position>,
}

impl Sorting {
    fn new(alloc: Global) -> Sorting
        ensures numbers { result.numbers.items ≡ [] }
        ensures weights { result.weights.items ≡ [] }
        ensures lefts { result.lefts.items ≡ [] }
        ensures dropped { result.dropped.items ≡ [] }
        ensures position { result.position ≡ None }
    {
        Sorting {
            numbers: Vec::new(alloc),
            weights: Vec::new(alloc),
            lefts: Vec::new(alloc),
            dropped: Vec::new(alloc),
            position: None,
        }
    }

    // Adds a layout that the play allows.
    fn allow(&mut self, number: u16, weight: u32, followed: Followed) -> Result<(), LayoutFault>
        ensures numbers { OnOk result
            (self.new.numbers.items ≡ self.old.numbers.items ++ number ∷ []) }
        ensures weights { OnOk result
            (self.new.weights.items ≡ self.old.weights.items ++ weight ∷ []) }
        ensures lefts { OnOk result
            (self.new.lefts.items ≡ self.old.lefts.items ++ followed.left ∷ []) }
        ensures dropped { OnOk result (self.new.dropped.items ≡ self.old.dropped.items) }
        ensures position { OnOk result (self.new.position ≡ Some followed.position) }
        ensures memory { IfErr result (λ fault. fault ≡ LayoutFault.Memory) }
    {
        self.numbers.push(number).map_err(|_| LayoutFault::Memory)?;
        self.weights.push(weight).map_err(|_| LayoutFault::Memory)?;
        self.lefts
            .push(followed.left)
            .map_err(|_| LayoutFault::Memory)?;
        self.position = Some(followed.position);
        Ok(())
    }

    // Adds a layout that the play rules out.
    fn rule_out(&mut self, layout: Dropped) -> Result<(), LayoutFault>
        ensures numbers { self.new.numbers ≡ self.old.numbers }
        ensures weights { self.new.weights ≡ self.old.weights }
        ensures lefts { self.new.lefts ≡ self.old.lefts }
        ensures dropped { OnOk result
            (self.new.dropped.items ≡ self.old.dropped.items ++ layout ∷ []) }
        ensures position { self.new.position ≡ self.old.position }
        ensures memory { IfErr result (λ fault. fault ≡ LayoutFault.Memory) }
    {
        self.dropped.push(layout).map_err(|_| LayoutFault::Memory)
    }
}

// Sorts layouts by what the play says of them, all from one position before the first card.
fn keep_or_drop(
    alloc: Global,
    plays: &[Played],
    start: &Position,
    layouts: &[Weighed],
) -> Result<Sorting, LayoutFault>
    requires states { All
        (λ d. IsState (record { position = start.now; left = d.layout.left })) layouts.now }
    requires weights { HaveWeights layouts.now }
    requires fair { IsCourse start.now.trump (course_of start.now) plays.now }
    requires short { length plays.now < 65535 }
    requires few { length layouts.now ≤ most_listed }
    ensures numbers { IfOk result
        (λ s. s.numbers.items ≡ numbers_kept plays.now start.now (enumerate_from 1 layouts.now)) }
    ensures weights { IfOk result
        (λ s. s.weights.items ≡ weights_kept plays.now start.now (enumerate_from 1 layouts.now)) }
    ensures weighed { IfOk result (λ s. All IsWeight s.weights.items) }
    ensures as_many { IfOk result (λ s. length s.weights.items ≡ length s.lefts.items) }
    ensures lefts { IfOk result
        (λ s. s.lefts.items ≡ lefts_kept plays.now start.now (enumerate_from 1 layouts.now)) }
    ensures dropped { IfOk result
        (λ s. s.dropped.items ≡ dropped plays.now start.now (enumerate_from 1 layouts.now)) }
    ensures position { IfOk result
        (λ s. MatchOption s.position (s.lefts.items ≡ [])
        (IsAfter plays.now start.now s.lefts.items)) }
    ensures few { IfOk result (λ s. length s.lefts.items ≤ most_listed) }
    ensures memory { IfErr result (λ fault. fault ≡ LayoutFault.Memory) }
{
    let mut sorting = Sorting::new(alloc);
    for (index, weighed) in layouts.iter().enumerate() {
        let number = index as u16 + 1;
        match follow(plays, start.copy(), weighed.layout.left) {
            Ok(followed) => sorting.allow(number, weighed.weight, followed)?,
            Err(found) => sorting.rule_out(Dropped {
                number,
                cause: found.cause,
                play: found.play,
            })?,
        }
    }
    Ok(sorting)
}

// The node of a position and these hands of Left's.
fn root_node(alloc: Global, position: Position, lefts: &[CardSet]) -> Result<Node, LayoutFault>
    requires { IsNode (record { position = position; lefts = lefts.now }) }
    ensures node { IfOk result (λ node. node ≡ record { position = position; lefts = lefts.now }) }
    ensures memory { IfErr result (λ fault. fault ≡ LayoutFault.Memory) }
{
    match Node::new(alloc, position, lefts) {
        Ok(node) => Ok(node),
        Err(_) => Err(LayoutFault::Memory),
    }
}

// The weights of a list.
fn weights_of(list: &[u32]) -> Weights
    requires some { 1 ≤ length list.now }
    requires few { length list.now ≤ most_layouts }
    requires weights { All IsWeight list.now }
    ensures { result ≡ list.now }
{
    let mut weights = Weights::equal(list.len() as u16);
    for (place, weight) in list.iter().enumerate() {
        weights = weights.set(place as u16, *weight);
    }
    weights
}

// What is kept of the layouts of a board: those that the play allows, at the position after it.
fn keep(alloc: Global, board: &Board, layouts: &[Weighed]) -> Result<Kept, LayoutFault>
    requires one_deal { IsOneDeal board.now layouts.now }
    requires weights { HaveWeights layouts.now }
    requires few { length layouts.now ≤ most_listed }
    ensures kept { MatchResult result
        (λ kept. kept_of board.now layouts.now ≡ Ok kept)
        (IsLayoutFaultOf (kept_of board.now layouts.now)) }
    ensures as_many { IfOk result (λ kept. length kept.numbers ≡ length kept.node.lefts) }
    ensures weighed { IfOk result (λ kept. length kept.weights ≡ length kept.node.lefts) }
    ensures few { IfOk result (λ kept. length kept.node.lefts ≤ most_listed) }
{
    let Some(first) = layouts.first() else {
        return Err(LayoutFault::NoneLeft);
    };
    let start = first_position(board, first.unseen());
    let Sorting {
        numbers,
        weights,
        lefts,
        dropped,
        position,
    } = keep_or_drop(alloc, board.plays(), &start, layouts)?;
    let Some(position) = position else {
        return Err(LayoutFault::NoneLeft);
    };
    let node = root_node(alloc, position, &lefts)?;
    Ok(Kept {
        numbers,
        dropped,
        node,
        weights: weights_of(&weights),
    })
}

/// The layouts of a file that the play of a board allows, and the first card that each other one
/// contradicts.
///
/// A line is a layout in the Deal form, unless it is of blanks alone or begins with `%`. A weight
/// from 1 to 1,000,000 may stand before it with a blank between them; a layout without one has
/// weight 1. The layout shows all four hands, those of declarer's side as on the board and those of
/// the defenders with the unseen cards, which are the first layout's if the board doesn't tell
/// them. The file has at most 256 layouts. The first fault in the order of the lines is given, and
/// `NoneLeft` if the play allows none. At a layout's line the order is `TooMany`, `BadWeight`,
/// `BadLine`, `OtherHands`.
#[tactic(auto, unfolding(crate::specs::Layouts::layouts_read))]
pub fn layouts(alloc: Global, bytes: &[u8], board: &Board) -> Result<Kept, LayoutFault>
    requires { length bytes.now < 2 ^ 32 - 1 }
    ensures kept { MatchResult result
        (λ kept. layouts_read bytes.now board.now ≡ Ok kept)
        (IsLayoutFaultOf (layouts_read bytes.now board.now)) }
    ensures as_many { IfOk result (λ kept. length kept.numbers ≡ length kept.node.lefts) }
    ensures weighed { IfOk result (λ kept. length kept.weights ≡ length kept.node.lefts) }
    ensures few { IfOk result (λ kept. length kept.node.lefts ≤ most_listed) }
{
    let found = read_lines(alloc, bytes, board)?;
    keep(alloc, board, &found)
}
