//! The lines of a layout file.
ghost use Rattle.std.specs.Prelude.{◌≡◌, ◌&&◌, ◌<◌, ◌≤◌, ◌-◌, ◌^◌, Ok, length, MatchResult, IfOk};
ghost use Rattle.std.specs.Prelude.{IfSome, true, take, option_map};
ghost use Rattle.std.specs.List.{position_or_len};
ghost use Rattle.std.specs.Str.{all_ascii_digits};
ghost use Rattle.win_vectors.specs.Weights.{IsWeight};
ghost use Rattle.pbn_deal.specs.BoardRead.{together};
ghost use Rattle.pbn_deal.specs.Deal.{IsSoundDeal};
ghost use Rattle.pbn_deal.specs.Deal.{deal_read};
ghost use Rattle.layout_list.specs.Lines.{is_skipped, same_set, is_told, layout_in, line_read};
ghost use Rattle.layout_list.specs.Lines.{deal_of_line};
ghost use Rattle.layout_list.specs.Lines.{numbered_lines, layout_lines, lines_read, most_listed};
ghost use Rattle.layout_list.specs.Lines.{ends_digits, begins_blank, weight_said};
ghost use Rattle.layout_list.specs.Lines.{weight_of_digits, weight_read};
ghost use Rattle.layout_list.specs.Lines.{FitsBoard, IsTold, IsOneDeal, HaveWeights};
ghost use Rattle.layout_list.specs.Layouts.{IsLayoutFaultOf};

use crate::fault::LayoutFault;
use byte_text::{are_blanks, is_blank, skip_blanks, split_line};
use card_sets::{CardSet, Seat};
use pbn_deal::{Board, DealValue, read_deal};
use std::alloc::Global;
use win_vectors::MAX_WEIGHT;

/// The hands of the two defenders before the first card.
#[derive(Clone, Copy, Debug)]
pub struct Layout {
    pub left: CardSet,
    pub right: CardSet,
}

/// A layout of a file with its weight, from 1 to 1,000,000.
#[derive(Clone, Copy, Debug)]
pub struct Weighed {
    pub weight: u32,
    pub layout: Layout,
}

impl Weighed {
    /// The cards that the defenders hold together.
    pub(crate) fn unseen(&self) -> CardSet
        ensures { result ≡ together self.now.layout.left self.now.layout.right }
    {
        self.layout.left.either(self.layout.right)
    }
}

// The weight that digits write, with leading zeros or without.
fn weight_said(digits: &[u8]) -> Option<u32>
    requires { all_ascii_digits digits.now ≡ true }
    ensures weight { result ≡ weight_said digits.now }
    ensures range { IfSome result IsWeight }
{
    let mut weight = 0u32;
    for digit in digits {
        weight = 10 * weight + u32::from(*digit - b'0');
        if weight > MAX_WEIGHT {
            return None;
        }
    }
    if weight == 0 { None } else { Some(weight) }
}

// How many digits a text begins with.
fn digits_len(text: &[u8]) -> usize
    ensures len { result ≡ position_or_len ends_digits text.now }
    ensures inside { result ≤ length text.now }
    ensures digits { all_ascii_digits (take result text.now) ≡ true }
{
    text.iter()
        .position(|byte| !byte.is_ascii_digit())
        .unwrap_or(text.len())
}

// Whether a text begins with a blank.
fn begins_blank(text: &[u8]) -> bool
    ensures { result ≡ begins_blank text.now }
{
    match text {
        [byte, ..] => is_blank(*byte),
        [] => false,
    }
}

// The weight that the first `count` digits of a text write, and what follows them.
fn weight_of_digits(count: usize, text: &[u8]) -> Option<(u32, &[u8])>
    requires inside { count ≤ length text.now }
    requires digits { all_ascii_digits (take count text.now) ≡ true }
    ensures said { option_map (λ said. (said.0, said.1.now)) result
        ≡ weight_of_digits count text.now }
    ensures range { IfSome result (λ said. IsWeight said.0) }
{
    let (digits, rest) = text.split_at(count);
    if !begins_blank(rest) {
        return None;
    }
    let weight = weight_said(digits)?;
    Some((weight, rest))
}

// The weight that a line begins with, and what follows it. A line that begins with no digit has
// weight 1.
#[tactic(auto, unfolding(crate::specs::Lines::weight_read))]
fn read_weight(line: &[u8]) -> Option<(u32, &[u8])>
    ensures said { option_map (λ said. (said.0, said.1.now)) result ≡ weight_read line.now }
    ensures range { IfSome result (λ said. IsWeight said.0) }
{
    let text = skip_blanks(line);
    match digits_len(text) {
        0 => Some((1, line)),
        count => weight_of_digits(count, text),
    }
}

/// Whether a line is no layout: blanks alone, or a line that begins with `%`.
fn is_skipped(line: &[u8]) -> bool
    ensures { result ≡ is_skipped line.now }
{
    are_blanks(line) || matches!(line, [b'%', ..])
}

// Whether these are the cards told of the two defenders, if any are.
fn is_told(unseen: Option<CardSet>, cards: CardSet) -> bool
    ensures { result ≡ is_told unseen cards }
{
    match unseen {
        Some(told) => cards == told,
        None => true,
    }
}

// Whether these are the board's hands of declarer's side.
fn has_hands(board: &Board, own: CardSet, dummy: CardSet) -> bool
    ensures { result
        ≡ (same_set own board.now.declarer_hand && same_set dummy board.now.dummy_hand) }
{
    own == board.declarer_hand() && dummy == board.dummy_hand()
}

// The defenders' hands of a deal that shows all four hands: declarer's side has the board's, and
// the defenders have the unseen cards.
fn layout_in(board: &Board, unseen: Option<CardSet>, deal: &DealValue) -> Option<Layout>
    requires { IsSoundDeal deal.now }
    ensures value { result ≡ layout_in board.now unseen deal.now }
    ensures fits { IfSome result (FitsBoard board.now) }
    ensures told { IfSome result (λ layout. IsTold unseen (together layout.left layout.right)) }
{
    let own = deal.hand(board.compass(Seat::Declarer))?;
    let dummy = deal.hand(board.compass(Seat::Dummy))?;
    let left = deal.hand(board.compass(Seat::Left))?;
    let right = deal.hand(board.compass(Seat::Right))?;
    if has_hands(board, own, dummy) && is_told(unseen, left.either(right)) {
        Some(Layout { left, right })
    } else {
        None
    }
}

// The defenders' hands in the Deal form, on a line of this number.
fn read_hands(
    board: &Board,
    unseen: Option<CardSet>,
    number: u32,
    text: &[u8],
) -> Result<Layout, LayoutFault>
    ensures value { result ≡ deal_of_line board.now unseen number (deal_read text.now) }
    ensures fits { IfOk result (FitsBoard board.now) }
    ensures told { IfOk result (λ layout. IsTold unseen (together layout.left layout.right)) }
{
    match read_deal(text) {
        Ok(deal) => layout_in(board, unseen, &deal).ok_or(LayoutFault::OtherHands(number)),
        Err(fault) => Err(LayoutFault::BadLine(number, fault)),
    }
}

// The weight and the defenders' hands in a line.
#[tactic(auto, unfolding(crate::specs::Lines::line_read))]
fn read_line(
    board: &Board,
    unseen: Option<CardSet>,
    number: u32,
    line: &[u8],
) -> Result<Weighed, LayoutFault>
    ensures value { result ≡ line_read board.now unseen number line.now }
    ensures weight { IfOk result (λ weighed. IsWeight weighed.weight) }
    ensures fits { IfOk result (λ weighed. FitsBoard board.now weighed.layout) }
    ensures told { IfOk result (λ weighed.
        IsTold unseen (together weighed.layout.left weighed.layout.right)) }
{
    let (weight, text) = read_weight(line).ok_or(LayoutFault::BadWeight(number))?;
    let layout = read_hands(board, unseen, number, text)?;
    Ok(Weighed { weight, layout })
}

/// The most layouts of a file.
pub const MOST_LISTED: usize = 256;

// The layouts of a file's lines, in order, or the first fault.
pub(crate) fn read_lines(
    alloc: Global,
    bytes: &[u8],
    board: &Board,
) -> Result<Vec<Weighed>, LayoutFault>
    requires { length bytes.now < 2 ^ 32 - 1 }
    ensures layouts { MatchResult result
        (λ layouts. lines_read board.now board.now.unseen 0
        (layout_lines (numbered_lines bytes.now)) ≡ Ok layouts.items)
        (IsLayoutFaultOf
        (lines_read board.now board.now.unseen 0 (layout_lines (numbered_lines bytes.now)))) }
    ensures one_deal { IfOk result (λ layouts. IsOneDeal board.now layouts.items) }
    ensures weights { IfOk result (λ layouts. HaveWeights layouts.items) }
    ensures few { IfOk result (λ layouts. length layouts.items ≤ most_listed) }
{
    let mut layouts = Vec::new(alloc);
    let mut unseen = board.unseen();
    let mut number = 0;
    let mut rest = Some(bytes);
    'lines: while let Some(text) = rest {
        let (line, after) = split_line(text);
        rest = after;
        number += 1;
        if is_skipped(line) {
            continue;
        }
        if layouts.len() == MOST_LISTED {
            return Err(LayoutFault::TooMany(number));
        }
        let weighed = read_line(board, unseen, number, line)?;
        unseen = Some(weighed.unseen());
        layouts.push(weighed).map_err(|_| LayoutFault::Memory)?;
    }
    Ok(layouts)
}
