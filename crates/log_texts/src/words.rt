//! What the words of a log's line say.
ghost use Rattle.std.specs.Prelude.{◌≡◌, ◌≤◌, length, map, IfOk};
ghost use Rattle.std.specs.List.{list_all};
ghost use Rattle.byte_text.specs.Numerals.{number_within};
ghost use Rattle.win_vectors.specs.Vectors.{most_layouts};
ghost use Rattle.trick_rules.specs.Nodes.{most_moves};
ghost use Rattle.strategy_tree.specs.PlanRead.{card_named};
ghost use Rattle.bit_letters.specs.Bits.{is_bit};
ghost use Rattle.log_texts.specs.Reading.{unless_none, rule_said, cards_said, numbers_said, bits_said, vectors_said};

use crate::marks::split_at_mark;
use bit_letters::vector_of;
use byte_text::read_number;
use card_letters::read_card;
use card_sets::Card;
use log_check::{LineList, Rule, VectorList};
use std::alloc::{AllocError, Global};
use trick_rules::{CardLine, MOST_MOVES};
use win_vectors::{MOST_LAYOUTS, WinVector};

/// The most cards of a path: those of a pack.
const MOST_CARDS: usize = 52;

pub fn read_rule(word: &[u8]) -> Option<Rule>
    ensures { result ≡ rule_said word.now }
{
    if word == b"leaf".as_slice() {
        Some(Rule::Leaf)
    } else if word == b"union".as_slice() {
        Some(Rule::Union)
    } else if word == b"join".as_slice() {
        Some(Rule::Join)
    } else {
        None
    }
}

pub fn read_moves(word: &[u8]) -> Option<u8>
    ensures { result ≡ number_within 0 most_moves word.now }
{
    let moves = read_number(word, 0, u32::from(MOST_MOVES))?;
    Some(moves as u8)
}

pub fn read_path(word: &[u8]) -> Option<CardLine>
    ensures { result ≡ unless_none cards_said word.now }
{
    if word == b"-".as_slice() {
        return Some(CardLine::new());
    }
    read_cards(word)
}

fn read_named_card(letters: &[u8]) -> Option<Card>
    ensures { result ≡ card_named letters.now }
{
    match letters {
        [suit, rank] => read_card(*suit, *rank),
        _ => None,
    }
}

// The cards with full stops between them.
fn read_cards(word: &[u8]) -> Option<CardLine>
    ensures { result ≡ cards_said word.now }
{
    let mut path = CardLine::new();
    let mut rest = Some(word);
    'cards: while let Some(text) = rest {
        let (letters, after) = split_at_mark(text, b'.');
        if path.len() == MOST_CARDS {
            return None;
        }
        path.push(read_named_card(letters)?);
        rest = after;
    }
    Some(path)
}

pub fn read_from(alloc: Global, word: &[u8]) -> Result<Option<LineList>, AllocError>
    ensures { IfOk result (λ from. from ≡ unless_none numbers_said word.now) }
{
    if word == b"-".as_slice() {
        return Ok(Some(LineList::new(alloc)));
    }
    read_numbers(alloc, word)
}

// The numbers with commas between them.
fn read_numbers(alloc: Global, word: &[u8]) -> Result<Option<LineList>, AllocError>
    ensures { IfOk result (λ numbers. numbers ≡ numbers_said word.now) }
{
    let mut numbers = LineList::new(alloc);
    let mut rest = Some(word);
    'numbers: while let Some(text) = rest {
        let (digits, after) = split_at_mark(text, b',');
        let Some(number) = read_number(digits, 1, u32::MAX) else {
            return Ok(None);
        };
        numbers.push(number)?;
        rest = after;
    }
    Ok(Some(numbers))
}

fn are_bits(text: &[u8]) -> bool
    ensures { result ≡ list_all is_bit text.now }
{
    text.iter().all(|byte| matches!(*byte, b'0' | b'1'))
}

#[tactic(auto, unfolding(crate::specs::Reading::bits_said))]
fn read_bits(text: &[u8]) -> Option<WinVector>
    ensures { result ≡ bits_said text.now }
{
    if !are_bits(text) || text.is_empty() || text.len() > MOST_LAYOUTS {
        return None;
    }
    Some(vector_of(text))
}

/// The vectors with commas between them.
pub fn read_vectors(alloc: Global, word: &[u8]) -> Result<Option<VectorList>, AllocError>
    ensures { IfOk result (λ vectors. vectors ≡ vectors_said word.now) }
{
    let mut vectors = VectorList::new(alloc);
    let mut rest = Some(word);
    'vectors: while let Some(text) = rest {
        let (bits, after) = split_at_mark(text, b',');
        let Some(vector) = read_bits(bits) else {
            return Ok(None);
        };
        vectors.push(vector)?;
        rest = after;
    }
    Ok(Some(vectors))
}
