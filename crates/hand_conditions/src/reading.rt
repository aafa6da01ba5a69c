//! How a term is read.
ghost use Rattle.std.specs.Prelude.{◌≡◌, []};
ghost use Rattle.byte_text.specs.Blanks.{words};
ghost use Rattle.hand_conditions.specs.Reading.{measure_named, card_named, cards_named};
ghost use Rattle.hand_conditions.specs.Reading.{some_cards, term_read, count_term};
ghost use Rattle.hand_conditions.specs.Reading.{balanced_term};

use crate::fault::TermFault;
use crate::span::read_span;
use crate::term::{Measure, Term};
use byte_text::first_word;
use card_letters::read_card;
use card_sets::{Card, CardSet, Suit};

// What a word names of what is counted.
#[tactic(auto, unfolding(crate::specs::Reading::measure_named))]
fn measure_named(word: &[u8]) -> Option<Measure>
    ensures { result ≡ measure_named word.now }
{
    if word == b"hcp".as_slice() {
        Some(Measure::Points)
    } else if word == b"spades".as_slice() {
        Some(Measure::Length(Suit::Spades))
    } else if word == b"hearts".as_slice() {
        Some(Measure::Length(Suit::Hearts))
    } else if word == b"diamonds".as_slice() {
        Some(Measure::Length(Suit::Diamonds))
    } else if word == b"clubs".as_slice() {
        Some(Measure::Length(Suit::Clubs))
    } else {
        None
    }
}

// The card that a word of two letters names.
fn card_named(word: &[u8]) -> Option<Card>
    ensures { result ≡ card_named word.now }
{
    match word {
        [suit, rank] => read_card(*suit, *rank),
        _ => None,
    }
}

// The cards that the words of a text name: at least one, and nothing else.
fn read_cards(text: &[u8]) -> Result<CardSet, TermFault>
    ensures { result ≡ some_cards (cards_named [] (words text.now)) }
{
    let mut cards = CardSet::empty();
    let mut rest = text;
    'words: while let Some((word, after)) = first_word(rest) {
        let Some(card) = card_named(word) else {
            return Err(TermFault::NotUnderstood);
        };
        cards = cards.with(card);
        rest = after;
    }
    if cards.is_empty() {
        Err(TermFault::NotUnderstood)
    } else {
        Ok(cards)
    }
}

// The term of a number and the words that follow it.
fn count_term(number: &[u8], rest: &[u8]) -> Result<Term, TermFault>
    ensures { result ≡ count_term number.now (words rest.now) }
{
    let (word, after) = first_word(rest).ok_or(TermFault::NotUnderstood)?;
    if first_word(after).is_some() {
        return Err(TermFault::NotUnderstood);
    }
    let measure = measure_named(word).ok_or(TermFault::NotUnderstood)?;
    let span = read_span(number)?;
    Ok(Term::Count(measure, span))
}

// `balanced`, with no word after it.
fn balanced_term(rest: &[u8]) -> Result<Term, TermFault>
    ensures { result ≡ balanced_term (words rest.now) }
{
    match first_word(rest) {
        Some(_) => Err(TermFault::NotUnderstood),
        None => Ok(Term::Balanced),
    }
}

/// The term that a text tells.
#[tactic(auto, unfolding(crate::specs::Reading::term_of))]
pub(crate) fn read_term(text: &[u8]) -> Result<Term, TermFault>
    ensures { result ≡ term_read (words text.now) }
{
    let (first, rest) = first_word(text).ok_or(TermFault::NotUnderstood)?;
    if first == b"balanced".as_slice() {
        balanced_term(rest)
    } else if first == b"holds".as_slice() {
        Ok(Term::Holds(read_cards(rest)?))
    } else if first == b"lacks".as_slice() {
        Ok(Term::Lacks(read_cards(rest)?))
    } else {
        count_term(first, rest)
    }
}
