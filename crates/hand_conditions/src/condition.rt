//! A condition on a hand, and its text.
ghost use Rattle.std.specs.Prelude.{◌≡◌, ◌<◌, ◌∷◌, [], Ok, length, MatchOption, MatchResult};
ghost use Rattle.std.specs.List.{list_all, slice_split};
ghost use Rattle.hand_conditions.specs.Conditions.{is_met_by, meets};
ghost use Rattle.hand_conditions.specs.Reading.{is_comma, condition_read, term_refused};
ghost use Rattle.hand_conditions.specs.Reading.{IsConditionFaultOf};

use crate::fault::{ConditionFault, TermFault};
use crate::reading::read_term;
use crate::span::cut_at;
use crate::term::Term;
use byte_text::Text;
use card_sets::CardSet;
use std::alloc::Global;
use std::marker::Model;

/// A condition on a hand, seen as its terms: a hand meets it if it meets each term.
#[derive(Debug, Drop)]
pub struct Condition {
    terms: Vec<Term>,
}

impl Model for Condition {
    ghost use Rattle.std.specs.Prelude.{List};
    ghost use Rattle.hand_conditions.specs.declared.term.Term.{Term};

    ghost Value = { List Term };

    ghost view = { λ condition. condition.terms.items };
}

impl Condition {
    /// Whether a hand meets the condition.
    pub fn is_met_by(&self, hand: CardSet) -> bool
        ensures { result ≡ meets self.now hand }
    {
        self.terms.iter().all(|term| term.is_met_by(hand))
    }
}

// What stands before the first comma of a text, and what follows it if there is one.
fn split_term(text: &[u8]) -> (&[u8], Option<&[u8]>)
    ensures term { MatchOption result.1
        (slice_split is_comma text.now ≡ result.0.now ∷ [])
        (λ rest. slice_split is_comma text.now
        ≡ result.0.now ∷ slice_split is_comma rest.now) }
    ensures shorter { MatchOption result.1 (length result.0.now ≡ length text.now)
        (λ rest. length rest.now < length text.now) }
{
    match cut_at(text, b',') {
        Some((term, rest)) => (term, Some(rest)),
        None => (text, None),
    }
}

// The fault that a term isn't understood.
fn term_fault(alloc: Global, term: &[u8], fault: TermFault) -> ConditionFault
    ensures { IsConditionFaultOf (term_refused term.now fault) result }
{
    match Text::from_bytes(alloc, term) {
        Ok(text) => ConditionFault::Term(text, fault),
        Err(_) => ConditionFault::Memory,
    }
}

/// The condition that a text tells: terms with commas between them, of which a hand is to meet
/// each.
///
/// A term is `N hcp`, `N spades`, `N hearts`, `N diamonds` or `N clubs`, with `N-M` for from N to M
/// and `N+` for at least N; `balanced`; or `holds` or `lacks` with one card or more, as `holds SK
/// HQ`. Numbers are from 0 to 99. The fault has the first term that isn't one of these.
pub fn read_condition(alloc: Global, text: &[u8]) -> Result<Condition, ConditionFault>
    ensures { MatchResult result (λ condition. condition_read text.now ≡ Ok condition)
        (IsConditionFaultOf (condition_read text.now)) }
{
    let mut terms = Vec::new(alloc);
    let mut rest = Some(text);
    'terms: while let Some(told) = rest {
        let (piece, after) = split_term(told);
        rest = after;
        match read_term(piece) {
            Ok(term) => terms.push(term)?,
            Err(fault) => return Err(term_fault(alloc, piece, fault)),
        }
    }
    Ok(Condition { terms })
}
