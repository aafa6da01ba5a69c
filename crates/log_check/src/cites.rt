//! The lines that a line cites, and where they stand.
ghost use Rattle.std.specs.Prelude.{◌≡◌, ◌≤◌, ◌↔◌, ◌++◌, ◌∷◌, [], ℕ, IsTrue, MatchOption, length};
ghost use Rattle.log_check.specs.Logs.{cited_lines, StandBehind};
ghost use Rattle.log_check.specs.Steps.{AreNumbers, StandBehindSome};

use crate::lines::LogLine;
use card_sets::{Card, CardSet};
use trick_rules::CardLine;

/// Whether each number is that of one of `count` lines, which count from 1.
pub fn are_numbers(numbers: &[u32], count: usize) -> bool
    ensures { IsTrue result ↔ AreNumbers count numbers.now }
{
    numbers
        .iter()
        .all(|number| 1 <= *number && *number as usize <= count)
}

/// Whether the lines of these numbers stand one card behind a path, by these cards in order.
pub fn stand_behind(lines: &[LogLine], numbers: &[u32], path: &CardLine, cards: CardSet) -> bool
    requires { AreNumbers (length lines.now) numbers.now }
    ensures { IsTrue result ↔ StandBehind path.now cards (cited_lines lines.now numbers.now) }
{
    let mut rest = cards;
    for number in numbers {
        let Some(card) = rest.pop_first() else {
            return false;
        };
        let Some(last) = card_behind(&lines[*number as usize - 1].path, path) else {
            return false;
        };
        if last != card {
            return false;
        }
    }
    rest.is_empty()
}

/// Whether the lines of these numbers stand one card behind a path, by distinct cards of a set in
/// card order.
pub fn stand_behind_some(
    lines: &[LogLine],
    numbers: &[u32],
    path: &CardLine,
    choices: CardSet,
) -> bool
    requires { AreNumbers (length lines.now) numbers.now }
    ensures { IsTrue result
        ↔ StandBehindSome path.now choices 0 (cited_lines lines.now numbers.now) }
{
    let mut low = 0;
    for number in numbers {
        let Some(card) = card_behind(&lines[*number as usize - 1].path, path) else {
            return false;
        };
        if card.number() < low || !choices.has(card) {
            return false;
        }
        low = card.number() + 1;
    }
    true
}

/// The card by which a line of cards goes on where another ends, if it is one card longer.
fn card_behind(line: &CardLine, path: &CardLine) -> Option<Card>
    ensures { MatchOption result ((card : ℕ) → line.now ≡ path.now ++ card ∷ [] → ⊥)
        (λ card. line.now ≡ path.now ++ card ∷ []) }
{
    if line.len() != path.len() + 1 {
        return None;
    }
    for place in 0..path.len() {
        if line.get(place) != path.get(place) {
            return None;
        }
    }
    Some(line.get(path.len()))
}
