//! The Play section: the tokens that count, as entries of rows.
ghost use Rattle.std.specs.Prelude.{◌≡◌, Ok, MatchResult, count_by};
ghost use Rattle.pbn_deal.specs.Sections.{is_card, before_end, section_read, IsRefusalOf};

use crate::fault::{BoardFault, BoardRefusal};
use crate::mark::{Mark, read_mark};
use card_sets::Card;
use pbn_text::Token;
use std::alloc::Global;

/// An entry of a row: a card, or `None` for one not yet played, and the line of its token.
#[derive(Clone, Copy, Debug)]
pub struct Entry {
    pub card: Option<Card>,
    pub line: u32,
}

// How many cards stand before the first `*`.
fn count_cards(tokens: &[Token]) -> usize
    ensures { result ≡ count_by is_card (before_end tokens.now) }
{
    let mut count = 0;
    for token in tokens {
        match read_mark(token.text.bytes()) {
            Mark::End => return count,
            Mark::Card(_) => count += 1,
            _ => {}
        }
    }
    count
}

/// The entries of a Play section, up to its end; `PlayCard` at the first token that is neither a
/// card nor a dash.
#[tactic(auto, unfolding(crate::specs::Sections::section_read))]
pub fn read_section(alloc: Global, tokens: &[Token]) -> Result<Vec<Entry>, BoardRefusal>
    ensures { MatchResult result
        (λ entries. section_read tokens.now ≡ Ok entries.items)
        (IsRefusalOf (section_read tokens.now)) }
{
    let mut cards_left = count_cards(tokens);
    let mut entries = Vec::new(alloc);
    for token in tokens {
        let card = match read_mark(token.text.bytes()) {
            Mark::End => return Ok(entries),
            Mark::Plus if cards_left == 0 => return Ok(entries),
            Mark::Plus => None,
            Mark::Gap => None,
            Mark::Note => continue,
            Mark::Card(card) => {
                cards_left -= 1;
                Some(card)
            }
            Mark::Other => {
                return Err(BoardRefusal::Fault {
                    line: token.line,
                    kind: BoardFault::PlayCard,
                });
            }
        };
        let entry = Entry {
            card,
            line: token.line,
        };
        entries.push(entry).map_err(|_| BoardRefusal::Memory)?;
    }
    Ok(entries)
}
