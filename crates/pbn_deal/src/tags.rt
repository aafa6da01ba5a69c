//! What the tags of a game say: the deal, the contract, declarer, and how much of the play is left.
ghost use Rattle.std.specs.Prelude.{◌≡◌, ◌≤◌, length, option_copied, option_map, IfOk, IfSome};
ghost use Rattle.pbn_deal.specs.Deal.{IsSoundDeal};
ghost use Rattle.pbn_deal.specs.Tags.{
  tag_named,
  first_line,
  is_inherited,
  line_if_inherited,
  inherited_line,
  deal_in,
  is_pass,
  past_letter,
  is_risk,
  trump_read,
  contract_read,
  contract_in,
  seat_named,
  declarer_in,
  need_read,
  ending_read,
};

use crate::board::seat_of;
use crate::deal::{DealValue, read_deal};
use crate::fault::{BoardFault, BoardRefusal};
use byte_text::skip_blanks;
use card_letters::{read_compass, read_suit};
use card_sets::{Compass, Seat};
use pbn_text::{Game, Tag};
use trick_rules::Trump;

/// A contract: its level, 1 to 7, and trumps.
#[derive(Clone, Copy, Debug)]
pub struct Contract {
    pub level: u8,
    pub trump: Trump,
}

/// How much of the play is left: the tricks that declarer's side needs, and the seat that leads
/// first.
#[derive(Clone, Copy, Debug)]
pub struct Ending {
    pub need: u8,
    pub leader: Seat,
}

/// The first tag of a name.
pub fn find_tag<'a>(game: &'a Game, name: &[u8]) -> Option<&'a Tag>
    ensures { option_copied result ≡ tag_named name.now game.now }
{
    game.tags.iter().find(|tag| tag.name.bytes() == name)
}

// A fault at the game's first tag.
fn at_first_tag(game: &Game, kind: BoardFault) -> BoardRefusal
    requires { 1 ≤ length game.now.tags }
    ensures { result ≡ BoardRefusal.Fault (first_line game.now.tags) kind }
{
    BoardRefusal::Fault {
        line: game.tags[0].line,
        kind,
    }
}

// The line of a tag, if it is there and its value begins with `#`.
fn line_if_inherited(tag: Option<&Tag>) -> Option<u32>
    ensures { result ≡ line_if_inherited (option_copied tag.entry) }
{
    let tag = tag?;
    if matches!(tag.value.bytes(), [b'#', ..]) {
        Some(tag.line)
    } else {
        None
    }
}

/// The line of the first of Deal, Contract, Declarer and Play whose value begins with `#`.
pub fn inherited_line(game: &Game) -> Option<u32>
    ensures { result ≡ inherited_line game.now }
{
    line_if_inherited(find_tag(game, b"Deal"))
        .or(line_if_inherited(find_tag(game, b"Contract")))
        .or(line_if_inherited(find_tag(game, b"Declarer")))
        .or(line_if_inherited(find_tag(game, b"Play")))
}

/// The hands of the Deal tag.
pub fn read_deal_tag(game: &Game) -> Result<DealValue, BoardRefusal>
    requires { 1 ≤ length game.now.tags }
    ensures value { result ≡ deal_in game.now }
    ensures sound { IfOk result IsSoundDeal }
{
    let Some(tag) = find_tag(game, b"Deal") else {
        return Err(at_first_tag(game, BoardFault::NoDeal));
    };
    match read_deal(tag.value.bytes()) {
        Ok(deal) => Ok(deal),
        Err(fault) => Err(BoardRefusal::Fault {
            line: tag.line,
            kind: BoardFault::Deal(fault),
        }),
    }
}

// Whether a value is `Pass` in any case.
fn is_pass(value: &[u8]) -> bool
    ensures { result ≡ is_pass value.now }
{
    matches!(value, [b'P' | b'p', b'A' | b'a', b'S' | b's', b'S' | b's'])
}

// What follows an upper case letter or its lower case, if the text begins with it.
fn past_letter(letter: u8, text: &[u8]) -> &[u8]
    requires { letter ≤ 90 }
    ensures { result.now ≡ past_letter letter text.now }
{
    match text {
        [first, rest @ ..] if *first == letter || *first == letter + 32 => rest,
        _ => text,
    }
}

// Whether a text is nothing, `X` or `XX`, and then blanks alone.
fn is_risk(text: &[u8]) -> bool
    ensures { result ≡ is_risk text.now }
{
    skip_blanks(past_letter(b'X', past_letter(b'X', text))).is_empty()
}

// The trumps that a text names, if what follows them may.
fn read_trump(text: &[u8]) -> Option<Trump>
    ensures { result ≡ trump_read text.now }
{
    let (trump, risk) = match text {
        [] => return None,
        [b'N' | b'n', rest @ ..] => (Trump::NoTrump, past_letter(b'T', rest)),
        [suit, rest @ ..] => (Trump::Suit(read_suit(*suit)?), rest),
    };
    if is_risk(risk) { Some(trump) } else { None }
}

// A level from 1 to 7 and the trumps, with blanks at both ends.
fn read_contract(value: &[u8]) -> Option<Contract>
    ensures value { result ≡ contract_read value.now }
    ensures level { IfSome result (λ contract. contract.level ≤ 7) }
{
    match skip_blanks(value) {
        [level @ b'1'..=b'7', rest @ ..] => Some(Contract {
            level: *level - b'0',
            trump: read_trump(rest)?,
        }),
        _ => None,
    }
}

/// The contract of the Contract tag.
pub fn read_contract_tag(game: &Game) -> Result<Contract, BoardRefusal>
    requires { 1 ≤ length game.now.tags }
    ensures value { result ≡ contract_in game.now }
    ensures level { IfOk result (λ contract. contract.level ≤ 7) }
{
    let Some(tag) = find_tag(game, b"Contract") else {
        return Err(at_first_tag(game, BoardFault::NoContract));
    };
    if is_pass(tag.value.bytes()) {
        return Err(BoardRefusal::Fault {
            line: tag.line,
            kind: BoardFault::PassedOut,
        });
    }
    read_contract(tag.value.bytes()).ok_or(BoardRefusal::Fault {
        line: tag.line,
        kind: BoardFault::BadContract,
    })
}

/// The place that a value of one seat letter names.
pub fn read_seat(value: &[u8]) -> Option<Compass>
    ensures { result ≡ seat_named value.now }
{
    match value {
        [letter] => read_compass(*letter),
        _ => None,
    }
}

/// The place of the Declarer tag.
pub fn read_declarer_tag(game: &Game) -> Result<Compass, BoardRefusal>
    requires { 1 ≤ length game.now.tags }
    ensures { result ≡ declarer_in game.now }
{
    let Some(tag) = find_tag(game, b"Declarer") else {
        return Err(at_first_tag(game, BoardFault::NoDeclarer));
    };
    read_seat(tag.value.bytes()).ok_or(BoardRefusal::Fault {
        line: tag.line,
        kind: BoardFault::NoDeclarer,
    })
}

// A decimal number from 0 to 13 of one or two digits.
fn read_need(value: &[u8]) -> Option<u8>
    ensures value { result ≡ need_read value.now }
    ensures fits { IfSome result (λ need. need ≤ 13) }
{
    let need = match value {
        [digit @ b'0'..=b'9'] => *digit - b'0',
        [tens @ b'0'..=b'9', ones @ b'0'..=b'9'] => 10 * (*tens - b'0') + (*ones - b'0'),
        _ => return None,
    };
    if need <= 13 { Some(need) } else { None }
}

// The fault EndTags at a line.
fn end_tags(line: u32) -> BoardRefusal
    ensures { result ≡ BoardRefusal.Fault line BoardFault.EndTags }
{
    BoardRefusal::Fault {
        line,
        kind: BoardFault::EndTags,
    }
}

/// The need and the first leader, by the tags EndNeed and EndLead, or by the contract if there is
/// neither and the hands have 13 cards. The line is that of the Deal tag.
pub fn read_ending(
    line: u32,
    declarer: Compass,
    contract: Contract,
    tricks: u8,
    need: Option<&Tag>,
    lead: Option<&Tag>,
) -> Result<Ending, BoardRefusal>
    requires { contract.level ≤ 7 }
    ensures value { result ≡ ending_read line declarer contract tricks (option_copied need.entry)
        (option_copied lead.entry) }
    ensures fits { IfOk result (λ ending. ending.need ≤ 13) }
{
    match (need, lead) {
        (None, None) if tricks == 13 => Ok(Ending {
            need: contract.level + 6,
            leader: Seat::Left,
        }),
        (None, None) => Err(end_tags(line)),
        (Some(need), None) => Err(end_tags(need.line)),
        (None, Some(lead)) => Err(end_tags(lead.line)),
        (Some(need), Some(lead)) => {
            let number = read_need(need.value.bytes()).ok_or(end_tags(need.line))?;
            let place = read_seat(lead.value.bytes()).ok_or(end_tags(lead.line))?;
            Ok(Ending {
                need: number,
                leader: seat_of(declarer, place),
            })
        }
    }
}
