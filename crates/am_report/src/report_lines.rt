//! What the lines of a report say.
ghost use Rattle.std.specs.Prelude.{◌≡◌, ◌==◌, ◌≤◌, ◌<◌, ◌+◌, length, map, Some, None, IfSome};
ghost use Rattle.std.specs.List.{position_or_len};
ghost use Rattle.byte_text.specs.Lines.{line_at, said_at};
ghost use Rattle.layout_list.specs.Lines.{most_listed};
ghost use Rattle.am_report.specs.ReportLines.{ends_bits, front_said, moves_said};
ghost use Rattle.am_report.specs.ReportLines.{weight_said, bits_said, vector_said};
ghost use Rattle.am_report.specs.ReportLines.{weighed, card_weighed, card_said};
ghost use Rattle.am_report.specs.Versions.{may_stand};

use crate::version::Version;
use bit_letters::vector_of;
use byte_text::{line_at, read_number, text_after};
use card_letters::read_card;
use card_sets::Card;
use layout_list::MOST_LISTED;
use trick_rules::MOST_MOVES;
use win_vectors::WinVector;

#[tactic(auto, unfolding(crate::specs::ReportLines::front_said))]
fn read_front(text: &[u8]) -> Option<u32>
    ensures { result ≡ front_said text.now }
{
    read_number(text_after(text, b"front ")?, 1, u32::MAX)
}

#[tactic(auto, unfolding(crate::specs::ReportLines::moves_said))]
pub(crate) fn read_moves(text: &[u8]) -> Option<u8>
    ensures { result ≡ moves_said text.now }
{
    let moves = read_number(text_after(text, b"moves ")?, 1, u32::from(MOST_MOVES))?;
    Some(moves as u8)
}

#[tactic(auto, unfolding(crate::specs::ReportLines::weight_said))]
fn read_weight(version: Version, text: &[u8]) -> Option<u32>
    ensures { result ≡ weight_said version text.now }
{
    read_number(text_after(text, version.word())?, 0, version.most_written())
}

// Whether a number may follow a vector.
fn may_stand(version: Version, vector: WinVector, weight: u32) -> bool
    ensures { result ≡ may_stand version vector weight }
{
    match version {
        Version::Counts => weight == u32::from(vector.count()),
        Version::Weights => true,
    }
}

// How many bits a text begins with.
fn bits_len(text: &[u8]) -> usize
    ensures len { result ≡ position_or_len ends_bits text.now }
    ensures inside { result ≤ length text.now }
{
    text.iter()
        .position(|byte| !matches!(*byte, b'0' | b'1'))
        .unwrap_or(text.len())
}

// The vector with its weight, if the text gives one that may follow it.
fn read_weighed(version: Version, vector: WinVector, text: &[u8]) -> Option<(WinVector, u32)>
    ensures { result ≡ weighed version vector text.now }
{
    let weight = read_weight(version, text)?;
    if may_stand(version, vector, weight) {
        Some((vector, weight))
    } else {
        None
    }
}

#[tactic(auto, unfolding(crate::specs::ReportLines::bits_said))]
fn read_bits(version: Version, text: &[u8]) -> Option<(WinVector, u32)>
    ensures { result ≡ bits_said version text.now }
{
    let width = bits_len(text);
    if width == 0 || width > MOST_LISTED {
        return None;
    }
    read_weighed(version, vector_of(&text[..width]), &text[width..])
}

#[tactic(auto, unfolding(crate::specs::ReportLines::vector_said))]
fn read_vector(version: Version, text: &[u8]) -> Option<(WinVector, u32)>
    ensures { result ≡ vector_said version text.now }
{
    read_bits(version, text_after(text, b"vector ")?)
}

fn read_weighed_card(version: Version, text: &[u8]) -> Option<(Card, u32)>
    ensures { result ≡ card_weighed version text.now }
{
    let [suit, rank, rest @ ..] = text else {
        return None;
    };
    let card = read_card(*suit, *rank)?;
    let weight = read_weight(version, rest)?;
    Some((card, weight))
}

#[tactic(auto, unfolding(crate::specs::ReportLines::card_said))]
fn read_card_line(version: Version, text: &[u8]) -> Option<(Card, u32)>
    ensures { result ≡ card_said version text.now }
{
    read_weighed_card(version, text_after(text, b"card ")?)
}

// The line that begins at a place, without its end, and the place after it.
fn line_and_next(bytes: &[u8], at: usize) -> Option<(&[u8], usize)>
    requires { at ≤ length bytes.now }
    ensures none { result ≡ None → line_at bytes.now at ≡ None }
    ensures line { IfSome result (λ read. line_at bytes.now at ≡ Some read.0.now) }
    ensures next { IfSome result (λ read. read.1 ≡ at + length read.0.now + 1) }
    ensures within { IfSome result (λ read. read.1 ≤ length bytes.now) }
{
    let line = line_at(bytes, at)?;
    Some((line, at + line.len() + 1))
}

// The number of vectors in the line that begins at a place, and the place after it.
pub(crate) fn front_at(bytes: &[u8], at: usize) -> Option<(u32, usize)>
    requires { at ≤ length bytes.now }
    ensures value { result ≡ said_at front_said bytes.now at }
    ensures within { IfSome result (λ said. said.1 ≤ length bytes.now) }
{
    let (line, next) = line_and_next(bytes, at)?;
    Some((read_front(line)?, next))
}

// The same of a vector with its weight.
pub(crate) fn vector_at(
    version: Version,
    bytes: &[u8],
    at: usize,
) -> Option<((WinVector, u32), usize)>
    requires { at ≤ length bytes.now }
    ensures value { result ≡ said_at (vector_said version) bytes.now at }
    ensures within { IfSome result (λ said. said.1 ≤ length bytes.now) }
{
    let (line, next) = line_and_next(bytes, at)?;
    Some((read_vector(version, line)?, next))
}

// The same of the card to play, and its weight.
pub(crate) fn card_at(version: Version, bytes: &[u8], at: usize) -> Option<((Card, u32), usize)>
    requires { at ≤ length bytes.now }
    ensures value { result ≡ said_at (card_said version) bytes.now at }
    ensures within { IfSome result (λ said. said.1 ≤ length bytes.now) }
{
    let (line, next) = line_and_next(bytes, at)?;
    Some((read_card_line(version, line)?, next))
}
