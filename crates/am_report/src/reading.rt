//! A report read from its text.
ghost use Rattle.std.specs.Prelude.{◌≡◌, ◌==◌, ◌≤◌, ◌<◌, ◌+◌, ◌-◌, ◌^◌, [], ◌++◌, length, find};
ghost use Rattle.std.specs.Prelude.{IfOk, IfErr, IfSome, MatchOption, option_to_list};
ghost use Rattle.std.specs.List.{range_with_len};
ghost use Rattle.strategy_tree.specs.PlanMeaning.{plan_of};
ghost use Rattle.byte_text.specs.Lines.{said_at, line_number};
ghost use Rattle.am_report.specs.ReportLines.{vector_said, card_said};
ghost use Rattle.am_report.specs.Reading.{expected, line_after_last, has_version, version_said};
ghost use Rattle.am_report.specs.Reading.{is_front, front_place, moves_of_head, head_said};
ghost use Rattle.am_report.specs.Reading.{head_read, report_fault, entry_read, entries_read};
ghost use Rattle.am_report.specs.Reading.{end_read, below_read, report_read, report_of};
ghost use Rattle.am_report.specs.Reading.{IsReportFaultOf, GivesReport};

use crate::answer::{Entry, ReadEntry};
use crate::fault::{ReportFault, ReportKind};
use crate::report_lines::{card_at, front_at, read_moves, vector_at};
use crate::version::Version;
use byte_text::{Text, line_number, split_line, text_after};
use card_sets::Card;
use std::alloc::Global;
use strategy_tree::{Plan, PlanFault, read_plan};
use win_vectors::WinVector;

/// What a report says.
#[derive(Debug, Drop)]
pub struct ReadReport {
    pub version: Version,
    /// The text of the lines above the front.
    pub head: Text,
    /// The number of moves that the head gives.
    pub moves: u8,
    /// The front: each vector with its weight and its plan.
    pub entries: Vec<ReadEntry>,
    pub card: Card,
    /// How many of the kept layouts make the contract, or their weight.
    pub weight: u32,
}

/// What the lines down to the front's length say, with the places at which that line and the next
/// one begin.
#[derive(Clone, Copy, Debug)]
pub struct Head {
    pub place: usize,
    pub moves: u8,
    pub vectors: u32,
    pub next: usize,
}

/// What a report of fewer than 2^32 - 1 bytes says, or its first fault with the line.
///
/// The head is taken as it stands, except for its first line and its number of moves.
#[tactic(auto, unfolding(crate::specs::Reading::report_read))]
pub fn read_report(alloc: Global, bytes: &[u8]) -> Result<ReadReport, ReportFault>
    requires { length bytes.now < 2 ^ 32 - 1 }
    ensures read { IfOk result (λ report. report_read bytes.now ≡ Ok (report_of report)) }
    ensures fault { IfErr result (λ fault. IsReportFaultOf fault (report_read bytes.now)) }
{
    match read_version(bytes) {
        Some(version) => read_below(alloc, version, bytes),
        None => Err(ReportFault::Fault {
            line: 1,
            kind: ReportKind::Version,
        }),
    }
}

// The version that line 1 gives.
#[tactic(auto, unfolding(crate::specs::Reading::version_said))]
fn read_version(bytes: &[u8]) -> Option<Version>
    ensures { result ≡ version_said bytes.now }
{
    if text_after(bytes, b"alphamu report 1\n").is_some() {
        Some(Version::Counts)
    } else if text_after(bytes, b"alphamu report 2\n").is_some() {
        Some(Version::Weights)
    } else {
        None
    }
}

// What the lines below the version say.
fn read_below(alloc: Global, version: Version, bytes: &[u8]) -> Result<ReadReport, ReportFault>
    requires { length bytes.now < 2 ^ 32 - 1 }
    ensures read { IfOk result (λ report. below_read version bytes.now ≡ Ok (report_of report)) }
    ensures fault { IfErr result (λ fault. IsReportFaultOf fault (below_read version bytes.now)) }
{
    let head = read_head(bytes)?;
    let (entries, at) = read_entries(alloc, version, bytes, head.next, head.vectors)?;
    let (named, next) = read_card(version, bytes, at)?;
    read_end(bytes, next)?;
    let Ok(text) = Text::from_bytes(alloc, &bytes[..head.place]) else {
        return Err(ReportFault::Memory);
    };
    Ok(ReadReport {
        version,
        head: text,
        moves: head.moves,
        entries,
        card: named.0,
        weight: named.1,
    })
}

// The number of the line after the last.
fn line_after_last(bytes: &[u8]) -> u32
    requires { length bytes.now < 2 ^ 32 - 1 }
    ensures { result ≡ line_after_last bytes.now }
{
    line_number(bytes, bytes.len().saturating_sub(1)) + 1
}

fn fault_at(bytes: &[u8], at: usize, kind: ReportKind) -> ReportFault
    requires { length bytes.now < 2 ^ 32 - 1 }
    ensures { result ≡ ReportFault.Fault (line_number bytes.now at) kind }
{
    ReportFault::Fault {
        line: line_number(bytes, at),
        kind,
    }
}

// The fault of a report in whose plan there is this fault.
fn report_fault(bytes: &[u8], fault: PlanFault) -> ReportFault
    requires { length bytes.now < 2 ^ 32 - 1 }
    ensures { result ≡ report_fault bytes.now fault }
{
    match fault {
        PlanFault::Line(at) => fault_at(bytes, at, ReportKind::Plan),
        PlanFault::Deep(at) => fault_at(bytes, at, ReportKind::TooDeep),
        PlanFault::Memory => ReportFault::Memory,
    }
}

// Either of two numbers; None where both are there.
fn one_at_most(found: Option<u8>, more: Option<u8>) -> Option<Option<u8>>
    ensures { MatchOption result (length (option_to_list found ++ option_to_list more) ≡ 2)
        (λ one. option_to_list one ≡ option_to_list found ++ option_to_list more) }
{
    match (found, more) {
        (Some(_), Some(_)) => None,
        (None, more) => Some(more),
        (found, None) => Some(found),
    }
}

// The number of moves, where exactly one of the lines gives it.
fn moves_of_head(head: &[u8]) -> Option<u8>
    ensures { result ≡ moves_of_head head.now }
{
    let mut found = None;
    let mut rest = Some(head);
    'lines: while let Some(text) = rest {
        let (line, after) = split_line(text);
        rest = after;
        found = one_at_most(found, read_moves(line))?;
    }
    found
}

// Whether a line that begins with `front ` follows the line end at a place.
fn is_front(bytes: &[u8], at: usize) -> bool
    ensures { result ≡ is_front bytes.now at }
{
    if at < bytes.len() {
        text_after(&bytes[at..], b"\nfront ").is_some()
    } else {
        false
    }
}

// The first line end that is followed by a line that begins with `front `.
fn front_line_end(bytes: &[u8]) -> Option<usize>
    ensures value { result ≡ find (is_front bytes.now) (range_with_len 0 (length bytes.now)) }
    ensures within { IfSome result (λ end. end < length bytes.now) }
{
    (0..bytes.len()).find(|at| is_front(bytes, *at))
}

// The place of the first line that begins with `front `.
#[tactic(auto, unfolding(crate::specs::Reading::front_place))]
fn front_place(bytes: &[u8]) -> Option<usize>
    ensures value { result ≡ front_place bytes.now }
    ensures within { IfSome result (λ at. at ≤ length bytes.now) }
{
    let end = front_line_end(bytes)?;
    Some(end + 1)
}

// The head above the front that begins at a place.
#[tactic(auto, unfolding(crate::specs::Reading::head_said))]
fn head_at(bytes: &[u8], at: usize) -> Option<Head>
    requires { at ≤ length bytes.now }
    ensures value { result ≡ head_said bytes.now at }
    ensures within { IfSome result
        (λ head. (head.place ≤ length bytes.now) × (head.next ≤ length bytes.now)) }
{
    let moves = moves_of_head(&bytes[..at])?;
    let (vectors, next) = front_at(bytes, at)?;
    Some(Head {
        place: at,
        moves,
        vectors,
        next,
    })
}

// The head, down to the front's length.
#[tactic(auto, unfolding(crate::specs::Reading::head_read))]
fn read_head(bytes: &[u8]) -> Result<Head, ReportFault>
    requires { length bytes.now < 2 ^ 32 - 1 }
    ensures read { GivesReport result (head_read bytes.now) }
    ensures within { IfOk result
        (λ head. (head.place ≤ length bytes.now) × (head.next ≤ length bytes.now)) }
{
    let Some(at) = front_place(bytes) else {
        return Err(ReportFault::Fault {
            line: line_after_last(bytes),
            kind: ReportKind::Head,
        });
    };
    match head_at(bytes, at) {
        Some(head) => Ok(head),
        None => Err(fault_at(bytes, at, ReportKind::Head)),
    }
}

fn entry_of(vector: WinVector, weight: u32, plan: Plan) -> ReadEntry
    ensures { result
        ≡ record { entry = record { vector = vector; plan = plan_of plan }; weight = weight } }
{
    ReadEntry {
        entry: Entry { vector, plan },
        weight,
    }
}

// A vector with its weight and its plan, and the place after them.
fn read_entry(
    alloc: Global,
    version: Version,
    bytes: &[u8],
    at: usize,
) -> Result<(ReadEntry, usize), ReportFault>
    requires place { at ≤ length bytes.now }
    requires short { length bytes.now < 2 ^ 32 - 1 }
    ensures read { GivesReport result (entry_read version bytes.now at) }
    ensures within { IfOk result (λ read. read.1 ≤ length bytes.now) }
{
    let Some((said, next)) = vector_at(version, bytes, at) else {
        return Err(fault_at(bytes, at, ReportKind::Vector));
    };
    match read_plan(alloc, bytes, next) {
        Ok((plan, end)) => Ok((entry_of(said.0, said.1, plan), end)),
        Err(fault) => Err(report_fault(bytes, fault)),
    }
}

// This many vectors with their plans, and the place after them.
fn read_entries(
    alloc: Global,
    version: Version,
    bytes: &[u8],
    start: usize,
    count: u32,
) -> Result<(Vec<ReadEntry>, usize), ReportFault>
    requires place { start ≤ length bytes.now }
    requires short { length bytes.now < 2 ^ 32 - 1 }
    ensures read { IfOk result
        (λ read. entries_read version count bytes.now start ≡ Ok (read.0.items, read.1)) }
    ensures within { IfOk result (λ read. read.1 ≤ length bytes.now) }
    ensures fault { IfErr result
        (λ fault. IsReportFaultOf fault (entries_read version count bytes.now start)) }
{
    let mut entries = Vec::new(alloc);
    let mut at = start;
    for _ in 0..count {
        let (entry, end) = read_entry(alloc, version, bytes, at)?;
        entries.push(entry)?;
        at = end;
    }
    Ok((entries, at))
}

// The line of the card to play and its weight, and the place after it.
fn read_card(version: Version, bytes: &[u8], at: usize) -> Result<((Card, u32), usize), ReportFault>
    requires place { at ≤ length bytes.now }
    requires short { length bytes.now < 2 ^ 32 - 1 }
    ensures read { GivesReport result
        (expected ReportKind.Card bytes.now at
        (said_at (card_said version) bytes.now at)) }
    ensures within { IfOk result (λ read. read.1 ≤ length bytes.now) }
{
    match card_at(version, bytes, at) {
        Some(said) => Ok(said),
        None => Err(fault_at(bytes, at, ReportKind::Card)),
    }
}

// The last line.
fn read_end(bytes: &[u8], at: usize) -> Result<(), ReportFault>
    requires place { at ≤ length bytes.now }
    requires short { length bytes.now < 2 ^ 32 - 1 }
    ensures { GivesReport result (end_read bytes.now at) }
{
    match text_after(&bytes[at..], b"end\n") {
        None => Err(fault_at(bytes, at, ReportKind::End)),
        Some([]) => Ok(()),
        Some(_) => Err(fault_at(bytes, at + 4, ReportKind::End)),
    }
}
