//! A plan read from text.
ghost use Rattle.std.specs.Prelude.{◌≡◌, ◌≤◌, ◌<◌, ◌⊎◌, ◌+◌, ◌++◌, length, IfOk, IfErr, IfSome, ◌==◌, Ok, Err, List, ℕ};
ghost use Rattle.strategy_tree.specs.PlanMeaning.{plan_of, replies_of};
ghost use Rattle.strategy_tree.specs.PlanText.{plan_text, levels_of, HasReplies};
ghost use Rattle.byte_text.specs.Lines.{said_at};
ghost use Rattle.strategy_tree.specs.PlanRead.{card_named, play_said, hear_said, plan_line, reply_line, node_read, replies_read, plan_read, most_levels};

use crate::plan::{Plan, Reply};
use byte_text::{Text, line_at, read_number, text_after};
use card_letters::read_card;
use card_sets::Card;
use std::alloc::{AllocError, Global};

/// Why no plan was read.
#[derive(Clone, Copy, Debug, PartialEq, Eq)]
pub enum PlanFault {
    /// The line that begins at this place can't be here.
    Line(usize),
    /// A node would be at level 65, and its line would begin at this place.
    Deep(usize),
    /// There is no memory for the plan.
    Memory,
}

impl From<AllocError> for PlanFault {
    ghost use Rattle.std.specs.Prelude.{◌≡◌};
    ghost use Rattle.strategy_tree.specs.declared.plan_reader.PlanFault.{PlanFault};
    ghost use Rattle.strategy_tree.specs.declared.plan_reader.PlanFault.TheVariants.{Memory};

    ghost from_gives = { λ _ fault. fault ≡ Memory };

    fn from(_error: AllocError) -> PlanFault {
        PlanFault::Memory
    }
}

/// What a node's line says.
#[derive(Clone, Copy, Debug, PartialEq, Eq)]
pub enum PlanLine {
    Stop,
    Play(Card),
    /// The number of replies that follow.
    Hear(u8),
}

/// The most levels that a plan may have, from its root to a leaf, both counted.
const MAX_LEVELS: u8 = 64;

/// The most replies that a defender's node may have: one for each card.
const MAX_REPLIES: u8 = 52;

/// The plan whose first line begins at a place in a text, and the place after its last line.
/// The place is at most the text's length.
pub fn read_plan(alloc: Global, bytes: &[u8], start: usize) -> Result<(Plan, usize), PlanFault>
    requires { start ≤ length bytes.now }
    ensures read { IfOk result (λ read. plan_read bytes.now start ≡ Ok (plan_of read.0, read.1)) }
    ensures within { IfOk result (λ read. read.1 ≤ length bytes.now) }
    ensures fault { IfErr result
        (λ fault. (fault ≡ PlanFault.Memory) ⊎ (plan_read bytes.now start ≡ Err fault)) }
{
    read_node(alloc, bytes, start, MAX_LEVELS)
}

/// Law: what is written of a plan of at most 64 levels, each defender's node of which has 1 to 52
/// replies, is read back, whatever follows, up to the place at which the text ended.
///
/// Appends the lines of the plan to a text, and reads them from the text's old end.
pub fn plan_text_reads_back(
    alloc: Global,
    plan: &Plan,
    out: &mut Text,
) -> Result<(Plan, usize), PlanFault>
    ensures appended { (out.new ≡ out.old ++ plan_text (plan_of plan.now))
        ⊎ ((out.new ≡ out.old) × (result ≡ Err PlanFault.Memory)) }
    ensures same_plan { levels_of (plan_of plan.now) ≤ most_levels → HasReplies (plan_of plan.now)
        → IfOk result (λ read. (plan_of read.0 ≡ plan_of plan.now) × (read.1 ≡ length out.new)) }
    ensures memory { levels_of (plan_of plan.now) ≤ most_levels → HasReplies (plan_of plan.now)
        → IfErr result (λ fault. fault ≡ PlanFault.Memory) }
    ensures whatever_follows { levels_of (plan_of plan.now) ≤ most_levels
        → HasReplies (plan_of plan.now)
        → (rest : List ℕ) → IfOk result
        (λ _. plan_read (out.new ++ rest) (length out.old)
        ≡ Ok (plan_of plan.now, length out.new)) }
{
    let start = out.bytes().len();
    plan.lines(alloc, out)?;
    read_plan(alloc, out.bytes(), start)
}

// The same for a plan of at most `levels` levels.
#[cycle(read)]
fn read_node(alloc: Global, bytes: &[u8], at: usize, levels: u8) -> Result<(Plan, usize), PlanFault>
    requires { at ≤ length bytes.now }
    ensures read { IfOk result
        (λ read. node_read levels bytes.now at ≡ Ok (plan_of read.0, read.1)) }
    ensures within { IfOk result (λ read. read.1 ≤ length bytes.now) }
    ensures fault { IfErr result
        (λ fault. (fault ≡ PlanFault.Memory) ⊎ (node_read levels bytes.now at ≡ Err fault)) }
{
    if levels == 0 {
        return Err(PlanFault::Deep(at));
    }
    let Some((line, next)) = plan_line_at(bytes, at) else {
        return Err(PlanFault::Line(at));
    };
    match line {
        PlanLine::Stop => Ok((Plan::Stop, next)),
        PlanLine::Play(card) => {
            let (rest, end) = read_node(alloc, bytes, next, levels - 1)?;
            let rest = Box::new(alloc, rest).map_err(AllocError::from)?;
            Ok((Plan::Play(card, rest), end))
        }
        PlanLine::Hear(count) => {
            let (replies, end) = read_replies(alloc, bytes, next, levels - 1, count)?;
            Ok((Plan::Hear(replies), end))
        }
    }
}

// The next `count` replies, whose plans have at most `levels` levels.
#[cycle(read)]
fn read_replies(
    alloc: Global,
    bytes: &[u8],
    start: usize,
    levels: u8,
    count: u8,
) -> Result<(Vec<Reply>, usize), PlanFault>
    requires { start ≤ length bytes.now }
    ensures read { IfOk result
        (λ read. replies_read (λ at. node_read levels bytes.now at) count bytes.now start
        ≡ Ok (replies_of read.0.items, read.1)) }
    ensures within { IfOk result (λ read. read.1 ≤ length bytes.now) }
    ensures fault { IfErr result
        (λ fault. (fault ≡ PlanFault.Memory)
        ⊎ (replies_read (λ at. node_read levels bytes.now at) count bytes.now start ≡ Err fault)) }
{
    let mut replies = Vec::new(alloc);
    let mut at = start;
    for _ in 0..count {
        let Some(said) = reply_line_at(bytes, at) else {
            return Err(PlanFault::Line(at));
        };
        let (plan, end) = read_node(alloc, bytes, said.1, levels)?;
        let reply = Reply { card: said.0, plan };
        replies.push(reply).map_err(AllocError::from)?;
        at = end;
    }
    Ok((replies, at))
}

// What the node's line that begins at a place says, and the place after it.
fn plan_line_at(bytes: &[u8], at: usize) -> Option<(PlanLine, usize)>
    requires { at ≤ length bytes.now }
    ensures value { result ≡ said_at plan_line bytes.now at }
    ensures within { IfSome result (λ said. said.1 ≤ length bytes.now) }
{
    let text = line_at(bytes, at)?;
    let line = read_plan_line(text)?;
    Some((line, at + text.len() + 1))
}

// The same of the line before a reply.
fn reply_line_at(bytes: &[u8], at: usize) -> Option<(Card, usize)>
    requires { at ≤ length bytes.now }
    ensures value { result ≡ said_at reply_line bytes.now at }
    ensures within { IfSome result (λ said. said.1 ≤ length bytes.now) }
{
    let text = line_at(bytes, at)?;
    let card = read_reply_line(text)?;
    Some((card, at + text.len() + 1))
}

#[tactic(auto, unfolding(crate::specs::PlanRead::plan_line))]
fn read_plan_line(text: &[u8]) -> Option<PlanLine>
    ensures { result ≡ plan_line text.now }
{
    if text == b"stop".as_slice() {
        return Some(PlanLine::Stop);
    }
    read_play(text).or(read_hear(text))
}

#[tactic(auto, unfolding(crate::specs::PlanRead::play_said))]
fn read_play(text: &[u8]) -> Option<PlanLine>
    ensures { result ≡ play_said text.now }
{
    let card = text_after(text, b"play ")?;
    Some(PlanLine::Play(read_named_card(card)?))
}

#[tactic(auto, unfolding(crate::specs::PlanRead::hear_said))]
fn read_hear(text: &[u8]) -> Option<PlanLine>
    ensures { result ≡ hear_said text.now }
{
    let count = read_number(text_after(text, b"hear ")?, 1, u32::from(MAX_REPLIES))?;
    Some(PlanLine::Hear(count as u8))
}

#[tactic(auto, unfolding(crate::specs::PlanRead::reply_line))]
fn read_reply_line(text: &[u8]) -> Option<Card>
    ensures { result ≡ reply_line text.now }
{
    read_named_card(text_after(text, b"on ")?)
}

fn read_named_card(text: &[u8]) -> Option<Card>
    ensures { result ≡ card_named text.now }
{
    match text {
        [suit, rank] => read_card(*suit, *rank),
        _ => None,
    }
}
