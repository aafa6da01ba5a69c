//! The text of a log.
ghost use Rattle.std.specs.Prelude.{◌≡◌, ◌<◌, ◌++◌, ◌∷◌, [], IfOk, OnOk, map, flat_map};
ghost use Rattle.log_check.specs.Limits.{most_lines};
ghost use Rattle.log_texts.specs.LogText.{rule_word, mark_before, path_text, numbers_text, vectors_text, log_line, log_text};
ghost use Rattle.log_texts.specs.Written.{begun, finished, IsLongerBy, WrittenLog};

use bit_letters::push_bits;
use byte_text::Text;
use card_letters::letters_of;
use log_check::{Log, LogLine, Rule};
use std::alloc::{AllocError, Global};
use std::marker::Model;
use trick_rules::CardLine;
use win_vectors::WinVector;

/// A log that is written line by line: the bytes so far. It keeps none of the lines themselves.
///
/// A line has its rule, the cards of its path with full stops between them, its moves, the numbers
/// of the lines that it cites and its vectors, both with commas between them. A minus sign means
/// none.
#[derive(Debug, Drop)]
pub struct LogWriter {
    text: Text,
    count: u32,
}

impl Model for LogWriter {
    ghost Value = { WrittenLog };

    ghost view = { λ writer. record { text = writer.text; count = writer.count } };
}

impl LogWriter {
    /// A log's first line.
    pub fn new(alloc: Global) -> Result<LogWriter, AllocError>
        ensures { IfOk result (λ writer. writer ≡ begun) }
    {
        let mut text = Text::new(alloc);
        text.push(b"alphamu log 1\n")?;
        Ok(LogWriter { text, count: 0 })
    }

    /// Writes a line of the log. If an allocation fails, part of the line may have been written.
    pub fn push(&mut self, alloc: Global, line: &LogLine) -> Result<(), AllocError>
        requires { self.old.count < most_lines }
        ensures { OnOk result (IsLongerBy (line.now ∷ []) self.old self.new) }
    {
        push_log_line(&mut self.text, alloc, line)?;
        self.count += 1;
        Ok(())
    }

    /// How many lines of the log have been written.
    pub fn len(&self) -> u32
        ensures { result ≡ self.now.count }
    {
        self.count
    }

    /// The whole text: what has been written, and the line `end`.
    pub fn finish(self) -> Result<Text, AllocError>
        ensures { IfOk result (λ text. text ≡ finished self) }
    {
        let LogWriter { mut text, count: _ } = self;
        text.push(b"end\n")?;
        Ok(text)
    }
}

/// The text of a log: its first line, a line for each line of the log, and `end`.
#[tactic(auto, unfolding(crate::specs::LogText::log_text))]
pub fn log_text(alloc: Global, log: &Log) -> Result<Text, AllocError>
    ensures { IfOk result (λ text. text ≡ log_text log.now) }
{
    let mut text = Text::new(alloc);
    text.push(b"alphamu log 1\n")?;
    push_lines(&mut text, alloc, log.as_slice())?;
    text.push(b"end\n")?;
    Ok(text)
}

// Appends the lines.
fn push_lines(text: &mut Text, alloc: Global, lines: &[LogLine]) -> Result<(), AllocError>
    ensures { OnOk result (text.new ≡ text.old ++ flat_map log_line lines.now) }
{
    for line in lines {
        push_log_line(text, alloc, line)?;
    }
    Ok(())
}

// Appends a line.
#[tactic(auto, unfolding(crate::specs::LogText::log_line))]
fn push_log_line(text: &mut Text, alloc: Global, line: &LogLine) -> Result<(), AllocError>
    ensures { OnOk result (text.new ≡ text.old ++ log_line line.now) }
{
    push_rule(text, line.rule)?;
    text.push(b" ")?;
    push_path(text, &line.path)?;
    text.push(b" ")?;
    text.push_number(alloc, u64::from(line.moves))?;
    text.push(b" ")?;
    push_numbers(text, alloc, line.from.as_slice())?;
    text.push(b" ")?;
    push_vectors(text, line.vectors.as_slice())?;
    text.push(b"\n")
}

fn push_rule(text: &mut Text, rule: Rule) -> Result<(), AllocError>
    ensures { OnOk result (text.new ≡ text.old ++ rule_word rule) }
{
    match rule {
        Rule::Leaf => text.push(b"leaf"),
        Rule::Union => text.push(b"union"),
        Rule::Join => text.push(b"join"),
    }
}

// Appends a mark, but not before the first piece.
fn push_mark(text: &mut Text, mark: u8, place: usize) -> Result<(), AllocError>
    ensures { OnOk result (text.new ≡ text.old ++ mark_before mark place) }
{
    if place == 0 {
        return Ok(());
    }
    text.push(&[mark])
}

fn push_path(text: &mut Text, path: &CardLine) -> Result<(), AllocError>
    ensures { OnOk result (text.new ≡ text.old ++ path_text path.now) }
{
    if path.len() == 0 {
        return text.push(b"-");
    }
    for place in 0..path.len() {
        push_mark(text, b'.', place)?;
        text.push(&letters_of(path.get(place)))?;
    }
    Ok(())
}

fn push_numbers(text: &mut Text, alloc: Global, numbers: &[u32]) -> Result<(), AllocError>
    ensures { OnOk result (text.new ≡ text.old ++ numbers_text numbers.now) }
{
    if numbers.is_empty() {
        return text.push(b"-");
    }
    for (place, number) in numbers.iter().enumerate() {
        push_mark(text, b',', place)?;
        text.push_number(alloc, u64::from(*number))?;
    }
    Ok(())
}

fn push_vectors(text: &mut Text, vectors: &[WinVector]) -> Result<(), AllocError>
    ensures { OnOk result (text.new ≡ text.old ++ vectors_text vectors.now) }
{
    if vectors.is_empty() {
        return text.push(b"-");
    }
    for (place, vector) in vectors.iter().enumerate() {
        push_mark(text, b',', place)?;
        push_bits(text, *vector)?;
    }
    Ok(())
}
