//! A log read from its text.
ghost use Rattle.std.specs.Prelude.{◌≡◌, ◌<◌, ◌-◌, ◌^◌, ◌∷◌, [], length, Ok, None, IfOk, IfErr, MatchOption};
ghost use Rattle.log_texts.specs.Reading.{pieces_at, words_said, line_said, is_end, lines_read, log_read, IsLogFault};

use crate::fault::LogFault;
use crate::marks::split_at_mark;
use crate::words::{read_from, read_moves, read_path, read_rule, read_vectors};
use byte_text::{split_line, text_after};
use log_check::{Log, LogLine};
use std::alloc::{AllocError, Global};

/// The log that a text of fewer than 2^32 - 1 bytes writes, or its first line that can't be there.
///
/// Line 1 is `alphamu log 1`. Then come one or more lines of five words with single spaces between
/// them, and the line `end`, after which nothing follows. The words are `leaf`, `union` or `join`;
/// 1 to 52 cards with full stops between them; 0 to 26 moves; the numbers of the lines that it
/// cites, from 1 to 4,294,967,295; and one or more vectors of 1 to 256 bits, both with commas
/// between them. A minus sign means no card or no number, a number has no leading zeros, and the
/// letters of a card are read in either case.
///
/// A line that isn't there or is cut off before its end is named by the number that it would have.
#[tactic(auto, unfolding(crate::specs::Reading::log_read))]
pub fn read_log(alloc: Global, bytes: &[u8]) -> Result<Log, LogFault>
    requires { length bytes.now < 2 ^ 32 - 1 }
    ensures read { IfOk result (λ log. log_read bytes.now ≡ Ok log) }
    ensures fault { IfErr result (λ fault. IsLogFault fault (log_read bytes.now)) }
{
    let Some(text) = text_after(bytes, b"alphamu log 1\n") else {
        return Err(LogFault::Line(1));
    };
    read_lines(alloc, text)
}

// The lines below the version.
fn read_lines(alloc: Global, text: &[u8]) -> Result<Log, LogFault>
    requires { length text.now < 2 ^ 32 - 2 }
    ensures read { IfOk result (λ log. lines_read 2 (pieces_at 10 text.now) ≡ Ok log) }
    ensures fault { IfErr result
        (λ fault. IsLogFault fault (lines_read 2 (pieces_at 10 text.now))) }
{
    let mut log = Log::new(alloc);
    let mut number = 2u32;
    let mut rest = text;
    'lines: while !rest.is_empty() {
        let (line, after) = split_line(rest);
        let Some(next) = after else {
            return Err(LogFault::Line(number));
        };
        if is_end(number, line) {
            return if next.is_empty() {
                Ok(log)
            } else {
                Err(LogFault::Line(number + 1))
            };
        }
        let Ok(said) = read_line(alloc, line) else {
            return Err(LogFault::Memory);
        };
        let Some(line) = said else {
            return Err(LogFault::Line(number));
        };
        let Ok(()) = log.push(line) else {
            return Err(LogFault::Memory);
        };
        number += 1;
        rest = next;
    }
    Err(LogFault::Line(number))
}

// Whether a line of this number ends the log.
fn is_end(number: u32, line: &[u8]) -> bool
    ensures { result ≡ is_end number line.now }
{
    number >= 3 && line == b"end".as_slice()
}

// The words of a line.
#[derive(Clone, Copy)]
struct Words<'a> {
    rule: &'a [u8],
    path: &'a [u8],
    moves: &'a [u8],
    from: &'a [u8],
    vectors: &'a [u8],
}

// The five words of a line.
fn words_of(line: &[u8]) -> Option<Words<'_>>
    ensures { MatchOption result (words_said (pieces_at 32 line.now) ≡ None)
        (λ words. pieces_at 32 line.now ≡ words.rule.now ∷ words.path.now ∷ words.moves.now
        ∷ words.from.now ∷ words.vectors.now ∷ []) }
{
    let (rule, rest) = split_at_mark(line, b' ');
    let (path, rest) = split_at_mark(rest?, b' ');
    let (moves, rest) = split_at_mark(rest?, b' ');
    let (from, rest) = split_at_mark(rest?, b' ');
    let (vectors, rest) = split_at_mark(rest?, b' ');
    match rest {
        Some(_) => None,
        None => Some(Words {
            rule,
            path,
            moves,
            from,
            vectors,
        }),
    }
}

// What a line says.
#[tactic(auto, unfolding(crate::specs::Reading::line_said))]
fn read_line(alloc: Global, line: &[u8]) -> Result<Option<LogLine>, AllocError>
    ensures { IfOk result (λ said. said ≡ line_said line.now) }
{
    let Some(words) = words_of(line) else {
        return Ok(None);
    };
    read_words(alloc, &words)
}

// What its words say.
fn read_words(alloc: Global, words: &Words<'_>) -> Result<Option<LogLine>, AllocError>
    ensures { IfOk result
        (λ said. said ≡ words_said (words.now.rule.now ∷ words.now.path.now ∷ words.now.moves.now
        ∷ words.now.from.now ∷ words.now.vectors.now ∷ [])) }
{
    let Some(rule) = read_rule(words.rule) else {
        return Ok(None);
    };
    let Some(path) = read_path(words.path) else {
        return Ok(None);
    };
    let Some(moves) = read_moves(words.moves) else {
        return Ok(None);
    };
    let Some(from) = read_from(alloc, words.from)? else {
        return Ok(None);
    };
    let Some(vectors) = read_vectors(alloc, words.vectors)? else {
        return Ok(None);
    };
    Ok(Some(LogLine {
        rule,
        path,
        moves,
        from,
        vectors,
    }))
}
