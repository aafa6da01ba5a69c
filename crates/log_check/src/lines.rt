//! A log in memory.
ghost use Rattle.std.specs.Prelude.{◌≡◌, ◌<◌, ◌≤◌, ◌++◌, ◌∷◌, [], length, IfOk, OnOk, OnErr};
ghost use Rattle.log_check.specs.Limits.{most_lines};

use std::alloc::{AllocError, Global};
use std::marker::Model;
use trick_rules::CardLine;
use win_vectors::WinVector;

/// The most lines of a log. So the number after the last fits 32 bits.
pub const MOST_LINES: usize = 4_294_967_294;

/// Why the vectors of a line dominate whatever a strategy wins at its node.
#[derive(Clone, Copy, Debug, PartialEq, Eq)]
pub enum Rule {
    /// They dominate double dummy's results.
    Leaf,
    /// Declarer's side is to play, and they dominate the vectors of a line for each card.
    Union,
    /// A defender is to play, and they dominate what the lines of some cards leave together.
    Join,
}

/// Numbers of lines, in order.
#[derive(Debug, Drop)]
pub struct LineList {
    numbers: Vec<u32>,
}

impl Model for LineList {
    ghost use Rattle.std.specs.Prelude.{ℕ, List};

    ghost Value = { List ℕ };

    ghost view = { λ list. list.numbers.items };
}

impl LineList {
    /// A list with no number.
    pub fn new(alloc: Global) -> LineList
        ensures { result ≡ [] }
    {
        LineList {
            numbers: Vec::new(alloc),
        }
    }

    /// A list of these numbers. It takes no more memory than they need.
    pub fn of(alloc: Global, numbers: &[u32]) -> Result<LineList, AllocError>
        ensures { IfOk result (λ list. list ≡ numbers.now) }
    {
        Ok(LineList {
            numbers: numbers.to_vec(alloc)?,
        })
    }

    /// Puts a number at the end. The list is unchanged if an allocation fails.
    pub fn push(&mut self, number: u32) -> Result<(), AllocError>
        ensures ok { OnOk result (self.new ≡ self.old ++ number ∷ []) }
        ensures err { OnErr result (self.new ≡ self.old) }
    {
        self.numbers.push(number)?;
        Ok(())
    }

    /// The numbers, in order.
    pub fn as_slice(&self) -> &[u32]
        ensures { result.now ≡ self.now }
    {
        self.numbers.as_slice()
    }
}

/// Vectors, in order.
#[derive(Debug, Drop)]
pub struct VectorList {
    vectors: Vec<WinVector>,
}

impl Model for VectorList {
    ghost use Rattle.std.specs.Prelude.{List};
    ghost use Rattle.win_vectors.specs.Fronts.{Vector};

    ghost Value = { List Vector };

    ghost view = { λ list. list.vectors.items };
}

impl VectorList {
    /// A list with no vector.
    pub fn new(alloc: Global) -> VectorList
        ensures { result ≡ [] }
    {
        VectorList {
            vectors: Vec::new(alloc),
        }
    }

    /// A list of these vectors. It takes no more memory than they need.
    pub fn of(alloc: Global, vectors: &[WinVector]) -> Result<VectorList, AllocError>
        ensures { IfOk result (λ list. list ≡ vectors.now) }
    {
        Ok(VectorList {
            vectors: vectors.to_vec(alloc)?,
        })
    }

    /// Puts a vector at the end. The list is unchanged if an allocation fails.
    pub fn push(&mut self, vector: WinVector) -> Result<(), AllocError>
        ensures ok { OnOk result (self.new ≡ self.old ++ vector ∷ []) }
        ensures err { OnErr result (self.new ≡ self.old) }
    {
        self.vectors.push(vector)?;
        Ok(())
    }

    /// The vectors, in order.
    pub fn as_slice(&self) -> &[WinVector]
        ensures { result.now ≡ self.now }
    {
        self.vectors.as_slice()
    }
}

/// A line of a log: no strategy wins more at a node than some vector of the line.
#[derive(Debug, Drop)]
pub struct LogLine {
    /// Why.
    pub rule: Rule,
    /// The cards that lead to its node from that of the log.
    pub path: CardLine,
    /// How many moves of declarer's side a strategy has there.
    pub moves: u8,
    /// The numbers of earlier lines from which it follows, which count from 1.
    pub from: LineList,
    /// The vectors, with a bit for each layout of its node.
    pub vectors: VectorList,
}

/// Lines in order, each of which may follow from earlier ones: at most [`MOST_LINES`].
#[derive(Debug, Drop)]
pub struct Log {
    lines: Vec<LogLine>,
}

impl Model for Log {
    ghost use Rattle.std.specs.Prelude.{List, length, ◌≤◌};
    ghost use Rattle.log_check.specs.declared.lines.LogLine.{LogLine};
    ghost use Rattle.log_check.specs.Limits.{most_lines};

    ghost Value = { List LogLine };

    ghost view = { λ log. log.lines.items };

    ghost invariant = { λ log. length log.lines.items ≤ most_lines };
}

impl Log {
    /// A log with no line.
    pub fn new(alloc: Global) -> Log
        ensures { result ≡ [] }
    {
        Log {
            lines: Vec::new(alloc),
        }
    }

    /// Puts a line at the end. The log is unchanged if an allocation fails.
    pub fn push(&mut self, line: LogLine) -> Result<(), AllocError>
        requires { length self.old < most_lines }
        ensures ok { OnOk result (self.new ≡ self.old ++ line ∷ []) }
        ensures err { OnErr result (self.new ≡ self.old) }
    {
        self.lines.push(line)?;
        Ok(())
    }

    /// How many lines there are.
    pub fn len(&self) -> u32
        ensures value { result ≡ length self.now }
        ensures few { length self.now ≤ most_lines }
    {
        self.lines.len() as u32
    }

    /// The lines, in order.
    pub fn as_slice(&self) -> &[LogLine]
        ensures value { result.now ≡ self.now }
        ensures few { length self.now ≤ most_lines }
    {
        self.lines.as_slice()
    }
}
