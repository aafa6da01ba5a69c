//! Whether a line follows from those before it.
ghost use Rattle.std.specs.Prelude.{◌≡◌, ◌↔◌, ◌≤◌, IsTrue, IfOk, length};
ghost use Rattle.log_check.specs.Logs.{cited_lines, IsUnion, IsJoin, KeepsRule, IsSoundLine, AreSound};
ghost use Rattle.log_check.specs.Steps.{AreNumbers, CitesLines};

use crate::cites::{are_numbers, stand_behind, stand_behind_some};
use crate::covering::{covers, covers_all, covers_lines, have_width};
use crate::joining::joined_lines;
use crate::lines::{LogLine, Rule};
use crate::paths::followed;
use double_dummy::plain_results;
use std::alloc::{AllocError, Global};
use trick_rules::Node;

/// Whether a line is sound after sound lines, in a log for a node with `moves` moves.
pub fn is_sound(
    alloc: Global,
    root: &Node,
    moves: u8,
    earlier: &[LogLine],
    line: &LogLine,
) -> Result<bool, AllocError>
    requires { AreSound root.now moves earlier.now }
    ensures { IfOk result (λ sound. IsTrue sound
        ↔ IsSoundLine root.now moves earlier.now line.now) }
{
    let Some((node, left)) = followed(alloc, root, moves, &line.path)? else {
        return Ok(false);
    };
    if left != line.moves
        || !have_width(line.vectors.as_slice(), node.width())
        || !are_numbers(line.from.as_slice(), earlier.len())
    {
        return Ok(false);
    }
    let judged = Judged {
        node: &node,
        earlier,
        line,
    };
    judged.keeps_rule(alloc)
}

// A line at its node, and the lines before it.
#[derive(Drop)]
struct Judged<'a> {
    node: &'a Node,
    earlier: &'a [LogLine],
    line: &'a LogLine,
}

impl Judged<'_> {
    // Whether the line's rule holds.
    fn keeps_rule(&self, alloc: Global) -> Result<bool, AllocError>
        requires { CitesLines self.now.node.now self.now.earlier.now self.now.line.now }
        ensures { IfOk result (λ kept. IsTrue kept
            ↔ KeepsRule self.now.line.now.rule self.now.node.now self.now.line.now
            (cited_lines self.now.earlier.now self.now.line.now.from)) }
    {
        match self.line.rule {
            Rule::Leaf => Ok(
                self.line.from.as_slice().is_empty()
                    && covers(self.line.vectors.as_slice(), plain_results(self.node)),
            ),
            Rule::Union => Ok(self.is_union()),
            Rule::Join => self.is_join(alloc),
        }
    }

    // Whether it dominates the lines of each card of declarer's side.
    fn is_union(&self) -> bool
        requires { AreNumbers (length self.now.earlier.now) self.now.line.now.from }
        ensures { IsTrue result ↔ IsUnion self.now.node.now self.now.line.now
            (cited_lines self.now.earlier.now self.now.line.now.from) }
    {
        let numbers = self.line.from.as_slice();
        if self.node.stops(self.line.moves)
            || !self.node.is_ours()
            || !stand_behind(self.earlier, numbers, &self.line.path, self.node.choices())
        {
            return false;
        }
        covers_lines(self.line.vectors.as_slice(), self.earlier, numbers)
    }

    // Whether it dominates what the lines of some of a defender's cards leave together.
    fn is_join(&self, alloc: Global) -> Result<bool, AllocError>
        requires { CitesLines self.now.node.now self.now.earlier.now self.now.line.now }
        ensures { IfOk result (λ joined. IsTrue joined ↔ IsJoin self.now.node.now self.now.line.now
            (cited_lines self.now.earlier.now self.now.line.now.from)) }
    {
        let numbers = self.line.from.as_slice();
        if self.node.stops(self.line.moves)
            || self.node.is_ours()
            || numbers.is_empty()
            || !stand_behind_some(self.earlier, numbers, &self.line.path, self.node.choices())
        {
            return Ok(false);
        }
        let front = joined_lines(alloc, self.node, self.earlier, self.line)?;
        Ok(covers_all(self.line.vectors.as_slice(), front.as_slice()))
    }
}
