//! The join of αμ at a defender's node: what the lines of his cards leave together.
ghost use Rattle.std.specs.Prelude.{◌≡◌, ◌≤◌, ℕ, List, IfOk, length, map};
ghost use Rattle.trick_rules.specs.Nodes.{choices, child_mask};
ghost use Rattle.strategy_games.specs.Joins.{joins};
ghost use Rattle.log_check.specs.declared.lines.LogLine.{LogLine};
ghost use Rattle.log_check.specs.Logs.{cited_lines, StandBehind};
ghost use Rattle.log_check.specs.Steps.{CitesLines, StandBehindSome, CoverAlike};

use crate::best::front_of;
use crate::lines::LogLine;
use front_join::joined_front;
use pareto_fronts::Front;
use std::alloc::{AllocError, Global};
use trick_rules::Node;
use win_vectors::WinVector;

/// The best meets of one spread vector of each of the lines that a line cites, which stand one card
/// behind it.
///
/// It goes from the last number to the first, so that the front so far is that of the cards from
/// one on.
pub fn joined_lines(
    alloc: Global,
    node: &Node,
    lines: &[LogLine],
    line: &LogLine,
) -> Result<Front, AllocError>
    requires cites { CitesLines node.now lines.now line.now }
    requires behind { StandBehindSome line.now.path (choices node.now) 0
        (cited_lines lines.now line.now.from) }
    ensures { IfOk result (λ front. (cards : List ℕ)
        → StandBehind line.now.path cards (cited_lines lines.now line.now.from)
        → CoverAlike (joins (length node.now.lefts) (map (λ card. child_mask node.now card) cards)
        (map (λ (l : LogLine). l.vectors) (cited_lines lines.now line.now.from))) front.vectors) }
{
    let mut front = Front::new(alloc, node.width());
    front.insert(WinVector::all(node.width()))?;
    let numbers = line.from.as_slice();
    let mut place = numbers.len();
    'numbers: while place > 0 {
        place -= 1;
        let cited = &lines[numbers[place] as usize - 1];
        let (child, mask) = node.child(alloc, cited.path.get(line.path.len()))?;
        let won = front_of(alloc, child.width(), cited.vectors.as_slice())?;
        front = joined_front(alloc, &front, &won, mask)?;
    }
    Ok(front)
}
