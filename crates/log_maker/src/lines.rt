//! A line of a log from its parts.
ghost use Rattle.std.specs.Prelude.{◌≡◌, ◌<◌, ◌++◌, ◌∷◌, [], length, map, IfOk};
ghost use Rattle.trick_rules.specs.Play.{makes};
ghost use Rattle.trick_rules.specs.Nodes.{states};
ghost use Rattle.log_check.specs.LogsFor.{line_of};

use card_sets::Card;
use dd_solver::Solver;
use log_check::{LineList, LogLine, Rule, VectorList};
use pareto_fronts::Front;
use std::alloc::{AllocError, Global};
use trick_rules::{CardLine, Node};
use win_vectors::WinVector;

/// A path with a card more.
pub fn path_after(path: &CardLine, card: Card) -> CardLine
    requires { length path.now < 52 }
    ensures { result ≡ path.now ++ card ∷ [] }
{
    let mut line = CardLine::new();
    for place in 0..path.len() {
        line.push(path.get(place));
    }
    line.push(card);
    line
}

/// Double dummy's result in each layout of a node, in order.
pub fn results(solver: &mut Solver, node: &Node) -> WinVector
    ensures { result ≡ map makes (states node.now) }
{
    let mut made = WinVector::none(node.width());
    for place in 0..node.width() {
        made = made.set(place, solver.makes(node.position(), node.left(place)));
    }
    made
}

/// A line with the vectors of a front.
pub fn line_with(
    alloc: Global,
    rule: Rule,
    path: CardLine,
    moves: u8,
    from: LineList,
    front: &Front,
) -> Result<LogLine, AllocError>
    ensures { IfOk result (λ line. line ≡ line_of rule path moves from front.now.vectors) }
{
    let mut vectors = VectorList::new(alloc);
    for vector in front.as_slice() {
        vectors.push(*vector)?;
    }
    Ok(LogLine {
        rule,
        path,
        moves,
        from,
        vectors,
    })
}
