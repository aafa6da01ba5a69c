//! The first lines of a report, played out.
ghost use Rattle.std.specs.Prelude.{◌≡◌, ◌<◌, ℕ, Some, length, slice_get, IfOk};
ghost use Rattle.std.specs.List.{AllZip};
ghost use Rattle.trick_rules.specs.Positions.{State};
ghost use Rattle.trick_rules.specs.Nodes.{states};
ghost use Rattle.strategy_games.specs.Plans.{Fits};
ghost use Rattle.strategy_tree.specs.Bridge.{bridge};
ghost use Rattle.page_report.specs.BesideLines.{FitNode};
ghost use Rattle.page_report.specs.Played.{IsPlayedOut, IsPlayedLine, ArePlayed};

use am_report::ReadEntry;
use dd_solver::Solver;
use given_up::card_that_gives_up;
use line_plays::play_in_layout;
use page_text::{PlayedLine, PlayedOut};
use std::alloc::{AllocError, Global};
use trick_rules::Node;

// How many lines are played out.
const MOST_PLAYED: usize = 4;

// A strategy played out in the layout of a place.
fn play_at(solver: &mut Solver, node: &Node, place: u16, read: &ReadEntry) -> PlayedOut
    requires a_layout { place < length node.now.lefts }
    requires fits { (moves : ℕ) × Fits bridge read.now.entry.plan node.now moves }
    ensures { (s : State) → slice_get (states node.now) place ≡ Some s
        → IsPlayedOut read.now s result }
{
    let play = play_in_layout(solver, &read.entry.plan, node, place);
    let given_up = card_that_gives_up(solver, node, place, &play.cards);
    PlayedOut {
        cards: play.cards,
        made: play.made,
        given_up,
    }
}

// A strategy played out in each layout.
fn plays_of(
    alloc: Global,
    solver: &mut Solver,
    node: &Node,
    read: &ReadEntry,
) -> Result<Vec<PlayedOut>, AllocError>
    requires fits { (moves : ℕ) × Fits bridge read.now.entry.plan node.now moves }
    ensures { IfOk result (λ plays.
        AllZip (IsPlayedOut read.now) (states node.now) plays.items) }
{
    let mut plays = Vec::new(alloc);
    for place in 0..node.width() {
        let play = play_at(solver, node, place, read);
        plays.push(play)?;
    }
    Ok(plays)
}

/// A strategy of a number, so played out.
pub fn played_line(
    alloc: Global,
    solver: &mut Solver,
    node: &Node,
    number: u64,
    read: &ReadEntry,
) -> Result<PlayedLine, AllocError>
    requires fits { (moves : ℕ) × Fits bridge read.now.entry.plan node.now moves }
    ensures number { IfOk result (λ line. line.number ≡ number) }
    ensures played { IfOk result (IsPlayedLine node.now read.now) }
{
    let plays = plays_of(alloc, solver, node, read)?;
    Ok(PlayedLine { number, plays })
}

/// The first four strategies, numbered from 1, each played out in each layout against a defence
/// that beats it if there is one.
pub fn played_lines(
    alloc: Global,
    node: &Node,
    entries: &[ReadEntry],
) -> Result<Vec<PlayedLine>, AllocError>
    requires fit { FitNode node.now entries.now }
    ensures { IfOk result (λ played. ArePlayed node.now entries.now played.items) }
{
    let mut solver = Solver::new(alloc);
    let mut played = Vec::new(alloc);
    let count = MOST_PLAYED.min(entries.len());
    for place in 0..count {
        let line = played_line(alloc, &mut solver, node, place as u64 + 1, &entries[place])?;
        played.push(line)?;
    }
    Ok(played)
}
