//! What is assured at the end of a line of play.
ghost use Rattle.std.specs.Prelude.{◌≡◌, ◌<◌, ◌≤◌, ◌&&◌, ◌||◌, true, false, [], get_or, length, map, IfOk, IsTrue};
ghost use Rattle.win_vectors.specs.Vectors.{ones_of};
ghost use Rattle.trick_rules.specs.Play.{makes};
ghost use Rattle.trick_rules.specs.Nodes.{states};
ghost use Rattle.assured_fronts.specs.AssuredAt.{IsAssuredAt, AllMade, Settles, claims as claims_at, won_playing_for};

use dd_solver::Solver;
use pareto_fronts::Front;
use std::alloc::{AllocError, Global};
use sure_nodes::is_sure;
use trick_rules::Node;
use win_vectors::WinVector;

/// Whether declarer's side claims at a node: the result is decided, or sure.
pub fn claims(node: &Node) -> bool
    ensures { result ≡ claims_at node.now }
{
    either(node.stops(1), is_sure(node.position()))
}

// Whether one of the two holds.
fn either(one: bool, other: bool) -> bool
    ensures { result ≡ (one || other) }
{
    one || other
}

// Whether both hold.
fn both(one: bool, other: bool) -> bool
    ensures { result ≡ (one && other) }
{
    one && other
}

// Double dummy's result in each layout.
fn judged(solver: &mut Solver, node: &Node) -> WinVector
    ensures { result ≡ map makes (states node.now) }
{
    let mut made = WinVector::none(node.width());
    for place in 0..node.width() {
        made = made.set(place, solver.makes(node.position(), node.left(place)));
    }
    made
}

/// Double dummy's result in each layout, which needn't be asked if each is known to be made.
pub fn results(solver: &mut Solver, node: &Node, all_made: bool) -> WinVector
    requires { IsTrue all_made → AllMade node.now }
    ensures { result ≡ map makes (states node.now) }
{
    if all_made {
        WinVector::all(node.width())
    } else {
        judged(solver, node)
    }
}

// The layouts that are won if the one at a place is played for, of those that double dummy makes.
fn played_for(node: &Node, made: WinVector, place: u16) -> WinVector
    requires within { place < length node.now.lefts }
    requires made { made ≡ map makes (states node.now) }
    ensures { result ≡ won_playing_for node.now (get_or node.now.lefts place []) }
{
    let chosen = node.left(place);
    let mut won = WinVector::none(node.width());
    for other in 0..node.width() {
        let left = node.left(other);
        won = won.set(other, both(chosen == left, made.get(other)));
    }
    won
}

/// Whether double dummy's results are what is assured, since declarer's side claims, or since one
/// layout at most is made.
pub fn is_settled(node: &Node, made: WinVector) -> bool
    ensures settled { IsTrue result → Settles node.now made }
    ensures goes_on { result ≡ false → claims_at node.now ≡ false }
    ensures some { result ≡ false → 1 ≤ ones_of made }
{
    made.count() < 2 || claims(node)
}

/// What is assured there: double dummy's results.
pub fn settled(alloc: Global, node: &Node, moves: u8, made: WinVector) -> Result<Front, AllocError>
    requires made { made ≡ map makes (states node.now) }
    requires settled { Settles node.now made }
    ensures { IfOk result (IsAssuredAt node.now moves) }
{
    let mut front = Front::new(alloc, node.width());
    front.insert(made)?;
    Ok(front)
}

#[tactic(auto, using(crate::proofs::Leaves::played_none))]
/// What is assured if no moves are left: the layouts that are won if one of them is played for.
pub fn open_stop(alloc: Global, node: &Node, made: WinVector) -> Result<Front, AllocError>
    requires made { made ≡ map makes (states node.now) }
    requires goes_on { claims_at node.now ≡ false }
    ensures { IfOk result (IsAssuredAt node.now 0) }
{
    let mut front = Front::new(alloc, node.width());
    for place in 0..node.width() {
        front.insert(played_for(node, made, place))?;
    }
    Ok(front)
}
