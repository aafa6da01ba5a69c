//! Double dummy in the layouts of a set.
ghost use Rattle.std.specs.Prelude.{◌≡◌, ◌<◌, ℕ, true, false, get_or, length, IfSome, IsNone};
ghost use Rattle.set_nodes.specs.SetNodes.{node_at, AreLayoutsAt};
ghost use Rattle.set_search.specs.Judged.{stops_here, makes_there, IsLostPlace, AreAllMade};

use card_sets::CardSet;
use dd_solver::Solver;
use set_nodes::left_at;
use trick_rules::Position;
use win_vectors::WinVector;

/// Whether a plan with this many moves of declarer's side left stops here.
pub fn stops(position: &Position, moves: u8) -> bool
    ensures { result ≡ stops_here position.now moves }
{
    moves == 0 || position.decided().is_some()
}

// Double dummy's result in a layout of the set.
fn is_made(
    solver: &mut Solver,
    layouts: &[CardSet],
    position: &Position,
    set: WinVector,
    place: u16,
) -> bool
    requires layouts { AreLayoutsAt layouts.now position.now set }
    requires chosen { get_or set place false ≡ true }
    ensures { result ≡ makes_there layouts.now position.now place }
{
    solver.makes(position, left_at(layouts, position, place))
}

/// The first layout of the set that double dummy loses, if it loses one.
pub fn lost_layout(
    solver: &mut Solver,
    layouts: &[CardSet],
    position: &Position,
    set: WinVector,
) -> Option<u16>
    requires { AreLayoutsAt layouts.now position.now set }
    ensures lost { IfSome result (IsLostPlace layouts.now position.now set) }
    ensures none { IsNone result → AreAllMade (node_at layouts.now position.now set) }
{
    for place in 0..set.width() {
        if set.get(place) && !is_made(solver, layouts, position, set, place) {
            return Some(place);
        }
    }
    None
}

/// The first layout of the set that double dummy loses, of those that aren't in a core.
pub fn lost_outside(
    solver: &mut Solver,
    layouts: &[CardSet],
    position: &Position,
    set: WinVector,
    core: WinVector,
) -> Option<u16>
    requires layouts { AreLayoutsAt layouts.now position.now set }
    requires width { length core ≡ length set }
    ensures lost { IfSome result (IsLostPlace layouts.now position.now set) }
    ensures none { IsNone result → (place : ℕ) → get_or set place false ≡ true
        → get_or core place false ≡ false → makes_there layouts.now position.now place ≡ true }
{
    for place in 0..set.width() {
        let judged = set.get(place) && !core.get(place);
        if judged && !is_made(solver, layouts, position, set, place) {
            return Some(place);
        }
    }
    None
}
