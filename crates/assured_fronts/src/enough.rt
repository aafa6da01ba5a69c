//! When the cards before a card are enough.
ghost use Rattle.std.specs.Prelude.{◌≡◌, ◌<◌, true, false, length, replicate, All, IsTrue};
ghost use Rattle.win_vectors.specs.Vectors.{ones_of, restrict_of};
ghost use Rattle.win_vectors.specs.Fronts.{Covers};
ghost use Rattle.trick_rules.specs.Positions.{to_play};
ghost use Rattle.trick_rules.specs.Play.{is_declarers};

use pareto_fronts::Front;
use trick_rules::Node;
use win_vectors::WinVector;

// Whether each vector of the front wins one layout at most of those at the ones of the mask.
fn wins_one_at_most(front: &Front, mask: WinVector) -> bool
    requires { length mask ≡ front.now.width }
    ensures { IsTrue result → All (λ v. ones_of (restrict_of v mask) < 2) front.now.vectors }
{
    for vector in front.as_slice() {
        if vector.meet(mask).count() > 1 {
            return false;
        }
    }
    true
}

/// Whether a card, which keeps these layouts, changes nothing of the front over the cards before
/// it, at a node at which each layout is made: declarer's side wins every layout already; or after
/// a defender's card no vector wins more than one layout, which may be played for.
pub fn changes_nothing(node: &Node, front: &Front, mask: WinVector) -> bool
    requires width { front.now.width ≡ length node.now.lefts }
    requires mask { length mask ≡ front.now.width }
    ensures ours { IsTrue result → is_declarers (to_play node.now.position) ≡ true
        → Covers front.now.vectors (replicate (length node.now.lefts) true) }
    ensures theirs { IsTrue result → is_declarers (to_play node.now.position) ≡ false
        → All (λ v. ones_of (restrict_of v mask) < 2) front.now.vectors }
{
    if node.is_ours() {
        front.covers(&WinVector::all(node.width()))
    } else {
        wins_one_at_most(front, mask)
    }
}
