// Double dummy's results in the layouts of a node.
ghost use Rattle.std.specs.Prelude.{◌≡◌, ◌<◌, true, false, map, length, slice_set, IsNone, IfSome, if◌then◌else◌};
ghost use Rattle.win_vectors.specs.Fronts.{Covers, Dominates};
ghost use Rattle.trick_rules.specs.Play.{makes};
ghost use Rattle.trick_rules.specs.Nodes.{IsNode, states};
ghost use Rattle.alphamu_core.specs.Judging.{makes_at, IsJudged, IsKnown};

use crate::known::Known;
use cut_rules::CutRules;
use dd_solver::Solver;
use pareto_fronts::Front;
use search_race::Runner;
use trick_rules::Node;
use win_vectors::WinVector;

/// What is asked of a node: its front, and of double dummy the results there, if they aren't known
/// already. If the rules allow a cut, neither need be found if alpha dominates it. The runner
/// begins with some of the layouts.
#[derive(Drop)]
pub struct Question<'a> {
    pub node: &'a Node,
    pub known: Known,
    pub alpha: &'a Front,
    pub rules: CutRules,
    pub runner: &'a Runner,
}

/// Double dummy's result in each layout; or none, if a cut is allowed and alpha dominates them.
///
/// The layouts at which some vector of alpha has 0 are judged first, because only they tell whether
/// alpha dominates.
pub fn results(solver: &mut Solver, question: &Question) -> Option<WinVector>
    requires alpha { question.now.alpha.now.width ≡ length question.now.node.now.lefts }
    requires known { IsKnown question.now.node.now question.now.known }
    ensures a_node { IsNode question.now.node.now }
    ensures results { IfSome result (λ made. made ≡ map makes (states question.now.node.now)) }
    ensures cut { IsNone result → (question.now.rules.bound ≡ true)
        × Covers question.now.alpha.now.vectors (map makes (states question.now.node.now)) }
{
    let all = WinVector::all(question.node.width());
    match question.known {
        Known::AllMade => unless_covered(question, all),
        Known::Nothing => {
            let sure = common(question.alpha);
            let some = judge_ahead(solver, question, sure, all)?;
            let made = judge(solver, question, sure, false, some)?;
            judge(solver, question, sure, true, made)
        }
    }
}

// Results that are known; or none, if a cut is allowed and alpha dominates them.
fn unless_covered(question: &Question, made: WinVector) -> Option<WinVector>
    requires { length made ≡ question.now.alpha.now.width }
    ensures results { IfSome result (λ results. results ≡ made) }
    ensures cut { IsNone result → (question.now.rules.bound ≡ true)
        × Covers question.now.alpha.now.vectors made }
{
    if question.rules.bound && question.alpha.covers(&made) {
        return None;
    }
    Some(made)
}

// The vector with a 1 at each layout at which every vector of the front has 1.
fn common(front: &Front) -> WinVector
    ensures { length result ≡ front.now.width }
{
    let vectors = front.as_slice();
    let mut ones = WinVector::all(front.width());
    for vector in vectors {
        ones = ones.meet(*vector);
    }
    ones
}

// The mask with a 1 at each of the first places too, this many.
fn with_first(mask: WinVector, first: usize) -> WinVector
    ensures { length result ≡ length mask }
{
    let mut ones = mask;
    for place in 0..mask.width() {
        if usize::from(place) < first {
            ones = ones.set(place, true);
        }
    }
    ones
}

// Judges the layouts from the place on at which the runner begins, if it isn't the first of its
// race. They are judged again with all others, when the memo knows them.
fn judge_ahead(
    solver: &mut Solver,
    question: &Question,
    sure: WinVector,
    all: WinVector,
) -> Option<WinVector>
    requires alpha { question.now.alpha.now.width ≡ length question.now.node.now.lefts }
    requires mask { length sure ≡ length question.now.node.now.lefts }
    requires above { Dominates all (map makes (states question.now.node.now)) }
    ensures above { IfSome result
        (λ made. Dominates made (map makes (states question.now.node.now))) }
    ensures cut { IsNone result → (question.now.rules.bound ≡ true)
        × Covers question.now.alpha.now.vectors (map makes (states question.now.node.now)) }
{
    let start = question
        .runner
        .begins_at(usize::from(question.node.width()));
    if start == 0 {
        return Some(all);
    }
    judge(solver, question, with_first(sure, start), false, all)
}

// Judges the layouts at which the mask has this bit, and takes out those that can't be made; or
// none, if a cut is allowed and alpha dominates what is left.
fn judge(
    solver: &mut Solver,
    question: &Question,
    mask: WinVector,
    bit: bool,
    start: WinVector,
) -> Option<WinVector>
    requires alpha { question.now.alpha.now.width ≡ length question.now.node.now.lefts }
    requires mask { length mask ≡ length question.now.node.now.lefts }
    requires above { Dominates start (map makes (states question.now.node.now)) }
    ensures a_node { IsNode question.now.node.now }
    ensures judged { IfSome result (λ made. IsJudged (map makes (states question.now.node.now)) mask
        bit start (length question.now.node.now.lefts) made) }
    ensures cut { IsNone result → (question.now.rules.bound ≡ true)
        × Covers question.now.alpha.now.vectors (map makes (states question.now.node.now)) }
{
    let mut made = start;
    for place in 0..question.node.width() {
        if mask.get(place) == bit {
            made = judge_at(solver, question.node, place, made);
            if question.rules.bound && question.alpha.covers(&made) {
                return None;
            }
        }
    }
    Some(made)
}

// Takes a layout out if it can't be made.
fn judge_at(solver: &mut Solver, node: &Node, place: u16, made: WinVector) -> WinVector
    requires within { place < length node.now.lefts }
    requires width { length made ≡ length node.now.lefts }
    ensures { result ≡ (if makes_at node.now place then made else slice_set made place false) }
{
    if is_made(solver, node, place) {
        made
    } else {
        made.set(place, false)
    }
}

// Double dummy's result in a layout.
fn is_made(solver: &mut Solver, node: &Node, place: u16) -> bool
    requires { place < length node.now.lefts }
    ensures { result ≡ makes_at node.now place }
{
    solver.makes(node.position(), node.left(place))
}
