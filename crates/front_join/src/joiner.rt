//! `Joiner`: takes the children of a node one by one.

ghost use Rattle.std.specs.Prelude.{◌≡◌, ◌≤◌, ◌∷◌, ◌++◌, [], List, true, false, OnOk, OnErr, IfOk, length, map, replicate};
ghost use Rattle.front_join.specs.JoinerValue.{IsJoiner};
ghost use Rattle.front_join.specs.Joins.{Child, joined};
ghost use Rattle.pareto_fronts.specs.FrontValue.{IsSoundFront};
ghost use Rattle.win_vectors.specs.Fronts.{HaveWidth, IsReduced, meets, spreads};
ghost use Rattle.win_vectors.specs.Vectors.{either_of, meet_of, most_layouts, ones_of};

use pareto_fronts::Front;
use std::alloc::{AllocError, Global};
use std::marker::Model;
use win_vectors::WinVector;

/// The join of the children that were added: what is left to declarer's side if a defender chooses
/// among them.
#[derive(Drop)]
pub struct Joiner {
    alloc: Global,
    optimistic: Front,
    covered: WinVector,
}

impl Model for Joiner {
    ghost use Rattle.front_join.specs.JoinerValue.{JoinerValue, IsJoiner};

    ghost Value = { JoinerValue };

    ghost view = { λ a. record { optimistic = a.optimistic; covered = a.covered } };

    ghost invariant = { λ a. IsJoiner (record { optimistic = a.optimistic; covered = a.covered }) };
}

impl Joiner {
    /// A join of no child, for `width` layouts: its front is the vector of all ones.
    pub fn new(alloc: Global, width: u16) -> Joiner
        requires low { 1 ≤ width }
        requires high { width ≤ most_layouts }
        ensures width { result.optimistic.width ≡ width }
        ensures front { IsReduced (joined width []) result.optimistic.vectors }
        ensures covered { result.covered ≡ replicate width false }
    {
        let mut optimistic = Front::new(alloc, width);
        // A new front has room.
        let _ = optimistic.insert(WinVector::all(width));
        Joiner {
            alloc,
            optimistic,
            covered: WinVector::none(width),
        }
    }

    /// Joins a child: its front, and a mask with a 1 for each layout that it has. The joiner is
    /// unchanged if an allocation fails.
    pub fn add(&mut self, child: &Front, mask: &WinVector) -> Result<(), AllocError>
        requires mask_width { length mask.now ≡ self.old.optimistic.width }
        requires child_width { child.now.width ≡ ones_of mask.now }
        requires not_empty { 1 ≤ length child.now.vectors }
        ensures width { self.new.optimistic.width ≡ self.old.optimistic.width }
        ensures front { OnOk result (IsReduced
            (meets self.old.optimistic.vectors (spreads mask.now child.now.vectors))
            self.new.optimistic.vectors) }
        ensures covered { OnOk result (self.new.covered ≡ either_of self.old.covered mask.now) }
        ensures err { OnErr result (self.new ≡ self.old) }

        // So if it was the join of some children, it is now the join of these and the child.
        ensures joined { OnOk result ((children : List Child)
            → IsReduced (joined self.old.optimistic.width children) self.old.optimistic.vectors
            → IsReduced
            (joined self.old.optimistic.width
            (record { vectors = child.now.vectors; mask = mask.now } ∷ children))
            self.new.optimistic.vectors) }
    {
        let front = joined_front(self.alloc, &self.optimistic, child, *mask)?;
        self.optimistic = front;
        self.covered = self.covered.either(*mask);
        Ok(())
    }

    /// The front of the children so far, in which a layout that none of them has counts as made.
    pub fn optimistic(&self) -> &Front
        ensures front { result.now ≡ self.now.optimistic }
        ensures join { IsJoiner self.now }
    {
        &self.optimistic
    }

    /// The front of the children, once each layout is in one of them.
    pub fn finish(self) -> Front
        requires { self.covered ≡ replicate self.optimistic.width true }
        ensures value { result ≡ self.optimistic }
        ensures front { IsSoundFront result }
        ensures not_empty { 1 ≤ length result.vectors }
    {
        let Joiner {
            alloc: _,
            optimistic,
            covered: _,
        } = self;
        optimistic
    }
}

/// The best meets of one vector of a front and one vector of a child's front, which has 1 at each 0
/// of the mask.
pub fn joined_front(
    alloc: Global,
    front: &Front,
    child: &Front,
    mask: WinVector,
) -> Result<Front, AllocError>
    requires mask_width { length mask ≡ front.now.width }
    requires child_width { child.now.width ≡ ones_of mask }
    ensures front { IfOk result IsSoundFront }
    ensures width { IfOk result (λ f. f.width ≡ front.now.width) }
    ensures reduced { IfOk result (λ f.
        IsReduced (meets front.now.vectors (spreads mask child.now.vectors)) f.vectors) }
{
    let mut best = Front::new(alloc, front.width());
    for vector in child.as_slice().iter() {
        insert_meets(&mut best, front.as_slice(), vector.spread(mask))?;
    }
    Ok(best)
}

// Leaves the best of the vectors of a front and of the meets of a vector with each of a list.
fn insert_meets(
    best: &mut Front,
    vectors: &[WinVector],
    vector: WinVector,
) -> Result<(), AllocError>
    requires width { length vector ≡ best.old.width }
    requires widths { HaveWidth best.old.width vectors.now }
    requires front { IsSoundFront best.old }
    ensures front { IsSoundFront best.new }
    ensures width { best.new.width ≡ best.old.width }
    ensures reduced { OnOk result (IsReduced
        (best.old.vectors ++ map (λ u. meet_of u vector) vectors.now) best.new.vectors) }
{
    for mine in vectors.iter() {
        best.insert(mine.meet(vector))?;
    }
    Ok(())
}
