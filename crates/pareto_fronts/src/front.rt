//! `Front`: an ordered list of vectors of one width.

ghost use Rattle.std.specs.Prelude.{◌≡◌, ◌==◌, ◌&&◌, ◌↔◌, ◌≤◌, ◌<◌, ◌+◌, ◌++◌, ◌∷◌, [], IsTrue, IsOk, IsSome, IfOk, IfSome, OnOk, OnErr, length, slice_get, Any, AllPairs, IsNone, filter, not};
ghost use Rattle.pareto_fronts.specs.FrontValue.{IsSoundFront, HasSpareRoom, HaveSameVectors};
ghost use Rattle.pareto_fronts.specs.Places.{IsPlaceFor};
ghost use Rattle.win_vectors.specs.Fronts.{Covers, CoversAll, Dominates, HaveWidth, IsFirstAbove, IsReduced, Precedes};
ghost use Rattle.std.specs.Ordering.{is_lt};
ghost use Rattle.win_vectors.specs.Vectors.{dominates as is_above, most_layouts, vector_order};

use smallvec::SmallVec;
use std::alloc::{AllocError, Global};
use std::marker::Model;
use win_vectors::WinVector;

/// How many vectors a front keeps before it allocates.
pub const INLINE_VECTORS: usize = 4;

/// The best vectors of one width, in printing order: none of them dominates another.
///
/// No call lowers its room: the sum of its length and of its spare room.
#[derive(Drop)]
pub struct Front {
    width: u16,
    vectors: SmallVec<WinVector, INLINE_VECTORS>,
}

impl Model for Front {
    ghost use Rattle.pareto_fronts.specs.FrontValue.{FrontValue, IsSoundFront};

    ghost Value = { FrontValue };

    ghost view = { λ a. record {
      width = a.width;
      vectors = a.vectors.items;
      room = a.vectors.capacity;
    } };

    ghost invariant = { λ a. IsSoundFront (record {
      width = a.width;
      vectors = a.vectors.items;
      room = a.vectors.capacity;
    }) };
}

impl Front {
    /// A front with no vector, for `width` layouts.
    pub fn new(alloc: Global, width: u16) -> Front
        requires low { 1 ≤ width }
        requires high { width ≤ most_layouts }
        ensures width { result.width ≡ width }
        ensures empty { result.vectors ≡ [] }
        ensures room { result.room ≡ INLINE_VECTORS }
        ensures front { IsSoundFront result }
    {
        Front {
            width,
            vectors: SmallVec::new(alloc),
        }
    }

    /// How many layouts its vectors have.
    pub fn width(&self) -> u16
        ensures { result ≡ self.now.width }
    {
        self.width
    }

    /// How many vectors there are.
    pub fn len(&self) -> usize
        ensures value { result ≡ length self.now.vectors }
        ensures front { IsSoundFront self.now }
    {
        self.vectors.len()
    }

    /// Whether there is no vector.
    pub fn is_empty(&self) -> bool
        ensures { IsTrue result ↔ (self.now.vectors ≡ []) }
    {
        self.vectors.is_empty()
    }

    /// The vector at a place, which is counted from 0.
    pub fn get(&self, place: usize) -> WinVector
        requires { place < length self.now.vectors }
        ensures { slice_get self.now.vectors place ≡ Some result }
    {
        self.vectors[place]
    }

    /// The vectors, in printing order.
    pub fn as_slice(&self) -> &[WinVector]
        ensures value { result.now ≡ self.now.vectors }
        ensures front { IsSoundFront self.now }
    {
        self.vectors.as_slice()
    }

    /// Whether some vector dominates this one.
    pub fn covers(&self, vector: &WinVector) -> bool
        requires { length vector.now ≡ self.now.width }
        ensures { IsTrue result ↔ Covers self.now.vectors vector.now }
    {
        is_covered(self.vectors.as_slice(), *vector)
    }

    /// Whether the other front covers each vector of this one.
    pub fn covered_by(&self, other: &Front) -> bool
        requires { other.now.width ≡ self.now.width }
        ensures { IsTrue result ↔ CoversAll other.now.vectors self.now.vectors }
    {
        self.vectors.iter().all(|mine| other.covers(mine))
    }

    /// The first vector that dominates the target, if one does.
    pub fn pick(&self, target: &WinVector) -> Option<WinVector>
        requires { length target.now ≡ self.now.width }
        ensures found { IsSome result ↔ Covers self.now.vectors target.now }
        ensures first { IfSome result (IsFirstAbove self.now.vectors target.now) }
    {
        for mine in self.vectors.iter() {
            if mine.dominates(*target) {
                return Some(*mine);
            }
        }
        None
    }

    /// Makes room for `more` more vectors.
    pub fn reserve(&mut self, more: usize) -> Result<(), AllocError>
        ensures vectors { HaveSameVectors self.old self.new }
        ensures ok { OnOk result (HasSpareRoom self.new more) }
        ensures succeeds { HasSpareRoom self.old more → IsOk result }
        ensures err { OnErr result (self.new ≡ self.old) }
        ensures room { self.old.room ≤ self.new.room }
    {
        self.vectors.reserve(more)
    }

    /// Leaves the best of its vectors and of this one. If an allocation fails, which needs that
    /// there is no spare room, the front is unchanged.
    pub fn insert(&mut self, vector: WinVector) -> Result<(), AllocError>
        requires { length vector ≡ self.old.width }
        ensures front { IsSoundFront self.new }
        ensures width { self.new.width ≡ self.old.width }
        ensures ok { OnOk result (IsReduced (vector ∷ self.old.vectors) self.new.vectors) }
        ensures succeeds { HasSpareRoom self.old 1 → IsOk result }
        ensures err { OnErr result (self.new ≡ self.old) }
        ensures room { self.old.room ≤ self.new.room }
    {
        let Some(place) = place_for(self.vectors.as_slice(), vector) else {
            return Ok(());
        };
        self.vectors.reserve(1)?;
        self.put(place, vector);
        Ok(())
    }

    /// Leaves the best of the vectors of both fronts. If an allocation fails, which needs that the
    /// spare room is less than the other's length, the front is unchanged.
    pub fn union(&mut self, other: &Front) -> Result<(), AllocError>
        requires { other.now.width ≡ self.old.width }
        ensures front { IsSoundFront self.new }
        ensures width { self.new.width ≡ self.old.width }
        ensures ok { OnOk result
            (IsReduced (self.old.vectors ++ other.now.vectors) self.new.vectors) }
        ensures succeeds { HasSpareRoom self.old (length other.now.vectors) → IsOk result }
        ensures err { OnErr result (self.new ≡ self.old) }
        ensures room { self.old.room ≤ self.new.room }
    {
        self.vectors.reserve(other.vectors.len())?;
        for vector in other.vectors.iter() {
            if let Some(place) = place_for(self.vectors.as_slice(), *vector) {
                self.put(place, *vector);
            }
        }
        Ok(())
    }

    /// Puts a vector at the end. The vectors together with it must be their own reduced list.
    pub fn append(&mut self, vector: WinVector)
        requires width { length vector ≡ self.old.width }
        requires reduced { IsReduced (self.old.vectors ++ vector ∷ [])
            (self.old.vectors ++ vector ∷ []) }
        requires spare { HasSpareRoom self.old 1 }
        ensures width { self.new.width ≡ self.old.width }
        ensures vectors { self.new.vectors ≡ self.old.vectors ++ vector ∷ [] }
        ensures room { self.new.room ≡ self.old.room }
    {
        self.vectors.push_reserved(vector);
    }

    /// An equal front.
    pub fn copy(&self) -> Result<Front, AllocError>
        ensures same { IfOk result (HaveSameVectors self.now) }
        ensures front { IfOk result IsSoundFront }
    {
        let vectors = SmallVec::from_slice(*self.vectors.allocator(), self.vectors.as_slice())?;
        Ok(Front {
            width: self.width,
            vectors,
        })
    }

    /// Takes every vector out, and keeps the room.
    pub fn clear(&mut self)
        ensures width { self.new.width ≡ self.old.width }
        ensures empty { self.new.vectors ≡ [] }
        ensures room { self.old.room ≤ self.new.room }
    {
        self.vectors.clear();
    }

    /// Takes every vector out, keeps the room, and takes another width.
    pub fn reset(&mut self, width: u16)
        requires low { 1 ≤ width }
        requires high { width ≤ most_layouts }
        ensures width { self.new.width ≡ width }
        ensures empty { self.new.vectors ≡ [] }
        ensures room { self.old.room ≤ self.new.room }
        ensures front { IsSoundFront self.new }
    {
        self.vectors.clear();
        self.width = width;
    }

    // Puts a vector in at its place, and takes out those that it dominates, which come after it.
    fn put(&mut self, place: usize, vector: WinVector)
        requires same_width { length vector ≡ self.old.width }
        requires spare { HasSpareRoom self.old 1 }
        requires place { IsPlaceFor self.old.vectors vector place }
        ensures front { IsSoundFront self.new }
        ensures width { self.new.width ≡ self.old.width }
        ensures reduced { IsReduced (vector ∷ self.old.vectors) self.new.vectors }
        ensures longer { length self.new.vectors ≤ length self.old.vectors + 1 }
        ensures room { self.new.room ≡ self.old.room }
    {
        remove_dominated(&mut self.vectors, place, vector);
        // There is room, so this can't fail.
        let _ = self.vectors.insert(place, vector);
    }
}

// Whether some vector of the list dominates this one.
fn is_covered(vectors: &[WinVector], vector: WinVector) -> bool
    requires { HaveWidth (length vector) vectors.now }
    ensures { IsTrue result ↔ Covers vectors.now vector }
{
    vectors.iter().any(|mine| mine.dominates(vector))
}

// Takes out the vectors that this one dominates, which come after its place.
fn remove_dominated(
    vectors: &mut SmallVec<WinVector, INLINE_VECTORS>,
    place: usize,
    vector: WinVector,
)
    requires widths { HaveWidth (length vector) vectors.old.items }
    requires place { IsPlaceFor vectors.old.items vector place }
    ensures kept { vectors.new.items ≡ filter
        (λ mine. not (is_above vector mine)) vectors.old.items }
    ensures bound { length vectors.new.items ≤ length vectors.old.items }
    ensures capacity { vectors.new.capacity ≡ vectors.old.capacity }
{
    if dominates_one(vector, &vectors.as_slice()[place..]) {
        vectors.retain(|mine| !dominates_alike(vector, *mine));
    }
}

// Whether this vector dominates one of the list.
fn dominates_one(vector: WinVector, vectors: &[WinVector]) -> bool
    requires { HaveWidth (length vector) vectors.now }
    ensures { IsTrue result ↔ Any (λ mine. Dominates vector mine) vectors.now }
{
    vectors.iter().any(|mine| vector.dominates(*mine))
}

// Whether the two are of one width, and the first dominates the second.
fn dominates_alike(vector: WinVector, mine: WinVector) -> bool
    ensures { result ≡ is_above vector mine }
{
    vector.width() == mine.width() && vector.dominates(mine)
}

// The place of a vector in an ordered list, if no vector of the list dominates it.
//
// Many meets of a join are dominated. To see that takes a few instructions for each vector of the
// list, and to compare two in printing order takes many, so only a vector that is new is placed.
fn place_for(vectors: &[WinVector], vector: WinVector) -> Option<usize>
    requires widths { HaveWidth (length vector) vectors.now }
    requires ordered { AllPairs Precedes vectors.now }
    ensures covered { IsNone result → Covers vectors.now vector }
    ensures place { IfSome result (IsPlaceFor vectors.now vector) }
{
    if is_covered(vectors, vector) {
        None
    } else {
        Some(place_in_order(vectors, vector))
    }
}

// How many vectors of an ordered list are printed before a vector that none of them dominates.
fn place_in_order(vectors: &[WinVector], vector: WinVector) -> usize
    requires widths { HaveWidth (length vector) vectors.now }
    requires ordered { AllPairs Precedes vectors.now }
    requires new { ¬ Covers vectors.now vector }
    ensures { IsPlaceFor vectors.now vector result }
{
    vectors.partition_point(|mine| is_before(*mine, vector))
}

// Whether the two are of one width, and the first is printed before the second.
fn is_before(mine: WinVector, vector: WinVector) -> bool
    ensures { result ≡ (length mine == length vector && is_lt (vector_order mine vector)) }
{
    mine.width() == vector.width() && mine.order(vector).is_lt()
}
