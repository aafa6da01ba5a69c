//! The vectors of an entry, in as little memory as their width allows.
ghost use Rattle.std.specs.Prelude.{◌≡◌, ◌≤◌, [], length, IfOk};
ghost use Rattle.win_vectors.specs.Vectors.{most_narrow};
ghost use Rattle.win_vectors.specs.Fronts.{HaveWidth, IsReduced};
ghost use Rattle.pareto_fronts.specs.FrontValue.{IsSoundFront};
ghost use Rattle.front_table.specs.StoredVectors.{vectors_of};

use pareto_fronts::Front;
use std::alloc::{AllocError, Global};
use win_vectors::{MOST_NARROW, NarrowVector, WinVector};

/// A list of vectors of one width.
#[derive(Drop)]
pub enum StoredVectors {
    Narrow(Vec<NarrowVector>),
    Wide(Vec<WinVector>),
}

// The same vectors in one word each.
fn narrowed(
    alloc: Global,
    vectors: &[WinVector],
    width: u16,
) -> Result<Vec<NarrowVector>, AllocError>
    requires narrow { width ≤ most_narrow }
    requires width { HaveWidth width vectors.now }
    ensures { IfOk result (λ stored. stored.items ≡ vectors.now) }
{
    let mut stored = Vec::with_capacity(alloc, vectors.len())?;
    for vector in vectors {
        stored.push(NarrowVector::of(*vector))?;
    }
    Ok(stored)
}

/// Puts the vectors into an empty front that has room for them. They must be their own reduced
/// list.
pub fn fill_empty(vectors: &[WinVector], out: &mut Front)
    requires width { HaveWidth out.old.width vectors.now }
    requires reduced { IsReduced vectors.now vectors.now }
    requires empty { out.old.vectors ≡ [] }
    requires room { length vectors.now ≤ out.old.room }
    ensures vectors { out.new.vectors ≡ vectors.now }
    ensures width { out.new.width ≡ out.old.width }
    ensures room { out.new.room ≡ out.old.room }
{
    for vector in vectors {
        out.append(*vector);
    }
}

impl StoredVectors {
    /// The vectors of a front.
    pub(crate) fn of(alloc: Global, front: &Front) -> Result<StoredVectors, AllocError>
        ensures { IfOk result (λ stored. vectors_of stored ≡ front.now.vectors) }
    {
        if usize::from(front.width()) <= MOST_NARROW {
            Ok(StoredVectors::Narrow(narrowed(alloc, front.as_slice(), front.width())?))
        } else {
            Ok(StoredVectors::Wide(Vec::from_slice(alloc, front.as_slice())?))
        }
    }

    /// Leaves the vectors in the front. It takes no memory.
    pub(crate) fn fill(&self, out: &mut Front)
        requires width { HaveWidth out.old.width (vectors_of self.now) }
        requires reduced { IsReduced (vectors_of self.now) (vectors_of self.now) }
        requires room { length (vectors_of self.now) ≤ out.old.room }
        ensures vectors { out.new.vectors ≡ vectors_of self.now }
        ensures width { out.new.width ≡ out.old.width }
        ensures room { out.old.room ≤ out.new.room }
    {
        out.clear();
        match self {
            StoredVectors::Narrow(narrow) => {
                let vectors = narrow.as_slice();
                for vector in vectors {
                    out.append(vector.widen());
                }
            }
            StoredVectors::Wide(vectors) => fill_empty(vectors.as_slice(), out),
        }
    }
}
