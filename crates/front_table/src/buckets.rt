//! Places of a list in buckets, each by the digest of what is at that place.
ghost use Rattle.std.specs.Prelude.{◌≡◌, ℕ, ◌+◌, ◌%◌, ◌^◌, ◌<◌, ◌≤◌, ◌++◌, ◌∷◌, [], OnOk, OnErr, length, slice_index};
ghost use Rattle.front_table.specs.Buckets.{bucket_at, IsLast, AreLinked};

use std::alloc::{AllocError, Global};
use std::marker::Model;

/// How many buckets there are at first.
const FIRST_BUCKETS: usize = 16;

/// The digests of a list's places, in buckets: at most two places a bucket on average.
#[derive(Drop)]
pub(crate) struct Buckets {
    alloc: Global,
    digests: Vec<u64>,
    heads: Vec<u32>,
    earlier: Vec<u32>,
}

impl Model for Buckets {
    ghost use Rattle.std.specs.Prelude.{length};
    ghost use Rattle.front_table.specs.Buckets.{BucketsValue};

    ghost Value = { BucketsValue };

    ghost use Rattle.front_table.specs.BucketsInside.{AreSound};

    ghost view = { λ a. record { buckets = length a.heads.items; digests = a.digests.items } };

    ghost invariant = { AreSound };
}

// Links one place more: it becomes the head of its bucket.
fn link(digests: &[u64], heads: &mut [u32], earlier: &mut [u32], place: usize)
    requires place { place < length digests.now }
    requires places { length earlier.old ≡ length digests.now }
    requires few { length digests.now < 2 ^ 32 }
    requires some { 1 ≤ length heads.old }
    requires linked { AreLinked digests.now heads.old earlier.old place }
    ensures { AreLinked digests.now heads.new earlier.new (place + 1) }
{
    let bucket = (digests[place] % heads.len() as u64) as usize;
    earlier[place] = heads[bucket];
    heads[bucket] = place as u32 + 1;
}

// Links each place; the heads are all 0 before.
fn link_all(digests: &[u64], heads: &mut [u32], earlier: &mut [u32])
    requires places { length earlier.old ≡ length digests.now }
    requires few { length digests.now < 2 ^ 32 }
    requires some { 1 ≤ length heads.old }
    requires empty { (bucket : ℕ) → slice_index heads.old bucket ≡ 0 }
    ensures { AreLinked digests.now heads.new earlier.new (length digests.now) }
{
    for place in 0..digests.len() {
        link(digests, heads, earlier, place);
    }
}

impl Buckets {
    /// No place yet. It takes no memory.
    pub(crate) fn new(alloc: Global) -> Buckets
        ensures { result.digests ≡ [] }
    {
        Buckets {
            alloc,
            digests: Vec::new(alloc),
            heads: Vec::new(alloc),
            earlier: Vec::new(alloc),
        }
    }

    /// One more than the last place of this digest's bucket; 0 if it has none.
    pub(crate) fn last(&self, digest: u64) -> u32
        ensures { IsLast self.now.digests self.now.buckets (digest % self.now.buckets)
            (length self.now.digests) result }
    {
        if self.heads.is_empty() {
            return 0;
        }
        self.heads[(digest % self.heads.len() as u64) as usize]
    }

    /// One more than the last place before this one in its bucket; 0 if there is none.
    pub(crate) fn earlier(&self, place: usize) -> u32
        requires { place < length self.now.digests }
        ensures { IsLast self.now.digests self.now.buckets
            (bucket_at self.now.digests self.now.buckets place) place result }
    {
        self.earlier[place]
    }

    /// The digest of a place.
    pub(crate) fn digest(&self, place: usize) -> u64
        requires { place < length self.now.digests }
        ensures { result ≡ slice_index self.now.digests place }
    {
        self.digests[place]
    }

    /// Adds a place at the end. The places are as they were if an allocation fails.
    pub(crate) fn add(&mut self, digest: u64) -> Result<(), AllocError>
        requires { length self.old.digests + 1 < 2 ^ 32 }
        ensures ok { OnOk result (self.new.digests ≡ self.old.digests ++ digest ∷ []) }
        ensures err { OnErr result (self.new.digests ≡ self.old.digests) }
    {
        if self.heads.len() <= self.digests.len() {
            self.widen()?;
        }
        self.push(digest)
    }

    // Adds a place. There are buckets already.
    fn push(&mut self, digest: u64) -> Result<(), AllocError>
        requires few { length self.old.digests + 1 < 2 ^ 32 }
        requires some { 1 ≤ self.old.buckets }
        ensures ok { OnOk result (self.new.digests ≡ self.old.digests ++ digest ∷ []) }
        ensures err { OnErr result (self.new.digests ≡ self.old.digests) }
    {
        let place = self.digests.len();
        self.digests.reserve(1)?;
        self.earlier.reserve(1)?;
        // There is room for both, so neither can fail.
        let _ = self.digests.push(digest);
        let _ = self.earlier.push(0);
        link(
            self.digests.as_slice(),
            self.heads.as_mut_slice(),
            self.earlier.as_mut_slice(),
            place,
        );
        Ok(())
    }

    // Doubles the buckets.
    fn widen(&mut self) -> Result<(), AllocError>
        ensures digests { self.new.digests ≡ self.old.digests }
        ensures some { OnOk result (1 ≤ self.new.buckets) }
    {
        let count = self.heads.len().saturating_mul(2).max(FIRST_BUCKETS);
        let mut heads = Vec::from_elem(self.alloc, 0, count)?;
        link_all(
            self.digests.as_slice(),
            heads.as_mut_slice(),
            self.earlier.as_mut_slice(),
        );
        self.heads = heads;
        Ok(())
    }
}
