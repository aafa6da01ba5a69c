//! A memo that solvers in several threads share.
ghost use Rattle.std.specs.Prelude.{◌≡◌, ◌<◌, IfOk, IfSome, length};
ghost use Rattle.trick_rules.specs.Positions.{IsState};
ghost use Rattle.dd_solver.specs.Keys.{key_state, HasShape};
ghost use Rattle.dd_solver.specs.Answers.{IsAnswer};
ghost use Rattle.dd_solver.specs.Shards.{HoldsOnly};

use crate::answer::Answer;
use crate::key::Key;
use crate::memo::Memo;
use crate::shard_rule::{Gives, Homes, Takes};
use atomic_table::{Refused, Seat, Table};
use std::alloc::{AllocError, Global};
use std::fmt;

/// How many shards a memo has.
const SHARDS: usize = 256;

/// The most answers that a shard may have.
const SHARD_ENTRIES: u32 = 4_096;

/// A shard: the answers of the keys that belong to it.
#[derive(Drop)]
pub(crate) struct Shard {
    memo: Memo,
    ghost few: { memo.most ≡ 4096 },
}

/// Answers that solvers in several threads share, at most 1,048,576, in 256 shards.
///
/// One thread at a time is inside a shard, and none waits for it: until it leaves, the others
/// neither find nor keep an answer there.
#[derive(Drop)]
pub struct SharedMemo {
    table: Table<Shard, (), (), Homes, Global>,
    ghost words: { table.shared.table_id.words ≡ 256 },
    ghost shards: { table.shared.table_id.slots ≡ 256 },
}

impl fmt::Debug for SharedMemo {
    fn fmt<F: fmt::Write>(&self, f: &mut fmt::Formatter<F>) -> fmt::Result {
        f.debug_struct("SharedMemo").finish_non_exhaustive()
    }
}

// As many shards as a memo has, without an answer.
fn empty_shards(alloc: Global) -> Result<Vec<Shard>, AllocError>
    ensures { IfOk result (λ shards. length shards.items ≡ 256) }
{
    let mut shards = Vec::with_capacity(alloc, SHARDS)?;
    for _ in 0..SHARDS {
        let memo = Memo::new(alloc, SHARD_ENTRIES);
        shards.push(Shard { memo })?;
    }
    Ok(shards)
}

// The shard of a key. Of the 32 bits of the key's number a memo chooses the row by the 13 lowest at
// most, and the place in it by the five highest. The shard is chosen by bits between these, so the
// keys of a shard still spread over all its rows and places.
fn shard_of(key: &Key) -> usize
    ensures { result < 256 }
{
    (key.code() >> 13u32) as usize % SHARDS
}

impl SharedMemo {
    /// A memo without an answer. It takes memory for answers as they come.
    ///
    /// No clause: each answer that it will hold carries its own proof.
    pub fn new(alloc: Global) -> Result<SharedMemo, AllocError> {
        let words = Vec::from_elem(alloc, 0u64, SHARDS)?;
        let shards = empty_shards(alloc)?;
        match Table::new(alloc, words.as_slice(), shards, &()) {
            Ok((table, _)) => Ok(SharedMemo { table }),
            Err(Refused { slots: _ }) => Err(AllocError),
        }
    }

    // Takes the turn of a shard, if no thread has it.
    fn take(&self, shard: usize) -> Option<Seat<Shard, ()>>
        requires { shard < 256 }
        ensures table { IfSome result (λ seat. seat.table_id ≡ self.now.table.shared.table_id) }
        ensures holds { IfSome result (λ seat. HoldsOnly shard seat.me) }
    {
        let (found, seat) = self.table.shared.swap_new_seat::<Takes>(shard, 1);
        if found == 0 { Some(seat) } else { None }
    }

    // Gives the turn of a shard back.
    fn give(&self, shard: usize, mut seat: Seat<Shard, ()>)
        requires shard { shard < 256 }
        requires table { seat.table_id ≡ self.now.table.shared.table_id }
        requires holds { HoldsOnly shard seat.me }
    {
        self.table.shared.store::<Gives>(&mut seat, shard, 0);
    }

    /// What double dummy answers, if the memo knows it and no thread is inside the key's shard,
    /// with the cards that count.
    pub(crate) fn look(&self, key: &Key) -> Option<Answer>
        requires state { IsState (key_state key.now) }
        requires shape { HasShape key.now }
        ensures { IfSome result (λ answer. IsAnswer (key_state key.now) answer) }
    {
        let shard = shard_of(key);
        let mut seat = self.take(shard)?;
        let answer = seat.slot_mut(&self.table.shared, shard).memo.look(key);
        self.give(shard, seat);
        answer
    }

    /// Puts an answer in, if no thread is inside the key's shard and there is memory for it.
    pub(crate) fn keep(&self, key: &Key, answer: &Answer)
        requires state { IsState (key_state key.now) }
        requires shape { HasShape key.now }
        requires known { IsAnswer (key_state key.now) answer.now }
    {
        let shard = shard_of(key);
        if let Some(mut seat) = self.take(shard) {
            seat.slot_mut(&self.table.shared, shard)
                .memo
                .keep(key, answer);
            self.give(shard, seat);
        }
    }
}
