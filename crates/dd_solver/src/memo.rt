//! What is known already of positions between two tricks.
ghost use Rattle.std.specs.Prelude.{◌≡◌, ◌+◌, ◌<◌, ◌≤◌, IfSome, IsTrue, vec_len, length};
ghost use Rattle.trick_rules.specs.Positions.{IsState};
ghost use Rattle.double_dummy.specs.Needs.{IsSettled};
ghost use Rattle.dd_solver.specs.Keys.{key_state, HasShape};
ghost use Rattle.dd_solver.specs.Answers.{IsAnswer};

use crate::answer::Answer;
use crate::key::Key;
use std::alloc::Global;

/// The most entries that a memo may have.
pub(crate) const MOST_ENTRIES: u32 = 262_144;

/// The entries of the first table. Each later table has four times as many.
const FIRST_ENTRIES: usize = 256;

/// How many slots a key has.
const WAYS: usize = 32;

/// A position between two tricks and Left's hand, with its answer and the cards that count for it.
#[derive(Clone, Copy, Debug)]
struct Entry {
    key: Key,
    answer: Answer,
    ghost state: { IsState (key_state key) },
    ghost shape: { HasShape key },
    ghost known: { IsAnswer (key_state key) answer },
}

impl Entry {
    // The answer for another key, if it is alike and its need is settled.
    fn answer_for(&self, key: &Key) -> Option<Answer>
        requires state { IsState (key_state key.now) }
        requires shape { HasShape key.now }
        ensures { IfSome result (λ answer. IsAnswer (key_state key.now) answer) }
    {
        if self.key.is_like(self.answer.counting, key) && self.settles(key.need) {
            Some(self.answer)
        } else {
            None
        }
    }

    // Whether it answers all that the other one does.
    fn covers(&self, other: &Entry) -> bool {
        self.key.is_like(self.answer.counting, &other.key)
            && self.answer.made == other.answer.made
            && self.settles_need_of(&other.key)
            && self.answer.counting.is_subset(other.answer.counting)
    }

    // Whether the answer settles the need of a key.
    fn settles_need_of(&self, key: &Key) -> bool {
        key.need <= 13 && self.settles(key.need)
    }

    // Whether the answer settles this need too: one that is no higher if the answer is made, and no
    // lower if it fails.
    fn settles(&self, need: u8) -> bool
        requires { need ≤ 13 }
        ensures { IsTrue result → IsSettled self.now.answer.made self.now.key.need need }
    {
        if self.answer.made {
            need <= self.key.need
        } else {
            self.key.need <= need
        }
    }
}

// The slot in which a number is looked for after this many steps, among `slots` slots. A row of 32
// serves each number, and numbers begin at different places there, so that they meet few others.
#[tactic(auto, using(std::proofs::lemmas::Nat::and_le_r))]
fn slot_of(number: u64, slots: usize, step: usize) -> usize
    requires { 32 ≤ slots }
    ensures { result < slots }
{
    let row = (number & (slots / WAYS - 1) as u64) as usize;
    row * WAYS + ((number >> 27u32) as usize).wrapping_add(step) % WAYS
}

// The first slot of a number that is empty or whose answers the entry gives too.
fn free_place(slots: &[Option<Entry>], number: u64, entry: &Entry) -> Option<usize>
    requires { 32 ≤ length slots.now }
    ensures { IfSome result (λ place. place < length slots.now) }
{
    for step in 0..WAYS {
        let place = slot_of(number, slots.len(), step);
        match &slots[place] {
            Some(there) if !entry.covers(there) => {}
            _ => return Some(place),
        }
    }
    None
}

// A slot of a number with the fewest tricks left, in turn.
fn shortest_place(slots: &[Option<Entry>], number: u64, turn: usize) -> usize
    requires { 32 ≤ length slots.now }
    ensures { result < length slots.now }
{
    let mut best = slot_of(number, slots.len(), 0);
    let mut least = usize::MAX;
    for step in 0..WAYS {
        let place = slot_of(number, slots.len(), step);
        if let Some(there) = &slots[place] {
            let weight = usize::from(there.key.tricks) * WAYS + step.wrapping_sub(turn) % WAYS;
            if weight < least {
                best = place;
                least = weight;
            }
        }
    }
    best
}

// Puts the entry in one of its slots, in turn.
fn put(slots: &mut [Option<Entry>], turn: usize, entry: &Entry) {
    if slots.len() >= WAYS {
        let number = entry.key.code();
        let place = match free_place(slots, number, entry) {
            Some(place) => place,
            None => shortest_place(slots, number, turn),
        };
        slots[place] = Some(*entry);
    }
}

// Puts all entries of another table in.
fn put_all(slots: &mut [Option<Entry>], others: &[Option<Entry>]) {
    for (turn, entry) in others.iter().flatten().enumerate() {
        put(slots, turn, entry);
    }
}

// How many slots the table has that takes the place of a full one, if there may be `most`.
fn wider_size(slots: usize, most: usize) -> usize
    ensures { result ≤ most }
{
    if slots == 0 {
        FIRST_ENTRIES.min(most)
    } else {
        slots.saturating_mul(4).min(most)
    }
}

/// Answers between two tricks. A position has 32 slots, and takes the place of another one
/// there.
#[derive(Debug, Drop)]
pub(crate) struct Memo {
    alloc: Global,
    most: usize,
    slots: Vec<Option<Entry>>,
    stored: usize,
    ghost bounded: { most ≤ 262144 },
    ghost few: { vec_len slots ≤ most },
}

impl Memo {
    /// A memo that holds nothing and will have at most this many entries. It takes no memory.
    pub(crate) fn new(alloc: Global, most: u32) -> Memo
        requires { most ≤ 262144 }
        ensures limit { result.most ≡ most }
        ensures empty { vec_len result.slots ≡ 0 }
    {
        Memo {
            alloc,
            most: most as usize,
            slots: Vec::new(alloc),
            stored: 0,
        }
    }

    /// What double dummy answers, if the memo knows it, with the cards that count.
    pub(crate) fn look(&self, key: &Key) -> Option<Answer>
        requires state { IsState (key_state key.now) }
        requires shape { HasShape key.now }
        ensures { IfSome result (λ answer. IsAnswer (key_state key.now) answer) }
    {
        if self.slots.len() < WAYS {
            return None;
        }
        let number = key.code();
        for step in 0..WAYS {
            let entry = self.slots[slot_of(number, self.slots.len(), step)].as_ref()?;
            if let Some(answer) = entry.answer_for(key) {
                return Some(answer);
            }
        }
        None
    }

    /// Puts an answer in. If there is no memory for it, nothing is put in.
    pub(crate) fn keep(&mut self, key: &Key, answer: &Answer)
        requires state { IsState (key_state key.now) }
        requires shape { HasShape key.now }
        requires known { IsAnswer (key_state key.now) answer.now }
        ensures { self.new.most ≡ self.old.most }
    {
        if self.stored >= self.slots.len() / 2 && self.slots.len() < self.most {
            self.grow();
        }
        let entry = Entry {
            key: *key,
            answer: *answer,
        };
        put(self.slots.as_mut_slice(), self.stored, &entry);
        self.stored = self.stored.saturating_add(1);
    }

    // Puts the entries into a wider table. If there is no memory for it, the old one stays.
    fn grow(&mut self)
        ensures { self.new.most ≡ self.old.most }
    {
        self.stored = 0;
        if let Ok(mut wider) = Vec::from_elem(
            self.alloc,
            None,
            wider_size(self.slots.len(), self.most),
        ) {
            put_all(wider.as_mut_slice(), self.slots.as_slice());
            self.slots = wider;
        }
    }
}
