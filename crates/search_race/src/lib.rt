//! A race: several searches for one answer, each with a place of its own to begin at. Once one of
//! them has the answer, the others are late.
//! It builds on nothing but std, so the search knows of no threads.
//! A runner is late only in a race of two or more, and one that is alone begins at the first place.
#![tactic(auto)]

ghost use Rattle.std.specs.Prelude.{◌≡◌, ◌<◌, ◌≤◌, IsTrue};

use std::alloc::Global;
use std::sync::Arc;
use std::sync::atomic::{AtomicBool, Ordering};

// How many answers of double dummy a solver alone has kept before the help of other threads pays:
// some tens of milliseconds' work. Its own memo is given up then.
const ALONE: u64 = 50_000;

// How many it has kept among others before their help pays once more: a few milliseconds' work, for
// some tenths of a millisecond in which threads are started.
const TOGETHER: u64 = 4_000;

/// What the runners of a race share: how many they are, and whether one of them has the answer.
#[derive(Drop)]
pub struct Race {
    runners: usize,
    answered: AtomicBool,
}

impl Race {
    /// A race of this many runners, in which none has the answer yet.
    pub fn new(runners: usize) -> Race
        ensures { result.runners ≡ runners }
    {
        Race {
            runners,
            answered: AtomicBool::new(false),
        }
    }
}

// A runner's race, and its number there, counted from 0.
#[derive(Drop)]
struct Place {
    race: Arc<Race, Global>,
    number: usize,
}

/// A runner in a race, or one that is alone.
#[derive(Drop)]
pub struct Runner {
    runners: usize,
    place: Option<Place>,
}

impl Runner {
    /// A runner in no race.
    pub fn alone() -> Runner
        ensures { result.runners ≡ 1 }
    {
        Runner {
            runners: 1,
            place: None,
        }
    }

    /// The runner of this number in a race, counted from 0.
    pub fn in_race(race: Arc<Race, Global>, number: usize) -> Runner
        ensures { result.runners ≡ race.value.runners }
    {
        Runner {
            runners: race.runners,
            place: Some(Place { race, number }),
        }
    }

    /// Whether it is in no race of two or more.
    pub fn is_alone(&self) -> bool
        ensures { IsTrue result → self.now.runners ≤ 1 }
    {
        self.runners <= 1
    }

    /// How many answers of double dummy its search keeps before the help of other threads pays.
    ///
    /// No clause: it tells how searches may work together, and changes no answer.
    pub fn help_price(&self) -> u64 {
        if self.is_alone() { ALONE } else { TOGETHER }
    }

    /// Where in a list of this many it begins: each runner of a race at another place, so that
    /// their searches find each other's answers. One that is alone begins at 0.
    pub fn begins_at(&self, count: usize) -> usize
        ensures { self.now.runners ≤ 1 → result ≡ 0 }
    {
        match &self.place {
            Some(place) if self.runners > 1 => { count.saturating_mul(place.number) / self.runners }
            _ => 0,
        }
    }

    /// The race begins: none of its runners has the answer yet.
    ///
    /// No clause: it tells how searches may work together, and changes no answer.
    pub fn begin(&self) {
        self.note_answered(false);
    }

    /// It has the answer. The others in its race are late from now on.
    ///
    /// No clause: it tells how searches may work together, and changes no answer.
    pub fn end(&self) {
        self.note_answered(true);
    }

    /// Whether a runner of its race has the answer already.
    pub fn is_late(&self) -> bool
        ensures { IsTrue result → 1 < self.now.runners }
    {
        match &self.place {
            Some(place) if self.runners > 1 => place.race.answered.load(Ordering::SeqCst),
            _ => false,
        }
    }

    // Notes whether the race has its answer.
    fn note_answered(&self, answered: bool) {
        if let Some(place) = &self.place {
            place.race.answered.store(answered, Ordering::SeqCst);
        }
    }
}
