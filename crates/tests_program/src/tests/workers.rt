//! Workers side by side, as a gate sees them.
ghost use Rattle.std.specs.Prelude.{◌≤◌};

use super::queen::{QUEEN, QUEEN_LAYOUTS, QUEEN_REPORT, ran, ran_at, shelf_of};
use am_outside::{Gate, MemoryShelf};
use am_top::Status;
use card_sets::{Card, Rank, Suit};
use std::alloc::Global;
use std::process::Abort;
use std::sync::atomic::{AtomicBool, AtomicU32, Ordering};
use std::test::Fail;
use std::thread::{self, Threads};

// How often a gate looks before it gives up.
const TURNS: u32 = 20_000_000;

// Holds the first of two cards until the second has left, or each until the other has entered. It
// notes if it gave up.
#[derive(Drop)]
struct Holding {
    first: Card,
    second: Card,
    until_left: bool,
    first_entered: AtomicU32,
    second_entered: AtomicU32,
    second_left: AtomicU32,
    failed: AtomicBool,
}

impl Holding {
    fn new(first: Card, second: Card, until_left: bool) -> Holding {
        Holding {
            first,
            second,
            until_left,
            first_entered: AtomicU32::new(0),
            second_entered: AtomicU32::new(0),
            second_left: AtomicU32::new(0),
            failed: AtomicBool::new(false),
        }
    }

    fn wait_for(&self, seen: &AtomicU32) {
        for _ in 0..TURNS {
            if seen.load(Ordering::SeqCst) > 0 {
                return;
            }
            thread::yield_now();
        }
        self.failed.store(true, Ordering::SeqCst);
    }

    // Whether both cards were entered, the second was left, and nobody waited in vain.
    fn saw_both(&self) -> bool {
        self.first_entered.load(Ordering::SeqCst) > 0
            && self.second_entered.load(Ordering::SeqCst) > 0
            && self.second_left.load(Ordering::SeqCst) > 0
            && !self.failed.load(Ordering::SeqCst)
    }
}

impl Gate for Holding {
    fn enter(&self, _worker: u32, card: Card) {
        if card == self.first {
            self.first_entered.fetch_add(1, Ordering::SeqCst);
            if self.until_left {
                self.wait_for(&self.second_left);
            } else {
                self.wait_for(&self.second_entered);
            }
        }
        if card == self.second {
            self.second_entered.fetch_add(1, Ordering::SeqCst);
            if !self.until_left {
                self.wait_for(&self.first_entered);
            }
        }
    }

    fn leave(&self, _worker: u32, card: Card) {
        if card == self.second {
            self.second_left.fetch_add(1, Ordering::SeqCst);
        }
    }
}

fn spade(rank: u8) -> Card
    requires low { 2 ≤ rank }
    requires high { rank ≤ 14 }
{
    Card::new(Suit::Spades, Rank::new(rank))
}

const PLAIN_WORDS: &str =
    "--job solve --deal deal --layouts layouts --moves 2 --no-cuts --workers ";

// The ace wins the one trick.
const ACE: &str =
    "[Deal \"N:A... - 2... -\"]\n[Declarer \"S\"]\n[Contract \"1NT\"]\n[EndNeed \"1\"]\n[EndLead \"N\"]\n";

const ACE_LAYOUTS: &str = "N:A... 3... 2... 4...\n";

const ACE_REPORT: &str =
    "alphamu report 1\ndeclarer S\ntrump NT\nneed 1\nhand S 2...\nhand N A...\ntrick N -\nturn N\nmoves 2\nkept 1\nfront 1\nvector 1 count 1\nplay SA\nhear 1\non S3\nplay S2\nstop\ncard SA count 1\nend\n";

// Several workers at a gate write what one writes, and the gate sees both cards.
fn assert_same<R: Threads + Sync + Abort>(
    rt: &R,
    alloc: Global,
    words: &str,
    workers: &str,
    deal: &str,
    gate: &Holding,
) -> Result<(), Fail> {
    let one = ran(
        rt,
        alloc,
        &format!(in alloc; "{words}1")?,
        deal,
        QUEEN_LAYOUTS,
    )?;
    let mut shelf = shelf_of(alloc, deal, QUEEN_LAYOUTS)?;
    let many = ran_at(
        rt,
        alloc,
        &format!(in alloc; "{words}{workers}")?,
        &mut shelf,
        gate,
    )?;
    assert!(rt;
        one.status == Status::Done && many.status == Status::Done,
        "{}",
        words
    );
    assert_eq!(rt; many.out.bytes(), one.out.bytes());
    assert!(rt; gate.saw_both(), "{}", words);
    Ok(())
}

#[test]
fn the_card_that_ends_first_is_not_the_first(rt: HostRuntime) -> Result<(), Fail> {
    let gate = Holding::new(spade(2), spade(3), true);
    assert_same(&rt, rt.alloc(), PLAIN_WORDS, "4", QUEEN, &gate)
}

#[test]
fn two_workers_are_beside_each_other(rt: HostRuntime) -> Result<(), Fail> {
    let gate = Holding::new(spade(2), spade(3), false);
    assert_same(&rt, rt.alloc(), PLAIN_WORDS, "2", QUEEN, &gate)
}

#[test]
fn two_games_are_solved_beside_each_other(rt: HostRuntime) -> Result<(), Fail> {
    let alloc = rt.alloc();
    let mut shelf = MemoryShelf::new(alloc);
    shelf.add("deal", format!(in alloc; "{QUEEN}\n{ACE}")?.as_bytes())?;
    shelf.add("layouts.1", QUEEN_LAYOUTS.as_bytes())?;
    shelf.add("layouts.2", ACE_LAYOUTS.as_bytes())?;
    let words = "--job boards --deal deal --layouts layouts --moves 2 --workers 2";
    let gate = Holding::new(spade(2), spade(14), false);
    let run = ran_at(&rt, alloc, words, &mut shelf, &gate)?;
    let text = format!(in alloc;
        "alphamu boards 1\ngame 1\n{QUEEN_REPORT}game 2\n{ACE_REPORT}end boards\n"
    )?;
    assert!(rt; run.ends_with(Status::Done, &text, ""));
    assert!(rt; gate.saw_both());
    Ok(())
}
