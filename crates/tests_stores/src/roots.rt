//! What the table and the stops spare at a root. Dummy leads from S3 S2, and either card is
//! followed by ten nodes with a move left.
ghost use Rattle.shared_table.specs.Passes.{IsPassOf};

use crate::endings::{after, guess};
use crate::gates::Count;
use am_outside::{Gate, OpenGate};
use card_sets::Card;
use root_workers::{Options, Outcome, RootCard, RootFront, Stored, root_card, root_front};
use shared_table::{Pass, SharedTable};
use std::alloc::Global;
use std::process::Abort;
use std::test::Fail;
use std::thread::Threads;
use trick_rules::Node;
use win_vectors::Weights;

/// What is asked of a root, by equal weights: how many moves, from 1 to 26, and how many nodes
/// after a card. One worker searches over the table.
#[derive(Drop)]
struct Asked<'a> {
    node: &'a Node,
    moves: u8,
    nodes: u64,
    cuts: bool,
}

impl Asked<'_> {
    fn options(&self) -> Options {
        Options {
            nodes: self.nodes,
            workers: 1,
            table: true,
            cuts: self.cuts,
        }
    }
}

// The front of a root.
fn front_of<R: Threads + Abort + Sync, G: Gate>(
    rt: &R,
    alloc: Global,
    asked: &Asked<'_>,
    table: &SharedTable,
    pass: &mut Pass,
    gate: &G,
) -> Result<RootFront, Fail>
    requires { IsPassOf table.now pass.old }
    ensures { IsPassOf table.now pass.new }
{
    let node = asked.node;
    let moves = asked.moves;
    let options = asked.options();
    let weights = Weights::equal(node.width());
    assert!(rt; node.is_ours() && !node.position().over() && weights.width() == node.width());
    assert!(rt; 1 <= moves && moves <= 26 && 1 <= options.workers && options.workers <= 64);
    Ok(root_front(
        rt, alloc, node, moves, &weights, &options, table, pass, gate,
    )?)
}

// The card to play there, and its weight.
fn card_of<R: Threads + Abort + Sync, G: Gate>(
    rt: &R,
    alloc: Global,
    asked: &Asked<'_>,
    table: &SharedTable,
    pass: &mut Pass,
    gate: &G,
) -> Result<RootCard, Fail>
    requires { IsPassOf table.now pass.old }
    ensures { IsPassOf table.now pass.new }
{
    let node = asked.node;
    let moves = asked.moves;
    let options = asked.options();
    let weights = Weights::equal(node.width());
    assert!(rt; node.is_ours() && !node.position().over() && weights.width() == node.width());
    assert!(rt; 1 <= moves && moves <= 26 && 1 <= options.workers && options.workers <= 64);
    Ok(root_card(
        rt, alloc, node, moves, &weights, &options, table, pass, gate,
    )?)
}

// Each vector makes one layout, and the front after each card is in the table.
fn assert_guesses(rt: &impl Abort, root: &RootFront) {
    assert!(rt; root.front.len() == 2 && root.weight == 1 && root.cards.len() == 2);
    for report in &root.cards {
        assert_eq!(rt; report.outcome, Outcome::Exact(Stored::Table));
    }
}

// A search that finds nothing in the table has too few nodes the second time.
#[test]
fn what_the_table_has_needs_no_search(rt: HostRuntime) -> Result<(), Fail> {
    let alloc = rt.alloc();
    let node = guess(&rt, alloc)?;
    let (table, mut pass) = SharedTable::new(alloc, 1, 64)?;
    let mut asked = Asked {
        node: &node,
        moves: 2,
        nodes: 10,
        cuts: false,
    };
    let first = front_of(&rt, alloc, &asked, &table, &mut pass, &OpenGate)?;
    assert_guesses(&rt, &first);
    asked.nodes = 9;
    let second = front_of(&rt, alloc, &asked, &table, &mut pass, &OpenGate)?;
    assert_guesses(&rt, &second);
    Ok(())
}

// The two wins what double dummy promises with one move, so the three can't add anything, and isn't
// searched.
#[test]
fn the_front_stops_the_loop(rt: HostRuntime) -> Result<(), Fail> {
    let alloc = rt.alloc();
    let node = guess(&rt, alloc)?;
    let (table, mut pass) = SharedTable::new(alloc, 1, 64)?;
    let gate = Count::new();
    let asked = Asked {
        node: &node,
        moves: 1,
        nodes: 10,
        cuts: true,
    };
    let root = front_of(&rt, alloc, &asked, &table, &mut pass, &gate)?;
    assert!(rt; root.weight == 2 && root.front.len() == 1 && root.cards.len() == 2);
    assert_eq!(rt; root.cards[1].outcome, Outcome::Skipped);
    assert_eq!(rt; gate.entered(), 1);
    Ok(())
}

// After S2 and S7 the jack wins one layout with one move and the king the other: two searches. No
// card wins more with two moves, so that the jack is enough for the card to play.
#[test]
fn the_weight_stops_the_loop(rt: HostRuntime) -> Result<(), Fail> {
    let alloc = rt.alloc();
    let node = after(&rt, alloc, &after(&rt, alloc, &guess(&rt, alloc)?, 0)?, 5)?;
    let asked = Asked {
        node: &node,
        moves: 2,
        nodes: 10,
        cuts: true,
    };
    let (table, mut pass) = SharedTable::new(alloc, 1, 64)?;
    let gate = Count::new();
    let found = card_of(&rt, alloc, &asked, &table, &mut pass, &gate)?;
    assert!(rt; found.card == Card::from_number(9) && found.weight == 1);
    assert_eq!(rt; gate.entered(), 3);
    Ok(())
}
