//! A store that is filled with fronts of decided nodes, and looked into.
ghost use Rattle.std.specs.Prelude.{◌≤◌, ◌≡◌, length};
ghost use Rattle.front_table.specs.Entries.{most_entry_vectors};

use super::nodes::Shape;
use crate::draws::Draws;
use alphamu_core::exact_front;
use card_sets::Seat;
use dd_solver::Solver;
use front_table::{FrontStore, LocalStore, Look, NoStore, ProvenFront, Put};
use pareto_fronts::Front;
use shared_table::{SharedStore, SharedTable};
use std::alloc::{AllocError, Global};
use trick_rules::Node;

/// Which store.
#[derive(Clone, Copy)]
pub enum Store {
    Local,
    /// A table of one shard.
    Shared,
}

impl Store {
    pub fn of_word(word: &str) -> Store {
        if word == "shared" {
            Store::Shared
        } else {
            Store::Local
        }
    }
}

/// How many entries the store is filled with, at most 65,536, and how many looks there are.
#[derive(Clone, Copy)]
pub struct Question {
    pub store: Store,
    pub entries: u32,
    pub looks: u64,
    pub are_hits: bool,
}

/// The moves of each entry.
const MOVES: u8 = 3;

/// Decided by the need, so that the front is one vector and costs no search.
const SHAPE: Shape = Shape {
    tricks: 7,
    layouts: 20,
    leader: Seat::Declarer,
    need: 0,
};

// Puts the front of a node; 1 if it is kept.
fn put<S: FrontStore>(alloc: Global, store: &mut S, node: &Node) -> Result<u64, AllocError> {
    let mut solver = Solver::new(alloc);
    let found = exact_front(alloc, &mut NoStore, &mut solver, node, MOVES, u64::MAX);
    let Ok(front) = found else {
        return Err(AllocError);
    };
    let entry = ProvenFront::new(node.copy(alloc)?, MOVES, front);
    Ok(u64::from(matches!(&store.put(entry), Put::Kept)))
}

// Fills the store, and gives the nodes of its entries and how many it kept.
fn fill<S: FrontStore>(
    alloc: Global,
    store: &mut S,
    entries: u32,
) -> Result<(Vec<Node>, u64), AllocError> {
    let mut draws = Draws::new(1);
    let mut nodes = Vec::new(alloc);
    let mut kept: u64 = 0;
    for _ in 0..entries {
        if let Some(node) = draws.node(alloc, SHAPE)? {
            kept = kept.saturating_add(put(alloc, store, &node)?);
            nodes.push(node)?;
        }
    }
    Ok((nodes, kept))
}

// Looks for the front of a node; 1 if it is there.
fn look<S: FrontStore>(store: &mut S, node: &Node, moves: u8, out: &mut Front) -> u64
    requires { most_entry_vectors ≤ out.old.room }
    ensures { most_entry_vectors ≤ out.new.room }
{
    out.reset(node.width());
    u64::from(store.look(node, moves, out) == Look::Hit)
}

// Fills the store and looks so often for entries drawn by lot.
fn look_over<S: FrontStore>(
    alloc: Global,
    store: &mut S,
    question: &Question,
) -> Result<(u64, u64), AllocError> {
    let (nodes, kept) = fill(alloc, store, question.entries)?;
    let moves = if question.are_hits { MOVES } else { MOVES + 1 };
    let mut out = Front::new(alloc, 1);
    out.reserve(64)?;
    let mut draws = Draws::new(2);
    let mut hits: u64 = 0;
    for _ in 0..question.looks {
        let place = draws.next(nodes.len() as u64) as usize;
        if place < nodes.len() {
            hits = hits.saturating_add(look(store, &nodes[place], moves, &mut out));
        }
    }
    Ok((kept, hits))
}

/// How many entries were kept and how many looks were hits.
pub fn look_into(alloc: Global, question: &Question) -> Result<(u64, u64), AllocError>
    requires low { 1 ≤ question.now.entries }
    requires high { question.now.entries ≤ 65536 }
{
    match question.store {
        Store::Local => {
            let mut store = LocalStore::new(alloc, question.entries);
            look_over(alloc, &mut store, question)
        }
        Store::Shared => {
            let (table, mut pass) = SharedTable::new(alloc, 1, question.entries)?;
            let mut store = SharedStore::new(&table, &mut pass);
            look_over(alloc, &mut store, question)
        }
    }
}
