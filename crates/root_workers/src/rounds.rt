//! What a round wants of each worker, and what it finds.
use alphamu_core::{Entered, Found};
use card_sets::Card;
use cut_rules::CutRules;
use pareto_fronts::Front;
use shared_table::SharedTable;
use std::alloc::Global;
use trick_rules::Node;
use win_vectors::Weights;

/// A round over the root cards: with `moves` moves, each search within `nodes` nodes, by these
/// rules, the weights of the layouts, and the front with a move less.
#[derive(Drop)]
pub struct Round<'a> {
    pub alloc: Global,
    pub node: &'a Node,
    pub weights: &'a Weights,
    pub moves: u8,
    pub nodes: u64,
    pub rules: CutRules,
    pub previous: &'a Front,
    pub table: &'a SharedTable,
    /// Whether the searches look into the table.
    pub uses_table: bool,
}

/// What a round finds: the front, the card that leads with its weight, what was found after each
/// root card, in card order, up to where the round stopped, and the most nodes that one of its
/// searches entered.
#[derive(Drop)]
pub struct RoundFront {
    pub front: Front,
    pub card: Card,
    pub weight: u32,
    pub founds: Vec<Found>,
    pub most: Entered,
}

/// What the workers do beside the caller, or before it goes on.
#[derive(Drop)]
pub enum Help<'a> {
    /// They search root cards, each another one, to the end of each.
    Cards,
    /// All of them search after the same root card, each from another place on, until one has ended.
    Race(&'a CardSearch<'a>),
    /// They ask double dummy about the layouts of the root, each from another place on. They find
    /// nothing to report, but their memo knows the answers.
    Layouts,
}

/// A search after a root card: the card by its place, counted from 0, and what the cards before it win.
#[derive(Drop)]
pub struct CardSearch<'a> {
    pub place: u32,
    pub card: Card,
    pub alpha: &'a Front,
}

/// A round, and what its workers do.
#[derive(Drop)]
pub struct Task<'a, 'b> {
    pub round: &'a Round<'a>,
    pub help: Help<'b>,
}
