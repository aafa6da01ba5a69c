//! A search to be counted: how many nodes it enters for the front of a position, with cuts and a
//! store or without.

mod count;

use crate::files::read_ending;
use count::count_nodes;
use std::alloc::Global;
use std::rt::Files;

/// The words: a deal file, a layout file, how many moves, and `cuts` for a search with each cut
/// and a store of 65,536 fronts, or `plain` for one with neither.
pub fn run<R: Print + Files>(rt: &R, alloc: Global, words: &[&str]) -> anyhow::Result<()> {
    let [deal, layouts, moves, kind] = words else {
        anyhow::bail!("DEAL LAYOUTS MOVES cuts|plain");
    };
    let moves: u8 = moves.parse()?;
    let ending = read_ending(rt, alloc, deal, layouts)?;
    match count_nodes(alloc, &ending, moves.min(26), *kind == "cuts") {
        Some((nodes, vectors)) => println!(rt; "{nodes} nodes, {vectors} vectors")?,
        None => println!(rt; "out of memory")?,
    }
    Ok(())
}
