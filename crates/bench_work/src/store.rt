//! A store of proven fronts that is filled, and then looked into; or copies of an ending that are
//! put into one.

mod looks;
mod nodes;
mod wide;

use crate::files::read_ending;
use looks::{Question, Store, look_into};
use std::alloc::Global;
use std::rt::Files;
use wide::{Copies, put_copies};

/// The words: `local` or `shared` for the store, how many entries it has, how many looks there
/// are, and `hits` or `misses`. Or a deal file, a layout file, how many moves, how many layouts a
/// copy of the ending has, how many copies are put, and for how many of them there is room.
pub fn run<R: Print + Files>(rt: &R, alloc: Global, words: &[&str]) -> anyhow::Result<()> {
    match words {
        [store, entries, looks, kind] => {
            let question = Question {
                store: Store::of_word(store),
                entries: entries.parse::<u32>()?.clamp(1, 65_536),
                looks: looks.parse()?,
                are_hits: *kind == "hits",
            };
            let (kept, hits) = look_into(alloc, &question)?;
            println!(rt; "{kept} entries, {hits} hits")?;
        }
        [deal, layouts, moves, width, copies, room] => {
            let ending = read_ending(rt, alloc, deal, layouts)?;
            let asked = Copies {
                moves: moves.parse::<u8>()?.min(26),
                width: width.parse::<u16>()?.clamp(1, 256),
                copies: copies.parse()?,
                room: room.parse()?,
            };
            let (kept, vectors) = put_copies(alloc, &ending, asked)?;
            println!(rt; "{kept} entries, {vectors} vectors")?;
        }
        _ => anyhow::bail!("four words, or six"),
    }
    Ok(())
}
