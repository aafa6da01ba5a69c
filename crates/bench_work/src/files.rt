//! Endings in files.
ghost use Rattle.std.specs.Prelude.{◌≤◌, length};

use am_inputs::read_root;
use am_outside::{FileShelf, Shelf, ShelfFault};
use byte_text::Text;
use std::alloc::Global;
use std::rt::Files;
use trick_rules::Node;

// The most bytes of a file.
const LIMIT: u64 = 1_048_576;

// A file, or nothing if it can't be read.
fn text_of<R: Files>(shelf: &mut FileShelf<R>, alloc: Global, name: &str) -> Text
    ensures { length result ≤ 1048576 }
{
    match shelf.read(alloc, name, LIMIT) {
        Ok(text) => text,
        Err(ShelfFault::Failed | ShelfFault::TooLong | ShelfFault::Memory) => Text::new(alloc),
    }
}

/// The ending in a deal file and a layout file.
pub fn read_ending<R: Files>(
    rt: &R,
    alloc: Global,
    deal: &str,
    layouts: &str,
) -> anyhow::Result<Node> {
    let mut shelf = FileShelf::new(rt);
    let deal = text_of(&mut shelf, alloc, deal);
    let layouts = text_of(&mut shelf, alloc, layouts);
    match read_root(alloc, &deal, &layouts) {
        Ok(root) => {
            let kept = root.kept;
            Ok(kept.node)
        }
        Err(_) => anyhow::bail!("no card to choose in these files"),
    }
}
