//! How much one strategy wins of the layouts of an ending, by winnable sets and cores.

mod value;

use crate::files::read_ending;
use std::alloc::Global;
use std::rt::Files;
use value::value_of;

/// The words: a deal file, a layout file, and the most positions to enter. All cards are planned, and
/// each layout weighs the same.
pub fn run<R: Print + Files>(rt: &R, alloc: Global, words: &[&str]) -> anyhow::Result<()> {
    let [deal, layouts, most] = words else {
        anyhow::bail!("DEAL LAYOUTS MOST");
    };
    let most: u64 = most.parse()?;
    let ending = read_ending(rt, alloc, deal, layouts)?;
    match value_of(alloc, &ending, most) {
        Ok((value, entered)) => {
            let (least, most) = (value.least, value.most);
            println!(rt; "{least} to {most} layouts, {entered} positions")?;
        }
        Err(_) => println!(rt; "out of memory")?,
    }
    Ok(())
}
