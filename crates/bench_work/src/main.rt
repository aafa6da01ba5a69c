//! Workloads to be timed, by their names.
//! It builds on the crates whose work is timed, and on `am_inputs` for files.
//! It promises nothing: what it prints doesn't depend on time.
#![tactic(auto)]

mod draws;
mod endings;
mod files;
mod fronts;
mod search;
mod sets;
mod store;

use std::alloc::Global;
use std::env;
use std::rt::Files;

/// A workload.
#[derive(Clone, Copy)]
enum Work {
    Fronts,
    DoubleDummy,
    Search,
    Sets,
    Store,
}

impl Work {
    const ALL: [Work; 5] = [
        Work::Fronts,
        Work::DoubleDummy,
        Work::Search,
        Work::Sets,
        Work::Store,
    ];

    fn of_word(word: &str) -> Option<Work> {
        match word {
            "fronts" => Some(Work::Fronts),
            "double_dummy" => Some(Work::DoubleDummy),
            "search" => Some(Work::Search),
            "sets" => Some(Work::Sets),
            "store" => Some(Work::Store),
            _ => None,
        }
    }

    // Runs the workload on what the words say.
    fn run<R: Print + Files>(self, rt: &R, alloc: Global, words: &[&str]) -> anyhow::Result<()> {
        match self {
            Work::Fronts => fronts::run(rt, alloc, words),
            Work::DoubleDummy => endings::run(rt, alloc, words),
            Work::Search => search::run(rt, alloc, words),
            Work::Sets => sets::run(rt, alloc, words),
            Work::Store => store::run(rt, alloc, words),
        }
    }

    // Runs little of the workload.
    fn run_little<R: Print + Files>(self, rt: &R, alloc: Global) -> anyhow::Result<()> {
        match self {
            Work::Fronts => self.run(rt, alloc, &["inserts", "8", "20"]),
            Work::DoubleDummy => self.run(rt, alloc, &["5", "0", "200"]),
            Work::Search => self.run(rt, alloc, &["k.pbn", "k.lay", "2", "plain"]),
            Work::Sets => self.run(rt, alloc, &["k.pbn", "k.lay", "1000"]),
            Work::Store => self.run(rt, alloc, &["local", "50", "200", "hits"]),
        }
    }
}

/// The arguments: the name of a workload, and then its own. With none it runs a little of each
/// workload in turn, on the files in its folder.
fn main(rt: HostRuntime) -> anyhow::Result<()> {
    let alloc = rt.alloc();
    let given = env::args(&rt)?.skip(1).collect::<Vec<String>>(alloc)?;
    let mut words = Vec::new(alloc);
    for word in given.iter() {
        words.push(word.as_str())?;
    }
    match words.as_slice() {
        [] => {
            for work in Work::ALL {
                work.run_little(&rt, alloc)?;
            }
            Ok(())
        }
        [name, rest @ ..] => match Work::of_word(name) {
            Some(work) => work.run(&rt, alloc, rest),
            None => anyhow::bail!("fronts|double_dummy|search|sets|store"),
        },
    }
}
