//! Double dummy on random endings, of as many tricks and as often as the words say. What it prints
//! is compared with what a program in C++ prints.

mod workload;

use std::alloc::Global;
use workload::{Question, Strain, Workload, answers_of};

/// The words: how many tricks an ending has, how many endings are passed over, and how many are
/// answered. Then, in any order, `plain` for plain minimax in place of the solver, `needs`,
/// `plain-needs` or `tricks` for another question, and `notrump` or `suit` for endings
/// without or with trumps alone. Other words say nothing.
pub fn run(rt: &impl Print, alloc: Global, words: &[&str]) -> anyhow::Result<()> {
    let mut numbers = [0u64; 3];
    let mut question = Question::Need;
    let mut strain = Strain::Any;
    for (place, word) in words.iter().enumerate() {
        if place < 3 {
            numbers[place] = word.parse()?;
        } else {
            match *word {
                "plain" => question = Question::Plain,
                "needs" => question = Question::Needs,
                "plain-needs" => question = Question::PlainNeeds,
                "tricks" => question = Question::Tricks,
                "notrump" => strain = Strain::NoTrump,
                "suit" => strain = Strain::Suit,
                _ => {}
            }
        }
    }
    let work = Workload {
        tricks: numbers[0].min(13) as u8,
        question,
        strain,
    };
    println!(rt; "{}", answers_of(alloc, work, numbers[1], numbers[2]))?;
    Ok(())
}
