//! Inserts into fronts, or joins of two fronts, as often as the words say. What it prints is
//! compared with what a program in C++ prints.

mod workload;

use std::alloc::Global;
use workload::{Outcome, inserts, joins};

/// The words: `inserts` or `joins`, how many vectors a front has, and how many rounds. What is
/// missing counts as 0.
pub fn run(rt: &impl Print, alloc: Global, words: &[&str]) -> anyhow::Result<()> {
    let mut is_join = false;
    let mut numbers = [0u64; 2];
    for (place, word) in words.iter().enumerate() {
        if place == 0 {
            is_join = *word == "joins";
        } else if place <= 2 {
            numbers[place - 1] = word.parse()?;
        }
    }
    let outcome = if is_join {
        joins(alloc, numbers[0], numbers[1])?
    } else {
        inserts(alloc, numbers[0], numbers[1])?
    };
    let Outcome { total, first } = outcome;
    println!(rt; "{total}")?;
    println!(rt; "{first}")?;
    Ok(())
}
