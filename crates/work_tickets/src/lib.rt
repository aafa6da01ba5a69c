//! Numbers that several threads draw, each once.
//! It builds on `atomic_table` alone.
//! The numbers that all passes drew are the numbers below one word, each once, and no draw waits.
#![tactic(auto)]

ghost use Rattle.std.specs.Prelude.{◌≡◌, ◌<◌, ◌^◌};

mod draws;
mod rule;

use atomic_table::{Seat, Table};
use rule::{Drawing, TicketView};
use std::alloc::Global;

/// The numbers from 0 up to a limit, one ticket each.
#[derive(Drop)]
pub struct Tickets {
    table: Table<(), TicketView, u64, Drawing, Global>,
    limit: u64,
    ghost shape: { (table.shared.table_id.words ≡ 1) × (table.shared.table_id.slots ≡ 0) },
    ghost bound: { (limit ≡ table.shared.key) × (limit < 2 ^ 32) },
}

/// What one caller knows of its tickets. It has no bytes.
#[derive(Drop)]
pub struct TicketPass {
    seat: Seat<(), TicketView>,
}
