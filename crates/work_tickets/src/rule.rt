//! The rule of the word, and what each step tells. These types are for the proofs alone.
use atomic_table::{Join, Play, Split, TableRule};
use std::collections::LinkedList;

/// What a pass knows: the limit, the numbers that it drew in the order of the draws, the greatest
/// number that it read, and how many exchanges it made. No value of it is made.
pub struct TicketView {
    pub limit: u64,
    pub numbers: LinkedList<u64>,
    pub read: u64,
    pub tries: u64,
}

pub struct Drawing;

impl TableRule<(), TicketView, u64> for Drawing {
    ghost use Rattle.work_tickets.specs.Drawn.{Drawn, first_view};

    ghost holds = { Drawn };

    ghost first = { first_view };
}

pub struct Draws;

impl Play<(), TicketView> for Draws {
    ghost use Rattle.work_tickets.specs.Drawn.{drew};

    ghost then = { drew };
}

pub struct Compares;

impl Play<(), TicketView> for Compares {
    ghost use Rattle.work_tickets.specs.Drawn.{compared};

    ghost then = { compared };
}

pub struct Reads;

impl Play<(), TicketView> for Reads {
    ghost use Rattle.work_tickets.specs.Drawn.{was_read};

    ghost then = { λ _ seat found after. was_read seat found after };
}

pub struct Parts;

impl Split<TicketView> for Parts {
    ghost use Rattle.work_tickets.specs.Drawn.{newcomer};

    ghost left = { λ v. v };

    ghost right = { newcomer };
}

impl Join<TicketView> for Parts {
    ghost use Rattle.work_tickets.specs.Drawn.{both, spent};

    ghost both = { both };

    ghost spent = { spent };
}
