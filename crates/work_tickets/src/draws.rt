//! How numbers are drawn, and how passes part and join.
ghost use Rattle.std.specs.Prelude.{◌≡◌, ◌+◌, ◌<◌, ◌≤◌, [], ◌∷◌, ◌++◌, max, IfOk, IfSome, IfNone};
ghost use Rattle.work_tickets.specs.Drawn.{IsOnce};
ghost use Rattle.work_tickets.specs.Passes.{limit_of, IsTicketPass, numbers_of, read_of, tries_of};
ghost use Rattle.work_tickets.specs.Passes.{DrewBelow};

use crate::rule::{Compares, Draws, Parts, Reads};
use crate::{TicketPass, Tickets};
use atomic_table::Table;
use std::alloc::{AllocError, Global};

impl Tickets {
    /// Tickets for the numbers below `n`, none of them drawn, and the first pass.
    pub fn new(alloc: Global, n: u32) -> Result<(Tickets, TicketPass), AllocError>
        ensures limit { IfOk result (λ t. limit_of t.0 ≡ n) }
        ensures pass { IfOk result (λ t. IsTicketPass t.0 t.1) }
        ensures fresh { IfOk result (λ t.
            (numbers_of t.1 ≡ []) × (read_of t.1 ≡ 0) × (tries_of t.1 ≡ 0)) }
    {
        let limit = u64::from(n);
        let (table, seat) = Table::of_words(alloc, &[0], &limit)?;
        Ok((Tickets { table, limit }, TicketPass { seat }))
    }

    /// Draws the next number: no other draw gives it. `None` where all numbers are drawn.
    /// It takes no memory and doesn't wait.
    pub fn draw(&self, pass: &mut TicketPass) -> Option<u32>
        requires pass { IsTicketPass self.now pass.old }
        ensures pass { IsTicketPass self.now pass.new }
        ensures below { IfSome result (λ k. k < limit_of self.now) }
        ensures drawn { IfSome result (λ k. (numbers_of pass.new ≡ numbers_of pass.old ++ k ∷ [])
            × (read_of pass.new ≡ k + 1)) }
        ensures none { IfNone result ((numbers_of pass.new ≡ numbers_of pass.old)
            × (read_of pass.new ≡ limit_of self.now)) }
        ensures tries { tries_of pass.new ≤ tries_of pass.old + limit_of self.now + 1 }
    {
        let mut next = 0;
        while next < self.limit {
            let found = self
                .table
                .shared
                .compare_exchange::<Draws>(&mut pass.seat, 0, next, next + 1);
            if found == next {
                return Some(next as u32);
            }
            next = found;
        }
        None
    }

    /// A second pass, which has drawn nothing.
    pub fn split(&self, pass: &mut TicketPass) -> TicketPass
        requires pass { IsTicketPass self.now pass.old }
        ensures passes { IsTicketPass self.now pass.new × IsTicketPass self.now result }
        ensures numbers { (numbers_of pass.new ≡ numbers_of pass.old) × (numbers_of result ≡ []) }
        ensures read { (read_of pass.new ≡ read_of pass.old) × (read_of result ≡ read_of pass.old) }
        ensures tries { (tries_of pass.new ≡ tries_of pass.old) × (tries_of result ≡ 0) }
    {
        let seat = self.table.shared.split_seat::<Parts>(&mut pass.seat);
        TicketPass { seat }
    }

    /// Two passes become one, which has drawn the numbers of both. They have none in common.
    pub fn join(&self, pass: &mut TicketPass, other: TicketPass)
        requires passes { IsTicketPass self.now pass.old × IsTicketPass self.now other }
        ensures pass { IsTicketPass self.now pass.new }
        ensures numbers { numbers_of pass.new ≡ numbers_of pass.old ++ numbers_of other }
        ensures once { IsOnce (numbers_of pass.new) }
        ensures read { read_of pass.new ≡ max (read_of pass.old) (read_of other) }
        ensures tries { tries_of pass.new ≡ tries_of pass.old + tries_of other }
    {
        let TicketPass { seat } = other;
        self.table.shared.join_seat::<Parts>(&mut pass.seat, seat);
        self.table.shared.load::<Compares>(&mut pass.seat, 0);
    }

    /// Ends the draws, and gives the number that the word holds at this call. The pass has then
    /// read it.
    pub fn close(self, pass: &mut TicketPass) -> u32
        requires pass { IsTicketPass self pass.old }
        ensures pass { IsTicketPass self pass.new }
        ensures read { read_of pass.new ≡ result }
        ensures within { (read_of pass.old ≤ result) × (result ≤ limit_of self) }
        ensures numbers { numbers_of pass.new ≡ numbers_of pass.old }
        ensures drawn { DrewBelow result pass.old }
        ensures tries { tries_of pass.new ≡ tries_of pass.old }
    {
        let word = self.table.shared.load::<Reads>(&mut pass.seat, 0);
        word as u32
    }
}
