//! A solver that is asked again and again.
ghost use Rattle.std.specs.Prelude.{◌≡◌, ◌≤◌, vec_len};
ghost use Rattle.trick_rules.specs.Positions.{FitsLeft};
ghost use Rattle.trick_rules.specs.Play.{makes as makes_of};
ghost use Rattle.dd_solver.specs.Remembers.{Remembers};

use crate::memo::MOST_ENTRIES;
use crate::recall::Recall;
use crate::search::search;
use crate::shape::Shape;
use crate::shared_memo::SharedMemo;
use card_sets::CardSet;
use std::alloc::Global;
use std::marker::Model;
use std::sync::Arc;
use trick_rules::Position;

/// Answers double dummy. What it remembers of earlier questions changes no answer.
#[derive(Debug, Drop)]
pub struct Solver {
    recall: Recall,
}

impl Model for Solver {
    ghost Value = { Remembers };

    ghost view = { λ s. record { limit = s.recall.own.most; entries = vec_len s.recall.own.slots } };
}

impl Solver {
    /// A solver that remembers nothing yet, with no memory taken, and later at most 262,144
    /// answers.
    pub fn new(alloc: Global) -> Solver
        ensures limit { result.limit ≡ 262144 }
        ensures empty { result.entries ≡ 0 }
    {
        Solver::with_memo(alloc, MOST_ENTRIES)
    }

    /// The same with room for at most `limit` answers. With fewer than 32 it never takes memory.
    pub fn with_memo(alloc: Global, limit: u32) -> Solver
        requires { limit ≤ 262144 }
        ensures limit { result.limit ≡ limit }
        ensures empty { result.entries ≡ 0 }
    {
        Solver {
            recall: Recall::alone(alloc, limit),
        }
    }

    /// A solver that remembers nothing by itself, and shares a memo with others, in its own thread
    /// or another one: what one of them finds, all may find there.
    pub fn sharing(alloc: Global, memo: Arc<SharedMemo, Global>) -> Solver
        ensures limit { result.limit ≡ 0 }
        ensures empty { result.entries ≡ 0 }
    {
        Solver {
            recall: Recall::sharing(alloc, memo),
        }
    }

    /// Whether declarer's side takes the need where Left holds these cards, with all cards seen by
    /// all.
    ///
    /// It succeeds without memory.
    pub fn makes(&mut self, position: &Position, left: CardSet) -> bool
        requires { FitsLeft position.now left }
        ensures answer { result ≡ makes_of (record { position = position.now; left = left }) }
        ensures limit { self.new.limit ≡ self.old.limit }
        ensures within { self.new.entries ≤ self.new.limit }
    {
        let shape = Shape::of(position, left);
        search(&mut self.recall, position, left, shape).made
    }

    /// Whether it has kept this many answers since it last said yes, or since it began.
    ///
    /// No clause: it tells how much a solver has worked, and changes no answer.
    pub fn has_kept(&mut self, answers: u64) -> bool {
        self.recall.has_kept(answers)
    }
}
