//! What a solver remembers.
ghost use Rattle.std.specs.Prelude.{◌≡◌, ◌≤◌, IfSome, vec_len};
ghost use Rattle.trick_rules.specs.Positions.{IsState};
ghost use Rattle.dd_solver.specs.Keys.{key_state, HasShape};
ghost use Rattle.dd_solver.specs.Answers.{IsAnswer};

use crate::answer::Answer;
use crate::key::Key;
use crate::memo::Memo;
use crate::order::TURNS;
use crate::shared_memo::SharedMemo;
use card_sets::Card;
use std::alloc::Global;
use std::sync::Arc;

/// Answers, in a memo of the solver's own or in one that it shares, and the leads that settled a
/// result last, by the turn.
#[derive(Debug, Drop)]
pub(crate) struct Recall {
    own: Memo,
    shared: Option<Arc<SharedMemo, Global>>,
    best_leads: [Option<Card>; TURNS],
    /// How many answers it has kept that no question of `has_kept` has counted yet.
    kept: u64,
}

impl Recall {
    /// Nothing yet. At most this many answers go into a memo of the solver's own.
    pub(crate) fn alone(alloc: Global, most: u32) -> Recall
        requires { most ≤ 262144 }
        ensures limit { result.own.most ≡ most }
        ensures empty { vec_len result.own.slots ≡ 0 }
    {
        Recall {
            own: Memo::new(alloc, most),
            shared: None,
            best_leads: [None; TURNS],
            kept: 0,
        }
    }

    /// Nothing yet of the solver's own. The answers are in a memo that it shares.
    pub(crate) fn sharing(alloc: Global, memo: Arc<SharedMemo, Global>) -> Recall
        ensures limit { result.own.most ≡ 0 }
        ensures empty { vec_len result.own.slots ≡ 0 }
    {
        Recall {
            own: Memo::new(alloc, 0),
            shared: Some(memo),
            best_leads: [None; TURNS],
            kept: 0,
        }
    }

    /// The lead that settled a result last at this turn.
    pub(crate) fn best_lead(&self, turn: Option<usize>) -> Option<Card> {
        *self.best_leads.get(turn?)?
    }

    /// Notes a lead that settled a result.
    pub(crate) fn note_best_lead(&mut self, turn: Option<usize>, card: Card)
        ensures { self.new.own.most ≡ self.old.own.most }
    {
        if let Some(place) = turn {
            if place < TURNS {
                self.best_leads[place] = Some(card);
            }
        }
    }

    /// What double dummy answers, if the memo knows it, with the cards that count.
    pub(crate) fn look(&self, key: &Key) -> Option<Answer>
        requires state { IsState (key_state key.now) }
        requires shape { HasShape key.now }
        ensures { IfSome result (λ answer. IsAnswer (key_state key.now) answer) }
    {
        match &self.shared {
            None => self.own.look(key),
            Some(memo) => memo.look(key),
        }
    }

    /// Puts an answer into the memo, if there is memory for it.
    pub(crate) fn keep(&mut self, key: &Key, answer: &Answer)
        requires state { IsState (key_state key.now) }
        requires shape { HasShape key.now }
        requires known { IsAnswer (key_state key.now) answer.now }
        ensures { self.new.own.most ≡ self.old.own.most }
    {
        self.kept = self.kept.saturating_add(1);
        match &self.shared {
            None => self.own.keep(key, answer),
            Some(memo) => memo.keep(key, answer),
        }
    }

    /// Whether it has kept this many answers that weren't counted yet. If so, they are counted.
    pub(crate) fn has_kept(&mut self, answers: u64) -> bool
        ensures { self.new.own.most ≡ self.old.own.most }
    {
        match self.kept.checked_sub(answers) {
            Some(rest) => {
                self.kept = rest;
                true
            }
            None => false,
        }
    }
}
