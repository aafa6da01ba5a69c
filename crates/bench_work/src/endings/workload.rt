//! Random endings, the same as those of the program in C++.
ghost use Rattle.std.specs.Prelude.{◌≤◌};

use crate::draws::Draws;
use card_sets::{Card, CardSet, Seat, Suit};
use dd_solver::Solver;
use double_dummy::makes_plain;
use std::alloc::Global;
use trick_rules::{Position, Trump, play};

/// Which trumps the endings have.
#[derive(Clone, Copy)]
pub enum Strain {
    Any,
    NoTrump,
    Suit,
}

/// What is asked of an ending.
#[derive(Clone, Copy)]
pub enum Question {
    /// Whether declarer's side takes a random need.
    Need,
    /// The same of plain minimax.
    Plain,
    /// Which needs declarer's side takes after some random cards, from none to seven.
    Needs,
    /// The same of plain minimax.
    PlainNeeds,
    /// How many tricks declarer's side takes.
    Tricks,
}

/// How many tricks an ending has, what is asked of it, and which trumps there are.
#[derive(Clone, Copy)]
pub struct Workload {
    pub tricks: u8,
    pub question: Question,
    pub strain: Strain,
}

/// The most cards that are played before needs are asked of.
const MOST_PLAYED: usize = 7;

/// The cards of an ending in which declarer leads.
#[derive(Drop)]
struct Ending {
    declarer: CardSet,
    dummy: CardSet,
    unseen: CardSet,
    trump: Trump,
}

impl Ending {
    // Whether declarer's side takes a need where Left holds these cards.
    fn makes(&self, solver: &mut Solver, left: CardSet, need: u8) -> bool {
        match self.position(need) {
            Some(position) if position.fits(left) => solver.makes(&position, left),
            _ => false,
        }
    }

    // The same of plain minimax.
    fn makes_plain(&self, left: CardSet, need: u8) -> bool {
        match self.position(need) {
            Some(position) if position.fits(left) => makes_plain(&position, left),
            _ => false,
        }
    }

    fn position(&self, need: u8) -> Option<Position> {
        Position::between_tricks(
            self.declarer,
            self.dummy,
            self.unseen,
            Seat::Declarer,
            need,
            self.trump,
        )
    }

    // How many tricks declarer's side takes where Left holds these cards.
    fn tricks(&self, solver: &mut Solver, left: CardSet) -> u8 {
        let mut tricks = 0;
        for need in 1..=self.declarer.count().min(13) {
            if self.makes(solver, left, need) {
                tricks = need;
            } else {
                break;
            }
        }
        tricks
    }

    // The position after a card for each of these numbers, which say which legal card it is, and
    // Left's hand there.
    fn played(&self, left: CardSet, need: u8, numbers: &[u8]) -> Option<(Position, CardSet)> {
        let mut position = self.position(need)?;
        let mut rest = left;
        for number in numbers {
            let card = card_at(position.legal_in(rest), *number)?;
            if !position.held_by(position.to_play()).has(card) {
                return None;
            }
            position = play(&position, card);
            rest = rest.without(card);
        }
        Some((position, rest))
    }

    // The needs that are made after some cards, as bits from the lowest on.
    fn needs(&self, solver: &mut Solver, left: CardSet, numbers: &[u8], plain: bool) -> u64 {
        let mut needs: u64 = 0;
        for need in 1..=self.declarer.count().min(13) {
            if let Some((position, rest)) = self.played(left, need, numbers) {
                let made = position.fits(rest)
                    && if plain {
                        makes_plain(&position, rest)
                    } else {
                        solver.makes(&position, rest)
                    };
                needs |= u64::from(made) << need;
            }
        }
        needs
    }
}

// The card of a set at a place that a number says, counted round.
fn card_at(cards: CardSet, number: u8) -> Option<Card> {
    let mut rest = cards;
    for _ in 0..number % cards.count().max(1) {
        let _ = rest.pop_first();
    }
    rest.first()
}

impl Draws {
    fn trump(&mut self, strain: Strain) -> Trump {
        let drawn = self.next(5);
        let suit = match drawn {
            0 | 4 => Suit::Spades,
            1 => Suit::Hearts,
            2 => Suit::Diamonds,
            _ => Suit::Clubs,
        };
        match strain {
            Strain::NoTrump => Trump::NoTrump,
            Strain::Any if drawn == 4 => Trump::NoTrump,
            _ => Trump::Suit(suit),
        }
    }

    // From none to seven numbers of cards, and how many there are.
    fn numbers(&mut self) -> ([u8; MOST_PLAYED], usize)
        ensures { result.1 ≤ 7 }
    {
        let mut numbers = [0; MOST_PLAYED];
        let played = self.next(8) as usize % 8;
        for place in 0..MOST_PLAYED {
            numbers[place] = (self.next(13) % 13) as u8;
        }
        (numbers, played.min(MOST_PLAYED))
    }

    // The cards of the next ending, Left's hand, and a need.
    fn ending(&mut self, work: Workload) -> (Ending, CardSet, u8) {
        let mut used = CardSet::empty();
        let declarer = self.hand(work.tricks, &mut used);
        let left = self.hand(work.tricks, &mut used);
        let dummy = self.hand(work.tricks, &mut used);
        let right = self.hand(work.tricks, &mut used);
        let trump = self.trump(work.strain);
        let need = 1 + (self.next(u64::from(work.tricks)) % 13) as u8;
        let ending = Ending {
            declarer,
            dummy,
            unseen: left.either(right),
            trump,
        };
        (ending, left, need)
    }

    // The answer of the next ending: a number, or 1 for yes and 0 for no.
    fn answer_next(&mut self, alloc: Global, work: Workload) -> u64 {
        let (ending, left, need) = self.ending(work);
        let mut solver = Solver::new(alloc);
        match work.question {
            Question::Need => u64::from(ending.makes(&mut solver, left, need)),
            Question::Plain => u64::from(ending.makes_plain(left, need)),
            Question::Needs | Question::PlainNeeds => {
                let plain = matches!(work.question, Question::PlainNeeds);
                let (numbers, played) = self.numbers();
                ending.needs(&mut solver, left, &numbers[..played], plain)
            }
            Question::Tricks => u64::from(ending.tricks(&mut solver, left)),
        }
    }
}

/// A number that depends on the answers of all `endings`, each by a solver of its own, after
/// `first` endings that are passed over. No clause pins it: the script compares it with that of the
/// programs in C++.
pub fn answers_of(alloc: Global, work: Workload, first: u64, endings: u64) -> u64 {
    let mut draws = Draws::new(20_191_118);
    for _ in 0..first {
        let _ = draws.ending(work);
    }
    let mut answers: u64 = 0;
    for _ in 0..endings {
        answers = answers
            .wrapping_mul(31)
            .wrapping_add(draws.answer_next(alloc, work));
    }
    answers
}
