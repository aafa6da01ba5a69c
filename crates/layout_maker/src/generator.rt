//! A generator of numbers, and cards that it shuffles.
ghost use Rattle.std.specs.Prelude.{◌≡◌, ◌<◌, ◌≤◌, ◌%◌, ℕ, length};
ghost use Rattle.layout_maker.specs.Generator.{next_state, shuffled};

use card_sets::Card;
use std::marker::Model;

/// What each number of a generator is below.
const MODULUS: u32 = 65_537;

/// A generator of numbers, seen as its present number.
#[derive(Debug, Drop)]
pub(crate) struct Generator {
    state: u32,
}

impl Model for Generator {
    ghost Value = { ℕ };

    ghost view = { λ generator. generator.state };

    ghost invariant = { λ generator. generator.state < 65537 };
}

impl Generator {
    /// A generator that starts from what is left of the number where 65,537 is taken out as often
    /// as it can be.
    pub fn new(number: u64) -> Generator
        ensures { result ≡ number % 65537 }
    {
        Generator {
            state: (number % MODULUS as u64) as u32,
        }
    }

    /// A number below the bound: the generator moves on, and what is left of its new number by the
    /// bound is drawn.
    fn draw(&mut self, bound: usize) -> usize
        requires { 0 < bound }
        ensures state { self.new ≡ next_state self.old }
        ensures drawn { result ≡ next_state self.old % bound }
    {
        self.state = (75 * self.state + 74) % MODULUS;
        self.state as usize % bound
    }

    /// Shuffles the cards: the card at each place, from the last down to the second, is exchanged
    /// with one drawn from the places up to its own.
    pub fn shuffle(&mut self, cards: &mut [Card])
        ensures cards { cards.new
            ≡ (shuffled (record { items = cards.old; state = self.old })).items }
        ensures state { self.new
            ≡ (shuffled (record { items = cards.old; state = self.old })).state }
    {
        for place in (1..cards.len()).rev() {
            let drawn = self.draw(place + 1);
            cards.swap(place, drawn);
        }
    }
}
