// What hears of the root cards that workers take up.
use card_sets::Card;

/// Is told when a worker takes up a root card and when it is done with it. Several threads call it
/// at once. It has no meaning: no answer depends on what it does. It may hold a worker up.
pub trait Gate: Sync {
    /// The worker of that number takes up a card.
    fn enter(&self, worker: u32, card: Card);

    /// It is done with the card.
    fn leave(&self, worker: u32, card: Card);
}

/// A gate that lets every worker pass.
#[derive(Clone, Copy, Debug, Default)]
pub struct OpenGate;

impl Gate for OpenGate {
    fn enter(&self, _worker: u32, _card: Card) {}

    fn leave(&self, _worker: u32, _card: Card) {}
}
