//! A gate that counts.
use am_outside::Gate;
use card_sets::Card;
use std::sync::atomic::{AtomicU32, Ordering};

/// Counts the searches of root cards.
#[derive(Drop)]
pub struct Count {
    entered: AtomicU32,
}

impl Count {
    pub fn new() -> Count {
        Count {
            entered: AtomicU32::new(0),
        }
    }

    /// How many searches began.
    pub fn entered(&self) -> u32 {
        self.entered.load(Ordering::SeqCst)
    }
}

impl Gate for Count {
    fn enter(&self, _worker: u32, _card: Card) {
        self.entered.fetch_add(1, Ordering::SeqCst);
    }

    fn leave(&self, _worker: u32, _card: Card) {}
}
