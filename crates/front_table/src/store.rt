//! Stores: in them a search looks for fronts that are known already.
ghost use Rattle.std.specs.Prelude.{◌≡◌, ◌≢◌, ◌≤◌, ⊤, Bool, true, length, IsTrue};
ghost use Rattle.front_table.specs.Proven.{IsFrontAt};
ghost use Rattle.front_table.specs.Stores.{HandsBack};
ghost use Rattle.front_table.specs.Entries.{most_entry_vectors};

use crate::ProvenFront;
use pareto_fronts::Front;
use trick_rules::Node;

/// What a look answers.
#[derive(Clone, Copy, Debug, PartialEq, Eq)]
pub enum Look {
    /// The front is in `out`.
    Hit,
    /// The store has no front for this node and these moves.
    Miss,
    /// Somebody else is inside.
    Busy,
}

/// What became of an entry. If it isn't kept, it is handed back.
#[derive(Drop)]
pub enum Put {
    Kept,
    /// There is one for its node and moves.
    Present(ProvenFront),
    Full(ProvenFront),
    /// It has more than 64 vectors.
    TooWide(ProvenFront),
    /// Somebody else is inside.
    Busy(ProvenFront),
    Memory(ProvenFront),
}

/// A store of fronts that are proved.
pub trait FrontStore {
    /// Whether no look of a store of this type answers `Hit`.
    ghost blind: { Bool };

    /// How a store may change: an earlier state and a later one.
    ghost grown: { Self → Self → Type 0 };

    /// Looks for the front of a node with `moves` moves. A hit leaves it in `out`; every other
    /// answer leaves `out` as it was.
    fn look(&mut self, node: &Node, moves: u8, out: &mut Front) -> Look
        requires width { out.old.width ≡ length node.now.lefts }
        requires room { most_entry_vectors ≤ out.old.room }
        ensures hit { result ≡ Look.Hit → IsFrontAt node.now moves out.new }
        ensures width { out.new.width ≡ out.old.width }
        ensures room { out.old.room ≤ out.new.room }
        ensures unchanged { result ≢ Look.Hit → out.new ≡ out.old }
        ensures blind { blind ≡ true → result ≢ Look.Hit }
        ensures grown { grown self.old self.new };

    /// Offers an entry.
    fn put(&mut self, entry: ProvenFront) -> Put
        ensures back { HandsBack entry result }
        ensures grown { grown self.old self.new };

    /// A store has grown from itself.
    ghost grown_none: { (store : Self) → grown store store };

    /// Growth after growth is growth.
    ghost grown_more: { (early middle late : Self) → grown early middle → grown middle late → grown early late };
}

/// No store: nothing is found, and nothing is kept.
#[derive(Clone, Copy, Debug, PartialEq, Eq)]
pub struct NoStore;

impl FrontStore for NoStore {
    ghost use Rattle.std.specs.Prelude.{⊤, true};

    ghost blind = { true };

    ghost grown = { λ _ _. ⊤ };

    ghost grown_none = { λ _. tt };

    ghost grown_more = { λ _ _ _ _ _. tt };

    /// It has no front.
    fn look(&mut self, _node: &Node, _moves: u8, out: &mut Front) -> Look
        ensures answer { result ≡ Look.Miss }
        ensures width { out.new.width ≡ out.old.width }
        ensures room { out.old.room ≤ out.new.room }
        ensures unchanged { out.new ≡ out.old }
    {
        Look::Miss
    }

    /// It has no room.
    fn put(&mut self, entry: ProvenFront) -> Put
        ensures answer { result ≡ Put.Full entry }
    {
        Put::Full(entry)
    }
}
