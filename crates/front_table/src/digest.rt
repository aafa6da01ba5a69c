//! A digest of a key.
ghost use Rattle.std.specs.Prelude.{◌≡◌, fold};
ghost use Rattle.std.specs.Hash.{slice, u8 as byte_writes};
ghost use Rattle.std.specs.Hash.FoldHasher.{write};
ghost use Rattle.trick_rules.specs.Positions.{places_on as count_of_places};
ghost use Rattle.card_sets.specs.declared.seat.Seat.TheVariants.{Declarer};
ghost use Rattle.front_table.specs.Digests.{digest_of, set_writes};

use card_sets::Seat;
use std::hash::{FoldHasher, Hash, Hasher};
use trick_rules::{Node, Position, places_on};

// Feeds the hands that all know.
fn feed_hands(position: &Position, hasher: &mut FoldHasher)
    ensures { hasher.new ≡ fold write (fold write (fold write hasher.old
        (set_writes position.now.declarer))
        (set_writes position.now.dummy))
        (set_writes position.now.unseen) }
{
    position.declarer.hash(hasher);
    position.dummy.hash(hasher);
    position.unseen.hash(hasher);
}

// Feeds the trick and the need.
fn feed_trick(position: &Position, hasher: &mut FoldHasher)
    ensures { hasher.new ≡ fold write (fold write (fold write hasher.old
        (slice byte_writes position.now.trick.cards))
        (byte_writes (count_of_places Declarer position.now.trick.leader)))
        (byte_writes position.now.need) }
{
    position.trick.cards.as_slice().hash(hasher);
    hasher.write_u8(places_on(Seat::Declarer, position.trick.leader));
    hasher.write_u8(position.need);
}

/// A number that differs between most keys.
#[tactic(auto, unfolding(crate::specs::Digests::digest_of))]
pub(crate) fn digest(node: &Node, moves: u8) -> u64
    ensures { result ≡ digest_of node.now moves }
{
    let mut hasher = FoldHasher::default();
    feed_hands(node.position(), &mut hasher);
    feed_trick(node.position(), &mut hasher);
    node.lefts().hash(&mut hasher);
    hasher.write_u8(moves);
    hasher.finish()
}
