//! Which shard a key belongs to.
ghost use Rattle.std.specs.Prelude.{◌≡◌, ◌<◌, ◌≤◌, ◌*◌, sum};
ghost use Rattle.shared_table.specs.Keys.{shard_of};
ghost use Rattle.shared_table.specs.Passes.{table_plan};

use crate::SharedTable;
use card_sets::CardSet;
use trick_rules::Node;

// The numbers of the cards, added up.
fn numbers_added(cards: CardSet) -> u32
    ensures sum { result ≡ sum cards }
    ensures few { result ≤ 52 * 256 }
{
    let count = u32::from(cards.count());
    let mut rest = cards;
    let mut total = 0;
    while let Some(card) = rest.pop_first() {
        total += u32::from(card.number());
    }
    prove!(total <= 52 * count);
    total
}

impl SharedTable {
    /// The shard of a node with `moves` moves: the numbers (0 to 51) of the cards in declarer's
    /// hand, in dummy's hand and in the unseen set, plus the moves, modulo the number of shards.
    pub fn shard(&self, node: &Node, moves: u8) -> u32
        ensures shard { result ≡ shard_of (table_plan self.now).shards node.now moves }
        ensures below { result < (table_plan self.now).shards }
    {
        let position = node.position();
        let cards = numbers_added(position.declarer)
            + numbers_added(position.dummy)
            + numbers_added(position.unseen);
        (cards + u32::from(moves)) % self.plan.shards
    }
}
