//! A shared table that is closed.
use crate::endings::{LEFT, ending, spades};
use front_table::{ProvenFront, Put};
use plain_fronts::plain_front;
use shared_table::{ShardEnd, SharedTable};
use std::test::Fail;
use trick_rules::Node;

// The sum of the cards and the move is 52.
#[test]
fn an_entry_is_in_the_shard_of_its_sum(rt: HostRuntime) -> Result<(), Fail> {
    let alloc = rt.alloc();
    let position = ending(&rt, 1);
    let left = spades(LEFT);
    assert!(rt; position.fits(left));
    let node = Node::new(alloc, position, [left].as_slice())?;
    let (table, mut pass) = SharedTable::new(alloc, 16, 64)?;
    assert_eq!(rt; table.shard(&node, 1), 4);
    let front = plain_front(alloc, &node, 1)?;
    let entry = ProvenFront::new(node, 1, front);
    assert!(rt; matches!(&table.put(&mut pass, entry), Put::Kept));
    let closed = table.close(&mut pass)?;
    match closed.shards.get(4) {
        Some(ShardEnd::Home(list)) => assert_eq!(rt; list.len(), 1),
        _ => panic!(rt; "nobody is inside"),
    }
    Ok(())
}
