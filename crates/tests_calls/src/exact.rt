//! Every card of a root with what one strategy can win after it, all moves planned.
use crate::endings::{LEFT, OTHER, ending, spades};
use byte_text::Text;
use card_brackets::CardRow;
use card_forms::exact_in;
use exact_cards::{ExactTable, exact_table};
use std::alloc::{AllocError, Global};
use std::process::Abort;
use std::test::Fail;
use text_forms::Form;
use trick_rules::Node;
use win_vectors::Weights;

const TEXT: &[u8] =
    b"alphamu cards 1\nmoves all\nlayouts 2 weight 4\ncard S2 most 3 least 3 sampled 4 final yes vector 10\ncard S3 most 3 least 3 sampled 4 final yes vector 10\nnamed S2\n";

const RECORDS: &[u8] =
    b"card,most,least,sampled,final,vector,named,moves,layouts,weight\nS2,3,3,4,yes,10,yes,all,2,4\nS3,3,3,4,yes,10,no,all,2,4\n";

const OBJECT: &[u8] =
    b"{\"cards\":[{\"card\":\"S2\",\"equals\":[\"S3\"],\"final\":true,\"least\":3,\"most\":3,\"sampled\":4,\"vector\":\"10\"},{\"card\":\"S3\",\"equals\":[\"S2\"],\"final\":true,\"least\":3,\"most\":3,\"sampled\":4,\"vector\":\"10\"}],\"layouts\":2,\"moves\":\"all\",\"named\":\"S2\",\"weight\":4}\n";

// The layout in which Left has the queen weighs 3, the other one 1.
fn weights() -> Weights {
    Weights::equal(2).set(0, 3)
}

// The ending if one trick is needed.
fn root(rt: &impl Abort, alloc: Global) -> Result<Node, AllocError> {
    let position = ending(rt, 1);
    let queen = spades(LEFT);
    let ace = spades(OTHER);
    assert!(rt; position.fits(queen));
    assert!(rt; position.fits(ace));
    Node::new(alloc, position, [queen, ace].as_slice())
}

// Every card of it if a search may enter this many nodes.
fn table(
    rt: &impl Abort,
    alloc: Global,
    node: &Node,
    nodes: u64,
) -> Result<ExactTable, AllocError> {
    let weights = weights();
    assert!(rt; node.is_ours());
    assert!(rt; !node.position().over());
    assert!(rt; weights.width() == node.width());
    exact_table(alloc, node, &weights, nodes)
}

// After the seven, which Right plays in both layouts, declarer's king wins if Left has the queen, and
// the jack if he has the ace: no strategy wins both, whichever card dummy leads. So it plays for the
// layout that weighs 3, and sampling believes in both.
#[test]
fn the_heavier_layout_is_played_for(rt: HostRuntime) -> Result<(), Fail> {
    let alloc = rt.alloc();
    let node = root(&rt, alloc)?;
    let found = table(&rt, alloc, &node, 1_000)?;
    let text = exact_in(alloc, Form::Text, &node, &weights(), &found)?;
    let records = exact_in(alloc, Form::Csv, &node, &weights(), &found)?;
    let object = exact_in(alloc, Form::Json, &node, &weights(), &found)?;
    assert!(rt; text.bytes() == TEXT);
    assert!(rt; records.bytes() == RECORDS);
    assert!(rt; object.bytes() == OBJECT);
    Ok(())
}

// With no node to enter the bounds enclose the 3, and the text says why they don't meet.
#[test]
fn a_search_that_is_cut_off(rt: HostRuntime) -> Result<(), Fail> {
    let alloc = rt.alloc();
    let node = root(&rt, alloc)?;
    let found = table(&rt, alloc, &node, 0)?;
    assert!(rt;
        found
            .rows
            .iter()
            .all(|row: &CardRow| row.least <= 3 && row.most >= 3)
    );
    assert!(rt; !found.rows.iter().all(|row: &CardRow| row.is_final()));
    let text: Text = exact_in(alloc, Form::Text, &node, &weights(), &found)?;
    let records: Text = exact_in(alloc, Form::Csv, &node, &weights(), &found)?;
    assert!(rt; text.bytes().ends_with(b"\nnodes spent\n"));
    assert!(rt; records.bytes().ends_with(b",all,2,4\n"));
    Ok(())
}
