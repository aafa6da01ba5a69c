//! Facts with the layouts in which they are so.
ghost use Rattle.std.specs.Prelude.{◌≡◌, map, IfOk};
ghost use Rattle.layout_facts.specs.Reasons.{where_so as layouts_of, judge as judged_at};

use crate::fact::{Fact, holds_in};
use std::alloc::{AllocError, Global};
use trick_rules::Node;
use win_vectors::WinVector;

/// A fact, and the layouts in which it is so.
#[derive(Clone, Copy, Debug)]
pub struct Judged {
    pub fact: Fact,
    /// A bit for each layout of a node.
    pub vector: WinVector,
}

// The layouts in which a fact is so.
fn where_so(node: &Node, fact: &Fact) -> WinVector
    ensures { result ≡ layouts_of node.now fact.now }
{
    let width = node.width();
    let mut vector = WinVector::none(width);
    for place in 0..width {
        if holds_in(fact, node.position(), node.left(place)) {
            vector = vector.set(place, true);
        }
    }
    vector
}

fn judge(node: &Node, fact: &Fact) -> Judged
    ensures { result ≡ judged_at node.now fact.now }
{
    Judged {
        fact: *fact,
        vector: where_so(node, fact),
    }
}

/// Each fact with the layouts of the node in which it is so.
pub fn all_judged(alloc: Global, node: &Node, listed: &[Fact]) -> Result<Vec<Judged>, AllocError>
    ensures { IfOk result (λ table. table.items ≡ map (judged_at node.now) listed.now) }
{
    let mut table = Vec::new(alloc);
    for fact in listed {
        table.push(judge(node, fact))?;
    }
    Ok(table)
}
