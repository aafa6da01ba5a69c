//! What decides a vector.
ghost use Rattle.std.specs.Prelude.{◌≡◌, length, All, IfOk};
ghost use Rattle.layout_facts.specs.Reasons.{is_split as is_split_at};
ghost use Rattle.layout_facts.specs.Reasons.{what_decides as reason_at};
ghost use Rattle.layout_facts.specs.Tables.{joined as joined_by, first_one, second_of as second_at};
ghost use Rattle.layout_facts.specs.Tables.{first_two, first_reason as first_reason_at};

use crate::fact::Fact;
use crate::judged::{Judged, all_judged};
use crate::listed::all_facts;
use std::alloc::{AllocError, Global};
use trick_rules::Node;
use win_vectors::WinVector;

/// How two facts are joined.
#[derive(Clone, Copy, Debug)]
pub enum Joint {
    /// Both are so.
    And,
    /// One of them is so, or both are.
    Or,
}

/// What decides a vector.
#[derive(Clone, Copy, Debug)]
pub enum Reason {
    One(Fact),
    Two {
        first: Fact,
        joint: Joint,
        second: Fact,
    },
}

fn joined(joint: Joint, first: WinVector, second: WinVector) -> WinVector
    requires { length first ≡ length second }
    ensures { result ≡ joined_by joint first second }
{
    match joint {
        Joint::And => first.meet(second),
        Joint::Or => first.either(second),
    }
}

// The first fact that is so in exactly these layouts.
fn one(table: &[Judged], vector: WinVector) -> Option<Reason>
    ensures { result ≡ first_one vector table.now }
{
    for judged in table {
        if judged.vector == vector {
            return Some(Reason::One(judged.fact));
        }
    }
    None
}

// The first fact that, joined to this one, is so in exactly these layouts.
fn second_of(table: &[Judged], vector: WinVector, joint: Joint, first: &Judged) -> Option<Reason>
    requires { All (λ judged. length first.now.vector ≡ length judged.vector) table.now }
    ensures { result ≡ second_at vector joint first.now table.now }
{
    for second in table {
        if joined(joint, first.vector, second.vector) == vector {
            return Some(Reason::Two {
                first: first.fact,
                joint,
                second: second.fact,
            });
        }
    }
    None
}

// The first two facts that, joined so, are so in exactly these layouts.
fn two(table: &[Judged], vector: WinVector, joint: Joint) -> Option<Reason>
    requires { All (λ first. All
        (λ second. length first.vector ≡ length second.vector) table.now) table.now }
    ensures { result ≡ first_two vector joint table.now table.now }
{
    for first in table {
        if let Some(reason) = second_of(table, vector, joint, first) {
            return Some(reason);
        }
    }
    None
}

// The first reason of a table.
fn first_reason(table: &[Judged], vector: WinVector) -> Option<Reason>
    requires { All (λ first. All
        (λ second. length first.vector ≡ length second.vector) table.now) table.now }
    ensures { result ≡ first_reason_at vector table.now }
{
    if let Some(reason) = one(table, vector) {
        return Some(reason);
    }
    if let Some(reason) = two(table, vector, Joint::And) {
        return Some(reason);
    }
    two(table, vector, Joint::Or)
}

// Whether some of the node's layouts are made, and not all of them.
fn is_split(node: &Node, vector: WinVector) -> bool
    ensures { result ≡ is_split_at node.now vector }
{
    let width = node.width();
    let made = vector.count();
    vector.width() == width && 0 < made && made < width
}

/// What decides a vector: the first fact, or else the first two facts joined, that is so in exactly
/// the layouts that are made. Single facts come first, then two joined by *and*, then two joined by
/// *or*; holdings come before lengths, high cards before low ones.
///
/// `None` if no reason decides it, and at a vector with all of the layouts, with none, or of
/// another width.
pub fn what_decides(
    alloc: Global,
    node: &Node,
    vector: WinVector,
) -> Result<Option<Reason>, AllocError>
    ensures { IfOk result (λ found. found ≡ reason_at node.now vector) }
{
    if !is_split(node, vector) {
        return Ok(None);
    }
    let listed = all_facts(alloc)?;
    let table = all_judged(alloc, node, &listed)?;
    Ok(first_reason(&table, vector))
}
