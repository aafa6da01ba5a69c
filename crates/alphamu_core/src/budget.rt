//! How many nodes a search may still enter, and how many it has entered.
ghost use Rattle.std.specs.Prelude.{◌≡◌, ◌+◌, ◌≤◌, ◌⊎◌, ℕ, Some, IfSome, IsOkUnless, OnOk, OnErr};
ghost use Rattle.alphamu_core.specs.Costs.{IsWithin};

use crate::answers::SearchFault;
use std::marker::Model;

/// A number of nodes that a search may enter. Each node entered costs one.
#[derive(Debug, Drop)]
pub struct Budget {
    nodes: u64,
    left: u64,
}

impl Model for Budget {
    ghost use Rattle.std.specs.Prelude.{◌≤◌};
    ghost use Rattle.alphamu_core.specs.Budgets.{BudgetValue};

    ghost Value = { BudgetValue };

    ghost view = { λ budget. record {
      nodes = budget.nodes;
      left = budget.left;
    } };

    ghost invariant = { λ budget. budget.left ≤ budget.nodes };
}

/// How many nodes a search entered, and how many its budget allowed. Only a budget tells it, and
/// only a search enters nodes.
#[derive(Clone, Copy, Debug, PartialEq, Eq)]
pub struct Entered {
    count: u64,
    nodes: u64,
}

impl Entered {
    /// How many nodes were entered.
    pub fn count(&self) -> u64
        ensures { result ≡ self.now.count }
    {
        self.count
    }

    /// How many nodes the budget allowed.
    pub fn nodes(&self) -> u64
        ensures { result ≡ self.now.nodes }
    {
        self.nodes
    }

    /// Which of two searches entered more nodes: this one, or another if there was one.
    pub fn larger(self, other: Option<Entered>) -> Entered
        ensures one { (result ≡ self) ⊎ (other ≡ Some result) }
        ensures not_less { self.count ≤ result.count }
        ensures most { IfSome other (λ other. other.count ≤ result.count) }
        ensures within { (nodes : ℕ) → IsWithin nodes self → IfSome other (IsWithin nodes)
            → IsWithin nodes result }
    {
        match other {
            Some(other) if other.count > self.count => other,
            _ => self,
        }
    }
}

impl Budget {
    /// A budget of this many nodes.
    pub fn new(nodes: u64) -> Budget
        ensures nodes { result.nodes ≡ nodes }
        ensures left { result.left ≡ nodes }
    {
        Budget { nodes, left: nodes }
    }

    /// How many nodes may still be entered.
    pub fn left(&self) -> u64
        ensures left { result ≡ self.now.left }
        ensures within { self.now.left ≤ self.now.nodes }
    {
        self.left
    }

    /// How many nodes have been entered.
    pub fn entered(&self) -> Entered
        ensures count { result.count + self.now.left ≡ self.now.nodes }
        ensures nodes { result.nodes ≡ self.now.nodes }
    {
        Entered {
            count: self.nodes - self.left,
            nodes: self.nodes,
        }
    }

    /// Pays for one node, or is spent.
    pub fn enter(&mut self) -> Result<(), SearchFault>
        ensures paid { OnOk result (self.new.left + 1 ≡ self.old.left) }
        ensures spent { OnErr result ((self.old.left ≡ 0) × (self.new.left ≡ 0)) }
        ensures nodes { self.new.nodes ≡ self.old.nodes }
        ensures only { IsOkUnless result SearchFault.Spent }
    {
        if self.left == 0 {
            return Err(SearchFault::Spent);
        }
        self.left -= 1;
        Ok(())
    }
}
