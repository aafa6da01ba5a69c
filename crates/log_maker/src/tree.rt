//! αμ without cuts, line by line: a union at declarer's nodes and a join at a defender's, each
//! after the lines of the node's children.
ghost use Rattle.std.specs.Prelude.{◌≡◌, ◌≤◌, ◌+◌, [], true, false, length, IfOk, IsErrOf};
ghost use Rattle.trick_rules.specs.Positions.{to_play};
ghost use Rattle.trick_rules.specs.Play.{is_declarers, cards_left};
ghost use Rattle.trick_rules.specs.Nodes.{IsNode, stops};
ghost use Rattle.front_table.specs.Proven.{IsFrontAt};
ghost use Rattle.log_check.specs.Limits.{most_lines};
ghost use Rattle.log_check.specs.LogsFor.{line_of};
ghost use Rattle.log_maker.specs.Steps.{IsWritten, IsTooLong, IsSameWriter};

use crate::lines::{line_with, path_after, results};
use crate::tree_writer::TreeWriter;
use alphamu_core::SearchFault;
use dd_solver::Solver;
use log_check::{LineList, LogLine, Rule};
use pareto_fronts::Front;
use plain_fronts::{front_of_no_card, moves_after, with_child};
use std::alloc::{AllocError, Global};
use trick_rules::{CardLine, Node};

impl TreeWriter<'_> {
    /// Writes the lines of a node with `moves` moves, which the path leads to, at the end of the
    /// log, and gives the node's front.
    ///
    /// Each front comes from the lines just written. If an error comes, some of the lines may have
    /// been written.
    #[cycle(tree)]
    pub fn write_node(
        &mut self,
        node: &Node,
        moves: u8,
        path: CardLine,
    ) -> Result<Front, SearchFault>
        requires path { length path + cards_left node.now.position ≤ 52 }
        requires limit { self.old.limit ≤ most_lines }
        ensures written { IfOk result (IsWritten node.now moves path self.old self.new) }
        ensures spent { IsErrOf result SearchFault.Spent → IsTooLong node.now moves self.old }
        ensures same { IsSameWriter self.old self.new }
    {
        if node.stops(moves) {
            self.write_leaf(node, moves, path)
        } else {
            self.write_inner(node, moves, path)
        }
    }

    // Where strategies stop: a leaf.
    fn write_leaf(&mut self, node: &Node, moves: u8, path: CardLine) -> Result<Front, SearchFault>
        requires stops { stops node.now moves ≡ true }
        requires limit { self.old.limit ≤ most_lines }
        ensures written { IfOk result (IsWritten node.now moves path self.old self.new) }
        ensures spent { IsErrOf result SearchFault.Spent → IsTooLong node.now moves self.old }
        ensures same { IsSameWriter self.old self.new }
    {
        let (line, front) = leaf(self.alloc, self.solver, node, moves, path)?;
        self.push(&line)?;
        Ok(front)
    }

    // Where strategies go on: the lines after each card, and then the line that follows from the
    // last of each.
    #[cycle(tree)]
    fn write_inner(&mut self, node: &Node, moves: u8, path: CardLine) -> Result<Front, SearchFault>
        requires goes_on { stops node.now moves ≡ false }
        requires path { length path + cards_left node.now.position ≤ 52 }
        requires limit { self.old.limit ≤ most_lines }
        ensures written { IfOk result (IsWritten node.now moves path self.old self.new) }
        ensures spent { IsErrOf result SearchFault.Spent → IsTooLong node.now moves self.old }
        ensures same { IsSameWriter self.old self.new }
    {
        let left = moves_after(node, moves);
        let mut front = front_of_no_card(self.alloc, node)?;
        let mut from = LineList::new(self.alloc);
        let mut cards = node.choices();
        'cards: while let Some(card) = cards.pop_first() {
            let (child, mask) = node.child(self.alloc, card)?;
            let behind = path_after(&path, card);
            let won = self.write_node(&child, left, behind)?;
            front = with_child(self.alloc, node, front, &won, mask)?;
            from.push(self.log.len())?;
        }
        let line = line_with(self.alloc, inner_rule(node), path, moves, from, &front)?;
        self.push(&line)?;
        Ok(front)
    }
}

// The rule of a line where strategies go on.
fn inner_rule(node: &Node) -> Rule
    ensures ours { is_declarers (to_play node.now.position) ≡ true → result ≡ Rule.Union }
    ensures theirs { is_declarers (to_play node.now.position) ≡ false → result ≡ Rule.Join }
{
    if node.is_ours() {
        Rule::Union
    } else {
        Rule::Join
    }
}

/// Where strategies stop: a leaf with double dummy's results, and the front.
pub fn leaf(
    alloc: Global,
    solver: &mut Solver,
    node: &Node,
    moves: u8,
    path: CardLine,
) -> Result<(LogLine, Front), AllocError>
    requires { stops node.now moves ≡ true }
    ensures a_node { IsNode node.now }
    ensures front { IfOk result (λ leaf. IsFrontAt node.now moves leaf.1) }
    ensures line { IfOk result (λ leaf. leaf.0 ≡ line_of Rule.Leaf path moves [] leaf.1.vectors) }
{
    let mut front = Front::new(alloc, node.width());
    front.insert(results(solver, node))?;
    let none = LineList::new(alloc);
    let line = line_with(alloc, Rule::Leaf, path, moves, none, &front)?;
    Ok((line, front))
}
