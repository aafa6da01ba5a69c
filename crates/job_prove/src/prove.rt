//! The log that proves a root's front complete, as text.
ghost use Rattle.std.specs.Prelude.{◌≡◌, ◌≤◌, true, Ok, IfOk, IfErr};
ghost use Rattle.job_words.specs.Asks.{IsMoves, most_logged};
ghost use Rattle.am_answer.specs.Answers.{has_choice};
ghost use Rattle.am_answer.specs.Tasks.{Prove};
ghost use Rattle.am_answer.specs.Stages.{IsTaskRefusal, IsTextFor};

use am_answer::{Root, Status};
use byte_text::Text;
use dd_solver::Solver;
use log_maker::log_of;
use std::alloc::Global;

/// The log of a root's front, with `moves` moves of declarer's side, if the tree after each root
/// card has at most `nodes` nodes. Errors: `Spent` exactly when one has more, at the first such
/// card; `Memory`.
pub fn prove_front(alloc: Global, root: &Root, moves: u8, nodes: u64) -> Result<Text, Status>
    requires turn { has_choice root.now.kept.node ≡ true }
    requires moves { IsMoves moves }
    requires nodes { nodes ≤ most_logged }
    ensures text { IfOk result (IsTextFor (Ok (Prove root.now moves nodes))) }
    ensures refused { IfErr result (IsTaskRefusal (Ok (Prove root.now moves nodes))) }
{
    let mut solver = Solver::new(alloc);
    Ok(log_of(alloc, &mut solver, &root.kept.node, moves, nodes)?)
}
