//! The laws of verdicts. Each function does nothing: its contract is the law.
ghost use Rattle.std.specs.Prelude.{◌≡◌, ◌≤◌, ◌+◌, ℕ, Ok, List};
ghost use Rattle.win_vectors.specs.Fronts.{Vector};
ghost use Rattle.trick_rules.specs.Nodes.{NodeValue};
ghost use Rattle.strategy_games.specs.Plans.{Plan};
ghost use Rattle.strategy_games.specs.Misfits.{node_count};
ghost use Rattle.strategy_tree.specs.PlanRead.{plan_read};
ghost use Rattle.strategy_check.specs.declared.verdict.Verdict.{Verdict};
ghost use Rattle.strategy_check.specs.Verdicts.{IsVerdict};

/// A plan has one verdict only: each verdict comes exactly when what it says is true.
#[tactic(auto, using(crate::proofs::OneVerdict::one_verdict))]
pub fn one_verdict()
    ensures { (node : NodeValue) (moves : ℕ) (plan : Plan ℕ) (vector : Vector) (one other : Verdict)
        → IsVerdict node moves plan vector one → IsVerdict node moves plan vector other
        → one ≡ other }
{}

/// A plan that was read has no more nodes than its text has bytes. So the length of a text says
/// whether its plans can be judged.
#[tactic(auto, using(crate::proofs::ReadSizes::read_nodes))]
pub fn read_plans_have_few_nodes()
    ensures { (bytes : List ℕ) (start end : ℕ) (plan : Plan ℕ)
        → plan_read bytes start ≡ Ok (plan, end)
        → start + node_count plan ≤ end }
{}
