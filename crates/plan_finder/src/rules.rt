//! The rules by which plans are searched.
ghost use Rattle.std.specs.Prelude.{◌≡◌, true, false};
ghost use Rattle.cut_rules.specs.Rules.{no_cuts, all_cuts};
ghost use Rattle.cut_rules.specs.declared.Stop.TheVariants.{Never};

use cut_rules::{CutRules, Stop};

/// By which rules the searches for a plan go. No rule changes an answer.
#[derive(Clone, Copy)]
pub struct PlanRules {
    /// The cuts that they make.
    pub cuts: CutRules,
    /// Whether they find whole fronts, which the store keeps for further plans, or only the vectors
    /// above a target.
    pub whole_fronts: bool,
}

impl PlanRules {
    /// Each cut, or none.
    pub fn new(cuts: bool, whole_fronts: bool) -> PlanRules
        ensures each { cuts ≡ true → result.cuts ≡ all_cuts Never }
        ensures none { cuts ≡ false → result.cuts ≡ no_cuts }
        ensures whole_fronts { result.whole_fronts ≡ whole_fronts }
    {
        let cuts = if cuts {
            CutRules::all(Stop::Never)
        } else {
            CutRules::none()
        };
        PlanRules { cuts, whole_fronts }
    }
}
