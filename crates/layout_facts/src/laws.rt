//! The laws of facts and reasons. Each function does nothing: its contract is the law.
ghost use Rattle.layout_facts.specs.FactLaws.{EachHoldingIsListed, EachLengthIsListed};
ghost use Rattle.layout_facts.specs.FactLaws.{DecidesExactly};

/// What decides a vector is so in exactly the layouts that it makes. If some layouts are made and
/// not all, and nothing decides the vector, no listed fact does, and no two joined.
#[tactic(auto, using(crate::proofs::Splitting::exact_or_none))]
pub fn what_decides_is_exact()
    ensures { DecidesExactly }
{}

/// Every holding and every length of a defender is listed.
pub fn every_fact_is_listed()
    ensures holdings { EachHoldingIsListed }
    ensures lengths { EachLengthIsListed }
{}
