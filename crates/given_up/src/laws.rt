//! What the definitions come to. Each function does nothing: its contract is the law.
ghost use Rattle.given_up.specs.GivingLaws.{ALostLayoutIsGivenUp, DeclarersSideGivesUp};

/// A strategy is played out against a defence that beats it, in a layout that double dummy makes.
/// Then there is a card that gives the layout up.
#[tactic(auto, using(crate::proofs::Given::a_lost_layout_is_given_up))]
pub fn a_lost_layout_is_given_up()
    ensures { ALostLayoutIsGivenUp }
{}

/// Before the card that gives a layout up double dummy makes, after it double dummy doesn't, and
/// declarer's side plays it.
pub fn declarers_side_gives_up()
    ensures { DeclarersSideGivesUp }
{}
