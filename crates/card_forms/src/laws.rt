//! What cards that are told to be equal come to. The call does nothing: its contract is the law.
ghost use Rattle.card_forms.specs.Equals.{EqualsComeToTheSame};

/// Two cards that are told to be equal are legal in the same layouts, and the nodes after them have
/// one front with each number of moves.
pub fn equals_come_to_the_same()
    ensures { EqualsComeToTheSame }
{}
