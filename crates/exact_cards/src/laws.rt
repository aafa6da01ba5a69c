//! What the rows say of the best, with every number of moves that plans everything. A call does
//! nothing: its contract is the law.
ghost use Rattle.exact_cards.specs.Laws.{AllIsPlanned, ExactRowsBracket, FinalRowsAreExact};

/// After a card, more moves than a row has win nothing more: all is planned.
pub fn all_is_planned()
    ensures { AllIsPlanned }
{}

/// The best weight after a card, all moves planned, lies between the two bounds of its row.
pub fn exact_rows_bracket()
    ensures { ExactRowsBracket }
{}

/// If every row is final, its bounds are the best weight after its card, all moves planned, and the
/// card that is named is the one that αμ names.
pub fn final_rows_are_exact()
    ensures { FinalRowsAreExact }
{}
