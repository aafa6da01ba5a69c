//! What a row says of every greater number of moves, and that there is one table. A function does
//! nothing: its contract is the law.
ghost use Rattle.card_brackets.specs.Rows.{RowsBracket, HasOneTable};

/// Whatever greater number of moves is asked, the weight that a card wins lies between the two
/// bounds of its row; so a row that is final is final for every greater number of moves.
pub fn weight_stays_between()
    ensures { RowsBracket }
{}

/// A root and a limit of moves have one table: what a search may enter, keeps or cuts off changes
/// nothing of it.
pub fn one_table()
    ensures { HasOneTable }
{}
