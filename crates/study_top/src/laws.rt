//! That a study has one text. The function does nothing: its contract is the law.
ghost use Rattle.study_top.specs.Study.{HasOneText};

/// A deal file, a layout file, a number of moves and a form have one text of the cards side by side: no
/// size of the table, rule of cuts or number of nodes changes a byte.
pub fn one_text()
    ensures { HasOneText }
{}
