//! The laws of the markup. The function does nothing: its contract is the law.
ghost use Rattle.page_text.specs.MarkupTexts.{MarkupSays};

/// Each piece of markup that a definition cites by name says what stands beside its name there, but
/// for the style, the script and the longest notes.
#[tactic(auto, using(crate::proofs::MarkupTexts::markup_says))]
pub fn the_markup_says_its_words()
    ensures { MarkupSays }
{}
