//! The laws of escaped text. Each function does nothing: its contract is the law.
ghost use Rattle.std.specs.Prelude.{ℕ, List};
ghost use Rattle.html_text.specs.Escapes.{escape};
ghost use Rattle.html_text.specs.declared.page.Piece.{Piece};
ghost use Rattle.html_text.specs.Pages.{SignsAreOwn, IsXmlWithItsMarkup};
ghost use Rattle.html_text.specs.EscapeLaws.{HasNoMarkup, IsXmlText, ShowsXmlText, ReadsBack};
ghost use Rattle.html_text.specs.EscapeLaws.{NamesEachSign};

/// An escaped text has none of `<`, `>`, `"` and `'`, and each `&` in it begins the name of a sign.
/// So whatever a file says, it opens no tag and ends no value of an attribute.
#[tactic(auto, using(crate::proofs::Escaped::names_each_sign))]
pub fn an_escaped_text_has_no_markup()
    ensures signs { (text : List ℕ) → HasNoMarkup (escape text) }
    ensures names { NamesEachSign }
{}

/// Whatever bytes a file has, XML takes them once they are escaped.
#[tactic(auto, using(crate::proofs::Escaped::is_xml))]
pub fn an_escaped_text_is_xml()
    ensures { (text : List ℕ) → IsXmlText (escape text) }
{}

/// Nothing else is lost: two texts that are written alike show the same, and text that XML takes is
/// shown whole.
#[tactic(auto, using(crate::proofs::Escaped::reads_back, crate::proofs::Escaped::shows_xml_text))]
pub fn an_escaped_text_is_read_back()
    ensures same { ReadsBack }
    ensures whole { ShowsXmlText }
{}

/// Each `<`, `>`, `"` and `'` of a page is of its own markup, whatever text it shows, and XML takes
/// all of the page if it takes that markup.
#[tactic(auto, using(crate::proofs::Pages::signs_are_own, crate::proofs::Pages::is_xml))]
pub fn the_signs_of_a_page_are_its_own()
    ensures signs { (pieces : List Piece) → SignsAreOwn pieces }
    ensures xml { (pieces : List Piece) → IsXmlWithItsMarkup pieces }
{}
