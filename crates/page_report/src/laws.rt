//! Laws of pages. Each function does nothing: its contract is the law.
ghost use Rattle.page_report.specs.Refuted.{NamesWhatIsLost};
ghost use Rattle.page_report.specs.ReportPages.{HoldsItsReport};

/// The page of a report holds the report, escaped and otherwise byte for byte.
pub fn a_page_holds_its_report()
    ensures { HoldsItsReport }
{}

/// Why a belief isn't true is told of exactly the layouts in which sampling believes and the line
/// fails, each with a card.
#[tactic(auto, using(crate::proofs::Lost::names_what_is_lost))]
pub fn a_refutation_names_what_is_lost()
    ensures { NamesWhatIsLost }
{}
