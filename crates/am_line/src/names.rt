//! The names of files and faults, as lines to standard error print them.
ghost use Rattle.std.specs.Prelude.{◌≡◌};
ghost use Rattle.am_answer.specs.Names.{file_name, syntax_name, deal_name, board_name, kind_name};
ghost use Rattle.am_answer.specs.Names.{report_name};

use am_answer::{FileWord, PbnKind};
use am_report::ReportKind;
use pbn_deal::{BoardFault, DealFault};
use pbn_text::Syntax;

pub fn file_name(file: FileWord) -> &'static [u8]
    ensures { result.now ≡ file_name file }
{
    match file {
        FileWord::Deal => b"deal",
        FileWord::Layouts => b"layouts",
        FileWord::Report => b"report",
        FileWord::Log => b"log",
    }
}

pub fn syntax_name(fault: Syntax) -> &'static [u8]
    ensures { result.now ≡ syntax_name fault }
{
    match fault {
        Syntax::OpenString => b"OpenString",
        Syntax::BadTag => b"BadTag",
        Syntax::OpenBrace => b"OpenBrace",
        Syntax::NotText => b"NotText",
        Syntax::StrayToken => b"StrayToken",
    }
}

pub fn deal_name(fault: DealFault) -> &'static [u8]
    ensures { result.now ≡ deal_name fault }
{
    match fault {
        DealFault::Seat => b"Seat",
        DealFault::HandCount => b"HandCount",
        DealFault::SuitCount => b"SuitCount",
        DealFault::RankLetter => b"RankLetter",
        DealFault::Repeated => b"Repeated",
        DealFault::Sizes => b"Sizes",
    }
}

// The name of a fault of the Deal value, after the word `Deal`.
fn deal_value_name(fault: DealFault) -> &'static [u8]
    ensures { result.now ≡ board_name (BoardFault.Deal fault) }
{
    match fault {
        DealFault::Seat => b"Deal Seat",
        DealFault::HandCount => b"Deal HandCount",
        DealFault::SuitCount => b"Deal SuitCount",
        DealFault::RankLetter => b"Deal RankLetter",
        DealFault::Repeated => b"Deal Repeated",
        DealFault::Sizes => b"Deal Sizes",
    }
}

pub fn board_name(fault: BoardFault) -> &'static [u8]
    ensures { result.now ≡ board_name fault }
{
    match fault {
        BoardFault::NoDeal => b"NoDeal",
        BoardFault::NoDeclarer => b"NoDeclarer",
        BoardFault::NoContract => b"NoContract",
        BoardFault::PassedOut => b"PassedOut",
        BoardFault::BadContract => b"BadContract",
        BoardFault::Inherited => b"Inherited",
        BoardFault::HandHidden => b"HandHidden",
        BoardFault::Deal(fault) => deal_value_name(fault),
        BoardFault::PlayLeader => b"PlayLeader",
        BoardFault::PlayCard => b"PlayCard",
        BoardFault::PlayNotHeld => b"PlayNotHeld",
        BoardFault::PlayRevoke => b"PlayRevoke",
        BoardFault::PlayGap => b"PlayGap",
        BoardFault::EndTags => b"EndTags",
    }
}

pub fn kind_name(kind: PbnKind) -> &'static [u8]
    ensures { result.now ≡ kind_name kind }
{
    match kind {
        PbnKind::Syntax(fault) => syntax_name(fault),
        PbnKind::NoGame => b"NoGame",
        PbnKind::Board(fault) => board_name(fault),
    }
}

pub fn report_name(kind: ReportKind) -> &'static [u8]
    ensures { result.now ≡ report_name kind }
{
    match kind {
        ReportKind::Version => b"Version",
        ReportKind::Head => b"Head",
        ReportKind::Vector => b"Vector",
        ReportKind::Plan => b"Plan",
        ReportKind::TooDeep => b"TooDeep",
        ReportKind::Card => b"Card",
        ReportKind::End => b"End",
    }
}
