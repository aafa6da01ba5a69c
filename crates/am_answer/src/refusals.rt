//! What `?` makes of each fault that a reader, a search or a maker of layouts answers: its status.
ghost use Rattle.std.specs.Prelude.{◌≡◌};
ghost use Rattle.am_answer.specs.Refusals.{syntax_status, board_status, layout_status, root_status};
ghost use Rattle.am_answer.specs.Refusals.{report_status, make_status, log_status};

use crate::status::{PbnKind, Status};
use am_report::ReportFault;
use layout_list::LayoutFault;
use layout_maker::MakeFault;
use log_texts::LogFault;
use pbn_deal::BoardRefusal;
use pbn_text::TextFault;
use strategy_tree::RootFault;

/// The status of a text that gives no games.
impl From<TextFault> for Status {
    ghost from_gives = { λ fault status. status ≡ syntax_status fault };

    fn from(fault: TextFault) -> Self {
        match fault {
            TextFault::Syntax { line, kind } => Status::BadPbn(line, PbnKind::Syntax(kind)),
            TextFault::Memory => Status::Memory,
        }
    }
}

/// The status of a game that is no board.
impl From<BoardRefusal> for Status {
    ghost from_gives = { λ refusal status. status ≡ board_status refusal };

    fn from(refusal: BoardRefusal) -> Self {
        match refusal {
            BoardRefusal::Fault { line, kind } => Status::BadPbn(line, PbnKind::Board(kind)),
            BoardRefusal::Memory => Status::Memory,
        }
    }
}

/// The status of a layout file that isn't taken.
impl From<LayoutFault> for Status {
    ghost from_gives = { λ fault status. status ≡ layout_status fault };

    fn from(fault: LayoutFault) -> Self {
        match fault {
            LayoutFault::Memory => Status::Memory,
            other => Status::BadLayouts(other),
        }
    }
}

/// The status of a loop over root cards that ends with no answer.
impl From<RootFault> for Status {
    ghost from_gives = { λ fault status. status ≡ root_status fault };

    fn from(fault: RootFault) -> Self {
        match fault {
            RootFault::Spent(card) => Status::Spent(card),
            RootFault::Memory => Status::Memory,
        }
    }
}
/// The status of a report that isn't read.
impl From<ReportFault> for Status {
    ghost from_gives = { λ fault status. status ≡ report_status fault };

    fn from(fault: ReportFault) -> Self {
        match fault {
            ReportFault::Fault { line, kind } => Status::BadReport(line, kind),
            ReportFault::Memory => Status::Memory,
        }
    }
}

/// The status of a log that isn't read.
impl From<LogFault> for Status {
    ghost from_gives = { λ fault status. status ≡ log_status fault };

    fn from(fault: LogFault) -> Self {
        match fault {
            LogFault::Line(line) => Status::BadLog(line),
            LogFault::Memory => Status::Memory,
        }
    }
}

/// The status of a board whose layouts aren't listed.
impl From<MakeFault> for Status {
    ghost from_gives = { λ fault status. status ≡ make_status fault };

    fn from(fault: MakeFault) -> Self {
        match fault {
            MakeFault::Memory => Status::Memory,
            other => Status::BadMake(other),
        }
    }
}
