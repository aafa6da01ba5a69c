//! How a run ends.
ghost use Rattle.std.specs.Prelude.{◌≡◌};
ghost use Rattle.am_answer.specs.Codes.{code_of};
ghost use Rattle.am_answer.specs.declared.status.Status.TheVariants as ends;

use am_report::ReportKind;
use card_sets::Card;
use layout_list::LayoutFault;
use layout_maker::MakeFault;
use pbn_deal::BoardFault;
use pbn_text::Syntax;
use std::alloc::{AllocError, AllocFailed};

/// A file that the words name.
#[derive(Clone, Copy, Debug, PartialEq, Eq)]
pub enum FileWord {
    Deal,
    Layouts,
    Report,
    Log,
}

/// What is wrong with a deal file.
#[derive(Clone, Copy, Debug, PartialEq, Eq)]
pub enum PbnKind {
    /// It is no PBN text.
    Syntax(Syntax),
    /// It has no game.
    NoGame,
    /// Its first game is no board.
    Board(BoardFault),
}

/// The part of a judged report that is at fault.
#[derive(Clone, Copy, Debug, PartialEq, Eq)]
pub enum Place {
    /// The head isn't the head of the files.
    Head,
    /// The vector isn't as wide as there are kept layouts.
    Width,
    /// The number behind the vector isn't what it wins by the weights of the kept layouts.
    Weight,
    /// The plan is no strategy: its first node that doesn't fit, counted from 1, each before those
    /// below it.
    Node(u32),
    /// The plan wins another vector: the first layout that differs, from 1, and whether the plan
    /// wins it.
    Layout(u16, bool),
}

/// How a run ends. A line is counted in its file, from 1.
#[derive(Clone, Copy, Debug, PartialEq, Eq)]
pub enum Status {
    /// The whole output was written.
    Done,
    /// The report is at fault at this plan, counted from 1; 0 where its head is.
    Refuted(u32, Place),
    /// The words ask for nothing that the program does.
    BadWords,
    /// The file isn't there, or reading it failed.
    Unread(FileWord),
    /// The deal file is refused at this line.
    BadPbn(u32, PbnKind),
    /// The layout file is refused; never because an allocation failed.
    BadLayouts(LayoutFault),
    /// The play is over, or a defender is to play.
    NoTurn,
    /// The tree after this card has more nodes than a search may enter.
    Spent(Card),
    /// Writing the output failed.
    Unwritten,
    /// An allocation failed.
    Memory,
    /// The file has more bytes than its limit: 1,048,576, and 16,777,216 for a report or a
    /// log.
    TooLong(FileWord),
    /// The report is refused at this line.
    BadReport(u32, ReportKind),
    /// The layouts of the board aren't listed; never because an allocation failed.
    BadMake(MakeFault),
    /// The layout of this number isn't among the kept ones.
    NoLayout(u16),
    /// The log is refused at this line.
    BadLog(u32),
    /// The log doesn't prove the report complete: the first of its lines that doesn't follow,
    /// counted from 1 without the first line of the file; or the number after the last, where all
    /// follow and the last one leaves out what the report has to cover.
    Unproved(u32),
    /// The tree after this card has more nodes than a search may enter, in the game of this number,
    /// counted from 1 in its deal file.
    GameSpent(u16, Card),
    /// The deal file has this many games, more than 64.
    TooManyGames(u32),
}

impl Status {
    /// The number that the program ends with.
    pub fn code(&self) -> u8
        ensures { result ≡ code_of self.now }
    {
        match self {
            Status::Done => 0,
            Status::Refuted(_, _) => 1,
            Status::BadWords => 2,
            Status::Unread(_) => 3,
            Status::BadPbn(_, _) => 4,
            Status::BadLayouts(_) => 5,
            Status::NoTurn => 6,
            Status::Spent(_) => 7,
            Status::Unwritten => 8,
            Status::Memory => 9,
            Status::TooLong(_) => 10,
            Status::BadReport(_, _) => 11,
            Status::BadMake(_) => 12,
            Status::NoLayout(_) => 14,
            Status::BadLog(_) => 15,
            Status::Unproved(_) => 16,
            Status::GameSpent(_, _) => 17,
            Status::TooManyGames(_) => 18,
        }
    }
}

impl From<AllocError> for Status {
    ghost from_gives = { λ _ status. status ≡ ends.Memory };

    fn from(_: AllocError) -> Self {
        Status::Memory
    }
}

impl<T: Drop> From<AllocFailed<T>> for Status {
    ghost from_gives = { λ _ status. status ≡ ends.Memory };

    fn from(_: AllocFailed<T>) -> Self {
        Status::Memory
    }
}
