//! What the words of a study can ask for.

use crate::asks::{Ask, GameNames, Search};
use crate::draw::Draw;

/// The form that a study's text is asked for.
#[derive(Clone, Copy, Debug, PartialEq, Eq)]
pub enum FormName {
    /// Lines for people.
    Text,
    /// Records of CSV.
    Csv,
    /// One object of JSON.
    Json,
}

/// What a study tells.
#[derive(Clone, Copy, Debug, PartialEq, Eq)]
pub enum Study {
    /// The strategies of a report in the words of bridge.
    Words,
    /// The strategies of a report as PBN games, each played out in each kept layout.
    Lines,
    /// A report as a page of HTML.
    Page,
    /// Every legal card with the bounds of the weight that it wins, by a number of moves.
    Cards {
        /// The form of the text.
        form: FormName,
    },
    /// Every legal card with the weight that it wins if all is planned.
    ExactCards {
        /// The form of the text.
        form: FormName,
    },
    /// Every decision of a played board, or of each game of a deal file, and what each card cost.
    Review {
        /// The form of the text.
        form: FormName,
        /// The trick to begin with: 1 to 13.
        from: u8,
    },
}

/// What the words of a study ask for: what it tells, and of what. A file is an `F`: its name, or
/// what was read of it. The files of a deal's games are a `G`.
#[derive(Debug, Drop)]
pub enum StudyAsk<F, G> {
    /// What is told of files.
    OfFiles {
        /// What is told.
        study: Study,
        /// What is read, as the job of `alphamu` that reads the same. A report is that of `check`,
        /// or the one that `solve` gives; cards and decisions are judged as by `card`, and those
        /// of all games as by `boards`.
        reads: Ask<F, G>,
    },
    /// What is told of layouts that are drawn.
    OfDrawn {
        /// What is told.
        study: Study,
        /// The deal file.
        deal: F,
        /// Which layouts are drawn.
        draw: Draw,
        /// How many cards of declarer's side the search goes through: 1 to 26.
        moves: u8,
        /// How to search.
        search: Search,
    },
    /// Layouts that are drawn, as a layout file.
    Draw {
        /// The deal file.
        deal: F,
        /// Which layouts are drawn.
        draw: Draw,
    },
}

/// What the words of a study ask for, by the names of the files.
pub type NamedStudyAsk<'a> = StudyAsk<&'a str, GameNames<'a>>;
