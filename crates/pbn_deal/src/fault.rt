//! Why a game is no board.
use crate::deal::DealFault;
use thiserror::Error;

/// What a game has wrong as a board.
#[derive(Clone, Copy, Debug, PartialEq, Eq, Error)]
pub enum BoardFault {
    /// There is no Deal tag.
    #[error("there is no Deal tag")]
    NoDeal,
    /// There is no Declarer tag, or its value isn't one seat letter.
    #[error("there is no Declarer tag with a seat letter")]
    NoDeclarer,
    /// There is no Contract tag.
    #[error("there is no Contract tag")]
    NoContract,
    /// The board was passed out.
    #[error("the board was passed out")]
    PassedOut,
    /// The contract isn't a level, a suit or no-trump, and nothing, X or XX.
    #[error("the contract is none")]
    BadContract,
    /// The value of Deal, Contract, Declarer or Play is inherited from an earlier game.
    #[error("a value is inherited from an earlier game")]
    Inherited,
    /// Declarer's or dummy's hand isn't shown.
    #[error("declarer's or dummy's hand is not shown")]
    HandHidden,
    /// The deal isn't in the Deal form.
    #[error("the deal is not in the Deal form: {0}")]
    Deal(DealFault),
    /// The Play tag doesn't name the seat that leads first.
    #[error("the Play tag does not name the first leader")]
    PlayLeader,
    /// A token of the Play section is no card.
    #[error("a token of the Play section is no card")]
    PlayCard,
    /// A card isn't held by the seat that plays it.
    #[error("a card is not held by the seat that plays it")]
    PlayNotHeld,
    /// A card doesn't follow suit although the hand could.
    #[error("a card does not follow suit")]
    PlayRevoke,
    /// A card stands after one that has not been played.
    #[error("a card stands after one that has not been played")]
    PlayGap,
    /// The tags of an ending are incomplete or wrong, or wanted and not there.
    #[error("the tags EndNeed and EndLead are incomplete, wrong or wanted")]
    EndTags,
}

/// Why a game wasn't read as a board.
#[derive(Clone, Copy, Debug, PartialEq, Eq, Error)]
pub enum BoardRefusal {
    /// A fault of the game, at a line of the file.
    #[error("line {line}: {kind}")]
    Fault { line: u32, kind: BoardFault },
    /// Memory was refused.
    #[error("out of memory")]
    Memory,
}
