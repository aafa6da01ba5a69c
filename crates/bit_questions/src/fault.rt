//! What is wrong with the numbers of a question.
ghost use Rattle.std.specs.Prelude.{◌≡◌};
ghost use Rattle.bit_questions.specs.Causes.{code_of};
ghost use Rattle.bit_questions.specs.declared.fault.QuestionFault.TheVariants as faults;

use std::alloc::AllocError;

/// What is wrong with the numbers of a question. A place is counted from 0.
#[derive(Clone, Copy, Debug, PartialEq, Eq)]
pub enum QuestionFault {
    /// A hand has a bit from 52 on.
    NotCards,
    /// A card is in two of the hands.
    Overlap,
    /// The trick has more than three cards, or one that is no card.
    Trick,
    /// A card of the trick is in it twice, or still in a hand.
    PlayedTwice,
    /// Dummy doesn't hold as many cards as declarer, or the defenders not twice as many, with those
    /// that they have in the trick.
    Sizes,
    /// The leader is no seat.
    Leader,
    /// The trump is no suit, and not 4.
    Trump,
    /// More than 13 tricks are needed.
    Need,
    /// There is no layout.
    NoLayouts,
    /// There are more than 256 layouts.
    TooManyLayouts,
    /// The layout at this place isn't a part of the unseen cards, or not of Left's size.
    Layout(u16),
    /// There isn't one weight for each layout.
    WeightCount,
    /// The weight at this place is 0 or more than 1,000,000.
    Weight(u16),
    /// The moves aren't 1 to 26.
    Moves,
    /// A search may enter no node.
    Nodes,
    /// A defender is to play, or no card is left.
    NoTurn,
    /// An allocation failed.
    Memory,
}

impl QuestionFault {
    /// The number of the fault, as C has it.
    pub fn code(self) -> u32
        ensures { result ≡ code_of self }
    {
        match self {
            QuestionFault::NoTurn => 6,
            QuestionFault::Memory => 9,
            QuestionFault::NotCards => 32,
            QuestionFault::Overlap => 33,
            QuestionFault::Trick => 34,
            QuestionFault::PlayedTwice => 35,
            QuestionFault::Sizes => 36,
            QuestionFault::Leader => 37,
            QuestionFault::Trump => 38,
            QuestionFault::Need => 39,
            QuestionFault::NoLayouts => 40,
            QuestionFault::TooManyLayouts => 41,
            QuestionFault::Layout(_) => 42,
            QuestionFault::WeightCount => 43,
            QuestionFault::Weight(_) => 44,
            QuestionFault::Moves => 45,
            QuestionFault::Nodes => 46,
        }
    }
}

impl From<AllocError> for QuestionFault {
    ghost from_gives = { λ _ fault. fault ≡ faults.Memory };

    fn from(_: AllocError) -> Self {
        QuestionFault::Memory
    }
}
