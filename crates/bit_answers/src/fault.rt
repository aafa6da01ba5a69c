//! Why a question in numbers has no answer.
ghost use Rattle.std.specs.Prelude.{◌≡◌};
ghost use Rattle.bit_answers.specs.Faults.{fault_of, number_of};

use bit_questions::QuestionFault;
use card_sets::Card;
use std::alloc::AllocError;
use strategy_tree::RootFault;

/// Why a question in numbers has no answer.
#[derive(Clone, Copy, Debug, PartialEq, Eq)]
pub enum BitFault {
    /// The numbers are refused, or an allocation failed.
    Question(QuestionFault),
    /// The tree after this card has more nodes than a search may enter.
    Spent(Card),
    /// The front has no vector at the place of the one whose strategy is asked for.
    NoVector,
}

impl BitFault {
    /// The number of the fault, as C has it.
    pub fn code(self) -> u32
        ensures { result ≡ number_of self }
    {
        match self {
            BitFault::Question(fault) => fault.code(),
            BitFault::Spent(_) => 7,
            BitFault::NoVector => 47,
        }
    }
}

impl From<QuestionFault> for BitFault {
    ghost use Rattle.bit_answers.specs.declared.fault.BitFault.TheVariants.{Question};

    ghost from_gives = { λ fault found. found ≡ Question fault };

    fn from(fault: QuestionFault) -> Self {
        BitFault::Question(fault)
    }
}

impl From<RootFault> for BitFault {
    ghost from_gives = { λ fault found. found ≡ fault_of fault };

    fn from(fault: RootFault) -> Self {
        match fault {
            RootFault::Spent(card) => BitFault::Spent(card),
            RootFault::Memory => BitFault::Question(QuestionFault::Memory),
        }
    }
}

impl From<AllocError> for BitFault {
    ghost use Rattle.bit_answers.specs.Faults.{out_of_memory};

    ghost from_gives = { λ _ found. found ≡ out_of_memory };

    fn from(_: AllocError) -> Self {
        BitFault::Question(QuestionFault::Memory)
    }
}
