//! The conditions on hands that options tell.
ghost use Rattle.std.specs.Prelude.{◌≡◌, Ok, IfOk, MatchResult, map};
ghost use Rattle.hand_conditions.specs.Reading.{condition_read};
ghost use Rattle.job_words.specs.Options.{options_of};
ghost use Rattle.job_words.specs.Draws.{or_bad_term, conditions_read, conditions_in, IsUnreadOf};
ghost use Rattle.job_words.specs.declared.conditions.Unread.TheVariants.{Memory};

use crate::bad_word::{BadWord, OptionName};
use crate::draw::SeatConditions;
use crate::options::Options;
use hand_conditions::{Condition, ConditionFault, read_condition};
use std::alloc::{AllocError, AllocFailed, Global};

/// Why conditions aren't read.
#[derive(Debug, Drop)]
enum Unread {
    Bad(BadWord),
    Memory,
}

impl From<AllocError> for Unread {
    ghost from_gives = { λ _ unread. unread ≡ Memory };

    fn from(_: AllocError) -> Self {
        Unread::Memory
    }
}

impl<T: Drop> From<AllocFailed<T>> for Unread {
    ghost from_gives = { λ _ unread. unread ≡ Memory };

    fn from(_: AllocFailed<T>) -> Self {
        Unread::Memory
    }
}

// The condition that a value of this option tells.
fn condition_of(alloc: Global, option: OptionName, text: &str) -> Result<Condition, Unread>
    ensures { MatchResult result
        (λ condition. or_bad_term option (condition_read text.now) ≡ Ok condition)
        (IsUnreadOf (or_bad_term option (condition_read text.now))) }
{
    match read_condition(alloc, text.as_bytes()) {
        Ok(condition) => Ok(condition),
        Err(ConditionFault::Term(piece, why)) => {
            Err(Unread::Bad(BadWord::Term(option, piece, why)))
        }
        Err(ConditionFault::Memory) => Err(Unread::Memory),
    }
}

// The conditions that the values of an option tell, in order.
#[tactic(auto, using(crate::proofs::ConditionLemmas::one_more, crate::proofs::ConditionLemmas::none_more, crate::proofs::ConditionLemmas::before_none))]
fn conditions_of(
    alloc: Global,
    option: OptionName,
    texts: &[&str],
) -> Result<Vec<Condition>, Unread>
    ensures { MatchResult result
        (λ list. conditions_read option (map (λ s. s.now) texts.now) ≡ Ok list.items)
        (IsUnreadOf (conditions_read option (map (λ s. s.now) texts.now))) }
{
    let mut list = Vec::new(alloc);
    for text in texts {
        list.push(condition_of(alloc, option, text)?)?;
    }
    Ok(list)
}

// The conditions on the four hands.
#[tactic(auto, unfolding(crate::specs::Draws::conditions_in))]
fn read_conditions(alloc: Global, options: &Options<'_>) -> Result<SeatConditions, Unread>
    ensures { MatchResult result
        (λ conditions. conditions_in (options_of options.now) ≡ Ok conditions)
        (IsUnreadOf (conditions_in (options_of options.now))) }
{
    let north = conditions_of(alloc, OptionName::North, &options.north)?;
    let east = conditions_of(alloc, OptionName::East, &options.east)?;
    let south = conditions_of(alloc, OptionName::South, &options.south)?;
    let west = conditions_of(alloc, OptionName::West, &options.west)?;
    Ok(SeatConditions {
        north,
        east,
        south,
        west,
    })
}

/// The conditions on the four hands, or the first term that isn't understood.
pub(crate) fn conditions_in(
    alloc: Global,
    options: &Options<'_>,
) -> Result<Result<SeatConditions, BadWord>, AllocError>
    ensures { IfOk result (λ conditions. conditions ≡ conditions_in (options_of options.now)) }
{
    match read_conditions(alloc, options) {
        Ok(conditions) => Ok(Ok(conditions)),
        Err(Unread::Bad(fault)) => Ok(Err(fault)),
        Err(Unread::Memory) => Err(AllocError),
    }
}
