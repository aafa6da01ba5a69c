//! What the words of a study ask for.
ghost use Rattle.std.specs.Prelude.{◌≡◌, Ok, IfOk, IfErr};
ghost use Rattle.job_words.specs.Asks.{texts_of};
ghost use Rattle.job_words.specs.StudyAsks.{IsStudyWithinLimits, study_ask_of};
ghost use Rattle.job_words.specs.StudyWords.{study_read};
ghost use Rattle.study_top.specs.Study.{IsUnasked};

use crate::refusal::Refusal;
use am_answer::Status;
use job_words::{NamedStudyAsk, read_study};
use std::alloc::Global;

/// What these words ask for, or the first fault in them.
pub(crate) fn read_ask(alloc: Global, words: &[String]) -> Result<NamedStudyAsk<'_>, Refusal>
    ensures ask { IfOk result (λ ask. study_read (texts_of words.now) ≡ Ok (study_ask_of ask)) }
    ensures limits { IfOk result (λ ask. IsStudyWithinLimits (study_ask_of ask)) }
    ensures refused { IfErr result (IsUnasked (texts_of words.now)) }
{
    match read_study(alloc, words) {
        Ok(Ok(ask)) => Ok(ask),
        Ok(Err(bad)) => Err(Refusal::Words(bad)),
        Err(_) => Err(Refusal::Ended(Status::Memory)),
    }
}
