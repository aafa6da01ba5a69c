//! Why a study is refused.
ghost use Rattle.std.specs.Prelude.{◌≡◌};
ghost use Rattle.study_top.specs.Refusals.{refusal_of_draw, refusal_of_status};
ghost use Rattle.study_top.specs.declared.refusal.Refusal.TheVariants.{Words};

use am_answer::Status;
use job_draw::DrawRefusal;
use job_words::{BadWord, OptionName};

/// Why a study is refused.
#[derive(Debug, Drop)]
pub enum Refusal {
    /// The words aren't understood, or don't fit the deal.
    Words(BadWord),
    /// As `alphamu` refuses the same.
    Ended(Status),
}

impl From<BadWord> for Refusal {
    ghost from_gives = { λ bad refusal. refusal ≡ Words bad };

    fn from(bad: BadWord) -> Self {
        Refusal::Words(bad)
    }
}

impl From<Status> for Refusal {
    ghost from_gives = { λ status refusal. refusal ≡ refusal_of_status status };

    fn from(status: Status) -> Self {
        match status {
            Status::BadWords => Refusal::Words(BadWord::Value(OptionName::Job)),
            other => Refusal::Ended(other),
        }
    }
}

impl From<DrawRefusal> for Refusal {
    ghost from_gives = { λ why refusal. refusal ≡ refusal_of_draw why };

    fn from(why: DrawRefusal) -> Self {
        match why {
            DrawRefusal::NotDefender(option) => Refusal::Words(BadWord::NotDefender(option)),
            DrawRefusal::Refused(status) => Refusal::from(status),
        }
    }
}
