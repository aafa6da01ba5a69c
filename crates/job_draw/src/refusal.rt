//! Why no layouts are drawn.
ghost use Rattle.std.specs.Prelude.{◌≡◌};
ghost use Rattle.am_answer.specs.Refusals.{make_status};
ghost use Rattle.am_answer.specs.declared.status.Status.TheVariants.{Memory};
ghost use Rattle.job_draw.specs.declared.refusal.DrawRefusal.TheVariants.{Refused};

use am_answer::Status;
use job_words::OptionName;
use layout_maker::MakeFault;
use std::alloc::AllocError;

/// Why no layouts are drawn.
#[derive(Debug, Drop)]
pub enum DrawRefusal {
    /// The option tells a condition on a hand of declarer's side.
    NotDefender(OptionName),
    /// The deal file is refused, its board doesn't show the defenders' cards, no layout fits, or an
    /// allocation fails.
    Refused(Status),
}

impl From<Status> for DrawRefusal {
    ghost from_gives = { λ status refusal. refusal ≡ Refused status };

    fn from(status: Status) -> Self {
        DrawRefusal::Refused(status)
    }
}

impl From<MakeFault> for DrawRefusal {
    ghost from_gives = { λ fault refusal. refusal ≡ Refused (make_status fault) };

    fn from(fault: MakeFault) -> Self {
        DrawRefusal::Refused(fault.into())
    }
}

impl From<AllocError> for DrawRefusal {
    ghost from_gives = { λ _ refusal. refusal ≡ Refused Memory };

    fn from(_: AllocError) -> Self {
        DrawRefusal::Refused(Status::Memory)
    }
}
