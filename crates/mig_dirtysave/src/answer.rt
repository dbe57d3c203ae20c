ghost use Rattle.std.specs.Prelude.{◌≡◌};
ghost use Rattle.mig_dirtysave.specs.declared.answer.SaveAnswer.TheVariants.{WriteFault};

use mig_bytes::WriteFailed;
use mig_dirtysave_rounds::SendFault;
use mig_headers::Unsound;
use thiserror::Error;

/// What a save took.
#[derive(Clone, Copy, Debug, PartialEq, Eq)]
pub struct SaveReport {
    /// The logs that were taken before the pause.
    pub rounds: u32,
    /// The entries that were sent.
    pub entries: u64,
}

/// Why a save ended early.
#[derive(Clone, Copy, Debug, PartialEq, Eq, Error)]
pub enum SaveAnswer {
    /// The paused host can't be seen as a guest: the first cause in it, at its least place.
    #[error("the host can't be seen as a guest")]
    Unsound(Unsound),
    /// The machine failed.
    #[error("the machine failed")]
    MachineFault,
    /// The sink failed.
    #[error("the sink failed")]
    WriteFault,
}

impl From<WriteFailed> for SaveAnswer {
    ghost from_gives = { λ _ answer. answer ≡ WriteFault };

    fn from(_failed: WriteFailed) -> SaveAnswer {
        SaveAnswer::WriteFault
    }
}

impl From<SendFault> for SaveAnswer {
    ghost use Rattle.mig_dirtysave.specs.SaveAnswers.{answer_to};

    ghost from_gives = { λ fault answer. answer ≡ answer_to fault };

    fn from(fault: SendFault) -> SaveAnswer {
        match fault {
            SendFault::MachineFault => SaveAnswer::MachineFault,
            SendFault::WriteFault => SaveAnswer::WriteFault,
        }
    }
}
