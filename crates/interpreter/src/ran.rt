// How a run ends: what it came to, or why it came to nothing.
ghost use Rattle.std.specs.Prelude.{◌≡◌, Ok, Err};
ghost use Rattle.interpreter.specs.Answers.{run_answer_by};
ghost use Rattle.interpreter.specs.declared.ran.RunError.TheVariants as run_error;

use pricing::Done;
use program::Refusal;

// What a run came to, and what is left in the purse; the places hold what it put there.
#[derive(Clone, Copy, Debug, PartialEq, Eq)]
pub struct Ran {
    pub value: u32,
    pub left: u64,
}

// Why a run came to nothing.
#[derive(Clone, Copy, Debug, PartialEq, Eq)]
pub enum RunError {
    // The run was turned away; nothing lent has changed.
    Refused(Refusal),
    // The purse was too small; the places are as they were.
    TooSmall,
}

impl From<Refusal> for RunError {
    ghost from_gives = { λ refusal error. error ≡ run_error.Refused refusal };

    fn from(refusal: Refusal) -> RunError {
        RunError::Refused(refusal)
    }
}

impl From<Ran> for Done {
    ghost from_gives = { λ ran done. done ≡ run_answer_by (Ok ran) };

    fn from(ran: Ran) -> Done {
        Done::Came(u64::from(ran.value), ran.left)
    }
}

impl From<RunError> for Done {
    ghost from_gives = { λ error done. done ≡ run_answer_by (Err error) };

    fn from(error: RunError) -> Done {
        match error {
            RunError::Refused(refusal) => refusal.into(),
            RunError::TooSmall => Done::Small,
        }
    }
}
