// Why a word of a text isn't taken, and why a text isn't read: two enums, since a word doesn't know its line.
ghost use Rattle.std.specs.Prelude.{◌≡◌, alloc_error};
ghost use Rattle.program.specs.declared.refusal.Refusal.TheVariants.{Unreadable};
ghost use Rattle.purse.specs.Words.{Unread};

use program::Refusal;
use std::alloc::{AllocError, AllocFailed};

// A word that doesn't fit where it stands, or no memory for what it says.
#[derive(Clone, Copy, Debug, PartialEq, Eq)]
pub(crate) enum WordError {
    Misfit,
    OutOfMemory(AllocError),
}

impl<T: Drop> From<AllocFailed<T>> for WordError {
    ghost use Rattle.purse.specs.declared.errors.WordError.TheVariants.{OutOfMemory};

    ghost from_gives = { λ _ e. e ≡ OutOfMemory alloc_error };

    fn from(failed: AllocFailed<T>) -> WordError {
        WordError::OutOfMemory(failed.into())
    }
}

// A text that is turned away, or no memory for what it says.
#[derive(Clone, Copy, Debug, PartialEq, Eq)]
pub(crate) enum ReadError {
    Refused(Refusal),
    OutOfMemory(AllocError),
}

impl From<AllocError> for ReadError {
    ghost use Rattle.purse.specs.declared.errors.ReadError.TheVariants.{OutOfMemory};

    ghost from_gives = { λ error e. e ≡ OutOfMemory error };

    fn from(error: AllocError) -> ReadError {
        ReadError::OutOfMemory(error)
    }
}

impl WordError {
    // The same of the line that the word stands in, counted from 0: a word that doesn't fit turns its text away.
    pub(crate) fn at(self, line: usize) -> ReadError
        ensures misfit { self ≡ WordError.Misfit → result ≡ ReadError.Refused (Unreadable line) }
        ensures unread { Unread result }
        ensures memory { (error : _) → self ≡ WordError.OutOfMemory error → result ≡ ReadError.OutOfMemory error }
    {
        match self {
            WordError::Misfit => ReadError::Refused(Refusal::Unreadable { line }),
            WordError::OutOfMemory(error) => ReadError::OutOfMemory(error),
        }
    }
}
