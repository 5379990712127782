// What an entry answers.
ghost use Rattle.std.specs.Prelude.{◌≡◌, Err};
ghost use Rattle.pricing.specs.Answers.{answer_by};

use program::Refusal;

#[derive(Clone, Copy, Debug, PartialEq, Eq)]
pub enum Done {
    // What the program costs at most.
    Costs(u64),
    // What a run came to, and what is left in the purse.
    Came(u64, u64),
    // The purse was too small.
    Small,
    // Turned away by the refusal of that number: the rules' answer is the number alone.
    Refused(u64),
}

// A refusal by its number.
impl From<Refusal> for Done {
    ghost from_gives = { λ refusal answer. answer ≡ answer_by (Err refusal) };

    fn from(refusal: Refusal) -> Done {
        Done::Refused(refusal.number())
    }
}

// What is quoted, with a refusal by its number.
impl From<Result<u64, Refusal>> for Done {
    ghost from_gives = { λ quoted answer. answer ≡ answer_by quoted };

    fn from(quoted: Result<u64, Refusal>) -> Done {
        match quoted {
            Ok(price) => Done::Costs(price),
            Err(refusal) => refusal.into(),
        }
    }
}
