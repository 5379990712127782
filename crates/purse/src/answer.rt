// What is answered, and the words in which it is printed.
ghost use Rattle.std.specs.Prelude.{Some};
ghost use Rattle.purse.specs.Answers.{reason, shown_answer};

use program::Refusal;
use std::fmt;

// A program's price, or why something is turned away.
#[derive(Clone, Copy, Debug, PartialEq, Eq)]
pub struct Answer(pub Result<u64, Refusal>);

// Why something is turned away, in one line with the actual numbers.
#[derive(Clone, Copy)]
struct Reason(Refusal);

impl fmt::Display for Reason {
    ghost output = { λ x. Some (reason x.0) };

    fn fmt<W: fmt::Write>(&self, f: &mut fmt::Formatter<W>) -> fmt::Result {
        match self.0 {
            Refusal::CutShort { row, count } => write!(
                f,
                "row {row} is cut short, {count} numbers are not rows of four"
            ),
            Refusal::NoRows => write!(f, "there is no row"),
            Refusal::TooManyRows { count, limit } => write!(
                f,
                "{count} rows, and a program has {limit} at most"
            ),
            Refusal::UnknownKind { row, kind, limit } => write!(
                f,
                "row {row} is of kind {kind}, and the kinds end at {limit}"
            ),
            Refusal::NotEarlier { row, named } => write!(
                f,
                "row {row} names row {named}, which is not earlier"
            ),
            Refusal::NoSuchPlace { row, place, count } => write!(
                f,
                "row {row} names place {place}, and the count of places is {count}"
            ),
            Refusal::TooManyPlaces { count, limit } => write!(
                f,
                "{count} places, and a program works on {limit} at most"
            ),
            Refusal::TooDear { row, limit } => write!(
                f,
                "the price is above {limit}, and row {row} is the first to pass it"
            ),
            Refusal::RoomLength { length, places } => write!(
                f,
                "the room is {length} long, and the count of places is {places}"
            ),
            Refusal::Unreadable { line } => {
                // People count lines from 1, and the last line's number may be the largest. From usize to u128 there is no `From`.
                let counted = line as u128 + 1;
                write!(
                    f,
                    "line {counted} has a word that is not places, rows, price or a number of places or rows below 4294967296"
                )
            }
        }
    }
}

impl fmt::Display for Answer {
    ghost output = { λ x. Some (shown_answer x.0) };

    fn fmt<W: fmt::Write>(&self, f: &mut fmt::Formatter<W>) -> fmt::Result {
        match self.0 {
            Ok(price) => write!(f, "costs {price}"),
            Err(refusal) => {
                let number = refusal.number();
                let place = refusal.place();
                let reason = Reason(refusal);
                write!(f, "turned away {number} at {place}: {reason}")
            }
        }
    }
}
