// Texts and the lines that answer them, worked by hand.
use crate::answer::Answer;
use crate::errors::ReadError;
use crate::reader::read;
use program::Refusal;
use std::alloc::Global;
use std::fmt::Write;
use std::process::Abort;
use std::test::Fail;

const NO_ROW: &str = "turned away 1 at 0: there is no row\n";

const UNREADABLE_1: &str =
    "turned away 5 at 0: line 1 has a word that is not places, rows, price or a number of places or rows below 4294967296\n";

const UNREADABLE_2: &str =
    "turned away 5 at 1: line 2 has a word that is not places, rows, price or a number of places or rows below 4294967296\n";

// A text, and the lines that answer it. (Each file's table has the columns of its own tests.)
#[derive(Drop)]
struct Case<'a>(&'a [u8], &'a str);

// Answers as `main` does, but into a text.
fn check_texts(rt: &impl Abort, heap: Global, cases: &[Case]) -> Result<(), Fail> {
    for Case(text, want) in cases {
        let mut lines = String::new(heap);
        match read(heap, text) {
            Ok(text) => {
                for answer in &text.answers {
                    writeln!(lines, "{answer}")?;
                }
            }
            Err(ReadError::Refused(refusal)) => writeln!(lines, "{}", Answer(Err(refusal)))?,
            Err(ReadError::OutOfMemory(error)) => return Err(error.into()),
        }
        assert_eq!(rt; lines.as_str(), *want);
    }
    Ok(())
}

#[test]
fn statements(rt: HostRuntime) -> Result<(), Fail> {
    let cases = [
        Case(b"", ""),
        Case(b"rows 9", ""),
        Case(b"price", NO_ROW),
        Case(b"rows price", NO_ROW),
        Case(b"rows 0 5 0 0 price", "costs 1\n"),
        Case(b"rows\n0\n5\n0\n0\nprice\n", "costs 1\n"),
        Case(b"rows 0 5\t0 0\r\nplaces 3\r\nprice\r\n", "costs 1\n"),
        Case(b"# \xff\nrows 0 5 0 0# 9\nprice#", "costs 1\n"),
        Case(b"rows 9 0 0 0 rows 0 5 0 0 price", "costs 1\n"),
        Case(b"rows 0 5 0 0 rows price", NO_ROW),
        Case(b"rows 1 0 0 0\nplaces 7 price price", "costs 1\ncosts 1\n"),
    ];
    check_texts(&rt, rt.alloc(), &cases)
}

// Each `price` is answered for what stands there.
#[test]
fn in_order(rt: HostRuntime) -> Result<(), Fail> {
    let cases = [
        Case(
            b"price rows 0 5 0 0 2 0 0 0 price places 1 price rows 1 0 0 0 price places price",
            "turned away 1 at 0: there is no row\ncosts 3\ncosts 3\ncosts 1\nturned away 2 at 0: row 0 names place 0, and the count of places is 0\n",
        ),
        Case(
            b"rows 0 0 0 0 8 4294967295 0 0 price 8 4294967295 0 1 price",
            UNREADABLE_1,
        ),
        Case(
            b"rows 0 0 0 0 8 4294967295 0 0 price rows 0 0 0 0 8 4294967295 0 0 8 4294967295 0 1 price",
            "costs 8589934592\nturned away 3 at 0: the price is above 4611686018427387904, and row 2 is the first to pass it\n",
        ),
    ];
    check_texts(&rt, rt.alloc(), &cases)
}

#[test]
fn turned_away(rt: HostRuntime) -> Result<(), Fail> {
    let cases = [
        Case(
            b"rows 0 0 0 0 0 price",
            "turned away 1 at 1: row 1 is cut short, 5 numbers are not rows of four\n",
        ),
        Case(
            b"rows 4294967295 0 0 0 price",
            "turned away 1 at 0: row 0 is of kind 4294967295, and the kinds end at 8\n",
        ),
        Case(
            b"rows 0 0 0 0 2 0 1 0 price",
            "turned away 1 at 1: row 1 names row 1, which is not earlier\n",
        ),
        Case(
            b"places 1 places rows 1 0 0 0 price",
            "turned away 2 at 0: row 0 names place 0, and the count of places is 0\n",
        ),
        Case(b"rows 4294967296 0 0 0", UNREADABLE_1),
        Case(b"rows +0 5 0 0", UNREADABLE_1),
        Case(b"5", UNREADABLE_1),
        Case(b"price 5", UNREADABLE_1),
        Case(b"rows 0 5 0 0 price\nrow", UNREADABLE_2),
        Case(b"\n\xff", UNREADABLE_2),
        Case(b"rows 0 5\x0c0 0", UNREADABLE_1),
    ];
    check_texts(&rt, rt.alloc(), &cases)
}

// The refusals that a short text can't get.
#[test]
fn reasons(rt: HostRuntime) -> Result<(), Fail> {
    let heap = rt.alloc();
    let cases = [
        (
            Refusal::TooManyRows {
                count: 257,
                limit: 256,
            },
            "turned away 1 at 256: 257 rows, and a program has 256 at most",
        ),
        (
            Refusal::TooManyPlaces {
                count: 1025,
                limit: 1024,
            },
            "turned away 2 at 1024: 1025 places, and a program works on 1024 at most",
        ),
        (
            Refusal::RoomLength {
                length: 4,
                places: 3,
            },
            "turned away 4 at 4: the room is 4 long, and the count of places is 3",
        ),
    ];
    for (refusal, want) in cases {
        let line = Answer(Err(refusal)).to_string(heap)?;
        assert_eq!(rt; line.as_str(), want);
    }
    Ok(())
}
