// Refusal number 2: places that a reached row names and that aren't there, and too many places.
use program::{Refusal, validate};
use std::process::Abort;

// A program, a count of places, and the refusal, if there is one. (Each file's table has the columns of its own tests, and its own `check_all`.)
#[derive(Drop)]
struct Case<'a>(&'a [u32], usize, Option<Refusal>);

// A row names a place that isn't among so many.
fn missing(row: usize, place: usize, count: usize) -> Option<Refusal> {
    Some(Refusal::NoSuchPlace { row, place, count })
}

fn too_many(count: usize) -> Option<Refusal> {
    Some(Refusal::TooManyPlaces { count, limit: 1024 })
}

fn check_all(rt: &impl Abort, cases: &[Case]) {
    for Case(numbers, count, want) in cases {
        assert_eq!(rt; validate(numbers, *count).err(), *want);
    }
}

#[test]
fn at_the_edge(rt: HostRuntime) {
    check_all(
        &rt,
        &[
            Case(&[1, 2, 0, 0], 3, None),
            Case(&[1, 3, 0, 0], 3, missing(0, 3, 3)),
            Case(&[1, 0, 0, 0], 0, missing(0, 0, 0)),
            Case(&[0, 9, 0, 0], 0, None),
            Case(&[0, 9, 0, 0, 5, 2, 0, 0], 3, None),
            Case(&[0, 9, 0, 0, 5, 3, 0, 0], 3, missing(1, 3, 3)),
            Case(&[1, 1023, 0, 0], 1024, None),
            Case(&[1, 1024, 0, 0], 1024, missing(0, 1024, 1024)),
            Case(&[1, 1024, 0, 0], 1025, too_many(1025)),
            Case(&[0, 0, 0, 0], 1025, too_many(1025)),
            Case(
                &[1, 4294967295, 0, 0],
                4294967295,
                missing(0, 4294967295, 4294967295),
            ),
            Case(&[1, 4294967295, 0, 0], 4294967296, too_many(4294967296)),
            Case(
                &[1, 4294967295, 0, 0],
                18446744073709551615,
                too_many(18446744073709551615),
            ),
        ],
    );
}

// Row 0 names a place that isn't there, row 1 one that is: row 0 is reached by each number of each kind of last row that names a row.
#[test]
fn reached_by_each(rt: HostRuntime) {
    let last_rows = [
        [2, 0, 1, 0],
        [2, 1, 0, 0],
        [3, 0, 1, 0],
        [3, 1, 0, 0],
        [4, 0, 1, 0],
        [4, 1, 0, 0],
        [5, 0, 0, 1],
        [6, 0, 1, 0],
        [6, 1, 0, 0],
        [7, 0, 1, 1],
        [7, 1, 0, 1],
        [7, 1, 1, 0],
        [8, 5, 0, 1],
        [8, 5, 1, 0],
    ];
    for last in last_rows.iter() {
        let numbers = [1, 9, 0, 0, 1, 0, 0, 0, last[0], last[1], last[2], last[3]];
        assert_eq!(rt; validate(&numbers, 1).err(), missing(0, 9, 1));
    }
}

// A row that the last one doesn't reach turns nobody away, and numbers that name no row reach nothing.
#[test]
fn not_reached(rt: HostRuntime) {
    check_all(
        &rt,
        &[
            Case(&[1, 9, 0, 0, 0, 5, 0, 0], 1, None),
            Case(&[1, 9, 0, 0, 0, 0, 0, 0], 1, None),
            Case(&[1, 9, 0, 0, 1, 0, 0, 0, 2, 1, 1, 0], 1, None),
            Case(&[1, 9, 0, 0, 1, 0, 0, 0, 5, 0, 1, 0], 1, None),
            Case(&[1, 9, 0, 0, 1, 0, 0, 0, 8, 0, 1, 1], 1, None),
            Case(&[1, 9, 0, 0, 2, 0, 0, 0, 0, 3, 0, 0], 1, None),
        ],
    );
}

// Of several, the lowest row is said, whichever place is lower; then too many places; and number 1 before number 2.
#[test]
fn order(rt: HostRuntime) {
    check_all(
        &rt,
        &[
            Case(&[1, 9, 0, 0, 1, 8, 0, 0, 2, 0, 1, 0], 1, missing(0, 9, 1)),
            Case(
                &[1, 7, 0, 0, 1, 9, 0, 0, 1, 8, 0, 0, 2, 2, 1, 0],
                5,
                missing(1, 9, 5),
            ),
            Case(&[1, 2000, 0, 0], 1025, missing(0, 2000, 1025)),
            Case(&[1, 2000, 0, 0], 2001, too_many(2001)),
            Case(&[], 1025, Some(Refusal::NoRows)),
            Case(
                &[9, 0, 0, 0],
                1025,
                Some(Refusal::UnknownKind {
                    row: 0,
                    kind: 9,
                    limit: 8,
                }),
            ),
        ],
    );
}
