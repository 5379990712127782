// Refusal number 1: rows that aren't four numbers each, kinds there aren't, and rows that aren't earlier.
use program::{Refusal, ValidProgram};
use std::process::Abort;

// The largest number that a row can hold.
const MOST: u32 = 4294967295;

// The numbers of a program, and its refusal, if there is one. (Each file's table has the columns of its own tests, and its own `check_all`.)
#[derive(Drop)]
struct Case<'a>(&'a [u32], Option<Refusal>);

fn cut_short(row: usize, count: usize) -> Option<Refusal> {
    Some(Refusal::CutShort { row, count })
}

fn unknown(row: usize, kind: u32) -> Option<Refusal> {
    Some(Refusal::UnknownKind {
        row,
        kind,
        limit: 8,
    })
}

fn late(row: usize, named: usize) -> Option<Refusal> {
    Some(Refusal::NotEarlier { row, named })
}

fn check_all(rt: &impl Abort, cases: &[Case]) {
    for Case(numbers, want) in cases {
        assert_eq!(rt; ValidProgram::try_from(*numbers).err(), *want);
    }
}

#[test]
fn shapes(rt: HostRuntime) {
    check_all(
        &rt,
        &[
            Case(&[], Some(Refusal::NoRows)),
            Case(&[0], cut_short(0, 1)),
            Case(&[0, 7, 0], cut_short(0, 3)),
            Case(&[0, 7, 0, 0], None),
            Case(&[0, 7, 0, 0, 0], cut_short(1, 5)),
            Case(&[9, 0, 0, 0, 0, 0], cut_short(1, 6)),
        ],
    );
}

#[test]
fn kinds(rt: HostRuntime) {
    check_all(
        &rt,
        &[
            Case(&[0, MOST, 0, 0], None),
            Case(&[1, MOST, 0, 0], None),
            Case(&[0, 0, 0, 0, 2, 0, 0, 0], None),
            Case(&[0, 0, 0, 0, 3, 0, 0, 0], None),
            Case(&[0, 0, 0, 0, 4, 0, 0, 0], None),
            Case(&[0, 0, 0, 0, 5, MOST, 0, 0], None),
            Case(&[0, 0, 0, 0, 6, 0, 0, 0], None),
            Case(&[0, 0, 0, 0, 7, 0, 0, 0], None),
            Case(&[0, 0, 0, 0, 8, MOST, 0, 0], None),
            Case(&[0, 0, 0, 0, 9, 0, 0, 0], unknown(1, 9)),
            Case(&[MOST, 0, 0, 0], unknown(0, MOST)),
        ],
    );
}

// Numbers that a row doesn't need are of no matter.
#[test]
fn unneeded_numbers(rt: HostRuntime) {
    check_all(
        &rt,
        &[
            Case(&[0, 7, MOST, MOST], None),
            Case(&[1, 7, MOST, MOST], None),
            Case(&[0, 0, 0, 0, 2, 0, 0, MOST], None),
            Case(&[0, 0, 0, 0, 3, 0, 0, MOST], None),
            Case(&[0, 0, 0, 0, 4, 0, 0, MOST], None),
            Case(&[0, 0, 0, 0, 5, 0, 0, MOST], None),
            Case(&[0, 0, 0, 0, 6, 0, 0, MOST], None),
        ],
    );
}

// A row names itself or a later one: the first such is said, in the order of the row.
#[test]
fn not_earlier(rt: HostRuntime) {
    check_all(
        &rt,
        &[
            Case(&[2, 0, 0, 0], late(0, 0)),
            Case(&[0, 0, 0, 0, 2, 1, 0, 0], late(1, 1)),
            Case(&[0, 0, 0, 0, 2, 0, 1, 0], late(1, 1)),
            Case(&[0, 0, 0, 0, 3, 2, 1, 0], late(1, 2)),
            Case(&[0, 0, 0, 0, 4, 0, MOST, 0], late(1, 4294967295)),
            Case(&[5, 0, 0, 0], late(0, 0)),
            Case(&[0, 0, 0, 0, 5, 9, 1, 0], late(1, 1)),
            Case(&[0, 0, 0, 0, 6, 0, 1, 0], late(1, 1)),
            Case(&[0, 0, 0, 0, 7, 1, 0, 0], late(1, 1)),
            Case(&[0, 0, 0, 0, 7, 0, 1, 0], late(1, 1)),
            Case(&[0, 0, 0, 0, 7, 0, 0, 1], late(1, 1)),
            Case(&[0, 0, 0, 0, 8, 9, 1, 0], late(1, 1)),
            Case(&[0, 0, 0, 0, 8, 9, 0, 1], late(1, 1)),
        ],
    );
}

// The lowest wrong row is said, whatever is wrong with it; of one row, its kind.
#[test]
fn lowest_row(rt: HostRuntime) {
    check_all(
        &rt,
        &[
            Case(&[2, 0, 0, 0, 9, 0, 0, 0], late(0, 0)),
            Case(&[9, 0, 0, 0, 2, 1, 1, 0], unknown(0, 9)),
            Case(&[0, 0, 0, 0, 10, 1, 1, 1, 0, 0, 0, 0], unknown(1, 10)),
        ],
    );
}
