// The limit of prices at its edge and one past it, and what has no part in it: rows that aren't reached, and loops that are never run.
use crate::doubled::{Instead, Rows, doubled, put};
use pricing::{Done, price, quote, row_prices};
use program::{Refusal, ValidProgram};
use std::process::Abort;
use std::test::Fail;

// Rows that are put over the doubling ones, how many rows the program has, and what is answered: the price, or the row that is said where it is
// too high. (Each file's table has the columns of its own tests, and its own `check_all`.)
#[derive(Drop)]
struct Case<'a>(&'a [Instead], usize, Result<u64, usize>);

// The doubling rows over a number: row n costs 2^(n + 1) - 1, row 61 just below the limit and row 62 above it.
fn with(others: &[Instead]) -> Rows {
    let mut rows = doubled([0, 0, 0, 0]);
    for other in others.iter() {
        put(&mut rows, *other);
    }
    rows
}

fn check_all(rt: &impl Abort, cases: &[Case]) {
    for Case(others, count, want) in cases {
        let rows = with(others);
        let program = &rows[..4 * (*count).min(256)];
        match *want {
            Ok(cost) => {
                assert_eq!(rt; quote(program, 0), Ok(cost));
                assert_eq!(rt; price(program, &[]), Done::Costs(cost));
            }
            Err(row) => {
                let limit = 4611686018427387904;
                assert_eq!(rt; quote(program, 0), Err(Refusal::TooDear { row, limit }));
                assert_eq!(rt; price(program, &[]), Done::Refused(3));
            }
        }
    }
}

// A loop that is never run costs 1 and its count.
#[test]
fn at_the_limit(rt: HostRuntime) {
    check_all(
        &rt,
        &[
            Case(&[], 62, Ok(4611686018427387903)),
            Case(&[], 63, Err(62)),
            Case(&[], 256, Err(62)),
            Case(&[Instead(62, [8, 0, 61, 0])], 63, Ok(4611686018427387904)),
            Case(
                &[Instead(62, [8, 0, 61, 0]), Instead(63, [8, 0, 62, 0])],
                64,
                Err(63),
            ),
        ],
    );
}

// A loop that is never run costs nothing of its body, however dear. Where row 125 makes the price too high, the body is still the lowest dear row
// that is reached.
#[test]
fn never_run(rt: HostRuntime) {
    check_all(
        &rt,
        &[
            Case(&[Instead(255, [8, 0, 0, 254])], 256, Ok(2)),
            Case(
                &[Instead(63, [0, 7, 0, 0]), Instead(126, [8, 0, 0, 62])],
                127,
                Ok(2),
            ),
            Case(
                &[
                    Instead(63, [0, 7, 0, 0]),
                    Instead(126, [8, 0, 0, 62]),
                    Instead(127, [6, 126, 125, 0]),
                ],
                128,
                Err(62),
            ),
        ],
    );
}

// Dear rows that the last one doesn't reach turn nobody away, and aren't said.
#[test]
fn not_reached(rt: HostRuntime) {
    check_all(
        &rt,
        &[
            Case(&[Instead(255, [0, 7, 0, 0])], 256, Ok(1)),
            Case(&[Instead(63, [0, 7, 0, 0])], 64, Ok(1)),
            Case(&[Instead(63, [0, 7, 0, 0])], 125, Ok(4611686018427387903)),
            Case(&[Instead(63, [0, 7, 0, 0])], 126, Err(125)),
        ],
    );
}

// 2 + 4294967295 * 2 is 2^33; 2 + 4294967295 * 2^30 is below 2^62, and 2 + 4294967295 * (1 + 2^30) above it.
#[test]
fn largest_limit(rt: HostRuntime) {
    check_all(
        &rt,
        &[
            Case(&[Instead(1, [8, 4294967295, 0, 0])], 2, Ok(8589934592)),
            Case(
                &[Instead(30, [8, 4294967295, 0, 29])],
                31,
                Ok(4611686017353646082),
            ),
            Case(&[Instead(30, [8, 0, 29, 0])], 31, Ok(1073741824)),
            Case(
                &[
                    Instead(30, [8, 0, 29, 0]),
                    Instead(31, [8, 4294967295, 0, 30]),
                ],
                32,
                Err(31),
            ),
            Case(&[Instead(255, [8, 4294967295, 254, 254])], 256, Err(62)),
        ],
    );
}

// The table holds 2^62 - 1 and 2^62 as they are, and 2^62 + 1 for all that is dearer.
#[test]
fn table(rt: HostRuntime) -> Result<(), Fail> {
    let rows = with(&[
        Instead(100, [8, 0, 61, 0]),
        Instead(101, [8, 0, 100, 0]),
        Instead(102, [8, 0, 101, 0]),
    ]);
    let program = ValidProgram::try_from(&rows[..]).map_err(|_| Fail::new("refused"))?;
    let prices = row_prices(program);
    assert_eq!(rt;
        (prices[61], prices[62]),
        (4611686018427387903, 4611686018427387905)
    );
    assert_eq!(rt;
        (prices[100], prices[101]),
        (4611686018427387904, 4611686018427387905)
    );
    assert_eq!(rt;
        (prices[102], prices[255]),
        (4611686018427387905, 4611686018427387905)
    );
    Ok(())
}
