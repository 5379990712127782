// Prices of small programs, worked by hand, and the table of a larger one.
use pricing::{Done, price, row_prices};
use program::ValidProgram;
use std::test::Fail;

// The sum 1 + 2 + .. + place 0, but for ten numbers at most: the four numbers of each row, and what it costs.
const SUM: [([u32; 4], u64); 14] = [
    ([0, 0, 0, 0], 1),
    ([5, 1, 0, 0], 2),
    ([1, 0, 0, 0], 1),
    ([1, 2, 0, 0], 1),
    ([0, 1, 0, 0], 1),
    ([2, 3, 4, 0], 3),
    ([5, 2, 5, 0], 4),
    ([1, 1, 0, 0], 1),
    ([1, 2, 0, 0], 1),
    ([2, 7, 8, 0], 3),
    ([5, 1, 9, 0], 4),
    ([6, 6, 10, 0], 9),
    ([8, 10, 2, 11], 102),
    ([6, 1, 12, 0], 105),
];

// The numbers of its rows.
fn sum_rows() -> [u32; 56] {
    let mut numbers = [0; 56];
    for (numbers, (row, _)) in numbers.chunks_exact_mut(4).zip(SUM.iter()) {
        numbers.copy_from_slice(row);
    }
    numbers
}

// A program over one place, and its price. (Each file's table has the columns of its own tests.)
#[derive(Drop)]
struct Case<'a>(&'a [u32], u64);

// Each kind of row over row 0, of price 1, and over row 1, of price 3.
#[test]
fn each_kind(rt: HostRuntime) {
    let cases = [
        Case(&[0, 4294967295, 0, 0], 1),
        Case(&[1, 0, 0, 0], 1),
        Case(&[0, 0, 0, 0, 2, 0, 0, 0], 3),
        Case(&[0, 0, 0, 0, 3, 0, 0, 0], 3),
        Case(&[0, 0, 0, 0, 4, 0, 0, 0], 3),
        Case(&[0, 0, 0, 0, 5, 0, 0, 0], 2),
        Case(&[0, 0, 0, 0, 6, 0, 0, 0], 3),
        Case(&[0, 0, 0, 0, 7, 0, 0, 0], 3),
        Case(&[0, 0, 0, 0, 8, 0, 0, 0], 2),
        Case(&[0, 0, 0, 0, 8, 1, 0, 0], 4),
        Case(&[0, 0, 0, 0, 8, 10, 0, 0], 22),
        Case(&[0, 0, 0, 0, 2, 0, 0, 0, 2, 0, 1, 0], 5),
        Case(&[0, 0, 0, 0, 2, 0, 0, 0, 3, 1, 0, 0], 5),
        Case(&[0, 0, 0, 0, 2, 0, 0, 0, 4, 1, 1, 0], 7),
        Case(&[0, 0, 0, 0, 2, 0, 0, 0, 5, 0, 1, 0], 4),
        Case(&[0, 0, 0, 0, 2, 0, 0, 0, 6, 0, 1, 0], 5),
        Case(&[0, 0, 0, 0, 2, 0, 0, 0, 7, 0, 0, 1], 5),
        Case(&[0, 0, 0, 0, 2, 0, 0, 0, 7, 0, 1, 0], 5),
        Case(&[0, 0, 0, 0, 2, 0, 0, 0, 7, 1, 0, 0], 5),
        Case(&[0, 0, 0, 0, 2, 0, 0, 0, 7, 1, 1, 1], 7),
        Case(&[0, 0, 0, 0, 2, 0, 0, 0, 8, 5, 1, 0], 14),
        Case(&[0, 0, 0, 0, 2, 0, 0, 0, 8, 5, 0, 1], 22),
    ];
    for Case(numbers, cost) in &cases {
        assert_eq!(rt; price(numbers, &[7]), Done::Costs(*cost));
    }
}

// A program, a count of places, and the number of the refusal.
#[derive(Drop)]
struct RefusedCase<'a>(&'a [u32], usize, u64);

// By the number of the first refusal that applies. A loop of a loop, each of 4294967295 times, costs more than 2^62.
#[test]
fn refused(rt: HostRuntime) {
    let cases = [
        RefusedCase(&[], 0, 1),
        RefusedCase(&[0, 0, 0], 0, 1),
        RefusedCase(&[2, 0, 0, 0], 1025, 1),
        RefusedCase(
            &[0, 0, 0, 0, 8, 4294967295, 0, 0, 8, 4294967295, 0, 2],
            1025,
            1,
        ),
        RefusedCase(&[1, 1, 0, 0], 1, 2),
        RefusedCase(&[0, 1, 0, 0], 1025, 2),
        RefusedCase(
            &[0, 0, 0, 0, 8, 4294967295, 0, 0, 8, 4294967295, 0, 1],
            1025,
            2,
        ),
        RefusedCase(
            &[0, 0, 0, 0, 8, 4294967295, 0, 0, 8, 4294967295, 0, 1],
            1024,
            3,
        ),
    ];
    let places = [0; 1025];
    for RefusedCase(numbers, count, number) in &cases {
        let lent = &places[..(*count).min(1025)];
        assert_eq!(rt; price(numbers, lent), Done::Refused(*number));
    }
}

#[test]
fn sum(rt: HostRuntime) -> Result<(), Fail> {
    let numbers = sum_rows();
    assert_eq!(rt; price(&numbers, &[4, 9, 0]), Done::Costs(105));
    assert_eq!(rt; price(&numbers, &[4, 9]), Done::Refused(2));
    let program = ValidProgram::try_from(&numbers[..]).map_err(|_| Fail::new("refused"))?;
    let prices = row_prices(program);
    for (price, (_, cost)) in prices.iter().zip(SUM.iter()) {
        assert_eq!(rt; price, cost);
    }
    assert_eq!(rt; (prices[14], prices[255]), (0, 0));
    Ok(())
}
