// The price of each row by the rows that it names, in one pass over the rows, in a table of fixed size.
ghost use Rattle.std.specs.Prelude.{◌≡◌, ℕ, ◌+◌, ◌*◌, ◌<◌, ◌≤◌, replicate, slice_index};
ghost use Rattle.std.specs.List.{AllByRecursion};
ghost use Rattle.program.specs.Row.{named};
ghost use Rattle.program.specs.Rows.{row_count};
ghost use Rattle.pricing.specs.Table.{cap, capped, price_of, Priced};

use crate::limits::PRICE_CAP;
use program::limits::MAX_ROWS;
use program::{Row, ValidProgram};

// A price for each row that a program may have: of fixed size, as nothing is allocated for a price.
pub type Prices = [u64; MAX_ROWS];

// A price, or the cap where it is higher.
fn capped(price: u64) -> u64
    ensures { result ≡ capped price }
{
    price.min(PRICE_CAP)
}

// All times of a loop, each its body and 1 more. A limit of 0 comes to 0, whatever the body costs.
fn all_times(limit: u32, body: u64) -> u64
    requires { body ≤ cap }
    ensures { result ≡ capped (limit * (1 + body)) }
{
    capped(u64::from(limit).saturating_mul(1 + body))
}

// The price of a row by the prices of the rows that it names.
fn row_price(prices: &Prices, row: Row) -> u64
    requires named { AllByRecursion (λ j. j < 256) (named row) }
    requires capped { (j : ℕ) → slice_index prices.now j ≤ cap }
    ensures { result ≡ capped (price_of (λ j. slice_index prices.now j) row) }
{
    match row {
        Row::Constant { .. } | Row::Place { .. } => 1,
        Row::Store { value, .. } => capped(1 + prices[value]),
        Row::Add { left, right }
        | Row::Multiply { left, right }
        | Row::Less { left, right }
        | Row::Sequence {
            first: left,
            second: right,
        } => capped(1 + prices[left] + prices[right]),
        Row::Choice {
            condition,
            then,
            otherwise,
        } => capped(1 + prices[condition] + prices[then].max(prices[otherwise])),
        Row::Loop { limit, count, body } => capped(
            1 + prices[count] + all_times(limit, prices[body]),
        ),
    }
}

// Puts the price of each row, or the cap where it is higher, into a table without prices. What a row names is earlier, so one pass does. It goes by
// number, since a row's price is made from those before it in the same table.
#[tactic(auto, using(crate::proofs::Tabling::passes))]
pub(crate) fn put_prices(program: ValidProgram, prices: &mut Prices)
    requires { prices.old ≡ replicate 256 0 }
    ensures { Priced program.entry.numbers.now (row_count program.entry.numbers.now) prices.new }
{
    for row in 0..program.row_count() {
        prices[row] = row_price(prices, program.row_at(row));
    }
}

// The price of each row, or the cap where it is higher.
pub fn row_prices(program: ValidProgram) -> Prices
    ensures { Priced program.entry.numbers.now (row_count program.entry.numbers.now) result }
{
    let mut prices = [0; MAX_ROWS];
    put_prices(program, &mut prices);
    prices
}
