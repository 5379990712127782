// The price of a program, or the first refusal that applies.
ghost use Rattle.std.specs.Prelude.{◌≡◌, position, zip};
ghost use Rattle.semantics.specs.Price.{at_most};
ghost use Rattle.program.specs.Rows.{row_count, program_in};
ghost use Rattle.program.specs.Validation.{unless};
ghost use Rattle.pricing.specs.Table.{Priced};
ghost use Rattle.pricing.specs.Refusals.{dear_pair, dear_row, price_refusal, quoted, refusal};
ghost use Rattle.pricing.specs.Answers.{PriceSays, PriceNumbers};

use crate::done::Done;
use crate::limits::MAX_PRICE;
use crate::table::{Prices, put_prices};
use program::limits::MAX_ROWS;
use program::{Refusal, Table, ValidProgram, reached_rows, validate};

// The first row that is marked and whose price is above the limit.
fn first_dear(reached: &Table, prices: &Prices) -> Option<usize>
    ensures { result ≡ position dear_pair (zip reached.now prices.now) }
{
    reached
        .iter()
        .zip(prices.iter())
        .position(|(reached, price)| *reached && *price > MAX_PRICE)
}

// The lowest row that the last one reaches and whose price is above the limit; the last row, if none is lower.
fn dear_row(program: ValidProgram, prices: &Prices) -> usize
    requires { Priced program.numbers.now (row_count program.numbers.now) prices.now }
    ensures { result ≡ dear_row program.entry.numbers.now }
{
    first_dear(&reached_rows(program), prices).unwrap_or(program.last_row())
}

// The price of a valid program, or refusal number 3. The last row's price alone decides.
fn limited_price(program: ValidProgram) -> Result<u64, Refusal>
    ensures { result ≡ unless (price_refusal program.entry.numbers.now) (at_most (program_in program.entry.numbers.now)) }
{
    // A table that `row_prices` answers would be copied once more.
    let mut prices = [0; MAX_ROWS];
    put_prices(program, &mut prices);
    let price = prices[program.last_row()];
    if price <= MAX_PRICE {
        Ok(price)
    } else {
        Err(Refusal::TooDear {
            row: dear_row(program, &prices),
            limit: MAX_PRICE,
        })
    }
}

// What a program costs at most, or the first refusal that applies to it and to a count of places: number 1, 2 or 3. It is kept out of its callers' code:
// within the loop of the command's reader it would make a line of blanks two fifths longer.
#[inline(never)]
pub fn quote(program: &[u32], places: usize) -> Result<u64, Refusal>
    ensures { result ≡ quoted program.now places }
{
    limited_price(validate(program, places)?.program)
}

// What a program costs at most, or the number of the first refusal that applies to it and to the places: 1, 2 or 3.
pub fn price(program: &[u32], places: &[u32]) -> Done
    ensures says { PriceSays (refusal program.now places.now) program.now result }
    ensures numbers { PriceNumbers (refusal program.now places.now) program.now result }
{
    quote(program, places.len()).into()
}
