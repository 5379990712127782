// Which rows the last row reaches, marked in a table of fixed size in one pass from the last row back.
ghost use Rattle.std.specs.Prelude.{◌≡◌, ℕ, ◌<◌, false, replicate, slice_index_or};
ghost use Rattle.std.specs.List.{AllByRecursion};
ghost use Rattle.program.specs.Row.{named_rows};
ghost use Rattle.program.specs.Reach.{marked, reached};

use crate::limits::MAX_ROWS;
use crate::row::Named;
use crate::valid::ValidProgram;

// A flag for each row that a program may have: of fixed size, as nothing is allocated for a price.
pub type Table = [bool; MAX_ROWS];

// Marks the rows that a row names.
fn mark(table: &mut Table, rows: Named)
    requires { AllByRecursion (λ j. j < 256) (named_rows rows) }
    ensures { table.new ≡ marked table.old (named_rows rows) }
{
    match rows {
        Named::Nothing => {}
        Named::One(a) => table[a] = true,
        Named::Two(a, b) => {
            table[a] = true;
            table[b] = true;
        }
        Named::Three(a, b, c) => {
            table[a] = true;
            table[b] = true;
            table[c] = true;
        }
    }
}

// The rows that the last row reaches: a row is marked by those that name it, which all come after it. The pass goes by number, since it marks rows of
// the table that it has still to come to.
pub fn reached_rows(program: ValidProgram) -> Table
    ensures { (k : ℕ) → slice_index_or result k false ≡ reached program.entry.numbers.now k }
{
    let last = program.last_row();
    let mut table = [false; MAX_ROWS];
    table[last] = true;
    for row in (0..program.row_count()).rev() {
        if table[row] {
            mark(&mut table, program.row_at(row).named());
        }
    }
    table
}
