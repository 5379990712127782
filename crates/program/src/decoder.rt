// How validated programs are made, and how their rows are read.
ghost use Rattle.std.specs.Prelude.{◌≡◌, ◌<◌, ◌≤◌, None};
ghost use Rattle.program.specs.Rows.{row_count};
ghost use Rattle.program.specs.Reads.{Reads, Last, RowFits, FitsReads};
ghost use Rattle.program.specs.Validation.{rows_refusal, program_refusal};

use crate::fitting::FittingProgram;
use crate::limits::ROW_LENGTH;
use crate::row::Row;
use crate::valid::ValidProgram;

impl<'a> ValidProgram<'a> {
    // The program of numbers that `try_from` takes.
    pub fn new(numbers: &'a [u32]) -> ValidProgram<'a>
        requires { rows_refusal numbers.now ≡ None }
        ensures { result.numbers.now ≡ numbers.now }
    {
        ValidProgram { numbers }
    }

    // How many rows it has: 1 to 256.
    pub fn row_count(self) -> usize
        ensures count { result ≡ row_count self.entry.numbers.now }
        ensures some { 1 ≤ result }
        ensures few { result ≤ 256 }
    {
        self.numbers.len() / ROW_LENGTH
    }

    // The number of its last row, which is the program.
    pub fn last_row(self) -> usize
        ensures { Last self.entry.numbers.now result }
    {
        self.row_count() - 1
    }

    // The row of that number, which the caller knows to be there as it knows an index to be. What it names is earlier.
    pub fn row_at(self, row: usize) -> Row
        requires { row < row_count self.numbers.now }
        ensures { Reads self.entry.numbers.now row result }
    {
        Row::decode(self.numbers, row)
    }
}

impl<'a> FittingProgram<'a> {
    // The same of numbers and a count of places that `validate` takes, with more asked and more known.
    pub fn new(numbers: &'a [u32], places: usize) -> FittingProgram<'a>
        requires { program_refusal numbers.now places ≡ None }
        ensures same { result.program.numbers.now ≡ numbers.now }
        ensures places { result.places ≡ places }
    {
        let program = ValidProgram::new(numbers);
        FittingProgram { program, places }
    }

    // The same of a row whose program fits, with more known: so do the programs at the rows that it names, and the place that it names is there.
    pub fn row_at(self, row: usize) -> Row
        requires { RowFits self.program.numbers.now self.places row }
        ensures { FitsReads self.entry.program.numbers.now self.entry.places row result }
    {
        self.program.row_at(row)
    }
}
