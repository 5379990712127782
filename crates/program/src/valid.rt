// A program whose rows are right, as a type: whoever has one need not look again.
ghost use Rattle.std.specs.Prelude.{◌≡◌, true};
ghost use Rattle.program.specs.Rows.{row_count, rows_ok, shaped};

// Rows of numbers that refusal number 1 doesn't apply to: 1 to 256 rows of four numbers, no kind above 8, and each row names earlier
// rows only. The last row is the program. The ghost fields take no memory; where a value is made, they are proved.
#[derive(Clone, Copy)]
pub struct ValidProgram<'a> {
    pub numbers: &'a [u32],
    ghost shape: { shaped numbers.now ≡ true },
    ghost order: { rows_ok numbers.now (row_count numbers.now) ≡ true },
}
