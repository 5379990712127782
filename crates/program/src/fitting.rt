// A valid program with as many places as it needs, as a type.
ghost use Rattle.std.specs.Prelude.{◌≡◌, true, nat_le};
ghost use Rattle.semantics.specs.Program.{fits};
ghost use Rattle.program.specs.Rows.{program_in};

use crate::valid::ValidProgram;

// A program and a count of places that refusals number 1 and 2 don't apply to: each place that a row names is there, rows that the last
// one doesn't reach left out, and there are 1,024 places at most.
#[derive(Clone, Copy)]
pub struct FittingProgram<'a> {
    pub program: ValidProgram<'a>,
    pub places: usize,
    ghost fit: { fits places (program_in program.numbers.now) ≡ true },
    ghost few: { nat_le places 1024 ≡ true },
}
