// The entries: a program in numbers run on lent places, on a purse. Each slice is lent by itself, since a caller has them apart.
ghost use Rattle.std.specs.Prelude.{◌≡◌, length, ok_or};
ghost use Rattle.semantics.specs.Run.{run};
ghost use Rattle.program.specs.Rows.{program_in};
ghost use Rattle.interpreter.specs.Runner.{places_in};
ghost use Rattle.interpreter.specs.Refusals.{first_run_refusal, run_refusal};
ghost use Rattle.interpreter.specs.Answers.{Ends, Executes, RunsAtPrice, RunSays, RunNumbers};
ghost use Rattle.interpreter.specs.declared.ran.RunError.TheVariants.{TooSmall};

use crate::admission::admit;
use crate::ran::{Ran, RunError};
use crate::runner::Runner;
use pricing::Done;
use program::{FittingProgram, Refusal};

// Runs a program that is admitted; `None` where the purse is too small. The places are saved in the room before the run, and put back in that case.
fn run_saved(
    program: FittingProgram,
    places: &mut [u32],
    room: &mut [u32],
    purse: u64,
) -> Option<Ran>
    requires there { length places.old ≡ program.places }
    requires room { length room.old ≡ length places.old }
    ensures { Ends (run (program_in program.entry.program.numbers.now) (places_in places.old) purse) places.old (ok_or result TooSmall) places.new }
{
    room.copy_from_slice(places);
    let mut runner = Runner {
        program,
        places,
        purse,
    };
    match runner.run_row(program.program.last_row()) {
        Some(value) => {
            let left = runner.purse;
            Some(Ran { value, left })
        }
        None => {
            places.copy_from_slice(room);
            None
        }
    }
}

// Runs a program on the places, on a purse: what it came to, or that the purse was too small, or the first refusal that applies, with nothing lent
// changed.
pub fn execute(
    program: &[u32],
    places: &mut [u32],
    room: &mut [u32],
    purse: u64,
) -> Result<Ran, RunError>
    ensures { Executes (first_run_refusal program.now (length places.old) (length room.old)) program.now places.old room.old purse result places.new room.new }
{
    let admitted = admit(program, places.len(), room.len())?;
    run_saved(admitted.program, places, room, purse).ok_or(RunError::TooSmall)
}

// Runs a program on the places, on a purse of just its price, which is always enough.
pub fn run_at_price(program: &[u32], places: &mut [u32], room: &mut [u32]) -> Result<Ran, Refusal>
    ensures { RunsAtPrice (first_run_refusal program.now (length places.old) (length room.old)) program.now places.old room.old result places.new room.new }
{
    let admitted = admit(program, places.len(), room.len())?;
    Ok(run_saved(admitted.program, places, room, admitted.price).unwrap())
}

// Runs a program on the places, on a purse. It answers what the program came to and what is left, that the purse was too small, or the number of the
// first refusal that applies: 1 to 4. The room is as long as the places; what is in it doesn't matter.
pub fn run_it(program: &[u32], places: &mut [u32], room: &mut [u32], purse: u64) -> Done
    ensures says { RunSays (run_refusal program.now places.old room.old) program.now places.old room.old purse result places.new room.new }
    ensures numbers { RunNumbers (run_refusal program.now places.old room.old) program.now places.old room.old purse result places.new room.new }
{
    match execute(program, places, room, purse) {
        Ok(ran) => ran.into(),
        Err(error) => error.into(),
    }
}
