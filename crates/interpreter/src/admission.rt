// Whether a program may be run on places with a room lent beside them: the program with its price, or the first refusal that applies.
ghost use Rattle.std.specs.Prelude.{◌≡◌};
ghost use Rattle.semantics.specs.Price.{at_most};
ghost use Rattle.program.specs.Rows.{program_in};
ghost use Rattle.program.specs.Validation.{unless, Validates};
ghost use Rattle.interpreter.specs.Refusals.{room_refusal, first_run_refusal};

use pricing::quote;
use program::{FittingProgram, Refusal};

// A program that may be run, and what it costs at most.
#[derive(Clone, Copy)]
pub(crate) struct Admitted<'a> {
    pub(crate) program: FittingProgram<'a>,
    pub(crate) price: u64,
    ghost priced: { price ≡ at_most (program_in program.program.numbers.now) },
}

// Refusal number 4, if it applies: a room of another length than the places.
fn check_room(room: usize, places: usize) -> Result<(), Refusal>
    ensures { result ≡ unless (room_refusal room places) tt }
{
    if room == places {
        Ok(())
    } else {
        Err(Refusal::RoomLength {
            length: room,
            places,
        })
    }
}

// The program with so many places and its price, or the first refusal that applies to it, to the count of places and to a room's length: number 1, 2, 3
// or 4.
pub(crate) fn admit(program: &[u32], places: usize, room: usize) -> Result<Admitted, Refusal>
    ensures { Validates (first_run_refusal program.now places room) result (λ a. (a.program.program.numbers.now ≡ program.now) × (a.program.places ≡ places)) }
{
    let price = quote(program, places)?;
    check_room(room, places)?;
    let program = FittingProgram::new(program, places);
    Ok(Admitted { program, price })
}
