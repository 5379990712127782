// The runner of a program's rows: a recursion on the row's number, which falls, and a counted loop. Every step pays before it is done.
ghost use Rattle.std.specs.Prelude.{◌≡◌, ℕ, ◌<◌, length, option_map, slice_index};
ghost use Rattle.semantics.specs.Run.{run, run_times};
ghost use Rattle.program.specs.Rows.{at_row};
ghost use Rattle.program.specs.Reads.{RowFits};
ghost use Rattle.interpreter.specs.Runner.{places_in, as_run, run_pair, Pays};

use crate::arithmetic::{add, less, multiply};
use program::{FittingProgram, Row};

// What each step costs.
const STEP: u64 = 1;

// A program, the places that it runs on, as many as it fits, and the purse that it pays from. Each method says that the program stays, and which places
// are lent: there is no type that would say it of what a `&mut self` leaves.
#[derive(Drop)]
pub(crate) struct Runner<'a> {
    pub(crate) program: FittingProgram<'a>,
    pub(crate) places: &'a mut [u32],
    pub(crate) purse: u64,
    ghost there: { length places.now ≡ program.places },
}

impl<'a> Runner<'a> {
    // Pays for one step; `None` where the purse is too small for it, and there is nothing to say where it isn't.
    fn pay(&mut self) -> Option<()>
        ensures places { self.new.places ≡ self.old.places }
        ensures program { self.new.program ≡ self.old.program }
        ensures pays { Pays 1 self.old.purse result self.new.purse }
    {
        self.purse = self.purse.checked_sub(STEP)?;
        Some(())
    }

    // The number at a place. What a call answers is known to be a u32; of a place that is read in `run_row` itself the check doesn't know that.
    fn number_at(&self, place: usize) -> u32
        requires { place < length self.now.places.now }
        ensures { result ≡ slice_index self.now.places.now place }
    {
        self.places[place]
    }

    // Runs a row on the places: what it comes to, or `None` where the purse is too small.
    #[tactic(auto, using(crate::proofs::Stepping::steps), unfolding(semantics::specs::Run::run, semantics::specs::Run::then_run))]
    #[cycle(rows)]
    pub(crate) fn run_row(&mut self, row: usize) -> Option<u32>
        requires { RowFits self.old.program.program.numbers.now self.old.program.places row }
        ensures same_places { self.new.places.ghost_name ≡ self.old.places.ghost_name }
        ensures program { self.new.program ≡ self.old.program }
        ensures runs { run (at_row self.old.program.program.numbers.now row) (places_in self.old.places.now) self.old.purse ≡ as_run result self.new.places.now self.new.purse }
    {
        self.pay()?;
        match self.program.row_at(row) {
            Row::Constant { value } => Some(value),
            Row::Place { place } => Some(self.number_at(place)),
            Row::Add { left, right } => {
                let (augend, addend) = self.run_pair(left, right)?;
                Some(add(augend, addend))
            }
            Row::Multiply { left, right } => {
                let (multiplicand, multiplier) = self.run_pair(left, right)?;
                Some(multiply(multiplicand, multiplier))
            }
            Row::Less { left, right } => {
                let (lesser, greater) = self.run_pair(left, right)?;
                Some(less(lesser, greater))
            }
            Row::Store { place, value } => {
                let number = self.run_row(value)?;
                self.places[place] = number;
                Some(number)
            }
            Row::Sequence { first, second } => {
                self.run_row(first)?;
                self.run_row(second)
            }
            Row::Choice {
                condition,
                then,
                otherwise,
            } => {
                let decided = self.run_row(condition)?;
                if decided != 0 {
                    self.run_row(then)
                } else {
                    self.run_row(otherwise)
                }
            }
            Row::Loop { limit, count, body } => {
                let counted = self.run_row(count)?;
                self.run_times(body, limit.min(counted))
            }
        }
    }

    // Runs two rows, one after the other: what they come to, or `None` where the purse is too small. As a call of its own it would make runs of rows that
    // add, multiply or compare two fifths longer.
    #[inline(always)]
    #[tactic(auto, unfolding(semantics::specs::Run::then_run, crate::specs::Runner::run_pair))]
    #[cycle(rows)]
    fn run_pair(&mut self, left: usize, right: usize) -> Option<(u32, u32)>
        requires left { RowFits self.old.program.program.numbers.now self.old.program.places left }
        requires right { RowFits self.old.program.program.numbers.now self.old.program.places right }
        ensures same_places { self.new.places.ghost_name ≡ self.old.places.ghost_name }
        ensures program { self.new.program ≡ self.old.program }
        ensures runs { (f : ℕ → ℕ → ℕ) → run_pair f (at_row self.old.program.program.numbers.now left) (at_row self.old.program.program.numbers.now right) (places_in self.old.places.now) self.old.purse ≡ as_run (option_map (λ v. f v.0 v.1) result) self.new.places.now self.new.purse }
    {
        Some((self.run_row(left)?, self.run_row(right)?))
    }

    // Runs a row so many times, with 1 paid before each: what it came to last, 0 where it was never run, or `None` where the purse is too small.
    #[tactic(auto, using(crate::proofs::Stepping::steps), unfolding(semantics::specs::Run::then_run))]
    #[cycle(rows)]
    fn run_times(&mut self, body: usize, times: u32) -> Option<u32>
        requires { RowFits self.old.program.program.numbers.now self.old.program.places body }
        ensures same_places { self.new.places.ghost_name ≡ self.old.places.ghost_name }
        ensures program { self.new.program ≡ self.old.program }
        ensures runs { run_times (run (at_row self.old.program.program.numbers.now body)) times 0 (places_in self.old.places.now) self.old.purse ≡ as_run result self.new.places.now self.new.purse }
    {
        let mut last = 0;
        for _ in 0..times {
            self.pay()?;
            last = self.run_row(body)?;
        }
        Some(last)
    }
}
